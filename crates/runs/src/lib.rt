#![tactic(auto)]

pub mod attempts;
pub mod run;
