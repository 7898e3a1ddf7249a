#![tactic(auto)]

pub mod every;
pub mod mark;
