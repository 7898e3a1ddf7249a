#![tactic(auto)]

mod lane_count;
pub mod lanes;
pub mod transpose;
