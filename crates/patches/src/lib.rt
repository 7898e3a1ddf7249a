#![tactic(auto)]

pub mod chunks;
pub mod column;
pub mod corrections;
pub mod iter;
pub mod patch_set;
pub mod refusal;
mod span;
pub mod table;
pub mod window;
