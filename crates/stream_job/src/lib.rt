//! What a month's end needs where the history is streamed: look-ups in rising row, and the steps in which a run goes
//! through the history.
#![tactic(auto)]

pub mod lookups;
pub mod work;
