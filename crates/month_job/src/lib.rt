//! The work of a month's end: a job file, the cells of a price history, and the correction of the history.
#![tactic(auto)]

pub mod cells;
pub mod correct;
pub mod job;
pub mod report;
pub mod request;
pub mod totals;
