//! Tests of `month_job`, in a crate of their own.
#![tactic(auto)]

#[cfg(test)]
mod cells;
#[cfg(test)]
mod job;
#[cfg(test)]
mod request;
#[cfg(test)]
mod totals;
