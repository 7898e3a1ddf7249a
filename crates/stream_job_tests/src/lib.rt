//! Tests of `stream_job`, in a crate of their own.
#![tactic(auto)]

#[cfg(test)]
mod lookups;
#[cfg(test)]
mod work;
