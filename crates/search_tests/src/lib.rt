#![tactic(auto)]

// Tests of `search_sorted`, and a sequence of another crate under another order.
pub mod countdown;
#[cfg(test)]
mod tests;
