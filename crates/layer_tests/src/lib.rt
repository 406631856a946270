//! Tests of pools, logs and the shelf, over their public calls alone.
#![tactic(auto)]

#[cfg(test)]
mod tests;
