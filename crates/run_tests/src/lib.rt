//! Tests of whole runs, over public calls: what no clause says.
#![tactic(auto)]

#[cfg(test)]
mod runs;
