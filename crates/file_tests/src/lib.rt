//! Tests of the chunks of files, of outlines, and of graphs of includes, over public calls: what no clause says. Their values
//! were worked out by hand, or by another program after the rules in `docs/`.
#![tactic(auto)]

#[cfg(test)]
mod chunks;
#[cfg(test)]
mod graphs;
pub mod names;
#[cfg(test)]
mod outlines;
