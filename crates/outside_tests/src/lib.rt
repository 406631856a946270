//! Tests of what stands around a run, over public calls: names, folders, sinks and words, and what no clause says of them.
#![tactic(auto)]

#[cfg(test)]
mod names;
#[cfg(test)]
mod outside;
#[cfg(test)]
mod words;
