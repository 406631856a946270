//! Tests of the decoders' layers, over their public calls: what no clause says. Their values were worked out by hand, or by
//! another program after the rules in `docs/`.
#![tactic(auto)]

#[cfg(test)]
mod decisions;
#[cfg(test)]
mod drawings;
#[cfg(test)]
mod encoded;
#[cfg(test)]
mod note;
#[cfg(test)]
mod notices;
#[cfg(test)]
mod numbers;
#[cfg(test)]
mod places;
#[cfg(test)]
mod planes;
#[cfg(test)]
mod shared;
#[cfg(test)]
mod tables;
#[cfg(test)]
mod threads;
