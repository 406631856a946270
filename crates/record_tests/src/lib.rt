//! Tests of shapes, of dictionaries and of masks, over the public calls of their readers: what no clause says. Their values were
//! worked out by hand, or by another program after the rules in `docs/`.
#![tactic(auto)]

#[cfg(test)]
mod cuts;
#[cfg(test)]
mod records;
#[cfg(test)]
mod shapes;
#[cfg(test)]
mod shared;
