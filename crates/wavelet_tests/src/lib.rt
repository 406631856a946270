//! Tests of wavelet layers, over their public calls: what no clause says. Their values were worked out by hand, or by another
//! program after the rules in `docs/`.
#![tactic(auto)]

#[cfg(test)]
mod coefficients;
#[cfg(test)]
mod draws;
#[cfg(test)]
mod headers;
#[cfg(test)]
mod images;
#[cfg(test)]
mod layers;
#[cfg(test)]
mod long;
#[cfg(test)]
mod readings;
#[cfg(test)]
mod threads;
#[cfg(test)]
mod transforms;
