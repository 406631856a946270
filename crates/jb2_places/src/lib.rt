//! Places of marks: where a box stands in the image, by the boxes that were placed before it.
//!
//! Marks are placed as text is written: the first of a row by the first of the row before, each further one by the
//! right side of the mark before it and the median of three bottoms. `specs/Place.antt` computes all of this from the
//! list of earlier placements. `Places` keeps six numbers of it; `specs/After.antt` says which, and `specs/Worked.antt` has a
//! line that is worked out.
#![tactic(auto)]

pub mod laws;
mod places;

pub use places::{Places, Spot};
