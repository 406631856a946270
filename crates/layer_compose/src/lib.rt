//! The drawing of a page, made of its layers: a mask, and colours for the pixels in front and for all others.
//!
//! The places of a page count from the bottom left; its drawing is the page turned, seen row by row from the top. A layer
//! of colour is coarser than its page by its `reduction`: so many pixels of the page, both ways, have the colour of one of
//! the layer. A sum goes over the page as it is coded, since turning changes no sum, and a preview looks at its own pixels
//! alone.
//!
//! `specs/` has the definitions: `Reduction`, `Drawing` (what each place shows, and the rows, the sum and the preview of
//! that), `Laying` (what the code's own functions do to samples) and `Worked` (small pages).
#![tactic(auto)]

mod colours;
pub mod laws;
mod layers;
mod reductions;
mod rows;
mod sums;

pub use layers::Layers;
pub use reductions::reduction;
