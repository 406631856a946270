//! The container of DjVu component files, after EA IFF 85: a walker that is fed a file's bytes piece by piece, keeps none of
//! them but those of a header that has arrived in part, and tells the FORM and its chunks.
//!
//! `walker` has the calls, and `stages` the places of the grammar, with a file each for how it goes on from there: `heads`,
//! `chunks` and `ends`. `refused` has the chunks that no file may have, and `slices` parts of slices.
//!
//! `specs/` has the definitions: `Start` and `Chunks` (the chunks of a file), `Ends` (where a file ends), `Events` (what is
//! told of the chunks), `Told` (how a walker stands to the bytes that it took), `Walk` (what its answers say of a file),
//! `Order` and `Layout` (how events come, and the grammar of the bytes), `Refused`, and `Worked` (files that are worked out).
//! The others say how the code goes: `Gathering` (the bytes of a header that were gathered) and `Matching` (bytes against
//! those that are wanted). `laws` has what holds of the definitions alone, and `proofs/Lemmas` what crates above may cite.
#![tactic(auto)]

mod answers;
mod chunks;
mod ends;
mod fronts;
mod gathering;
mod heads;
pub mod laws;
mod refused;
mod slices;
mod stages;
mod walker;

pub use refused::is_refused;
pub use slices::{first, rest_of};
pub use walker::{WalkEnd, WalkStep, Walker};
