//! Records of JB2: masks, out of shapes and their places, and dictionaries of shapes (DjVu 3 reference, JB2).
//!
//! A coder reads numbers, bits and shapes, each of which can wait. A machine takes one step after the other, and keeps a library
//! and a picture of what the records came to. Readers of masks and dictionaries stand over one reader of records.
//!
//! `specs/` has the definitions: `Records` (records, and what a list of them comes to), `Coding` and `Reading` (how they are
//! read), `Mask` (what they draw and leave), `ReaderState` (how a reader stands to its bytes), `Growth` (what more bytes do),
//! `Limits`, and `Worked` (small chunks). What only the code needs: `Taking` (how a decoder, and the bytes that it hasn't taken,
//! stand to a chunk), `Telling` (how a coder stands to the reading), `Steps` and `Machine` (what is left of a record at a step,
//! and how the machine stands to it), `Library` and `Picture` (how these stand to the records), `Sides` (shapes that can be
//! placed) and `Reader` (what a reader is given).
#![tactic(auto)]

mod checks;
mod coder;
mod dict_reader;
mod dictionary;
mod fields;
mod frames;
mod kept;
pub mod laws;
mod library;
mod limits;
mod machine;
mod marks;
mod numbers;
mod picture;
mod purpose;
mod reader;
mod records;
mod results;
mod shape_readers;
mod shapes;
mod starts;
mod steps;
mod stops;
mod types;
mod unread;

pub use dict_reader::DictReader;
pub use dictionary::Dictionary;
pub use purpose::Purpose;
pub use reader::{Jb2Step, MaskReader};
pub use results::{FileResult, SharedDictionary};
