//! Which files an included file includes: its outline, which a reader makes of the file's bytes, and the verdict on a file,
//! which a walk over outlines gives.
//!
//! `reader`, `walk`, `included` and `items` have the calls. `file_walk` goes over a file's chunks, `progress` has the reading of
//! an outline event by event, `included` the faults of form, `stack` and `items` the parts of a walk over outlines.
//!
//! `specs/` has the definitions: `Included`, `Outlines` and `Verdicts`, `Graphs` and `Walks` (what holds of verdicts), `Fed` (how
//! a reader stands to the bytes that it was fed) and `Worked` (for `laws::worked`). `Reading`, `Stack` and `Steps` say how the
//! code goes.
#![tactic(auto)]

mod file_walk;
mod included;
mod items;
pub mod laws;
mod outline;
mod progress;
mod reader;
mod stack;
mod verdicts;
mod walk;

pub use included::{chunk_fault, include_name, is_dictionary, is_include, kind_fault};
pub use items::number_of;
pub use outline::{Outline, OutlineItem};
pub use reader::{OutlineReader, OutlineStep};
pub use verdicts::Verdict;
pub use walk::verdict;
