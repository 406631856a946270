//! The core of a viewer on one thread: bytes of files come in any order and in any pieces, and each page draws its notices as
//! they are determined. This crate has its definition as a machine, the laws of it, the core, and the reader of scripts.
//!
//! `core_calls` and `step` have the calls, `files` and `pages` what a core keeps of a file and of a page; `script` reads scripts.
//!
//! `specs/` has the definitions: `Machine` (states, events and answers), `Counts` (decisions of pages and of the files that were
//! decoded for them), `Worked` (runs that are worked out), `Core` with `CoreFiles` and `CorePages` (how a core stands to the
//! machine), and `Script` (what scripts say) with `ScriptRead` (the reader).
#![tactic(auto)]

mod core_calls;
mod files;
pub mod laws;
mod page_steps;
mod pages;
mod running;
mod script;
mod step;

pub use core_calls::{Core, CoreStep};
pub use pages::CoreEnd;
pub use script::{ScriptLine, ScriptRefusal, read_script};
