//! Numbers of JB2 by the path of their decisions (DjVu 3 reference, JB2).
//!
//! A number between two bounds is read by decisions of the ZP decoder, each whether it is at least a cutoff. Those that
//! the bounds imply aren't coded; each other one has a context, named by what the number stands for and by all decisions
//! of it before. `specs/` has the definitions: `Roots` (what numbers stand for), `Phases` (what is known between two
//! decisions), `Contexts` (names, and states by name), `Number` (readings of a number) and `Answer` (what they come to),
//! `Reader` (how a reader, contexts, decoder and meter stand to that), `Kept` (how the code keeps it) and `Steps` (what only
//! the reader needs).
#![tactic(auto)]

mod contexts;
pub mod laws;
mod paths;
mod phases;
mod reader;
mod roots;

pub use contexts::NumberContexts;
pub use reader::{NumberReader, NumberStep};
pub use roots::Root;
