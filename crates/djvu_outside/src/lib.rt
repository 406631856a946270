//! What lies outside of the program: folders of files, which are read, and sinks, which bytes are put into; and what a run
//! does to them.
//!
//! `folder` and `sink` have the two traits. `memory_files`, `memory_bytes`, `sure_folder` and `sure_sink` have those in memory,
//! and `real_folder` and `real_sink` those of the file system and of writers. `read` reads a whole file, `put` puts a text, and
//! `stops` says how runs end.
//!
//! `specs/` has the definitions: `Faults` (counts of faults, and what failed), `Reading` (open files, reads and puts), `Parts`
//! (which answers a part of a run stops with, and what it did to folder, sinks and meter), `FileReads` (what came of a file),
//! `Cut` (a library whose files broke off), `Calls` (numbered calls, of which some fail), `Folders` and `Sinks` (the folder and
//! the sink in memory, and the state of the real ones); of the inside are `Readers` (open files of the file system) and
//! `Pieces` (one read of a file).
#![tactic(auto)]

mod calls;
mod faults;
mod folder;
pub mod laws;
mod listing;
mod memory_bytes;
mod memory_files;
mod memory_parts;
mod orders;
mod put;
mod read;
mod real_folder;
mod real_sink;
mod sink;
mod stops;
mod sure_folder;
mod sure_sink;

pub use faults::{Failed, FolderFault, SinkFault};
pub use folder::Folder;
pub use memory_bytes::MemorySink;
pub use memory_files::MemoryFolder;
pub use put::put_text;
pub use read::{FileRead, read_file};
pub use real_folder::DirFolder;
pub use real_sink::WriteSink;
pub use sink::Sink;
pub use stops::{Status, Stop};
pub use sure_folder::SureFolder;
pub use sure_sink::SureSink;
