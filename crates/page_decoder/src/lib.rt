//! The reading of a page and of an included file, chunk by chunk: which drawings a page has, where it ends, what it needs of other
//! files, and how many decisions its chunks have.
//!
//! `decoder` has pages whose bytes come in pieces, and `file_decoding` included files. Both read a file act by act: `file_reader`
//! stands among its acts, with `file_events`, `file_chunks` and `file_ends`. `kept` has what complete chunks leave, and
//! `open_chunks` the chunk between its header and its end, whose data go straight to what reads them. `kinds` says what a chunk is
//! for, `headers` and `page` what is wrong with one, and `layer_reader` reads layers of colour. `closing` ends a chunk, `page_layers`
//! lays what it brings, and `resolving` goes through includes.
//!
//! `specs/` has the definitions: `Read` (a reading, act by act), `Libraries` (pages over a library of files), and `Reading`, which
//! says the same of a page with a mask at most in a short form. `page_laws` and `laws` have what holds of the definitions alone.
#![tactic(auto)]

mod closing;
mod decoder;
mod file_chunks;
mod file_decoding;
mod file_ends;
mod file_events;
mod file_reader;
mod headers;
mod kept;
mod kinds;
pub mod laws;
mod layer_reader;
mod listing;
mod open_chunks;
mod other_files;
mod page;
pub mod page_laws;
mod page_layers;
mod resolving;
mod roles;
mod unread;

pub use decoder::{PageDecoder, PageStep};
pub use file_decoding::{DecodedFile, decode_done, decode_file};
pub use page::Size;
