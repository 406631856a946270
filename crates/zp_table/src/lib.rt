//! State tables of the ZP coder: how contexts adapt to the bits that were decoded in them (DjVu 3 reference, ZP-Coder).
//!
//! `specs/` has the definitions: `Rows` (what a table is), `Listing` (the two built-in tables, row by row) and `Reading`
//! (tables as bytes, and the first fault of bytes). The listing of `djvu`, the table `flat` and the form of table files
//! are this project's own; the listing is made after the reference's default table.
#![tactic(auto)]

mod faults;
pub mod laws;
mod listing;
mod reading;
mod rows;
mod table;

pub use faults::{TableError, TableFault, TableWhy};
pub use rows::Row;
pub use table::Table;
