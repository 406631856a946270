//! Why bytes are no table.
ghost use Rattle.std.specs.Prelude.{◌≡◌};
ghost use Rattle.zp_table.specs.Reading.{word_of};

use thiserror::Error;

/// What is wrong with the bytes of a table.
#[derive(Clone, Copy, Debug, PartialEq, Eq)]
pub enum TableWhy {
    /// There are no bytes.
    Empty,
    /// There are more than 1,536 bytes: 256 rows of six.
    TooMany,
    /// The bytes end within a row.
    Short,
    /// p is 0 or above 8000 hexadecimal.
    Chance,
    /// up is no row of the table.
    Up,
    /// dn is no row of the table.
    Down,
}

impl TableWhy {
    /// The word that reports have for it, in ASCII.
    pub fn word(self) -> &'static str
        ensures { result.now ≡ word_of self }
    {
        match self {
            TableWhy::Empty => "empty",
            TableWhy::TooMany => "too-many",
            TableWhy::Short => "short",
            TableWhy::Chance => "chance",
            TableWhy::Up => "up",
            TableWhy::Down => "down",
        }
    }
}

/// The first check that failed, and the row where it did, from 0.
#[derive(Clone, Copy, Debug, PartialEq, Eq)]
pub struct TableFault {
    pub row: u16,
    pub why: TableWhy,
}

/// Why no table was read.
#[derive(Debug, Drop, Error)]
pub enum TableError {
    /// The bytes are no table.
    #[error("the bytes are no state table")]
    Refused(TableFault),
    /// There was no memory for the rows.
    #[error("out of memory")]
    OutOfMemory,
}
