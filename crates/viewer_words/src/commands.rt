//! What words may say.
ghost use Rattle.std.specs.Prelude.{◌≡◌};
ghost use Rattle.viewer_words.specs.declared.commands.WordsError.TheVariants.{OutOfMemory};

use djvu_base::{Items, Name};
use std::alloc::{AllocError, AllocFailed};
use thiserror::Error;

/// A command of the viewer, with what it is to work on.
#[derive(Debug, Drop)]
pub enum Command {
    /// To draw pages, with a table of states for the decoder.
    Draw {
        /// The table of states.
        table: TableChoice,
        /// The names of the pages, 1 to 1,024 of them, each once, in the order in which they are drawn.
        pages: Items<Name>,
    },
    /// To list the chunks of files.
    Info {
        /// The names of the files, 1 to 1,024 of them, each once, in the order in which they are listed.
        pages: Items<Name>,
    },
}

/// A table of states for the decoder.
#[derive(Debug, Drop)]
pub enum TableChoice {
    /// The table with which DjVu files are written.
    Djvu,
    /// The table of one state, which no decision changes.
    Flat,
    /// The table in the folder's file of this name.
    File(Name),
}

/// Why words are no command.
#[derive(Debug, Drop, Error)]
pub enum WordsError {
    /// The number, from 0, of the first word that doesn't fit. Where a word is missing, this is the number of words.
    #[error("a word doesn't fit")]
    Refused(usize),
    /// There was no memory for the command.
    #[error("out of memory")]
    OutOfMemory,
}

impl From<AllocError> for WordsError {
    ghost from_gives = { λ _ error. error ≡ OutOfMemory };

    fn from(_fault: AllocError) -> WordsError {
        WordsError::OutOfMemory
    }
}

impl<T: Drop> From<AllocFailed<T>> for WordsError {
    ghost from_gives = { λ _ error. error ≡ OutOfMemory };

    fn from(_fault: AllocFailed<T>) -> WordsError {
        WordsError::OutOfMemory
    }
}
