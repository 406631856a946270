//! How runs end: their statuses, and why one stops.
ghost use Rattle.std.specs.Prelude.{◌≡◌};
ghost use Rattle.djvu_outside.specs.declared.stops.Stop.TheVariants.{Memory};
ghost use Rattle.djvu_outside.specs.Parts.{status_of};

use std::alloc::{AllocError, AllocFailed};

/// How a run ended, as the status of the process. Where several hold, it is the first in this table.
///
/// | status | constant | when |
/// |---|---|---|
/// | 5 | `NO_MEMORY` | there was no memory; the run ended there |
/// | 4 | `SINK_FAILED` | a sink failed; nothing more was put, and the run ended there |
/// | 2 | `RUN_REFUSED` | the words, the folder or a table are refused; nothing was drawn |
/// | 3 | `FOLDER_FAILED` | the folder failed |
/// | 1 | `PAGE_REFUSED` | a page was refused |
/// | 0 | `DONE` | none of these |
#[derive(Clone, Copy, Debug, PartialEq, Eq)]
pub struct Status(pub u8);

impl Status {
    /// Every page was drawn or listed.
    pub const DONE: Status = Status(0);
    /// A page was refused.
    pub const PAGE_REFUSED: Status = Status(1);
    /// The run was refused.
    pub const RUN_REFUSED: Status = Status(2);
    /// The folder failed.
    pub const FOLDER_FAILED: Status = Status(3);
    /// A sink failed.
    pub const SINK_FAILED: Status = Status(4);
    /// There was no memory.
    pub const NO_MEMORY: Status = Status(5);
}

/// Why a run stops before its end.
#[derive(Clone, Copy, Debug, PartialEq, Eq)]
pub enum Stop {
    /// The folder failed.
    Folder,
    /// A sink failed.
    Sink,
    /// There was no memory.
    Memory,
}

impl Stop {
    /// The status of a run that stops so.
    pub fn status(self) -> Status
        ensures { result.0 ≡ status_of self }
    {
        match self {
            Stop::Folder => Status::FOLDER_FAILED,
            Stop::Sink => Status::SINK_FAILED,
            Stop::Memory => Status::NO_MEMORY,
        }
    }
}

impl From<AllocError> for Stop {
    ghost from_gives = { λ _ stop. stop ≡ Memory };

    fn from(_fault: AllocError) -> Stop {
        Stop::Memory
    }
}

impl<T: Drop> From<AllocFailed<T>> for Stop {
    ghost from_gives = { λ _ stop. stop ≡ Memory };

    fn from(_fault: AllocFailed<T>) -> Stop {
        Stop::Memory
    }
}
