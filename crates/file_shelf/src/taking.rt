//! Claims of files, and what taking on a file answers.
ghost use Rattle.std.specs.Prelude.{◌≡◌};

use std::marker::Model;

/// The claim of a file. It can't be dropped: who has it publishes the file's result. Contracts see it as the file's number.
pub struct FileClaim {
    pub(crate) number: u32,
}

impl Model for FileClaim {
    ghost use Rattle.std.specs.Prelude.{ℕ};

    ghost Value = { ℕ };

    ghost view = { λ a. a.number };
}

impl FileClaim {
    /// The claimed file.
    pub fn file(&self) -> u32
        ensures { result ≡ self.now }
    {
        self.number
    }
}

/// What taking on a file answers.
pub enum Taking<R> {
    /// The file is claimed by this seat now.
    Claimed(FileClaim),
    /// Exactly where the last word that was read is this one: 1, another seat has the file's claim, or 3, another seat reads the
    /// result just now.
    Taken(u64),
    /// The file's result.
    Ready(R),
    /// The last word that was read was 2, and there was no memory for a share of the result. The seat knows the result.
    OutOfMemory,
}
