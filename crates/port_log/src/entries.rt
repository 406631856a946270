//! Entries of logs.
ghost use Rattle.std.specs.Prelude.{◌≡◌};
ghost use Rattle.port_log.specs.Entries.{is_end};

use djvu_base::{Fault, Notice, Share};
use std::alloc::AllocError;

/// How a page ended.
#[derive(Clone, Copy, Debug)]
pub enum PageEnd {
    /// After its last chunk.
    Finished,
    /// At its first fault.
    Refused(Fault),
    /// There was no memory to go on.
    NoMemory,
}

/// What is announced of a page.
#[derive(Debug, Drop)]
pub enum Entry {
    /// The next drawing of the page.
    Drew(Notice),
    /// The page ended: no entry comes after this one.
    Ended(PageEnd),
}

impl Entry {
    /// Whether no entry comes after it.
    pub fn is_end(&self) -> bool
        ensures { result ≡ is_end self.now }
    {
        match self {
            Entry::Drew(_) => false,
            Entry::Ended(_) => true,
        }
    }
}

impl Share for Entry {
    ghost use Rattle.port_log.specs.Entries.{may_stand};

    ghost fits = { may_stand };

    fn share(&self) -> Result<Entry, AllocError> {
        match self {
            Entry::Drew(notice) => {
                let notice = notice.share()?;
                Ok(Entry::Drew(notice))
            }
            Entry::Ended(end) => Ok(Entry::Ended(*end)),
        }
    }
}
