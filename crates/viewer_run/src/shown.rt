//! What became of pages that were shown.
ghost use Rattle.std.specs.Prelude.{◌≡◌};
ghost use Rattle.viewer_run.specs.Shown.{both, status_shown};

use djvu_outside::Status;

/// What became of pages.
#[derive(Clone, Copy, Debug, PartialEq, Eq)]
pub struct Shown {
    /// One of them was refused.
    pub refused: bool,
    /// The reading of a file failed.
    pub broken: bool,
}

impl Shown {
    /// These pages and further ones.
    pub fn with(self, other: Shown) -> Shown
        ensures { result ≡ both self other }
    {
        Shown {
            refused: self.refused || other.refused,
            broken: self.broken || other.broken,
        }
    }

    /// The status of a run that shows these pages.
    pub fn status(self) -> Status
        ensures { result.0 ≡ status_shown self }
    {
        if self.broken {
            Status::FOLDER_FAILED
        } else if self.refused {
            Status::PAGE_REFUSED
        } else {
            Status::DONE
        }
    }
}
