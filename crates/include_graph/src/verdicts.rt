//! Verdicts on included files.

use djvu_base::{Fault, Items};

/// What a walk over the includes of a file says of it. Files are numbers of names, from 0.
#[derive(Debug, Drop)]
pub enum Verdict {
    /// Neither the file nor any that it leads to has a fault of form, a missing include or one that includes itself: all
    /// these files, each once, and each after those that it includes.
    Files(Items<u32>),
    /// The first file on the walk whose outline isn't known.
    NeedOutline(u32),
    /// The first fault on the walk.
    Refused(Fault),
}
