//! What keeps records from being read on.
use djvu_base::FaultKind;

/// What keeps a chunk from being read on.
#[derive(Clone, Copy, Debug)]
pub(crate) enum Stop {
    /// The bytes so far don't determine the next decision.
    NeedBytes,
    /// The records are refused.
    Refused(FaultKind),
    /// There was no memory.
    OutOfMemory,
}
