//! What the calls of a session answer.

use djvu_base::{Fault, Items, Notice};
use layer_compose::Layers;
use port_log::PageEnd;

/// What a step answers. Each notice and each end is announced before the answer.
#[derive(Debug, Drop)]
pub enum SessionStep {
    /// The page's next drawing.
    Drew(Notice),
    /// The next act needs the next piece of this file, and the word that was read at its place is this one: 0, or 1 where the feeder
    /// is about to put it.
    NeedsPiece { file: u32, seen: u64 },
    /// The next act needs what this file gives, and another pass has claimed it: the word that was read at its place is 1.
    NeedsFile { file: u32, seen: u64 },
    /// The next act needs a piece or a result that another pass reads just now.
    Busy,
    /// The page ended after its last chunk. It is answered from then on.
    Finished,
    /// The page ended at its first fault. It is answered from then on.
    Refused(Fault),
    /// The page ended for want of memory, here or where a file was read or decoded. It is answered from then on.
    NoMemory,
}

/// What a look answers.
#[derive(Debug, Drop)]
pub enum Shown {
    /// What was read of the page's log: the last notice, whether the page ended, and whether the look stopped where another pass
    /// reads just now.
    Latest {
        notice: Option<Notice>,
        ended: bool,
        busy: bool,
    },
    /// The look stopped at the first place of the log, which isn't open.
    Nothing,
    /// The look stopped where another pass reads just now, at the first place of the log or at one that this pass was told of.
    Busy,
    /// There was no memory for a share of an entry, or of the notice to answer.
    OutOfMemory,
}

/// What is left of a page when all passes are done.
#[derive(Debug, Drop)]
pub struct PageAnswer {
    /// None where no step on the page answered an end.
    pub end: Option<PageEnd>,
    /// All notices that its steps answered, in order.
    pub notices: Items<Notice>,
    /// The layers behind the last notice, or behind one more where the page ended for want of memory. None before the first.
    pub layers: Option<Layers>,
}
