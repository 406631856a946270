//! The outline reader: it walks over a file that arrives in pieces, and keeps the items of its outline alone.
ghost use Rattle.std.specs.Prelude.{◌≡◌, ◌≢◌, ℕ, ◌++◌, List, [], Some};
ghost use Rattle.djvu_base.specs.Library.{Mark, Open, mark_of};
ghost use Rattle.include_graph.specs.Outlines.{outline_of};
ghost use Rattle.include_graph.specs.Fed.{Fed};

use crate::file_walk::FileWalk;
use crate::outline::Outline;
use djvu_base::FileEnd;
use std::alloc::Global;
use std::marker::Model;

/// What an outline reader answers.
#[derive(Clone, Copy, Debug, PartialEq, Eq)]
pub enum OutlineStep {
    /// The outline is known. It is answered from then on.
    Done,
    /// More bytes, or the file's end, settle the outline.
    NeedBytes,
    /// There was no memory. It is answered from then on.
    OutOfMemory,
}

/// Reads the outline of an included file that arrives in pieces. It keeps the items, and of the file's bytes those of a header
/// and of an `INCL` that have arrived in part.
///
/// Contracts see what it answers from now on (`answered`), and speak of the bytes by `Fed mark bytes reader`: it was fed these,
/// and told this of the file's end.
#[derive(Debug, Drop)]
pub struct OutlineReader {
    answered: OutlineStep,
    walk: FileWalk,
}

impl Model for OutlineReader {
    ghost use Rattle.include_graph.specs.Fed.{Outlining};

    ghost Value = { Outlining };

    ghost view = { λ a. record { answered = a.answered; kept = a.walk } };
}

impl OutlineReader {
    /// A reader that was fed no byte.
    #[tactic(auto, unfolding(crate::specs::Fed::Fed))]
    pub fn new(alloc: Global) -> OutlineReader
        ensures fed { Fed Open [] result }
        ensures begun { result.answered ≡ OutlineStep.NeedBytes }
    {
        OutlineReader {
            answered: OutlineStep::NeedBytes,
            walk: FileWalk::new(alloc),
        }
    }

    /// Goes on with the next bytes of the file. Answers `Done` as soon as the outline is known.
    #[tactic(auto, unfolding(crate::specs::Fed::Fed))]
    pub fn feed(&mut self, piece: &[u8]) -> OutlineStep
        ensures fed { (bytes : List ℕ) → Fed Open bytes self.old → Fed Open (bytes ++ piece.now) self.new }
        ensures answer { result ≡ self.new.answered }

        // Once the reader answered something else, it answers the same from then on.
        ensures stays { self.old.answered ≢ OutlineStep.NeedBytes → (result ≡ self.old.answered) × (self.new ≡ self.old) }
    {
        crate::laws::outlines_stay();
        match self.answered {
            OutlineStep::NeedBytes => {
                self.answered = self.walk.read(piece);
                self.answered
            }
            OutlineStep::Done => OutlineStep::Done,
            OutlineStep::OutOfMemory => OutlineStep::OutOfMemory,
        }
    }

    /// Says that no more bytes come, and how the file ends. The outline is then known, unless there was no memory.
    #[tactic(auto, unfolding(crate::specs::Fed::Fed))]
    pub fn end(&mut self, end: FileEnd) -> OutlineStep
        ensures fed { (bytes : List ℕ) → Fed Open bytes self.old → Fed (mark_of end) bytes self.new }
        ensures answer { result ≡ self.new.answered }
        ensures settles { result ≢ OutlineStep.NeedBytes }

        // Once the reader answered something else, it answers the same from then on.
        ensures stays { self.old.answered ≢ OutlineStep.NeedBytes → (result ≡ self.old.answered) × (self.new ≡ self.old) }
    {
        crate::laws::outlines_stay();
        match self.answered {
            OutlineStep::NeedBytes => {
                self.answered = self.walk.close(end);
                self.answered
            }
            OutlineStep::Done => OutlineStep::Done,
            OutlineStep::OutOfMemory => OutlineStep::OutOfMemory,
        }
    }

    /// The outline.
    #[tactic(auto, unfolding(crate::specs::Fed::Fed))]
    pub fn take(self) -> Outline
        requires { self.answered ≡ OutlineStep.Done }
        ensures { (mark : Mark) (bytes : List ℕ) → Fed mark bytes self → outline_of mark bytes ≡ Some result }
    {
        self.walk.into_outline()
    }
}
