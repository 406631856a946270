//! The reading of records, which can stop at any decision and go on.
ghost use Rattle.jb2_records.specs.Reading.{Input};
ghost use Rattle.jb2_records.specs.Machine.{Fits, HaltFits, IsLater, Holds, HaltsAt};

use crate::coder::Coder;
use crate::library::Library;
use crate::picture::Picture;
use crate::steps::Step;
use djvu_base::FaultKind;
use std::alloc::Global;

/// What the records so far came to, and the coder that reads them.
#[derive(Drop)]
pub(crate) struct Machine {
    pub(crate) alloc: Global,
    pub(crate) coder: Coder,
    pub(crate) library: Library,
    /// It exists once a mask's start was read.
    pub(crate) picture: Option<Picture>,
    /// Records that were read whole.
    pub(crate) units: u64,
}

/// What keeps records from being read on, and the step at which they go on then.
#[derive(Drop)]
pub(crate) enum Halt {
    NeedBytes(Step),
    OutOfMemory(Step),
    Refused(FaultKind),
    /// The records ended.
    Finished,
}

impl Machine {
    /// Reads on, as far as the bytes go.
    pub(crate) fn run(&mut self, mut at: Step) -> Halt
        requires { Fits at self.old.library self.old.picture }
        ensures fits { HaltFits result self.new.library self.new.picture }
        ensures later { IsLater self.old self.new }
        ensures halts { (input : Input) → Holds input at self.old → HaltsAt input result self.new }
    {
        'steps: loop {
            match self.step(at) {
                Ok(next) => at = next,
                Err(halt) => return halt,
            }
        }
    }
}
