//! Answers of a walker that several places of the grammar give.
ghost use Rattle.std.specs.Prelude.{◌≡◌, length};
ghost use Rattle.djvu_base.specs.declared.faults.FaultKind.TheVariants as fault;

use crate::stages::{Fed, Stage};
use crate::walker::WalkStep;
use djvu_base::FaultKind;

/// The piece is used up.
pub fn need_bytes(piece: &[u8], stage: Stage) -> Fed
    ensures { result ≡ record { used = length piece.now; stage = stage; step = WalkStep.NeedBytes } }
{
    Fed {
        used: piece.len(),
        stage,
        step: WalkStep::NeedBytes,
    }
}

/// The last of the used bytes breaks the file.
pub fn breaks(used: usize, kind: FaultKind, offset: u32) -> Fed
    ensures { result ≡ record { used = used; stage = Stage.Broken kind offset; step = WalkStep.Broken kind offset } }
{
    Fed {
        used,
        stage: Stage::Broken { kind, offset },
        step: WalkStep::Broken { kind, offset },
    }
}

/// The FORM ended.
pub fn ends() -> Fed
    ensures { result ≡ record { used = 0; stage = Stage.Ended; step = WalkStep.FormEnd } }
{
    Fed {
        used: 0,
        stage: Stage::Ended,
        step: WalkStep::FormEnd,
    }
}

/// The file's bytes end in or before the chunk at this offset.
pub fn truncated(offset: u32) -> WalkStep
    ensures { result ≡ WalkStep.Broken fault.Truncated offset }
{
    WalkStep::Broken {
        kind: FaultKind::Truncated,
        offset,
    }
}
