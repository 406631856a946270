//! What the records of a chunk are for, and what follows from that.
ghost use Rattle.std.specs.Prelude.{◌≡◌, ◌&&◌, None, Some, if◌then◌else◌};
ghost use Rattle.jb2_records.specs.Reading.{is_allowed, pixel_limit, type_fault, start_fault, is_number};

use crate::checks::is_number;
use crate::limits::DICTIONARY_PIXEL_LIMIT;
use crate::types::RecordType;
use bit_plane::AREA_LIMIT;
use djvu_base::FaultKind;

/// What the records of a chunk are for, as contracts of readers name it.
#[derive(Clone, Copy, Debug, PartialEq, Eq)]
pub enum Purpose {
    /// The shapes of a dictionary.
    Dictionary,
    /// A mask of a size in pixels.
    Mask { width: u32, height: u32 },
}

impl Purpose {
    /// Whether a record of a type may stand among the records: a dictionary has no marks.
    fn allows(self, kind: RecordType) -> bool
        ensures { result ≡ is_allowed self kind }
    {
        match self {
            Purpose::Dictionary => kind.is_for_dictionaries(),
            Purpose::Mask { .. } => true,
        }
    }

    /// The most pixels of the shapes that the records bring.
    pub(crate) fn pixel_limit(self) -> u64
        ensures { result ≡ pixel_limit self }
    {
        match self {
            Purpose::Dictionary => DICTIONARY_PIXEL_LIMIT,
            Purpose::Mask { .. } => AREA_LIMIT,
        }
    }

    /// What is wrong with a record of this type.
    pub(crate) fn type_fault(
        self,
        started: bool,
        has_shapes: bool,
        kind: RecordType,
    ) -> Option<FaultKind>
        ensures { result ≡ type_fault self started has_shapes kind }
    {
        if !self.allows(kind) {
            Some(FaultKind::Jb2Record)
        } else if kind.is_start() && started {
            Some(FaultKind::Jb2SecondStart)
        } else if kind.needs_start() && !started {
            Some(FaultKind::Jb2NoStart)
        } else if kind.needs_match() && !has_shapes {
            Some(FaultKind::Jb2NoMatch)
        } else {
            None
        }
    }

    /// What is wrong with a start of this size: a dictionary's has no size, and a mask's that of the mask.
    pub(crate) fn start_fault(self, width: i32, height: i32) -> Option<FaultKind>
        ensures { result ≡ start_fault self width height }
    {
        match self {
            Purpose::Dictionary => size_fault(width, height, 0, 0, FaultKind::Jb2Dictionary),
            Purpose::Mask {
                width: mask_width,
                height: mask_height,
            } => size_fault(width, height, mask_width, mask_height, FaultKind::MaskSize),
        }
    }
}

/// A fault, where a size isn't the wanted one.
fn size_fault(
    width: i32,
    height: i32,
    wanted_width: u32,
    wanted_height: u32,
    fault: FaultKind,
) -> Option<FaultKind>
    ensures { result ≡ (if is_number width wanted_width && is_number height wanted_height then None else Some fault) }
{
    if is_number(width, wanted_width) && is_number(height, wanted_height) {
        None
    } else {
        Some(fault)
    }
}
