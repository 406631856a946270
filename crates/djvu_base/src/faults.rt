//! Faults of a page's bytes: what is wrong, and where.
ghost use Rattle.std.specs.Prelude.{◌≡◌};
ghost use Rattle.djvu_base.specs.FaultKind.{word_of};

/// What is wrong with the bytes of a file.
#[derive(Clone, Copy, Debug, PartialEq, Eq)]
pub enum FaultKind {
    /// The file doesn't begin with a FORM, or the FORM's length has no room for its kind.
    NotForm,
    /// The FORM would end behind byte 2,097,152 of the file, or an area passes its limit.
    TooLarge,
    /// The file, or a part of it, is of a kind that isn't decoded.
    Unsupported,
    /// The FORM of a page is of another kind than `DJVU`.
    WrongForm,
    /// The FORM of an included file is of another kind than `DJVI`.
    NotIncludedForm,
    /// The FORM has too few bytes left for a chunk's header, and isn't at its end.
    ShortHeader,
    /// A chunk's identifier has a byte that is no printable ASCII.
    BadId,
    /// A chunk's data would go past the end of the FORM.
    Overrun,
    /// The first chunk of a page isn't an `INFO`, or it has no chunk.
    NoInfo,
    /// A page has a further `INFO`.
    SecondInfo,
    /// A chunk of a page stands in an included file.
    Misplaced,
    /// A file has a second `Djbz`.
    SecondDictionary,
    /// A page has a second `Sjbz`.
    SecondMask,
    /// A page has a second `FG44`.
    SecondFront,
    /// An `INFO` has fewer than 5 bytes, or a width or height of 0.
    BadInfo,
    /// An `INCL` holds no name.
    BadIncludeName,
    /// The folder has no file of the name that an `INCL` holds.
    MissingInclude,
    /// An `INCL` names a file that includes it.
    CyclicInclude,
    /// A decision would need too many bits past the end of a chunk.
    ZpExhausted,
    /// A record of a shape or a mark stands before the start record.
    Jb2NoStart,
    /// There is a second start record.
    Jb2SecondStart,
    /// A dictionary has a record that only masks may have.
    Jb2Record,
    /// A record refers to a shape while there is none.
    Jb2NoMatch,
    /// A count of inherited shapes isn't that of the dictionary in force, or a dictionary has a size.
    Jb2Dictionary,
    /// A shape's width or height is below 0 or above 65,535.
    Jb2ShapeSize,
    /// A count of shapes, marks or pixels passes its limit.
    Jb2Limit,
    /// A mask's size isn't the page's.
    MaskSize,
    /// The data of a wavelet chunk end within its header, or it has a width or height of 0.
    IwHeader,
    /// The serial of a wavelet chunk isn't the number of earlier ones of its layer.
    IwSerial,
    /// The version of a wavelet chunk isn't decoded.
    IwVersion,
    /// No reduction of the page has the size of the layer.
    LayerSize,
    /// The file's bytes ended before its FORM did.
    Truncated,
    /// The reading of the file failed before its FORM ended.
    Read,
}

impl FaultKind {
    /// The word that reports have for this kind of fault, in ASCII.
    pub fn word(self) -> &'static str
        ensures { result.now ≡ word_of self }
    {
        match self {
            FaultKind::NotForm => "not-form",
            FaultKind::TooLarge => "too-large",
            FaultKind::Unsupported => "unsupported",
            FaultKind::WrongForm => "wrong-form",
            FaultKind::NotIncludedForm => "not-included-form",
            FaultKind::ShortHeader => "short-header",
            FaultKind::BadId => "bad-id",
            FaultKind::Overrun => "overrun",
            FaultKind::NoInfo => "no-info",
            FaultKind::SecondInfo => "second-info",
            FaultKind::Misplaced => "misplaced",
            FaultKind::SecondDictionary => "second-dictionary",
            FaultKind::SecondMask => "second-mask",
            FaultKind::SecondFront => "second-front",
            FaultKind::BadInfo => "bad-info",
            FaultKind::BadIncludeName => "bad-include-name",
            FaultKind::MissingInclude => "missing-include",
            FaultKind::CyclicInclude => "cyclic-include",
            FaultKind::ZpExhausted => "zp-exhausted",
            FaultKind::Jb2NoStart => "jb2-no-start",
            FaultKind::Jb2SecondStart => "jb2-second-start",
            FaultKind::Jb2Record => "jb2-record",
            FaultKind::Jb2NoMatch => "jb2-no-match",
            FaultKind::Jb2Dictionary => "jb2-dictionary",
            FaultKind::Jb2ShapeSize => "jb2-shape-size",
            FaultKind::Jb2Limit => "jb2-limit",
            FaultKind::MaskSize => "mask-size",
            FaultKind::IwHeader => "iw-header",
            FaultKind::IwSerial => "iw-serial",
            FaultKind::IwVersion => "iw-version",
            FaultKind::LayerSize => "layer-size",
            FaultKind::Truncated => "truncated",
            FaultKind::Read => "read",
        }
    }
}

/// A place in a file.
#[derive(Clone, Copy, Debug, PartialEq, Eq)]
pub struct Place {
    /// The number of the file among the folder's names, from 0.
    pub file: u32,
    /// Bytes from the start of the file.
    pub offset: u32,
}

/// A fault and its place.
#[derive(Clone, Copy, Debug, PartialEq, Eq)]
pub struct Fault {
    pub kind: FaultKind,
    pub place: Place,
}
