//! What a number of JB2 stands for.
ghost use Rattle.std.specs.Prelude.{◌≡◌};
ghost use Rattle.jb2_numbers.specs.Roots.{root_index};

/// What a number stands for: numbers of one kind share their contexts (DjVu 3 reference, JB2).
#[derive(Clone, Copy, Debug, PartialEq, Eq)]
pub enum Root {
    /// The type of a record.
    RecordType,
    /// How many shapes are inherited.
    InheritedCount,
    /// The width or the height of the image.
    ImageSize,
    /// The number of a matched shape.
    Match,
    /// The width of a shape of its own.
    ShapeWidth,
    /// The height of a shape of its own.
    ShapeHeight,
    /// How much wider a refined shape is than the matched one.
    WidthDifference,
    /// How much higher a refined shape is than the matched one.
    HeightDifference,
    /// The left end of a shape at an absolute place.
    AbsoluteLeft,
    /// The top of a shape at an absolute place.
    AbsoluteTop,
    /// The step to the right, of the first shape of a row.
    NewRowX,
    /// The step up, of the first shape of a row.
    NewRowY,
    /// The step to the right, of a further shape of a row.
    SameRowX,
    /// The step up, of a further shape of a row.
    SameRowY,
    /// The length of a comment.
    CommentLength,
    /// A byte of a comment.
    CommentByte,
}

impl Root {
    /// The sixteen roots, counted from 0.
    pub(crate) fn index(self) -> usize
        ensures { result ≡ root_index self }
    {
        self as usize
    }
}
