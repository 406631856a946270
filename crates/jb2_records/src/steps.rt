//! Where the reading of a record stands: what was read of it, and what is read or made next.
use crate::frames::Steps;
use bit_plane::Plane;
use jb2_numbers::NumberReader;
use jb2_shapes::{DirectReader, RefineReader};
use std::sync::Arc;

/// What is done with a shape that a record brings.
#[derive(Clone, Copy, Debug)]
pub(crate) enum Use {
    /// It enters the library and is placed.
    Both,
    /// It enters the library alone.
    Library,
    /// It is placed alone.
    Image,
    /// It is placed alone, by its left side and its top.
    Plain,
}

/// How a shape is made.
#[derive(Clone, Copy, Debug)]
pub(crate) enum Origin {
    Own,
    /// It refines the shape of the library with this number.
    Refined(u32),
}

/// What a shape of the library is matched for.
#[derive(Clone, Copy, Debug)]
pub(crate) enum Reference {
    Refine(Use),
    Copy,
}

/// A mark that is placed by those before it.
#[derive(Drop)]
pub(crate) enum Mark {
    /// A shape that enters the library, too.
    Both(Origin, Arc<Plane>),
    /// A shape that is placed alone.
    Image(Origin, Arc<Plane>),
    /// The shape of the library with this number.
    Copy(u32),
}

/// The number that is read, with what was read of the record before it.
#[derive(Drop)]
pub(crate) enum Field {
    Kind,
    StartWidth,
    StartHeight(i32),
    OwnWidth(Use),
    OwnHeight(Use, i32),
    Match(Reference),
    /// How much wider than the ink of the shape with this number.
    BesideWidth(Use, u32),
    BesideHeight(Use, u32, i32),
    /// How far right and up a mark stands, on a new row or on the same.
    Dx(Mark, bool),
    Dy(Mark, bool, i32),
    Left(Arc<Plane>),
    Top(Arc<Plane>, i32),
    InheritedCount,
    CommentLength,
    /// A byte of a comment, with so many behind it.
    CommentByte(u32),
}

/// What is read or made next.
#[derive(Drop)]
pub(crate) enum Step {
    Number(Field, NumberReader),
    /// The flag of a start with this width and height.
    Flag(i32, i32),
    /// Whether a mark begins a new row.
    Row(Mark),
    /// A shape with this width and height, whose reader is made.
    Own(Use, u32, u32),
    Direct(Use, DirectReader),
    /// A shape that refines the one with this number.
    Beside(Use, u32, u32, u32),
    Refined(Use, u32, RefineReader),
    /// All pixels of a shape are there.
    Shape(Origin, Use, Plane),
    /// The start is read, and the picture is made.
    Start(i32, i32, bool),
    /// A shape enters the library.
    Keep(Origin, Arc<Plane>),
    /// The place of a mark is read.
    Place(Mark, Steps),
}
