//! What a number within a record is coded by.
ghost use Rattle.std.specs.Prelude.{◌≡◌};
ghost use Rattle.jb2_records.specs.Steps.{root_of, low_of};

use crate::steps::Field;
use jb2_numbers::Root;

/// The least difference and the least step.
const LEAST: i32 = -262_143;

impl Field {
    /// Where its contexts begin.
    pub(crate) fn root(&self) -> Root
        ensures { result ≡ root_of self.now }
    {
        match self {
            Field::Kind => Root::RecordType,
            Field::StartWidth | Field::StartHeight(_) => Root::ImageSize,
            Field::OwnWidth(_) => Root::ShapeWidth,
            Field::OwnHeight(_, _) => Root::ShapeHeight,
            Field::Match(_) => Root::Match,
            Field::BesideWidth(_, _) => Root::WidthDifference,
            Field::BesideHeight(_, _, _) => Root::HeightDifference,
            Field::Dx(_, true) => Root::NewRowX,
            Field::Dx(_, false) => Root::SameRowX,
            Field::Dy(_, true, _) => Root::NewRowY,
            Field::Dy(_, false, _) => Root::SameRowY,
            Field::Left(_) => Root::AbsoluteLeft,
            Field::Top(_, _) => Root::AbsoluteTop,
            Field::InheritedCount => Root::InheritedCount,
            Field::CommentLength => Root::CommentLength,
            Field::CommentByte(_) => Root::CommentByte,
        }
    }

    /// The least number that it may have.
    pub(crate) fn lowest(&self) -> i32
        ensures { result ≡ low_of self.now }
    {
        match self {
            Field::BesideWidth(_, _)
            | Field::BesideHeight(_, _, _)
            | Field::Dx(_, _)
            | Field::Dy(_, _, _) => LEAST,
            Field::Left(_) | Field::Top(_, _) => 1,
            _ => 0,
        }
    }
}
