//! Steps that read shapes.
ghost use Rattle.std.specs.Prelude.{◌≡◌, ◌<◌, ◌≤ℤ◌, ◌≤◌, ◌*◌, ◌+ℤ◌, ℤ, pos, List, length, true, None, IfOk, Result, Ok, Err};
ghost use Rattle.std.specs.Arc.{arc_value};
ghost use Rattle.bit_plane.specs.Ink.{ink_box_of, unsigned};
ghost use Rattle.bit_plane.specs.Pixels.{area_limit, side_limit};
ghost use Rattle.jb2_shapes.specs.Shape.{empty_sketch};
ghost use Rattle.jb2_records.specs.declared.steps.Step.TheVariants as step;
ghost use Rattle.jb2_records.specs.Coding.{checked};
ghost use Rattle.jb2_records.specs.Records.{Record, shape_at};
ghost use Rattle.jb2_records.specs.Reading.{Input, shape_fault};
ghost use Rattle.jb2_records.specs.Library.{shapes_of, Keeps, HasRoomFor, IsAddable};
ghost use Rattle.jb2_records.specs.Steps.{from_own, from_shape, from_matched, from_beside_sizes, numbered, wide_of, high_of};
ghost use Rattle.jb2_records.specs.Machine.{IsPictured, UseFits, ReferenceFits, Fits, ResultFits, Stays, Holds, Moves, SizesOf, IsLater, IsBelow, rank_of};

use crate::checks::unsigned;
use crate::machine::{Halt, Machine};
use crate::numbers::halted;
use crate::steps::{Field, Mark, Origin, Reference, Step, Use};
use bit_plane::Plane;
use djvu_base::FaultKind;
use jb2_shapes::{DirectReader, RefineReader};
use std::alloc::AllocError;
use std::sync::Arc;

impl Machine {
    /// The sides of one shape more, where the checks allow them.
    fn sizes(&self, width: i64, height: i64) -> Result<(u32, u32), FaultKind>
        requires { self.now.library.started ≡ true }
        ensures sound { (input : Input) (before : List Record) → Keeps input before self.now.library → SizesOf
            (shape_fault input before width height) width height result }
        ensures fits { IfOk result (λ size. HasRoomFor size.0 size.1 self.now.library) }
    {
        if let Some(fault) = self.library.shape_fault(width, height) {
            return Err(fault);
        }
        Ok((unsigned(width), unsigned(height)))
    }

    /// A shape of its own behind its sides.
    pub(crate) fn own_sizes(&mut self, kept: Use, width: i32, height: i32) -> Result<Step, Halt>
        requires pictured { IsPictured self.old.library self.old.picture }
        requires started { self.old.library.started ≡ true }
        requires fits { UseFits kept self.old.picture }
        ensures fits { ResultFits result self.new.library self.new.picture }
        ensures below { IsBelow 18 result }
        ensures later { IsLater self.old self.new }
        ensures moves { (input : Input) →
            Stays input (λ later before text at. checked (shape_fault later before width height) at
            (λ at. from_own later before kept (unsigned width) (unsigned height) at)) self.old →
            Moves input result self.new }
    {
        match self.sizes(i64::from(width), i64::from(height)) {
            Ok((width, height)) => Ok(Step::Own(kept, width, height)),
            Err(fault) => Err(Halt::Refused(fault)),
        }
    }

    /// Behind the number of a shape of the library.
    pub(crate) fn matched(&self, goal: Reference, number: u32) -> Step
        requires pictured { IsPictured self.now.library self.now.picture }
        requires started { self.now.library.started ≡ true }
        requires some { number < length (shapes_of self.now.library) }
        requires fits { ReferenceFits goal self.now.picture }
        ensures fits { Fits result self.now.library self.now.picture }
        ensures below { rank_of result < 24 }
        ensures holds { (input : Input) → Stays input (λ later before text at. from_matched later before goal number at) self.now →
            Holds input result self.now }
    {
        match goal {
            Reference::Refine(kept) => self.ask(Field::BesideWidth(kept, number)),
            Reference::Copy => Step::Row(Mark::Copy(number)),
        }
    }

    /// A refined shape behind its sides, which are told by the ink of the matched one.
    pub(crate) fn beside_sizes(
        &mut self,
        kept: Use,
        number: u32,
        wider: i32,
        higher: i32,
    ) -> Result<Step, Halt>
        requires pictured { IsPictured self.old.library self.old.picture }
        requires started { self.old.library.started ≡ true }
        requires some { number < length (shapes_of self.old.library) }
        requires fits { UseFits kept self.old.picture }
        ensures fits { ResultFits result self.new.library self.new.picture }
        ensures below { IsBelow 22 result }
        ensures later { IsLater self.old self.new }
        ensures moves { (input : Input) →
            Stays input (λ later before text at.
            from_beside_sizes later before kept number (wide_of (ink_box_of (numbered later before number)) wider)
            (high_of (ink_box_of (numbered later before number)) higher) at) self.old →
            Moves input result self.new }
    {
        let shape = self.library.shape(number);
        let width = i64::from(shape.ink_width()) + i64::from(wider);
        let height = i64::from(shape.ink_height()) + i64::from(higher);
        match self.sizes(width, height) {
            Ok((width, height)) => Ok(Step::Beside(kept, number, width, height)),
            Err(fault) => Err(Halt::Refused(fault)),
        }
    }

    /// Makes the reader of a shape of its own.
    pub(crate) fn own(&mut self, kept: Use, width: u32, height: u32) -> Result<Step, Halt>
        requires { Fits (step.Own kept width height) self.old.library self.old.picture }
        ensures fits { ResultFits result self.new.library self.new.picture }
        ensures below { IsBelow 17 result }
        ensures later { IsLater self.old self.new }
        ensures moves { (input : Input) → Holds input (step.Own kept width height) self.old → Moves input result self.new }
    {
        self.coder.ready();
        match DirectReader::begin(self.alloc, width, height) {
            Ok(reader) => Ok(Step::Direct(kept, reader)),
            Err(_) => Err(Halt::OutOfMemory(Step::Own(kept, width, height))),
        }
    }

    /// Reads the pixels of a shape of its own.
    pub(crate) fn direct(&mut self, kept: Use, mut reader: DirectReader) -> Result<Step, Halt>
        requires { Fits (step.Direct kept reader) self.old.library self.old.picture }
        ensures fits { ResultFits result self.new.library self.new.picture }
        ensures below { IsBelow 16 result }
        ensures later { IsLater self.old self.new }
        ensures moves { (input : Input) → Holds input (step.Direct kept reader) self.old → Moves input result self.new }
    {
        match self.coder.direct(&mut reader) {
            Ok(()) => Ok(Step::Shape(Origin::Own, kept, reader.take())),
            Err(stop) => Err(halted(stop, Step::Direct(kept, reader))),
        }
    }

    /// Makes the reader of a refined shape.
    pub(crate) fn beside(
        &mut self,
        kept: Use,
        number: u32,
        width: u32,
        height: u32,
    ) -> Result<Step, Halt>
        requires { Fits (step.Beside kept number width height) self.old.library self.old.picture }
        ensures fits { ResultFits result self.new.library self.new.picture }
        ensures below { IsBelow 21 result }
        ensures later { IsLater self.old self.new }
        ensures moves { (input : Input) → Holds input (step.Beside kept number width height) self.old → Moves input result self.new }
    {
        self.coder.ready();
        match self.begin_beside(number, width, height) {
            Ok(reader) => Ok(Step::Refined(kept, number, reader)),
            Err(_) => Err(Halt::OutOfMemory(Step::Beside(kept, number, width, height))),
        }
    }

    /// The reader of a shape that refines the one with this number.
    fn begin_beside(&self, number: u32, width: u32, height: u32) -> Result<RefineReader, AllocError>
        requires some { number < length (shapes_of self.now.library) }
        requires fits { HasRoomFor width height self.now.library }
        ensures { IfOk result (λ reader. reader ≡ record { matched = shape_at (shapes_of self.now.library) number; sketch = empty_sketch width height }) }
    {
        let shape = self.library.shape(number);
        let matched = shape.plane().clone()?;
        RefineReader::begin_beside(self.alloc, width, height, matched, shape.ink())
    }

    /// Reads the pixels of a refined shape.
    pub(crate) fn refined(
        &mut self,
        kept: Use,
        number: u32,
        mut reader: RefineReader,
    ) -> Result<Step, Halt>
        requires { Fits (step.Refined kept number reader) self.old.library self.old.picture }
        ensures fits { ResultFits result self.new.library self.new.picture }
        ensures below { IsBelow 20 result }
        ensures later { IsLater self.old self.new }
        ensures moves { (input : Input) → Holds input (step.Refined kept number reader) self.old → Moves input result self.new }
    {
        match self.coder.refined(&mut reader) {
            Ok(()) => Ok(Step::Shape(Origin::Refined(number), kept, reader.take())),
            Err(stop) => Err(halted(stop, Step::Refined(kept, number, reader))),
        }
    }

    /// Shares a shape whose pixels are there.
    pub(crate) fn shape(&mut self, made: Origin, kept: Use, shape: Plane) -> Result<Step, Halt>
        requires { Fits (step.Shape made kept shape) self.old.library self.old.picture }
        ensures fits { ResultFits result self.new.library self.new.picture }
        ensures below { IsBelow 15 result }
        ensures later { IsLater self.old self.new }
        ensures moves { (input : Input) → Holds input (step.Shape made kept shape) self.old → Moves input result self.new }
    {
        match Arc::new(self.alloc, shape) {
            Ok(shape) => Ok(self.shared(made, kept, shape)),
            Err(failed) => Err(Halt::OutOfMemory(Step::Shape(made, kept, failed.value))),
        }
    }

    /// Behind the pixels of a shape.
    fn shared(&self, made: Origin, kept: Use, shape: Arc<Plane>) -> Step
        requires pictured { IsPictured self.now.library self.now.picture }
        requires room { IsAddable (arc_value shape) self.now.library }
        requires fits { UseFits kept self.now.picture }
        ensures fits { Fits result self.now.library self.now.picture }
        ensures below { rank_of result < 15 }
        ensures holds { (input : Input) → Stays input (λ later before text at. from_shape later before made kept (arc_value shape) at) self.now →
            Holds input result self.now }
    {
        match kept {
            Use::Both => Step::Row(Mark::Both(made, shape)),
            Use::Library => Step::Keep(made, shape),
            Use::Image => Step::Row(Mark::Image(made, shape)),
            Use::Plain => self.ask(Field::Left(shape)),
        }
    }
}
