//! Steps that keep shapes and place them.
ghost use Rattle.std.specs.Prelude.{◌≡◌, ◌<◌, ◌≤ℤ◌, pos, List, length};
ghost use Rattle.std.specs.Arc.{arc_value};
ghost use Rattle.bit_plane.specs.Ink.{unsigned};
ghost use Rattle.jb2_records.specs.declared.steps.Step.TheVariants as step;
ghost use Rattle.jb2_records.specs.declared.steps.Mark.TheVariants as mark;
ghost use Rattle.jb2_records.specs.Coding.{Got, checked};
ghost use Rattle.jb2_records.specs.Records.{Plain};
ghost use Rattle.jb2_records.specs.Reading.{Input, place_fault};
ghost use Rattle.jb2_records.specs.Library.{IsAddable};
ghost use Rattle.jb2_records.specs.Machine.{IsPictured, HasPicture, Fits, ResultFits, Stays, Holds, Moves, IsLater, IsBelow};

use crate::frames::{Frame, Steps};
use crate::machine::{Halt, Machine};
use crate::steps::{Mark, Origin, Step};
use bit_plane::Plane;
use std::sync::Arc;

impl Machine {
    /// Keeps a shape that isn't placed.
    pub(crate) fn keep(&mut self, made: Origin, shape: Arc<Plane>) -> Result<Step, Halt>
        requires { Fits (step.Keep made shape) self.old.library self.old.picture }
        ensures fits { ResultFits result self.new.library self.new.picture }
        ensures below { IsBelow 1 result }
        ensures later { IsLater self.old self.new }
        ensures moves { (input : Input) → Holds input (step.Keep made shape) self.old → Moves input result self.new }
    {
        match self.library.keep(&shape) {
            Ok(()) => Ok(self.next_record()),
            Err(_) => Err(Halt::OutOfMemory(Step::Keep(made, shape))),
        }
    }

    /// Places a mark whose place was read.
    pub(crate) fn place(&mut self, mark: Mark, steps: Steps) -> Result<Step, Halt>
        requires { Fits (step.Place mark steps) self.old.library self.old.picture }
        ensures fits { ResultFits result self.new.library self.new.picture }
        ensures below { IsBelow 11 result }
        ensures later { IsLater self.old self.new }
        ensures moves { (input : Input) → Holds input (step.Place mark steps) self.old → Moves input result self.new }
    {
        match mark {
            Mark::Both(made, shape) => self.place_both(made, shape, steps),
            Mark::Image(made, shape) => self.place_image(made, shape, steps),
            Mark::Copy(number) => self.place_copy(number, steps),
        }
    }

    /// Keeps a shape and places it.
    fn place_both(&mut self, made: Origin, shape: Arc<Plane>, steps: Steps) -> Result<Step, Halt>
        requires { Fits (step.Place (mark.Both made shape) steps) self.old.library self.old.picture }
        ensures fits { ResultFits result self.new.library self.new.picture }
        ensures below { IsBelow 11 result }
        ensures later { IsLater self.old self.new }
        ensures moves { (input : Input) → Holds input (step.Place (mark.Both made shape) steps) self.old → Moves input result self.new }
    {
        let Some(picture) = &mut self.picture else {
            unreachable!()
        };
        if let Some(fault) = picture.place_fault(&shape) {
            return Err(Halt::Refused(fault));
        }
        if self.library.keep(&shape).is_err() {
            return Err(Halt::OutOfMemory(Step::Place(Mark::Both(made, shape), steps)));
        }
        picture.place(&shape, Frame::whole(&shape), steps);
        Ok(self.next_record())
    }

    /// Places a shape that isn't kept.
    fn place_image(&mut self, made: Origin, shape: Arc<Plane>, steps: Steps) -> Result<Step, Halt>
        requires { Fits (step.Place (mark.Image made shape) steps) self.old.library self.old.picture }
        ensures fits { ResultFits result self.new.library self.new.picture }
        ensures below { IsBelow 11 result }
        ensures later { IsLater self.old self.new }
        ensures moves { (input : Input) → Holds input (step.Place (mark.Image made shape) steps) self.old → Moves input result self.new }
    {
        let Some(picture) = &mut self.picture else {
            unreachable!()
        };
        if let Some(fault) = picture.place_fault(&shape) {
            return Err(Halt::Refused(fault));
        }
        self.library.add(&shape);
        picture.place(&shape, Frame::whole(&shape), steps);
        Ok(self.next_record())
    }

    /// Places a shape of the library, by its ink.
    fn place_copy(&mut self, number: u32, steps: Steps) -> Result<Step, Halt>
        requires { Fits (step.Place (mark.Copy number) steps) self.old.library self.old.picture }
        ensures fits { ResultFits result self.new.library self.new.picture }
        ensures below { IsBelow 11 result }
        ensures later { IsLater self.old self.new }
        ensures moves { (input : Input) → Holds input (step.Place (mark.Copy number) steps) self.old → Moves input result self.new }
    {
        let Some(picture) = &mut self.picture else {
            unreachable!()
        };
        let shape = self.library.shape(number);
        if let Some(fault) = picture.place_fault(shape.plane()) {
            return Err(Halt::Refused(fault));
        }
        picture.place(shape.plane(), shape.frame(), steps);
        Ok(self.next_record())
    }

    /// Places a shape by its left side and its top.
    pub(crate) fn plain(&mut self, shape: Arc<Plane>, left: i32, top: i32) -> Result<Step, Halt>
        requires pictured { IsPictured self.old.library self.old.picture }
        requires picture { HasPicture self.old.picture }
        requires room { IsAddable (arc_value shape) self.old.library }
        requires some_left { pos 1 ≤ℤ left }
        requires some_top { pos 1 ≤ℤ top }
        ensures fits { ResultFits result self.new.library self.new.picture }
        ensures below { IsBelow 13 result }
        ensures later { IsLater self.old self.new }
        ensures moves { (input : Input) →
            Stays input (λ later before text at. checked (place_fault later before (arc_value shape)) at
            (λ at. Got (Plain (arc_value shape) (unsigned left) (unsigned top)) at)) self.old →
            Moves input result self.new }
    {
        let Some(picture) = &mut self.picture else {
            unreachable!()
        };
        if let Some(fault) = picture.place_fault(&shape) {
            return Err(Halt::Refused(fault));
        }
        self.library.add(&shape);
        picture.place_plain(&shape, left, top);
        Ok(self.next_record())
    }
}
