//! Records that draw nothing: starts, inherited shapes, comments and the end; and what stands between two records.
ghost use Rattle.std.specs.Prelude.{◌≡◌, ◌≤◌, ◌≤ℤ◌, ℕ, pos, List, true, false, IfOk};
ghost use Rattle.jb2_numbers.specs.Reader.{AreBounds};
ghost use Rattle.jb2_records.specs.declared.steps.Step.TheVariants as step;
ghost use Rattle.jb2_records.specs.Coding.{Got, checked};
ghost use Rattle.bit_plane.specs.Ink.{unsigned};
ghost use Rattle.jb2_records.specs.Records.{Require, End};
ghost use Rattle.jb2_records.specs.Reading.{Input, start_fault, count_fault, read_bytes, with_fresh_numbers};
ghost use Rattle.jb2_records.specs.Steps.{from_start};
ghost use Rattle.jb2_records.specs.Machine.{IsPictured, Fits, ResultFits, Stays, Holds, Moves, Adds, HaltsAt, IsBlankFor, width_of, height_of, IsLater, HaltFits, IsBelow, rank_of};

use crate::checks::is_nothing;
use crate::machine::{Halt, Machine};
use crate::picture::Picture;
use crate::purpose::Purpose;
use crate::steps::{Field, Step};
use std::alloc::AllocError;

impl Machine {
    /// The picture's size, once there is one.
    pub(crate) fn width(&self) -> i32
        ensures width { result ≡ pos (width_of self.now.picture) }
        ensures bounds { AreBounds (pos 1) result }
    {
        match &self.picture {
            Some(picture) => picture.width() as i32,
            None => 1,
        }
    }

    pub(crate) fn height(&self) -> i32
        ensures height { result ≡ pos (height_of self.now.picture) }
        ensures bounds { AreBounds (pos 1) result }
    {
        match &self.picture {
            Some(picture) => picture.height() as i32,
            None => 1,
        }
    }

    /// Counts a record that was read, and asks for the type of the next one.
    pub(crate) fn next_record(&mut self) -> Step
        requires { IsPictured self.old.library self.old.picture }
        ensures fits { Fits result self.new.library self.new.picture }
        ensures below { rank_of result ≡ 0 }
        ensures later { IsLater self.old self.new }
        ensures holds { (input : Input) → Adds input self.old → Holds input result self.new }
    {
        self.units = self.units.saturating_add(1);
        self.ask(Field::Kind)
    }

    /// The end of the records.
    pub(crate) fn finish(&mut self) -> Halt
        requires pictured { IsPictured self.old.library self.old.picture }
        requires started { self.old.library.started ≡ true }
        ensures fits { HaltFits result self.new.library self.new.picture }
        ensures later { IsLater self.old self.new }
        ensures ends { (input : Input) → Stays input (λ later before text at. Got End at) self.old → HaltsAt input result self.new }
    {
        self.units = self.units.saturating_add(1);
        Halt::Finished
    }

    /// Behind the start the contexts of numbers begin anew.
    pub(crate) fn reset(&mut self) -> Step
        requires pictured { IsPictured self.old.library self.old.picture }
        requires started { self.old.library.started ≡ true }
        ensures fits { Fits result self.new.library self.new.picture }
        ensures below { rank_of result ≡ 0 }
        ensures later { IsLater self.old self.new }
        ensures holds { (input : Input) → Stays input (λ later before text at. Got (Require 0) (with_fresh_numbers at)) self.old →
            Holds input result self.new }
    {
        self.coder.reset_numbers();
        self.next_record()
    }

    /// A start behind its flag.
    pub(crate) fn flagged(&mut self, width: i32, height: i32, flag: bool) -> Result<Step, Halt>
        requires { Fits (step.Flag width height) self.old.library self.old.picture }
        ensures fits { ResultFits result self.new.library self.new.picture }
        ensures below { IsBelow 7 result }
        ensures later { IsLater self.old self.new }
        ensures moves { (input : Input) →
            Stays input (λ later before text at. checked (start_fault later.purpose width height) at
            (λ at. from_start width height flag at)) self.old → Moves input result self.new }
    {
        if let Some(fault) = self.library.start_fault(width, height) {
            return Err(Halt::Refused(fault));
        }
        Ok(Step::Start(width, height, flag))
    }

    /// Makes the picture of a mask, behind its start.
    pub(crate) fn start(&mut self, width: i32, height: i32, flag: bool) -> Result<Step, Halt>
        requires { Fits (step.Start width height flag) self.old.library self.old.picture }
        ensures fits { ResultFits result self.new.library self.new.picture }
        ensures below { IsBelow 6 result }
        ensures later { IsLater self.old self.new }
        ensures moves { (input : Input) → Holds input (step.Start width height flag) self.old → Moves input result self.new }
    {
        match self.blank() {
            Ok(picture) => {
                self.picture = picture;
                self.library.start();
                Ok(self.next_record())
            }
            Err(_) => Err(Halt::OutOfMemory(Step::Start(width, height, flag))),
        }
    }

    /// The white picture of a mask; none of a dictionary.
    fn blank(&self) -> Result<Option<Picture>, AllocError>
        ensures { IfOk result (λ picture. IsBlankFor self.now.library.purpose picture) }
    {
        match self.library.purpose() {
            Purpose::Dictionary => Ok(None),
            Purpose::Mask { width, height } => Ok(Some(Picture::new(self.alloc, width, height)?)),
        }
    }

    /// Takes inherited shapes, or none.
    pub(crate) fn inherit(&mut self, count: i32) -> Result<Step, Halt>
        requires pictured { IsPictured self.old.library self.old.picture }
        requires unstarted { self.old.library.started ≡ false }
        requires low { pos 0 ≤ℤ count }
        ensures fits { ResultFits result self.new.library self.new.picture }
        ensures below { IsBelow 1 result }
        ensures later { IsLater self.old self.new }
        ensures moves { (input : Input) →
            Stays input (λ later before text at. checked (count_fault later count) at (λ at. Got (Require (unsigned count)) at)) self.old →
            Moves input result self.new }
    {
        if let Some(fault) = self.library.count_fault(count) {
            return Err(Halt::Refused(fault));
        }
        self.library.take(is_nothing(count));
        Ok(self.next_record())
    }

    /// So many bytes of a comment.
    pub(crate) fn comment(&mut self, left: u32) -> Step
        requires { IsPictured self.old.library self.old.picture }
        ensures fits { Fits result self.new.library self.new.picture }
        ensures below { rank_of result ≤ left }
        ensures later { IsLater self.old self.new }
        ensures holds { (input : Input) (bytes : List ℕ → List ℕ) →
            Stays input (λ later before text at. read_bytes later.chunk left (bytes text) at) self.old → Holds input result self.new }
    {
        if left == 0 {
            self.next_record()
        } else {
            self.ask(Field::CommentByte(left - 1))
        }
    }
}
