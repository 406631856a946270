//! How a bit moves a reader.
ghost use Rattle.std.specs.Prelude.{◌≡◌, ℕ, ◌<◌, true, false};
ghost use Rattle.iw44_blocks.specs.Plane.{Plane, IsPlane, block_count};
ghost use Rattle.iw44_slices.specs.Slice.{Course};
ghost use Rattle.iw44_slices.specs.Reader.{Left, LeavesSome, LeavesOfSome, LeavesSmall};
ghost use Rattle.iw44_slices.specs.Moves.{after_bit, is_settled};
ghost use Rattle.iw44_slices.specs.declared.spots.Stage.TheVariants as stage;

use crate::amounts::{is_negative, raised, signed, size_of, start_size};
use crate::bands::threshold;
use crate::spots::{Spot, Stage};
use iw44_blocks::Coefficients;

impl Spot {
    /// Takes the bit of the decision that came next.
    pub(crate) fn take(&mut self, bit: bool, coefficients: &mut Coefficients)
        requires left { LeavesSmall coefficients.old self.old }
        requires settled { is_settled self.old ≡ true }
        ensures left { (slice : ℕ) (course : Course) → Left slice course coefficients.old self.old →
            Left slice (after_bit course bit) coefficients.new self.new }
        ensures width { coefficients.new.width ≡ coefficients.old.width }
        ensures height { coefficients.new.height ≡ coefficients.old.height }
    {
        let blocks = coefficients.blocks();
        match self.stage {
            Stage::Root => self.take_root(bit, blocks),
            Stage::Bucket => self.take_bucket(bit),
            Stage::Start => self.take_start(bit),
            Stage::Sign => self.take_sign(bit, coefficients),
            Stage::Raise => self.take_raise(bit, coefficients),
            Stage::Slice => {}
            Stage::Block => {}
            Stage::Chosen => {}
            Stage::End => {}
        }
    }

    fn take_root(&mut self, bit: bool, blocks: u32)
        requires stage { self.old.stage ≡ stage.Root }
        requires block { self.old.block < blocks }
        ensures { (slice : ℕ) (course : Course) (plane : Plane) → block_count plane ≡ blocks → Left slice course plane self.old →
            Left slice (after_bit course bit) plane self.new }
    {
        if bit {
            self.stage = Stage::Bucket;
            self.bucket = 0;
        } else {
            self.next_block(blocks);
        }
    }

    fn take_bucket(&mut self, bit: bool)
        requires stage { self.old.stage ≡ stage.Bucket }
        requires settled { is_settled self.old ≡ true }
        requires left { LeavesOfSome self.old }
        ensures { (slice : ℕ) (course : Course) (plane : Plane) → Left slice course plane self.old → Left slice (after_bit course bit) plane self.new }
    {
        self.chosen[self.bucket as usize] = bit;
        self.bucket += 1;
    }

    fn take_start(&mut self, bit: bool)
        requires stage { self.old.stage ≡ stage.Start }
        requires settled { is_settled self.old ≡ true }
        requires left { LeavesOfSome self.old }
        ensures { (slice : ℕ) (course : Course) (plane : Plane) → Left slice course plane self.old → Left slice (after_bit course bit) plane self.new }
    {
        if bit {
            self.stage = Stage::Sign;
        } else {
            self.pass();
            self.left = self.left.saturating_sub(1);
        }
    }

    fn take_sign(&mut self, bit: bool, coefficients: &mut Coefficients)
        requires plane { IsPlane coefficients.old }
        requires left { LeavesSmall coefficients.old self.old }
        requires stage { self.old.stage ≡ stage.Sign }
        ensures left { (slice : ℕ) (course : Course) → Left slice course coefficients.old self.old →
            Left slice (after_bit course bit) coefficients.new self.new }
        ensures width { coefficients.new.width ≡ coefficients.old.width }
        ensures height { coefficients.new.height ≡ coefficients.old.height }
    {
        let size = start_size(threshold(self.number, self.index));
        coefficients.set(self.block, self.index, signed(bit, size));
        self.pass();
        self.stage = Stage::Start;
        self.left = 0;
    }

    fn take_raise(&mut self, bit: bool, coefficients: &mut Coefficients)
        requires plane { IsPlane coefficients.old }
        requires left { LeavesSmall coefficients.old self.old }
        requires stage { self.old.stage ≡ stage.Raise }
        requires settled { is_settled self.old ≡ true }
        ensures left { (slice : ℕ) (course : Course) → Left slice course coefficients.old self.old →
            Left slice (after_bit course bit) coefficients.new self.new }
        ensures width { coefficients.new.width ≡ coefficients.old.width }
        ensures height { coefficients.new.height ≡ coefficients.old.height }
    {
        let size = size_of(coefficients, self.block, self.index);
        let negative = is_negative(coefficients, self.block, self.index);
        let after = raised(threshold(self.number, self.index), size, bit);
        coefficients.set(self.block, self.index, signed(negative, after));
        self.pass();
    }
}
