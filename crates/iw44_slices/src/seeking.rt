//! How a reader comes to its next decision.
ghost use Rattle.std.specs.Prelude.{◌≡◌, ℕ, ◌+◌, ◌*◌, ◌/◌, ◌<◌, ◌≤◌, ◌==◌, true, false, not, ◌&&◌, nat_lt, slice_index};
ghost use Rattle.iw44_blocks.specs.Plane.{Plane, block_count};
ghost use Rattle.iw44_slices.specs.Bands.{band_of, first_bucket, bucket_count};
ghost use Rattle.iw44_slices.specs.Slice.{Course};
ghost use Rattle.iw44_slices.specs.Reader.{Left, LeavesSome, LeavesOfSome, AreMarked, place_in};
ghost use Rattle.iw44_slices.specs.Moves.{is_settled, steps_left};
ghost use Rattle.iw44_slices.specs.declared.spots.Stage.TheVariants as stage;

use crate::bands::{BUCKET, bucket_count, does_something, first_bucket, is_uniform};
use crate::spots::{Spot, Stage};
use crate::words::{is_blank, words_of};
use iw44_blocks::Coefficients;

impl Spot {
    /// Goes on to the next decision, or to the end of the slice.
    pub(crate) fn seek(&mut self, coefficients: &Coefficients)
        requires { LeavesSome coefficients.now self.old }
        ensures left { (slice : ℕ) (course : Course) → Left slice course coefficients.now self.old → Left slice course coefficients.now self.new }
        ensures settled { is_settled self.new ≡ true }
    {
        while !self.is_settled() {
            self.skip(coefficients);
        }
    }

    /// Whether a decision comes next, or nothing is left.
    fn is_settled(&self) -> bool
        ensures { result ≡ is_settled self.now }
    {
        match self.stage {
            Stage::Slice => false,
            Stage::Block => false,
            Stage::Root => true,
            Stage::Bucket => self.is_bucket_open(),
            Stage::Chosen => false,
            Stage::Start => self.word % 2 == 1,
            Stage::Sign => true,
            Stage::Raise => self.word % 2 == 1,
            Stage::End => true,
        }
    }

    /// Whether the bucket is one of the band, and has an unknown coefficient.
    fn is_bucket_open(&self) -> bool
        ensures { result ≡ (nat_lt self.now.bucket (bucket_count (band_of self.now.number)) && not (slice_index self.now.unknown self.now.bucket == 0)) }
    {
        self.bucket < bucket_count(self.number) && self.unknown[self.bucket as usize] != 0
    }

    /// One step towards the next decision.
    fn skip(&mut self, coefficients: &Coefficients)
        requires left { LeavesSome coefficients.now self.old }
        requires open { is_settled self.old ≡ false }
        ensures left { (slice : ℕ) (course : Course) → Left slice course coefficients.now self.old → Left slice course coefficients.now self.new }
        ensures fewer { steps_left coefficients.now self.new < steps_left coefficients.now self.old }
    {
        match self.stage {
            Stage::Slice => self.begin_slice(),
            Stage::Block => self.begin_block(coefficients),
            Stage::Bucket => self.skip_bucket(),
            Stage::Chosen => self.skip_chosen(),
            Stage::Start => self.skip_start(),
            Stage::Raise => self.skip_raise(coefficients),
            Stage::Root => {}
            Stage::Sign => {}
            Stage::End => {}
        }
    }

    /// Begins the slice, or ends it where no threshold is in use.
    fn begin_slice(&mut self)
        requires { self.old.stage ≡ stage.Slice }
        ensures left { (slice : ℕ) (course : Course) (plane : Plane) → Left slice course plane self.old → Left slice course plane self.new }
        ensures fewer { (slice : ℕ) (course : Course) (plane : Plane) → Left slice course plane self.old →
            steps_left plane self.new < steps_left plane self.old }
    {
        if does_something(self.number) {
            self.stage = Stage::Block;
            self.block = 0;
        } else {
            self.stage = Stage::End;
        }
    }

    /// Begins a block, or ends the slice behind the last one.
    fn begin_block(&mut self, coefficients: &Coefficients)
        requires { self.old.stage ≡ stage.Block }
        ensures left { (slice : ℕ) (course : Course) → Left slice course coefficients.now self.old → Left slice course coefficients.now self.new }
        ensures fewer { (slice : ℕ) (course : Course) → Left slice course coefficients.now self.old →
            steps_left coefficients.now self.new < steps_left coefficients.now self.old }
    {
        if self.block >= coefficients.blocks() {
            self.stage = Stage::End;
            return;
        }
        self.mark(coefficients);
        self.bucket = 0;
        if self.has_root() {
            self.stage = Stage::Root;
        } else {
            self.stage = Stage::Bucket;
        }
    }

    /// Whether the block has a root decision: its band has 16 buckets, and isn't active.
    fn has_root(&self) -> bool
        ensures { result ≡ ((bucket_count (band_of self.now.number) == 16) && not self.now.is_active) }
    {
        bucket_count(self.number) == 16 && !self.is_active
    }

    /// Notes which coefficients of the block's band are active, and which ones are unknown. Where all are 0 under one
    /// threshold, as mostly in large bands, nothing is looked at one by one.
    fn mark(&mut self, coefficients: &Coefficients)
        requires { self.old.block < block_count coefficients.now }
        ensures marks { AreMarked (place_in coefficients.now self.new) self.new.is_active self.new.active self.new.unknown }
        ensures number { self.new.number ≡ self.old.number }
        ensures block { self.new.block ≡ self.old.block }
    {
        let first = first_bucket(self.number);
        let count = bucket_count(self.number);
        if is_uniform(self.number) && is_blank(coefficients, self.block, first, count) {
            self.is_active = false;
            self.active = [0; 16];
            self.unknown = [u16::MAX; 16];
        } else {
            self.mark_each(coefficients);
        }
    }

    /// Notes the same, bucket by bucket.
    fn mark_each(&mut self, coefficients: &Coefficients)
        requires { self.old.block < block_count coefficients.now }
        ensures marks { AreMarked (place_in coefficients.now self.new) self.new.is_active self.new.active self.new.unknown }
        ensures number { self.new.number ≡ self.old.number }
        ensures block { self.new.block ≡ self.old.block }
    {
        let first = first_bucket(self.number);
        self.is_active = false;
        for bucket in 0..bucket_count(self.number) {
            let words = words_of(self.number, coefficients, self.block, first + bucket);
            self.active[bucket as usize] = words.active;
            self.unknown[bucket as usize] = words.unknown;
            self.is_active |= words.active != 0;
        }
    }

    /// Passes a bucket that has no unknown coefficient, or goes on behind the last one.
    fn skip_bucket(&mut self)
        requires stage { self.old.stage ≡ stage.Bucket }
        requires open { is_settled self.old ≡ false }
        ensures left { (slice : ℕ) (course : Course) (plane : Plane) → Left slice course plane self.old → Left slice course plane self.new }
        ensures fewer { (slice : ℕ) (course : Course) (plane : Plane) → Left slice course plane self.old →
            steps_left plane self.new < steps_left plane self.old }
    {
        if self.bucket < bucket_count(self.number) {
            self.chosen[self.bucket as usize] = false;
            self.bucket += 1;
        } else {
            self.stage = Stage::Chosen;
            self.bucket = 0;
        }
    }

    /// Comes to the coefficients of a bucket that was chosen, passes another one, or goes on behind the last one.
    fn skip_chosen(&mut self)
        requires { self.old.stage ≡ stage.Chosen }
        ensures left { (slice : ℕ) (course : Course) (plane : Plane) → Left slice course plane self.old → Left slice course plane self.new }
        ensures fewer { (slice : ℕ) (course : Course) (plane : Plane) → Left slice course plane self.old →
            steps_left plane self.new < steps_left plane self.old }
    {
        if self.bucket >= bucket_count(self.number) {
            self.bucket = 0;
            self.open(Stage::Raise, self.active[0]);
        } else if self.chosen[self.bucket as usize] {
            self.left = self.unknown[self.bucket as usize].count_ones() as u8;
            self.open(Stage::Start, self.unknown[self.bucket as usize]);
        } else {
            self.bucket += 1;
        }
    }

    /// Stands at the first coefficient of the bucket, of whose coefficients these can have a decision.
    fn open(&mut self, stage: Stage, word: u16)
        requires { self.old.bucket < 16 }
        ensures { self.new ≡ record self.old { stage = stage; word = word; index = 16 * (first_bucket (band_of self.old.number) + self.old.bucket) } }
    {
        self.stage = stage;
        self.word = word;
        self.index = BUCKET * (first_bucket(self.number) + self.bucket);
    }

    /// Passes a coefficient that isn't unknown, or goes on behind the last unknown one of the bucket.
    fn skip_start(&mut self)
        requires stage { self.old.stage ≡ stage.Start }
        requires some { LeavesOfSome self.old }
        requires open { is_settled self.old ≡ false }
        ensures left { (slice : ℕ) (course : Course) (plane : Plane) → Left slice course plane self.old → Left slice course plane self.new }
        ensures fewer { (slice : ℕ) (course : Course) (plane : Plane) → Left slice course plane self.old →
            steps_left plane self.new < steps_left plane self.old }
    {
        if self.word == 0 {
            self.stage = Stage::Chosen;
            self.bucket += 1;
        } else {
            self.pass();
        }
    }

    /// Passes a coefficient that isn't active, or goes on behind the last active one of the bucket.
    fn skip_raise(&mut self, coefficients: &Coefficients)
        requires stage { self.old.stage ≡ stage.Raise }
        requires some { LeavesSome coefficients.now self.old }
        requires open { is_settled self.old ≡ false }
        ensures left { (slice : ℕ) (course : Course) → Left slice course coefficients.now self.old → Left slice course coefficients.now self.new }
        ensures fewer { (slice : ℕ) (course : Course) → Left slice course coefficients.now self.old →
            steps_left coefficients.now self.new < steps_left coefficients.now self.old }
    {
        if self.word != 0 {
            self.pass();
        } else if self.bucket + 1 < bucket_count(self.number) {
            self.bucket += 1;
            self.open(Stage::Raise, self.active[self.bucket as usize]);
        } else {
            self.next_block(coefficients.blocks());
        }
    }

    /// Stands behind the coefficient.
    pub(crate) fn pass(&mut self)
        requires { self.old.index < 1024 }
        ensures { self.new ≡ record self.old { word = self.old.word / 2; index = self.old.index + 1 } }
    {
        self.word /= 2;
        self.index += 1;
    }

    /// Stands behind the block, of so many.
    pub(crate) fn next_block(&mut self, blocks: u32)
        requires { self.old.block < blocks }
        ensures { self.new ≡ record self.old { stage = stage.Block; block = self.old.block + 1 } }
    {
        self.stage = Stage::Block;
        self.block += 1;
    }
}
