//! How a reader's next decision is read.
ghost use Rattle.std.specs.Prelude.{◌≡◌, ℕ, ◌+◌, ◌<◌, ◌≤◌, true, false, if◌then◌else◌};
ghost use Rattle.iw44_blocks.specs.Plane.{Plane, block_count};
ghost use Rattle.iw44_slices.specs.Slice.{Course, parents_in};
ghost use Rattle.iw44_slices.specs.Reader.{Left, LeavesSome, LeavesOfSome, place_at};
ghost use Rattle.iw44_slices.specs.Moves.{ComesNext, IsAsked, is_settled};
ghost use Rattle.iw44_slices.specs.declared.spots.Stage.TheVariants as stage;

use crate::amounts::{is_large, size_of};
use crate::bands::{band_of, first_bucket, threshold};
use crate::contexts::{BUCKETS, MANTISSA, Question, ROOT, STARTS};
use crate::spots::{Spot, Stage};
use crate::words::parents;
use iw44_blocks::Coefficients;

impl Spot {
    /// How the next decision is read, if one comes.
    pub(crate) fn asked(&self, coefficients: &Coefficients) -> Option<Question>
        requires left { LeavesSome coefficients.now self.now }
        requires settled { is_settled self.now ≡ true }
        ensures next { (slice : ℕ) (course : Course) → Left slice course coefficients.now self.now → ComesNext course result }
        ensures end { result ≡ None → self.now.stage ≡ stage.End }
    {
        match self.stage {
            Stage::Root => Some(Question::In(ROOT)),
            Stage::Bucket => Some(self.bucket_question(coefficients)),
            Stage::Start => Some(self.start_question()),
            Stage::Sign => Some(Question::Plain),
            Stage::Raise => Some(self.raise_question(coefficients)),
            Stage::Slice => None,
            Stage::Block => None,
            Stage::Chosen => None,
            Stage::End => None,
        }
    }

    /// Whether the bucket is chosen: by the parents that aren't 0, and by whether the band is active.
    fn bucket_question(&self, coefficients: &Coefficients) -> Question
        requires left { LeavesSome coefficients.now self.now }
        requires stage { self.now.stage ≡ stage.Bucket }
        requires settled { is_settled self.now ≡ true }
        ensures { (slice : ℕ) (course : Course) → Left slice course coefficients.now self.now → IsAsked course result }
    {
        let bucket = first_bucket(self.number) + self.bucket;
        let band = band_of(self.number);
        let near = near_parents(band, coefficients, self.block, bucket);
        let number = with_activity(near, 4, self.is_active);
        Question::In(BUCKETS + 8 * band as usize + number as usize)
    }

    /// Whether a coefficient starts: by how many may still start, and by whether the bucket is active.
    fn start_question(&self) -> Question
        requires left { LeavesOfSome self.now }
        requires stage { self.now.stage ≡ stage.Start }
        requires settled { is_settled self.now ≡ true }
        ensures { (slice : ℕ) (course : Course) (plane : Plane) → Left slice course plane self.now → IsAsked course result }
    {
        let is_active = self.active[self.bucket as usize] != 0;
        let number = with_activity(u16::from(self.left.min(7)), 8, is_active);
        Question::In(STARTS + number as usize)
    }

    /// The bit of an active coefficient: large ones are read by the IW form, others in the mantissa context.
    fn raise_question(&self, coefficients: &Coefficients) -> Question
        requires left { LeavesSome coefficients.now self.now }
        requires stage { self.now.stage ≡ stage.Raise }
        requires settled { is_settled self.now ≡ true }
        ensures { (slice : ℕ) (course : Course) → Left slice course coefficients.now self.now → IsAsked course result }
    {
        let size = size_of(coefficients, self.block, self.index);
        if is_large(threshold(self.number, self.index), size) {
            Question::Plain
        } else {
            Question::In(MANTISSA)
        }
    }
}

/// How many of a bucket's parents aren't 0, as far as contexts tell them apart; band 0 has none.
fn near_parents(band: u8, coefficients: &Coefficients, block: u32, bucket: u16) -> u16
    requires block { block < block_count coefficients.now }
    requires bucket { bucket < 64 }
    ensures is { (number : ℕ) → result ≡ parents_in band (place_at number block coefficients.now) bucket }
    ensures most { result ≤ 3 }
{
    if band == 0 {
        0
    } else {
        parents(coefficients, block, bucket).min(3)
    }
}

/// The number of a context: so much more where something is active.
fn with_activity(number: u16, more: u16, is_active: bool) -> u16
    requires { number + more < 0x10000 }
    ensures { result ≡ number + (if is_active then more else 0) }
{
    if is_active { number + more } else { number }
}
