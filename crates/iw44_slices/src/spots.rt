//! Where a reader stands in a plane.
ghost use Rattle.std.specs.Prelude.{◌≡◌, ℕ, ◌+◌};
ghost use Rattle.iw44_blocks.specs.Plane.{Plane, zero_plane};
ghost use Rattle.iw44_slices.specs.Slice.{Course, slice_course};
ghost use Rattle.iw44_slices.specs.declared.spots.Stage.TheVariants as stage;
ghost use Rattle.iw44_slices.specs.Reader.{Left};

/// Which decision of a slice comes next, or what is looked for before it.
#[derive(Clone, Copy, Debug, PartialEq, Eq)]
pub(crate) enum Stage {
    /// The slice hasn't begun.
    Slice,
    /// A block hasn't begun.
    Block,
    /// The root decision.
    Root,
    /// The decision of a bucket, or one of a later bucket.
    Bucket,
    /// The decisions of a band's buckets are there; the coefficients of the ones from this one on that were chosen start.
    Chosen,
    /// Whether a coefficient of the bucket starts, or a later one.
    Start,
    /// The sign of a coefficient that starts.
    Sign,
    /// The bit by which an active coefficient of the bucket is raised, or a later one.
    Raise,
    /// Nothing is left of the slice.
    End,
}

/// Where a reader stands in a plane. What a stage doesn't name is of no meaning there.
#[derive(Clone, Copy, Debug)]
pub(crate) struct Spot {
    /// The number of the slice, or 200 for all from there on.
    pub(crate) number: u8,
    pub(crate) stage: Stage,
    /// The number of the block.
    pub(crate) block: u32,
    /// For each bucket of the band a bit for each coefficient: whether it was active when the band began.
    pub(crate) active: [u16; 16],
    /// The same of unknown ones.
    pub(crate) unknown: [u16; 16],
    /// Whether the band is active.
    pub(crate) is_active: bool,
    /// For each bucket of the band, as far as they are known, whether its decision was 1.
    pub(crate) chosen: [bool; 16],
    /// The number of the bucket in its band.
    pub(crate) bucket: u16,
    /// The index of the coefficient in the block.
    pub(crate) index: u16,
    /// Of the bucket's coefficients from this one on, which ones can have a decision. The lowest bit is this one's.
    pub(crate) word: u16,
    /// How many unknown coefficients may still start in the bucket.
    pub(crate) left: u8,
}

impl Spot {
    /// Before slice 0.
    pub(crate) fn new() -> Spot
        ensures { (width height : ℕ) → Left 0 (slice_course 0 (zero_plane width height)) (zero_plane width height) result }
    {
        Spot {
            number: 0,
            stage: Stage::Slice,
            block: 0,
            active: [0; 16],
            unknown: [0; 16],
            is_active: false,
            chosen: [false; 16],
            bucket: 0,
            index: 0,
            word: 0,
            left: 0,
        }
    }

    /// Before the next slice.
    pub(crate) fn next_slice(&mut self)
        requires { self.old.stage ≡ stage.End }
        ensures { (slice : ℕ) (course : Course) (plane : Plane) → Left slice course plane self.old →
            Left (slice + 1) (slice_course (slice + 1) plane) plane self.new }
    {
        self.stage = Stage::Slice;
        if self.number < 200 {
            self.number += 1;
        }
    }
}
