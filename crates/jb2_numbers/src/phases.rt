//! What is known of a number before its next decision.
ghost use Rattle.std.specs.Prelude.{◌≡◌, ◌+◌, ◌*◌, ◌/◌, ◌<◌, ◌≤◌, IsTrue};
ghost use Rattle.jb2_numbers.specs.Kept.{side_in, phase_in};
ghost use Rattle.jb2_numbers.specs.Phases.{Doubling, at_least, opposite, side_of, number_of, halved, settled, next_phase, implied_by, implied, allows};
ghost use Rattle.jb2_numbers.specs.Steps.{is_sound};

/// The sign of a number, and the bounds of its size: a negative number is `-size - 1`.
#[derive(Clone, Copy, Debug)]
pub(crate) struct Side {
    pub(crate) negative: bool,
    pub(crate) low: i32,
    pub(crate) high: i32,
}

/// What the next decision is about.
#[derive(Clone, Copy, Debug)]
pub(crate) enum Phase {
    /// The sign of a number from low to high.
    Sign(i32, i32),
    /// Whether the size is at least the cutoff, which doubles after a true.
    Doubling(Side, u32),
    /// The same, with the range of sizes that is left, which is halved.
    Halving(Side, u32, u32),
    /// None: the number is known.
    Known(i32),
}

/// Whether a value is at least a cutoff.
fn at_least(value: i32, cutoff: u32) -> bool
    ensures { result ≡ at_least value cutoff }
{
    value >= 0 && value as u32 >= cutoff
}

/// The size of a negative number, and the negative number of a size.
fn opposite(value: i32) -> i32
    ensures { result ≡ opposite value }
{
    -1 - value
}

/// The bounds of the size, by the sign.
fn side_of(low: i32, high: i32, is_positive: bool) -> Side
    ensures { side_in result ≡ side_of low high is_positive }
{
    if is_positive {
        Side {
            negative: false,
            low,
            high,
        }
    } else {
        Side {
            negative: true,
            low: opposite(high),
            high: opposite(low),
        }
    }
}

impl Side {
    /// The number of this size.
    fn number_of(self, size: u32) -> i32
        requires { size < 0x100000 }
        ensures { result ≡ number_of (side_in self) size }
    {
        if self.negative {
            -1 - size as i32
        } else {
            size as i32
        }
    }

    /// What the bounds imply, if anything.
    fn implied_by(self, cutoff: u32) -> Option<bool>
        ensures { result ≡ implied_by self.low self.high cutoff }
    {
        implied_by(self.low, self.high, cutoff)
    }
}

/// After a decision of the doubling.
fn doubled(side: Side, cutoff: u32, decision: bool) -> Phase
    requires some { 1 ≤ cutoff }
    requires below { cutoff < 0x80000 }
    ensures { phase_in result ≡ next_phase (Doubling (side_in side) cutoff) decision }
{
    if decision {
        Phase::Doubling(side, 2 * cutoff + 1)
    } else {
        settled(side, cutoff, (cutoff + 1) / 2)
    }
}

/// What the bounds imply, if anything.
fn implied_by(low: i32, high: i32, cutoff: u32) -> Option<bool>
    ensures { result ≡ implied_by low high cutoff }
{
    if at_least(low, cutoff) {
        Some(true)
    } else if at_least(high, cutoff) {
        None
    } else {
        Some(false)
    }
}

/// After the first false of the doubling.
fn settled(side: Side, cutoff: u32, range: u32) -> Phase
    requires { range ≤ cutoff }
    ensures { phase_in result ≡ settled (side_in side) cutoff range }
{
    if range == 1 {
        Phase::Known(side.number_of(0))
    } else {
        Phase::Halving(side, cutoff - range / 2, range)
    }
}

/// After a decision of the halving, with the half of the range.
fn halved(side: Side, cutoff: u32, range: u32, decision: bool) -> Phase
    requires some { 1 ≤ range }
    requires within { range ≤ cutoff }
    requires below { cutoff + range ≤ 0x80000 }
    ensures { phase_in result ≡ halved (side_in side) cutoff range decision }
{
    if range == 1 {
        Phase::Known(side.number_of(if decision { cutoff } else { cutoff - 1 }))
    } else {
        let half = range / 2;
        Phase::Halving(
            side,
            if decision {
                cutoff + half
            } else {
                cutoff - half
            },
            range,
        )
    }
}

impl Phase {
    /// The phase after a decision that the bounds allow.
    pub(crate) fn next(self, count: u8, decision: bool) -> Phase
        requires sound { IsTrue (is_sound count (phase_in self)) }
        requires allowed { IsTrue (allows (phase_in self) decision) }
        ensures next { phase_in result ≡ next_phase (phase_in self) decision }
        ensures sound { IsTrue (is_sound (count + 1) (phase_in result)) }
    {
        match self {
            Phase::Sign(low, high) => Phase::Doubling(side_of(low, high, decision), 1),
            Phase::Doubling(side, cutoff) => doubled(side, cutoff, decision),
            Phase::Halving(side, cutoff, range) => halved(side, cutoff, range / 2, decision),
            Phase::Known(value) => Phase::Known(value),
        }
    }

    /// The next decision, where the bounds imply it.
    pub(crate) fn implied(self) -> Option<bool>
        ensures { result ≡ implied (phase_in self) }
    {
        match self {
            Phase::Sign(low, high) => implied_by(low, high, 0),
            Phase::Doubling(side, cutoff) => side.implied_by(cutoff),
            Phase::Halving(side, cutoff, _) => side.implied_by(cutoff),
            Phase::Known(_) => None,
        }
    }
}
