//! Numbers, decision after decision. Those that the bounds imply aren't coded.
ghost use Rattle.std.specs.Prelude.{◌≡◌, ◌+◌, ◌*◌, ◌/◌, ◌^◌, ◌<◌, ◌≤◌, ◌≤ℤ◌, ℕ, ℤ, true, List, Bool, IfOk, not, is_some, nat_le};
ghost use Rattle.bit_plane.specs.Bits.{digit_of};
ghost use Rattle.jb2_numbers.specs.Contexts.{name};
ghost use Rattle.jb2_numbers.specs.Number.{Wanted, wanted};
ghost use Rattle.jb2_numbers.specs.Phases.{Phase as Known, Side as SizeSide, Doubling, Halving, at_least};
ghost use Rattle.jb2_numbers.specs.Phases.{size_of, side_of, next_phase, settled, halved, implied_by};
ghost use Rattle.jb2_numbers.specs.Reader.{AreBounds};
ghost use Rattle.jb2_writer.specs.Coded.{number_coded};
ghost use Rattle.jb2_writer.specs.Coding.{IsSound, Adds, path_number};
ghost use Rattle.jb2_writer.specs.Numbers.{Keeps, Fits, MayDouble, cutoff_of, coded_if};

use crate::coding::Coding;
use jb2_numbers::Root;
use std::alloc::AllocError;

/// What the next decision of a number is about, once its sign is known.
#[derive(Clone, Copy, Debug)]
pub(crate) enum Phase {
    /// Whether the size is at least the cutoff, which doubles after a true.
    Doubling(u32),
    /// The same, with the range of sizes that is left, which is halved.
    Halving(u32, u32),
    /// None: the number is known.
    Known,
}

/// The size of a number, and its bounds. A negative number is `-size - 1`.
#[derive(Clone, Copy, Debug)]
struct Size {
    size: u32,
    low: i32,
    high: i32,
}

/// Whether a value is at least a cutoff.
fn at_least(value: i32, cutoff: u32) -> bool
    ensures { result ≡ at_least value cutoff }
{
    value >= 0 && value as u32 >= cutoff
}

/// Whether the bounds imply nothing of a decision.
fn is_open(low: i32, high: i32, cutoff: u32) -> bool
    ensures { result ≡ not (is_some (implied_by low high cutoff)) }
{
    !at_least(low, cutoff) && at_least(high, cutoff)
}

/// The size of a number from low to high.
fn size_of(low: i32, high: i32, value: i32) -> Size
    ensures size { result.size ≡ size_of value }
    ensures low { result.low ≡ (side_of low high (at_least value 0)).low }
    ensures high { result.high ≡ (side_of low high (at_least value 0)).high }
{
    if value >= 0 {
        Size {
            size: value as u32,
            low,
            high,
        }
    } else {
        Size {
            size: (-1 - value) as u32,
            low: -1 - high,
            high: -1 - low,
        }
    }
}

impl Size {
    /// Whether the size is at least a cutoff.
    fn reaches(self, cutoff: u32) -> bool
        ensures { result ≡ nat_le cutoff self.size }
    {
        self.size >= cutoff
    }

    /// Whether the bounds imply nothing of a decision with a cutoff.
    fn is_open(self, cutoff: u32) -> bool
        ensures { result ≡ not (is_some (implied_by self.low self.high cutoff)) }
    {
        is_open(self.low, self.high, cutoff)
    }
}

/// A path with one decision more.
fn further(path: u64, decision: bool) -> u64
    requires { path < 2 ^ 37 }
    ensures { result ≡ 2 * path + digit_of decision }
{
    2 * path + u64::from(decision)
}

/// After a decision of the doubling.
fn doubled(cutoff: u32, decision: bool) -> Phase
    requires some { 1 ≤ cutoff }
    requires below { cutoff < 0x80000 }
    requires doubles { decision ≡ true → cutoff < 0x40000 }
    ensures keeps { (side : SizeSide) → Keeps side result (next_phase (Doubling side cutoff) decision) }
    ensures fits { Fits result }
{
    if decision {
        Phase::Doubling(2 * cutoff + 1)
    } else {
        settled(cutoff, cutoff.div_ceil(2))
    }
}

/// After the first false of the doubling.
fn settled(cutoff: u32, range: u32) -> Phase
    requires range { range ≡ (cutoff + 1) / 2 }
    requires some { 1 ≤ cutoff }
    requires below { cutoff < 0x80000 }
    ensures keeps { (side : SizeSide) → Keeps side result (settled side cutoff range) }
    ensures fits { Fits result }
{
    if range == 1 {
        Phase::Known
    } else {
        Phase::Halving(cutoff - range / 2, range)
    }
}

/// After a decision of the halving, with the half of the range.
fn halved(cutoff: u32, half: u32, decision: bool) -> Phase
    requires some { 1 ≤ half }
    requires within { 2 * half ≤ cutoff }
    requires below { cutoff + 2 * half < 0x100000 }
    ensures keeps { (side : SizeSide) → Keeps side result (halved side cutoff half decision) }
    ensures fits { Fits result }
{
    if half == 1 {
        Phase::Known
    } else if decision {
        Phase::Halving(cutoff + half / 2, half)
    } else {
        Phase::Halving(cutoff - half / 2, half)
    }
}

impl Phase {
    /// The cutoff of the next decision, if one follows.
    fn cutoff(self) -> Option<u32>
        ensures { result ≡ cutoff_of self }
    {
        match self {
            Phase::Doubling(cutoff) => Some(cutoff),
            Phase::Halving(cutoff, _) => Some(cutoff),
            Phase::Known => None,
        }
    }

    /// The phase after a decision.
    fn next(self, decision: bool) -> Phase
        requires fits { Fits self }
        requires doubles { decision ≡ true → MayDouble self }
        ensures keeps { (side : SizeSide) (at : Known) → Keeps side self at → Keeps side result (next_phase at decision) }
        ensures fits { Fits result }
    {
        match self {
            Phase::Doubling(cutoff) => doubled(cutoff, decision),
            Phase::Halving(cutoff, range) => halved(cutoff, range / 2, decision),
            Phase::Known => Phase::Known,
        }
    }
}

impl Coding {
    /// Codes a decision, unless the bounds imply it.
    fn decide(
        &mut self,
        root: Root,
        path: u64,
        is_open: bool,
        decision: bool,
    ) -> Result<(), AllocError>
        requires sound { IsSound self.old }
        requires path { (decisions : List Bool) × (path_number decisions ≡ path) }
        ensures { (decisions : List Bool) → path_number decisions ≡ path →
            IfOk result (λ _. Adds (coded_if is_open (name root decisions) decision) self.old self.new) }
    {
        if is_open {
            self.decision(root, path, decision)
        } else {
            Ok(())
        }
    }

    /// Codes a number from low to high.
    pub(crate) fn number(
        &mut self,
        root: Root,
        low: i32,
        high: i32,
        value: i32,
    ) -> Result<(), AllocError>
        requires sound { IsSound self.old }
        requires bounds { AreBounds low high }
        requires low { low ≤ℤ value }
        requires high { value ≤ℤ high }
        ensures { IfOk result (λ _. Adds (number_coded root low high value) self.old self.new) }
    {
        let size = size_of(low, high, value);
        let sign = at_least(value, 0);
        self.decide(root, 1, is_open(low, high, 0), sign)?;
        let mut path = further(1, sign);
        let mut phase = Phase::Doubling(1);
        for count in 1..36u32 {
            let Some(cutoff) = phase.cutoff() else {
                return Ok(());
            };
            let decision = size.reaches(cutoff);
            self.decide(root, path, size.is_open(cutoff), decision)?;
            path = further(path, decision);
            phase = phase.next(decision);
        }
        Ok(())
    }
}
