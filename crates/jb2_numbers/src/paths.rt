//! The decisions of a number so far.
ghost use Rattle.std.specs.Prelude.{◌≡◌, ◌+◌, ◌^◌, ◌<◌, [], ◌∷◌, Some, None};
ghost use Rattle.jb2_numbers.specs.Kept.{decisions_in};
ghost use Rattle.jb2_numbers.specs.Steps.{IsLast};

/// The decisions of a number so far: how many, and as the digits of a number, the last one lowest.
#[derive(Clone, Copy, Debug)]
pub(crate) struct Path {
    pub(crate) count: u8,
    pub(crate) bits: u64,
}

impl Path {
    /// No decision.
    pub(crate) fn new() -> Path
        ensures none { decisions_in result ≡ [] }
        ensures count { result.count ≡ 0 }
        ensures within { result.bits < 2 ^ result.count }
    {
        Path { count: 0, bits: 0 }
    }

    /// One decision more.
    pub(crate) fn with_decision(self, decision: bool) -> Path
        requires few { self.count < 63 }
        requires within { self.bits < 2 ^ self.count }
        ensures more { decisions_in result ≡ decision ∷ decisions_in self }
        ensures count { result.count ≡ self.count + 1 }
        ensures within { result.bits < 2 ^ result.count }
    {
        Path {
            count: self.count + 1,
            bits: 2 * self.bits + u64::from(decision),
        }
    }

    /// The decisions before the last one, and the last one.
    pub(crate) fn split_last(self) -> Option<(Path, bool)>
        ensures { IsLast self result }
    {
        if self.count == 0 {
            return None;
        }
        let before = Path {
            count: self.count - 1,
            bits: self.bits / 2,
        };
        Some((before, self.bits % 2 == 1))
    }
}
