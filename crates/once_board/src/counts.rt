//! How far rows of a board are filled, for the crates above that keep it at run time. A value may end its row.
ghost use Rattle.std.specs.Prelude.{◌≡◌, ℕ, suc, ◌^◌, ◌<◌, length};
ghost use Rattle.once_board.specs.Filled.{none_filled, used, one_further, count_of, HandedOver, BroughtTogether};

/// How far a row is filled.
#[derive(Clone, Copy, Debug, PartialEq, Eq)]
pub struct RowCount {
    /// How many values that don't end the row it has.
    pub filled: u32,
    /// Whether a value that ends the row comes after these.
    pub ended: bool,
}

impl RowCount {
    /// Of a row that has nothing.
    pub const NONE: RowCount = RowCount {
        filled: 0,
        ended: false,
    };

    /// After one more value, which ends the row or doesn't.
    pub fn further(self, ends: bool) -> RowCount
        requires { suc self.filled < 2 ^ 32 }
        ensures { result ≡ one_further ends self }
    {
        if ends {
            RowCount {
                filled: self.filled,
                ended: true,
            }
        } else {
            RowCount {
                filled: self.filled + 1,
                ended: self.ended,
            }
        }
    }

    /// How many places of the row are filled.
    fn used(self) -> u64
        ensures { result ≡ used self }
    {
        if self.ended {
            u64::from(self.filled) + 1
        } else {
            u64::from(self.filled)
        }
    }
}

/// Hands the counts of the rows of a right over to a seat that got this right and has filled nothing. The rows' rights go round.
pub fn hand_over(counts: &mut [RowCount], off: &mut [RowCount], right: Option<u32>, rights: u32)
    requires long { length off.old ≡ length counts.old }
    requires few { length counts.old < 2 ^ 32 }
    requires shared { 0 < rights }
    requires new { (row : ℕ) → row < length counts.old → count_of off.old row ≡ none_filled }
    ensures { HandedOver right rights counts.old counts.new off.new }
{
    let Some(right) = right else { return };
    for row in 0..counts.len() {
        if row as u32 % rights == right {
            off[row] = counts[row];
            counts[row] = RowCount::NONE;
        }
    }
}

/// Brings the counts of two seats together that are joined: of each row, the count that has more.
pub fn bring_together(counts: &mut [RowCount], others: &[RowCount])
    requires { length others.now ≡ length counts.old }
    ensures { BroughtTogether counts.old others.now counts.new }
{
    for row in 0..counts.len() {
        if counts[row].used() < others[row].used() {
            counts[row] = others[row];
        }
    }
}
