//! Digits of words that hold pixels of a row (`Plane::row_from`).
ghost use Rattle.std.specs.Prelude.{◌<◌};
ghost use Rattle.jb2_shapes.specs.Rows.{IsDigit};

/// Whether a digit of a word is 1.
pub(crate) fn is_set(word: u64, at: u32) -> bool
    requires { at < 64 }
    ensures { IsDigit word at result }
{
    word >> at & 1 == 1
}
