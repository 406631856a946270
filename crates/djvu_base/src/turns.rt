//! Pages that are turned.
ghost use Rattle.std.specs.Prelude.{◌≡◌};
ghost use Rattle.djvu_base.specs.Turn.{turn_of, turn_by_bits};

/// How the drawing of a page is turned against the page as it is coded.
#[derive(Clone, Copy, Debug, PartialEq, Eq)]
pub enum Turn {
    /// As it is coded.
    Upright,
    /// A quarter turn clockwise.
    Right,
    /// A half turn.
    Over,
    /// A quarter turn counterclockwise.
    Left,
}

impl Turn {
    /// The turn that the flags of an `INFO` say by their low three bits: 5 for right, 2 for over, 6 for left, and every
    /// other number for none. An `INFO` without flags leaves the page upright. Takes no memory.
    pub fn of(flags: Option<u8>) -> Turn
        ensures { result ≡ turn_of flags }
    {
        match flags {
            Some(flags) => Turn::by_bits(flags % 8),
            None => Turn::Upright,
        }
    }

    fn by_bits(bits: u8) -> Turn
        ensures { result ≡ turn_by_bits bits }
    {
        match bits {
            5 => Turn::Right,
            2 => Turn::Over,
            6 => Turn::Left,
            _ => Turn::Upright,
        }
    }
}
