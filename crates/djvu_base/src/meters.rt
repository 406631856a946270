//! Meters, which count the decisions of decoders.
ghost use Rattle.std.specs.Prelude.{◌≡◌, ℕ};
ghost use Rattle.djvu_base.specs.Meter.{ticked_once};

use std::marker::Model;

/// What counts decisions.
pub trait Meter {
    /// The number of ticks so far.
    ghost count: { Self → ℕ };

    /// Counts one decision. At `u64::MAX` the count stands still.
    fn tick(&mut self)
        ensures { count self.new ≡ ticked_once (count self.old) };
}

/// A meter that only counts.
#[derive(Debug, Drop)]
pub struct CountMeter {
    ticks: u64,
}

impl Model for CountMeter {
    ghost use Rattle.std.specs.Prelude.{ℕ};

    ghost Value = { ℕ };

    ghost view = { λ a. a.ticks };
}

impl CountMeter {
    /// A meter at 0.
    pub fn new() -> CountMeter
        ensures { result ≡ 0 }
    {
        CountMeter { ticks: 0 }
    }

    /// The ticks so far.
    pub fn count(&self) -> u64
        ensures { result ≡ self.now }
    {
        self.ticks
    }
}

impl Meter for CountMeter {
    ghost count = { λ meter. meter };

    fn tick(&mut self) {
        self.ticks = self.ticks.saturating_add(1);
    }
}
