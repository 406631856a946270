//! Calls that are numbered, of which some fail.
ghost use Rattle.std.specs.Prelude.{◌≡◌, ◌+◌, ◌<◌, ◌≤◌, length};
ghost use Rattle.std.specs.Bool.{OnTrue};
ghost use Rattle.djvu_outside.specs.Calls.{is_failing, after_call, failures_left, numbered_from_0, number_after, fails_at};

use std::marker::Model;

/// The calls of a folder or a sink in memory, numbered from 0. It tells which of them fail.
#[derive(Debug, Drop)]
pub struct Calls {
    failing: Vec<u64>,
    next: Option<u64>,
}

impl Model for Calls {
    ghost use Rattle.djvu_outside.specs.Calls.{Numbered};

    ghost Value = { Numbered };

    ghost view = { λ a. record { failing = a.failing.items; next = a.next } };
}

impl Calls {
    /// No call was made, and those of these numbers will fail.
    pub fn new(failing: Vec<u64>) -> Calls
        ensures value { result ≡ numbered_from_0 failing.items }
        ensures room { failures_left result ≤ length failing.items }
    {
        Calls {
            failing,
            next: Some(0),
        }
    }

    /// Makes the next call, and answers whether it fails.
    pub fn fails(&mut self) -> bool
        ensures value { result ≡ is_failing self.old }
        ensures after { self.new ≡ after_call self.old }
        ensures fewer { failures_left self.new ≤ failures_left self.old }
        ensures one_fewer { OnTrue result (failures_left self.new + 1 ≤ failures_left self.old) }
    {
        let fails = fails_at(self.next, self.failing.as_slice());
        self.next = number_after(self.next);
        fails
    }
}

fn fails_at(number: Option<u64>, failing: &[u64]) -> bool
    ensures { result ≡ fails_at number failing.now }
{
    match number {
        Some(number) => failing.contains(&number),
        None => false,
    }
}

fn number_after(number: Option<u64>) -> Option<u64>
    ensures { result ≡ number_after number }
{
    match number {
        Some(number) => number.checked_add(1),
        None => None,
    }
}
