//! The bytes that are written, as digits of a number to which a carry may still come.
ghost use Rattle.std.specs.Prelude.{◌≡◌, ◌<◌, ◌≤◌, ◌+◌, ◌++◌, ℕ, [], true, false, None, IfOk, length, replicate, if◌then◌else◌};
ghost use Rattle.std.specs.Option.{option_to_list, option_map};
ghost use Rattle.zp_encoder.specs.Digits.{number_of, digits_of, is_raisable, LeavesRoom, carry_of, Settles, Carries, Appends};

use std::alloc::{AllocError, Global};

/// The digits of a number, to the base of 256 and the highest first. One can be added to it, and then another digit
/// follows. So of the digits that a carry would change, only the first one and their number are kept.
#[derive(Debug, Drop)]
pub(crate) struct Digits {
    /// The digits that no carry reaches.
    pub(crate) settled: Vec<u8>,
    /// The digit behind them, which a carry raises.
    pub(crate) last: Option<u8>,
    /// How many digits of 255 follow: a carry makes each of them 0.
    pub(crate) run: usize,
}

impl Digits {
    /// No digit.
    pub(crate) fn new(alloc: Global) -> Digits
        ensures digits { digits_of result ≡ [] }
        ensures fixed { is_raisable result ≡ false }
        ensures room { LeavesRoom result }
    {
        Digits {
            settled: Vec::new(alloc),
            last: None,
            run: 0,
        }
    }

    /// Appends a digit, and adds a carry to those before it where the digit is 256 or more.
    pub(crate) fn put(&mut self, digit: u32) -> Result<(), AllocError>
        requires below { digit < 512 }
        requires raisable { 256 ≤ digit → is_raisable self.old ≡ true }
        requires room { LeavesRoom self.old }
        ensures { IfOk result (λ _. Appends digit self.old self.new) }
    {
        self.carry(digit >= 256)?;
        self.append((digit % 256) as u8)
    }

    /// The digits as bytes.
    pub(crate) fn finish(mut self) -> Result<Vec<u8>, AllocError>
        requires { LeavesRoom self }
        ensures { IfOk result (λ bytes. bytes.items ≡ digits_of self) }
    {
        self.settle(false)?;
        Ok(self.settled)
    }

    /// Adds a carry, or does nothing.
    fn carry(&mut self, raised: bool) -> Result<(), AllocError>
        requires raisable { raised ≡ true → is_raisable self.old ≡ true }
        requires room { LeavesRoom self.old }
        ensures { IfOk result (λ _. Carries raised self.old self.new) }
    {
        if raised { self.settle(true) } else { Ok(()) }
    }

    /// Appends a digit.
    fn append(&mut self, byte: u8) -> Result<(), AllocError>
        requires { LeavesRoom self.old }
        ensures { IfOk result (λ _. Appends byte self.old self.new) }
    {
        if byte == 255 {
            return self.extend_run();
        }
        self.settle(false)?;
        self.last = Some(byte);
        Ok(())
    }

    /// Appends a digit of 255. No memory could hold more of them than can be counted.
    fn extend_run(&mut self) -> Result<(), AllocError>
        ensures { IfOk result (λ _. (self.new.settled.items ≡ self.old.settled.items) × (self.new.last ≡ self.old.last) × (self.new.run ≡ self.old.run + 1)) }
    {
        let Some(run) = self.run.checked_add(1) else {
            return Err(AllocError);
        };
        self.run = run;
        Ok(())
    }

    /// Settles all digits, with a carry or without one.
    fn settle(&mut self, raised: bool) -> Result<(), AllocError>
        requires raisable { raised ≡ true → is_raisable self.old ≡ true }
        requires room { LeavesRoom self.old }
        ensures { IfOk result (λ _. Settles raised self.old self.new) }
    {
        self.settle_last(raised)?;
        self.settle_run(if raised { 0 } else { 255 })
    }

    /// Settles the last digit, with a carry or without one.
    fn settle_last(&mut self, raised: bool) -> Result<(), AllocError>
        requires room { LeavesRoom self.old }
        ensures items { IfOk result (λ _. self.new.settled.items ≡ self.old.settled.items
            ++ option_to_list (option_map (λ last. last + carry_of raised) self.old.last)) }
        ensures last { IfOk result (λ _. self.new.last ≡ None) }
        ensures run { self.new.run ≡ self.old.run }
    {
        let Some(last) = self.last else {
            return Ok(());
        };
        self.settled.push(last + u8::from(raised))?;
        self.last = None;
        Ok(())
    }

    /// Settles the run, each of its digits as this byte.
    fn settle_run(&mut self, byte: u8) -> Result<(), AllocError>
        ensures { IfOk result (λ _. (self.new.settled.items ≡ self.old.settled.items ++ replicate self.old.run byte) × (self.new.last ≡ self.old.last)
            × (self.new.run ≡ 0)) }
    {
        let Some(length) = self.settled.len().checked_add(self.run) else {
            return Err(AllocError);
        };
        self.settled.resize(length, byte)?;
        self.run = 0;
        Ok(())
    }
}
