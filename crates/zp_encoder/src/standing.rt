//! Where an encoder stands, and how a decision moves it.
ghost use Rattle.std.specs.Prelude.{◌≡◌, ◌<◌, ◌≤◌, ◌+◌, ◌-◌, ◌*◌, ◌/◌, ◌^◌, ℕ, Bool, IfOk, length};
ghost use Rattle.zp_encoder.specs.Codes.{Codes, all_codes, part_of, longer, lengthened, IsAmong};
ghost use Rattle.zp_encoder.specs.Digits.{number_of, digits_of};
ghost use Rattle.zp_encoder.specs.Encoder.{codes_of, IsSound, IsReady, StandsAt};
ghost use Rattle.zp_decoder.specs.Decision.{most_bits};

use crate::digits::Digits;
use std::alloc::{AllocError, Global};

/// The codes of all decisions so far: the least of them, by its digits and the bits behind these, and where the interval
/// of a decoder begins.
#[derive(Debug, Drop)]
pub(crate) struct Standing {
    pub(crate) digits: Digits,
    /// How many bits behind the digits are there, beside the 16 of the code.
    pub(crate) bits: u32,
    /// What the least code has behind the digits, and a carry to them.
    pub(crate) low: u32,
    pub(crate) a: u32,
}

impl Standing {
    /// Before the first decision.
    pub(crate) fn new(alloc: Global) -> Standing
        ensures { StandsAt all_codes result }
    {
        Standing {
            digits: Digits::new(alloc),
            bits: 0,
            low: 0,
            a: 0,
        }
    }

    /// Leaves the codes of a decision with this z, of its more probable bit or of the other one.
    pub(crate) fn write(&mut self, z: u32, probable: bool) -> Result<(), AllocError>
        requires ready { IsReady self.old }
        requires above { self.old.a < z }
        requires below { z < 0x10000 }
        ensures { IfOk result (λ _. StandsAt (lengthened most_bits (part_of probable z (codes_of self.old))) self.new) }
    {
        self.narrow(z, probable);
        self.lengthen()
    }

    /// The bytes of a payload that has one of the codes.
    pub(crate) fn finish(mut self) -> Result<Vec<u8>, AllocError>
        requires { IsReady self }
        ensures among { IfOk result (λ bytes. IsAmong bytes.items (codes_of self)) }
        ensures length { IfOk result (λ bytes. length bytes.items ≡ (codes_of self).n / 8 + 1) }
    {
        let end = self.low + (0x10000 - self.a);
        let digit = (end >> (8 + self.bits)) - 1;
        self.digits.put(digit)?;
        self.digits.finish()
    }

    /// The codes of the more probable bit, which are those from z on, or of the other one.
    fn narrow(&mut self, z: u32, probable: bool)
        requires sound { IsSound self.old }
        requires above { self.old.a < z }
        requires below { z < 0x10000 }
        ensures codes { codes_of self.new ≡ part_of probable z (codes_of self.old) }
        ensures sound { IsSound self.new }
        ensures below { self.new.a < 0x10000 }
    {
        if probable {
            self.low += z - self.a;
            self.a = z;
        } else {
            self.a += 0x10000 - z;
        }
    }

    /// Lengthens the codes, while a is 8000 hexadecimal or more.
    fn lengthen(&mut self) -> Result<(), AllocError>
        requires sound { IsSound self.old }
        requires below { self.old.a < 0x10000 }
        ensures { IfOk result (λ _. StandsAt (lengthened most_bits (codes_of self.old)) self.new) }
    {
        while self.a >= 0x8000 {
            self.lengthen_by_one()?;
        }
        Ok(())
    }

    /// Lengthens the codes by one bit.
    fn lengthen_by_one(&mut self) -> Result<(), AllocError>
        requires sound { IsSound self.old }
        requires high { 0x8000 ≤ self.old.a }
        requires below { self.old.a < 0x10000 }
        ensures codes { IfOk result (λ _. codes_of self.new ≡ longer (codes_of self.old)) }
        ensures sound { IfOk result (λ _. IsSound self.new) }
        ensures a { IfOk result (λ _. self.new.a ≡ 2 * self.old.a - 0x10000) }
    {
        self.a = 2 * self.a - 0x10000;
        self.low *= 2;
        self.bits += 1;
        if self.bits < 8 {
            return Ok(());
        }
        self.digits.put(self.low >> 16)?;
        self.low %= 0x10000;
        self.bits = 0;
        Ok(())
    }
}
