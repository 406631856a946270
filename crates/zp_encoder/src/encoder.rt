//! The encoder.
ghost use Rattle.std.specs.Prelude.{◌≡◌, ◌<◌, ◌≤◌, ◌+◌, ◌*◌, ◌++◌, ◌∷◌, [], ℕ, List, true, false, None, IfOk, IsOk, OnErr, length, is_err};
ghost use Rattle.std.specs.Arc.{arc_value};
ghost use Rattle.zp_decoder.specs.Decision.{Adaptive, Pass, Iw, most_bits};
ghost use Rattle.zp_decoder.specs.Runs.{answers};
ghost use Rattle.zp_encoder.specs.Codes.{code_with, part_of, lengthened};
ghost use Rattle.zp_encoder.specs.Written.{Written, written, forms_of, bits_of, states_of, states_read};
ghost use Rattle.zp_encoder.specs.Encoder.{Encoder, Wrote};

use crate::standing::Standing;
use std::alloc::{AllocError, Global};
use std::marker::Model;
use std::sync::Arc;
use zp_decoder::{adaptive_split, iw_split, next_state, pass_split};
use zp_table::Table;

/// Writes decisions, as bytes from which a decoder decides them.
///
/// Contracts see its table, whether a call found no memory, and which codes make all decisions so far. They speak of these
/// decisions by `Wrote decisions encoder` (DjVu 3 reference, ZP-Coder).
#[derive(Debug, Drop)]
pub struct ZpEncoder {
    table: Arc<Table>,
    failed: bool,
    kept: Standing,
}

impl Model for ZpEncoder {
    ghost use Rattle.std.specs.Prelude.{◌≡◌, false};
    ghost use Rattle.std.specs.Arc.{arc_value};
    ghost use Rattle.zp_encoder.specs.Encoder.{Encoder, codes_of, IsReady};

    ghost Value = { Encoder };

    ghost view = { λ a. record { table = arc_value a.table; failed = a.failed; codes = codes_of a.kept } };

    ghost invariant = { λ a. a.failed ≡ false → IsReady a.kept };
}

impl ZpEncoder {
    /// An encoder before the first decision.
    #[tactic(auto, unfolding(crate::specs::Encoder::Wrote))]
    pub fn new(alloc: Global, table: Arc<Table>) -> ZpEncoder
        ensures table { result.table ≡ arc_value table }
        ensures works { result.failed ≡ false }
        ensures wrote { Wrote [] result }
    {
        ZpEncoder {
            table,
            failed: false,
            kept: Standing::new(alloc),
        }
    }

    /// Writes a bit in a context, whose state moves by the table. After want of memory every call answers so.
    #[tactic(auto, unfolding(crate::specs::Encoder::Wrote))]
    pub fn encode(&mut self, ctx: &mut u8, bit: bool) -> Result<(), AllocError>
        requires { ctx.old < length self.old.table }
        // The decision is written behind those before it, with the state that it leaves.
        ensures wrote { (decisions : List Written) → Wrote decisions self.old →
            IfOk result (λ _. Wrote (decisions ++ written (Adaptive ctx.old) bit ctx.new ∷ []) self.new) }
        ensures below { ctx.new < length self.new.table }
        ensures table { self.new.table ≡ self.old.table }
        ensures failed { self.new.failed ≡ is_err result }
        ensures again { self.old.failed ≡ true → is_err result ≡ true }
        ensures unchanged { OnErr result (ctx.new ≡ ctx.old) }
    {
        let row = self.table.row(*ctx);
        let a = self.start()?;
        let z = adaptive_split(row.p, a);
        let probable = (*ctx % 2 == 1) == bit;
        self.write(z, probable)?;
        *ctx = next_state(row, *ctx, z, a, code_with(probable, z, a));
        Ok(())
    }

    /// Writes a bit without a context.
    #[tactic(auto, unfolding(crate::specs::Encoder::Wrote))]
    pub fn pass(&mut self, bit: bool) -> Result<(), AllocError>
        ensures wrote { (decisions : List Written) → Wrote decisions self.old → IfOk result (λ _. Wrote (decisions ++ written Pass bit 0 ∷ []) self.new) }
        ensures table { self.new.table ≡ self.old.table }
        ensures failed { self.new.failed ≡ is_err result }
        ensures again { self.old.failed ≡ true → is_err result ≡ true }
    {
        let a = self.start()?;
        self.write(pass_split(a), !bit)?;
        Ok(())
    }

    /// Writes a bit without a context, in the form of IW44's coefficients.
    #[tactic(auto, unfolding(crate::specs::Encoder::Wrote))]
    pub fn iw(&mut self, bit: bool) -> Result<(), AllocError>
        ensures wrote { (decisions : List Written) → Wrote decisions self.old → IfOk result (λ _. Wrote (decisions ++ written Iw bit 0 ∷ []) self.new) }
        ensures table { self.new.table ≡ self.old.table }
        ensures failed { self.new.failed ≡ is_err result }
        ensures again { self.old.failed ≡ true → is_err result ≡ true }
    {
        let a = self.start()?;
        self.write(iw_split(a), !bit)?;
        Ok(())
    }

    /// The bytes of a whole chunk from which a decoder decides what was written, in order, and leaves the same states.
    #[tactic(auto, unfolding(crate::specs::Encoder::Wrote))]
    pub fn finish(self) -> Result<Vec<u8>, AllocError>
        ensures answers { (decisions : List Written) → Wrote decisions self →
            IfOk result (λ bytes. answers self.table bytes.items true None (forms_of decisions) ≡ bits_of decisions) }
        ensures states { (decisions : List Written) → Wrote decisions self →
            IfOk result (λ bytes. states_read self.table bytes.items (forms_of decisions) ≡ states_of decisions) }
        ensures size { (decisions : List Written) → Wrote decisions self → IfOk result (λ bytes. length bytes.items ≤ 2 * length decisions + 1) }
        ensures failed { self.failed ≡ true → is_err result ≡ true }
    {
        if self.failed {
            return Err(AllocError);
        }
        // Its clauses say that the rows are those of a table, as decisions need them.
        let _rows = self.table.len();
        self.kept.finish()
    }

    /// Where the interval of a decoder begins, unless a call found no memory.
    fn start(&self) -> Result<u32, AllocError>
        ensures start { IfOk result (λ a. (a ≡ self.now.codes.a) × (a < 0x8000) × (self.now.failed ≡ false)) }
        ensures failed { OnErr result (self.now.failed ≡ true) }
    {
        if self.failed {
            return Err(AllocError);
        }
        Ok(self.kept.a)
    }

    /// Writes a decision with this z, of its more probable bit or of the other one.
    fn write(&mut self, z: u32, probable: bool) -> Result<(), AllocError>
        requires works { self.old.failed ≡ false }
        requires above { self.old.codes.a < z }
        requires below { z < 0x10000 }
        ensures codes { IfOk result (λ _. self.new.codes ≡ lengthened most_bits (part_of probable z self.old.codes)) }
        ensures table { self.new.table ≡ self.old.table }
        ensures failed { self.new.failed ≡ is_err result }
    {
        let written = self.kept.write(z, probable);
        self.failed = written.is_err();
        written
    }
}

/// A code that makes the more probable bit, or the other one.
fn code_with(probable: bool, z: u32, a: u32) -> u32
    ensures { result ≡ code_with probable z a }
{
    if probable { z } else { a }
}
