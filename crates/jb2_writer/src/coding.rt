//! Bits in their contexts.
ghost use Rattle.std.specs.Prelude.{◌≡◌, ◌<◌, [], ◌∷◌, ℕ, List, Bool, IfOk, length, replicate};
ghost use Rattle.std.specs.Arc.{arc_value};
ghost use Rattle.jb2_numbers.specs.Contexts.{name};
ghost use Rattle.jb2_numbers.specs.Roots.{root_index};
ghost use Rattle.jb2_shapes.specs.Numbers.{number_of, number_limit, IsNumber};
ghost use Rattle.jb2_writer.specs.Coded.{Coded, Bit, Anew, Number, Pixel, Flag, RowStart};
ghost use Rattle.jb2_writer.specs.Coding.{IsSound, HasCoded, Adds, path_number};
ghost use Rattle.jb2_writer.specs.Contexts.{AreWritten};

use jb2_numbers::Root;
use jb2_shapes::laws::contexts_are_named;
use std::alloc::{AllocError, Global};
use std::collections::HashMap;
use std::sync::Arc;
use zp_encoder::ZpEncoder;
use zp_table::Table;

/// An encoder with the states of all contexts of a chunk.
#[derive(Debug, Drop)]
pub(crate) struct Coding {
    pub(crate) encoder: ZpEncoder,
    /// Those of numbers, by the root and by the decisions before, as binary digits behind a one. Where there is none it is 0.
    pub(crate) numbers: HashMap<(u8, u64), u8>,
    /// Those of pixels, each under its number.
    pub(crate) pixels: Vec<u8>,
    /// That of the flag of a start.
    pub(crate) flag: u8,
    /// That of the bit that tells a new row.
    pub(crate) row: u8,
}

impl Coding {
    /// At the beginning of a chunk: nothing was coded.
    pub(crate) fn new(alloc: Global, table: Arc<Table>) -> Result<Coding, AllocError>
        ensures coded { IfOk result (λ coding. HasCoded [] coding) }
        ensures sound { IfOk result (λ coding. IsSound coding) }
        ensures table { IfOk result (λ coding. coding.encoder.table ≡ arc_value table) }
    {
        // Its clauses say that there is a row.
        let _rows = table.len();
        Ok(Coding {
            encoder: ZpEncoder::new(alloc, table),
            numbers: HashMap::new(alloc),
            pixels: zeros(alloc, number_limit())?,
            flag: 0,
            row: 0,
        })
    }

    /// The bytes of a chunk in which what was coded is written.
    pub(crate) fn finish(self) -> Result<Vec<u8>, AllocError>
        ensures { (bits : List Coded) → HasCoded bits self → IfOk result (λ bytes. AreWritten self.encoder.table bytes.items bits) }
    {
        self.encoder.finish()
    }

    /// Codes the flag of a start.
    pub(crate) fn flag(&mut self, bit: bool) -> Result<(), AllocError>
        requires { IsSound self.old }
        ensures { IfOk result (λ _. Adds (Bit Flag bit ∷ []) self.old self.new) }
    {
        self.encoder.encode(&mut self.flag, bit)
    }

    /// Codes whether a mark begins a new row.
    pub(crate) fn row(&mut self, bit: bool) -> Result<(), AllocError>
        requires { IsSound self.old }
        ensures { IfOk result (λ _. Adds (Bit RowStart bit ∷ []) self.old self.new) }
    {
        self.encoder.encode(&mut self.row, bit)
    }

    /// Codes a pixel in the context with this number.
    pub(crate) fn pixel(&mut self, number: usize, bit: bool) -> Result<(), AllocError>
        requires sound { IsSound self.old }
        requires number { IsNumber number }
        ensures { (colours : List Bool) → number_of colours ≡ number → IfOk result (λ _. Adds (Bit (Pixel colours) bit ∷ []) self.old self.new) }
    {
        contexts_are_named();
        self.encoder.encode(&mut self.pixels[number], bit)
    }

    /// Codes a decision of a number, behind those that are the digits of a path.
    pub(crate) fn decision(&mut self, root: Root, path: u64, bit: bool) -> Result<(), AllocError>
        requires sound { IsSound self.old }
        requires path { (decisions : List Bool) × (path_number decisions ≡ path) }
        ensures { (decisions : List Bool) → path_number decisions ≡ path →
            IfOk result (λ _. Adds (Bit (Number (name root decisions)) bit ∷ []) self.old self.new) }
    {
        let key = key_of(root, path);
        let mut state = self.numbers.get(&key).copied().unwrap_or(0);
        self.encoder.encode(&mut state, bit)?;
        self.numbers.insert(key, state)?;
        Ok(())
    }

    /// Brings the contexts of numbers back to their start.
    pub(crate) fn reset_numbers(&mut self)
        requires { IsSound self.old }
        ensures { Adds (Anew ∷ []) self.old self.new }
    {
        self.numbers.clear();
    }
}

/// The key of a context: what the number stands for, and the digits of the decisions before.
fn key_of(root: Root, path: u64) -> (u8, u64)
    ensures { result ≡ (root_index root, path) }
{
    (root as u8, path)
}

/// So many numbers of contexts there are, some of which stay unused.
fn number_limit() -> usize
    ensures { result ≡ number_limit }
{
    4096
}

/// So many states 0.
fn zeros(alloc: Global, count: usize) -> Result<Vec<u8>, AllocError>
    ensures { IfOk result (λ states. states.items ≡ replicate count 0) }
{
    vec![in alloc; 0u8; count]
}
