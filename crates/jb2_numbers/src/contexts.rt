//! The contexts of numbers, as a tree of cells.
ghost use Rattle.std.specs.Prelude.{◌≡◌, ◌<◌, ◌≤◌, ℕ, [], length, get_or, IfOk, IfErr, OnOk, OnErr};
ghost use Rattle.djvu_base.specs.Meter.{ticked_once};
ghost use Rattle.zp_decoder.specs.States.{AreBelow, fresh};
ghost use Rattle.jb2_numbers.specs.Contexts.{Name, name, further, store};
ghost use Rattle.jb2_numbers.specs.Kept.{decisions_in, link, with_link, start, states_of, IsCell};
ghost use Rattle.jb2_numbers.specs.Steps.{Decides, Stops, KeepsCells, state_at};

use crate::paths::Path;
use crate::reader::NumberStep;
use crate::roots::Root;
use djvu_base::Meter;
use std::alloc::{AllocError, Global};
use std::marker::Model;
use zp_decoder::{Decision, ZpDecoder};

/// The context of a name: its state, and the cells of the two names with a decision more.
#[derive(Clone, Copy, Debug)]
pub(crate) struct Cell {
    pub(crate) state: u8,
    /// The number of a cell; or 0 where there is none yet, since no decision leads to the cell of a root.
    pub(crate) after_false: u32,
    /// The same after a true.
    pub(crate) after_true: u32,
}

impl Cell {
    /// At the start of a chunk.
    fn start() -> Cell
        ensures { result ≡ start }
    {
        Cell {
            state: 0,
            after_false: 0,
            after_true: 0,
        }
    }

    /// The cell after a decision, or 0.
    fn link(self, decision: bool) -> u32
        ensures { result ≡ link self decision }
    {
        if decision {
            self.after_true
        } else {
            self.after_false
        }
    }

    /// The same cell, with this one after a decision.
    fn with_link(self, decision: bool, next: u32) -> Cell
        ensures { result ≡ with_link self decision next }
    {
        if decision {
            Cell {
                after_true: next,
                ..self
            }
        } else {
            Cell {
                after_false: next,
                ..self
            }
        }
    }
}

/// The contexts of the numbers of a chunk: a state for each name, which begins at 0. The name of a context is the root
/// of its number and all decisions of this number before it (DjVu 3 reference, JB2). Contracts see them by `states_of`.
///
/// Each name that a number reached has a cell. Those of the sixteen roots come first, and from there the links lead
/// along the decisions; so a number goes one link further with each decision, and searches for none.
#[derive(Debug, Drop)]
pub struct NumberContexts {
    cells: Vec<Cell>,
}

impl Model for NumberContexts {
    ghost use Rattle.jb2_numbers.specs.Kept.{Numbers, HaveNames};

    ghost Value = { Numbers };

    ghost view = { λ a. record { cells = a.cells.items } };

    ghost invariant = { λ a. HaveNames a.cells.items };
}

impl NumberContexts {
    /// Contexts that are all at their start.
    pub fn new(alloc: Global) -> NumberContexts
        ensures start { states_of result ≡ fresh }
        ensures below { (count : ℕ) → 0 < count → AreBelow count (states_of result) }
    {
        NumberContexts {
            cells: Vec::new(alloc),
        }
    }

    /// Brings all contexts back to their start. The room for their cells is kept.
    pub fn reset(&mut self)
        ensures start { states_of self.new ≡ fresh }
        ensures below { (count : ℕ) → 0 < count → AreBelow count (states_of self.new) }
    {
        self.cells.clear();
    }

    /// The cell of the context with this root and these decisions. Where there was none, it is made.
    pub(crate) fn find(&mut self, root: Root, path: Path) -> Result<usize, AllocError>
        ensures cell { IfOk result (λ at. IsCell self.new (name root (decisions_in path)) at) }
        ensures same { states_of self.new ≡ states_of self.old }
    {
        match path.split_last() {
            None => self.root_cell(root),
            Some((before, decision)) => {
                let at = self.find(root, before)?;
                self.next(at, decision)
            }
        }
    }

    /// The cell of a root.
    fn root_cell(&mut self, root: Root) -> Result<usize, AllocError>
        ensures cell { IfOk result (λ at. IsCell self.new (name root []) at) }
        ensures same { states_of self.new ≡ states_of self.old }
    {
        self.make_roots()?;
        Ok(root.index())
    }

    /// Makes the cells of the roots, where there are none.
    fn make_roots(&mut self) -> Result<(), AllocError>
        ensures room { OnOk result (16 ≤ length self.new.cells) }
        ensures same { states_of self.new ≡ states_of self.old }
    {
        if !self.cells.is_empty() {
            return Ok(());
        }
        self.cells.extend_from_slice(&[Cell::start(); 16])?;
        Ok(())
    }

    /// The cell after a decision. Where there was none, it is made.
    pub(crate) fn next(&mut self, at: usize, decision: bool) -> Result<usize, AllocError>
        requires { at < length self.old.cells }
        ensures cell { IfOk result (λ next. (before : Name) → IsCell self.old before at → IsCell self.new (further before decision) next) }
        ensures same { states_of self.new ≡ states_of self.old }
    {
        let link = self.cells[at].link(decision);
        if link == 0 {
            return self.grow(at, decision);
        }
        Ok(link as usize)
    }

    /// Makes the cell after a decision.
    fn grow(&mut self, at: usize, decision: bool) -> Result<usize, AllocError>
        requires within { at < length self.old.cells }
        requires none { link (get_or self.old.cells at start) decision ≡ 0 }
        ensures cell { IfOk result (λ next. (before : Name) → IsCell self.old before at → IsCell self.new (further before decision) next) }
        ensures same { states_of self.new ≡ states_of self.old }
    {
        let next = self.cells.len();
        let Ok(link) = u32::try_from(next) else {
            return Err(AllocError);
        };
        self.cells.push(Cell::start())?;
        self.cells[at] = self.cells[at].with_link(decision, link);
        Ok(next)
    }

    /// Decodes a bit in the context of a cell; or tells what keeps it from that, and then nothing changes.
    pub(crate) fn decode<M: Meter>(
        &mut self,
        at: usize,
        zp: &mut ZpDecoder,
        meter: &mut M,
    ) -> Result<bool, NumberStep>
        requires within { at < length self.old.cells }
        requires below { state_at self.old at < length zp.old.table }
        ensures bit { IfOk result (λ bit. Decides at self.old zp.old bit self.new zp.new) }
        ensures stop { IfErr result (λ stop. Stops at self.old zp.old stop) }
        ensures still { OnErr result ((self.new ≡ self.old) × (zp.new ≡ zp.old) × (meter.new ≡ meter.old)) }
        ensures ticks { OnOk result (M.count meter.new ≡ ticked_once (M.count meter.old)) }
        ensures cells { KeepsCells self.old self.new }
        ensures below { (of : Name) → IsCell self.old of at → AreBelow (length zp.old.table) (states_of self.old) →
            AreBelow (length zp.new.table) (states_of self.new) }
        ensures table { zp.new.table ≡ zp.old.table }
        ensures ended { zp.new.ended ≡ zp.old.ended }
    {
        let mut state = self.cells[at].state;
        match zp.decode(&mut state, meter) {
            Decision::Bit(bit) => {
                self.move_to(at, state);
                Ok(bit)
            }
            Decision::NeedBytes => Err(NumberStep::NeedBytes),
            Decision::Exhausted => Err(NumberStep::Exhausted),
        }
    }

    /// Moves the context of a cell to a state.
    fn move_to(&mut self, at: usize, state: u8)
        requires { at < length self.old.cells }
        ensures cells { KeepsCells self.old self.new }
        ensures stored { (of : Name) → IsCell self.old of at → states_of self.new ≡ store (states_of self.old) of state }
        ensures below { (of : Name) (count : ℕ) → IsCell self.old of at → state < count → AreBelow count (states_of self.old) →
            AreBelow count (states_of self.new) }
    {
        self.cells[at].state = state;
    }
}
