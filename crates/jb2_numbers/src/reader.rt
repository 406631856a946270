//! The reader of a number: it stands between decisions, so that it can go on where bytes or memory were wanting.
ghost use Rattle.std.specs.Prelude.{◌≡◌, ◌≢◌, ◌+◌, ◌<◌, ◌≤◌, ◌≤ℤ◌, ◌⊎◌, ℕ, ℤ, [], length, true, false, negsuc, pos, IfOk, IfErr, OnOk, OnErr, IsTrue};
ghost use Rattle.zp_decoder.specs.Chunk.{Chunk};
ghost use Rattle.zp_decoder.specs.States.{AreBelow};
ghost use Rattle.jb2_numbers.specs.Contexts.{Name, name, further};
ghost use Rattle.jb2_numbers.specs.Kept.{IsCell, states_of};
ghost use Rattle.jb2_numbers.specs.Number.{Wanted, Reading, step, steps, read_on, answer_at};
ghost use Rattle.jb2_numbers.specs.Phases.{Known, allows, is_known};
ghost use Rattle.jb2_numbers.specs.Reader.{AreBounds, Reader, Reads, Stands, Ends, IsUnderway, StaysWithin, step_of};
ghost use Rattle.jb2_numbers.specs.Steps.{KeepsCells, Takes, IsNext, EndsBy, is_stop};

use crate::contexts::NumberContexts;
use crate::paths::Path;
use crate::phases::Phase;
use crate::roots::Root;
use djvu_base::Meter;
use std::marker::Model;
use zp_decoder::ZpDecoder;

/// What a reader of numbers answers.
#[derive(Clone, Copy, Debug, PartialEq, Eq)]
pub enum NumberStep {
    /// The number. A further call answers it again.
    Number(i32),
    /// The bytes that arrived don't determine the next decision: exactly where the definition stands there.
    NeedBytes,
    /// All bytes of the chunk arrived, and with the next decision more than 192 bits past their end would be in use:
    /// exactly where the definition stands there.
    Exhausted,
    /// There was no memory for the context of the next decision, which is made room for before it is decoded.
    OutOfMemory,
}

/// Reads one number (DjVu 3 reference, JB2).
///
/// Contracts speak of it by `Reads number decisions reader`: of this number, with its root and bounds, it has read these
/// decisions, the last one first. `Stands` says this together with what contexts, decoder and meter then hold.
#[derive(Debug, Drop)]
pub struct NumberReader {
    root: Root,
    path: Path,
    phase: Phase,
}

impl Model for NumberReader {
    ghost use Rattle.jb2_numbers.specs.Kept.{decisions_in, phase_in};
    ghost use Rattle.jb2_numbers.specs.Reader.{Reader};
    ghost use Rattle.jb2_numbers.specs.Steps.{IsSound};

    ghost Value = { Reader };

    ghost view = { λ a. record { root = a.root; decisions = decisions_in a.path; phase = phase_in a.phase } };

    ghost invariant = { λ a. IsSound a.path (phase_in a.phase) };
}

impl NumberReader {
    /// Begins a number from low to high, both from -262,143 to 262,142. No decision is read yet.
    #[tactic(auto, unfolding(crate::specs::Reader::Reads, crate::specs::Steps::limit))]
    pub fn begin(low: i32, high: i32, root: Root) -> NumberReader
        requires order { low ≤ℤ high }
        requires least { negsuc 262142 ≤ℤ low }
        requires most { high ≤ℤ pos 262142 }
        ensures { Reads (record { root = root; low = low; high = high }) [] result }
    {
        NumberReader {
            root,
            path: Path::new(),
            phase: Phase::Sign(low, high),
        }
    }

    /// Reads on, as far as the bytes determine it. Each coded decision ticks the meter once.
    ///
    /// After every answer reader, contexts, decoder and meter stand where the definition stands: after an `OutOfMemory`
    /// that is after the decisions that were ticked, and after each other answer as far as the bytes go. The next call
    /// goes on from there.
    pub fn advance<M: Meter>(
        &mut self,
        contexts: &mut NumberContexts,
        zp: &mut ZpDecoder,
        meter: &mut M,
    ) -> NumberStep
        requires { AreBelow (length zp.old.table) (states_of contexts.old) }
        ensures answer { (wanted : Wanted) (chunk : Chunk) (before : ℕ) (reading : Reading) → result ≢ NumberStep.OutOfMemory →
            Stands wanted chunk before reading self.old contexts.old zp.old (M.count meter.old) →
            result ≡ step_of (answer_at wanted chunk (read_on wanted chunk reading)) }
        ensures stands { (wanted : Wanted) (chunk : Chunk) (before : ℕ) (reading : Reading) → result ≢ NumberStep.OutOfMemory →
            Stands wanted chunk before reading self.old contexts.old zp.old (M.count meter.old) →
            Stands wanted chunk before (read_on wanted chunk reading) self.new contexts.new zp.new (M.count meter.new) }
        ensures out_of_memory { (wanted : Wanted) (chunk : Chunk) (before : ℕ) (reading : Reading) → result ≡ NumberStep.OutOfMemory →
            Stands wanted chunk before reading self.old contexts.old zp.old (M.count meter.old) →
            ((count : ℕ) × Stands wanted chunk before (steps count wanted chunk reading) self.new contexts.new zp.new (M.count meter.new)) }
        ensures within { (wanted : Wanted) → AreBounds wanted.low wanted.high → IsUnderway wanted self.old → StaysWithin wanted result self.new }
        ensures below { AreBelow (length zp.new.table) (states_of contexts.new) }
        ensures table { zp.new.table ≡ zp.old.table }
        ensures ended { zp.new.ended ≡ zp.old.ended }
    {
        if let Phase::Known(value) = self.phase {
            return NumberStep::Number(value);
        }
        match contexts.find(self.root, self.path) {
            Ok(at) => self.read_on(at, contexts, zp, meter),
            Err(_) => NumberStep::OutOfMemory,
        }
    }

    /// Reads on from the cell of the next decision.
    fn read_on<M: Meter>(
        &mut self,
        at: usize,
        contexts: &mut NumberContexts,
        zp: &mut ZpDecoder,
        meter: &mut M,
    ) -> NumberStep
        requires unknown { is_known self.old.phase ≡ false }
        requires cell { IsCell contexts.old (name self.old.root self.old.decisions) at }
        requires below { AreBelow (length zp.old.table) (states_of contexts.old) }
        ensures ends { (wanted : Wanted) (chunk : Chunk) (before : ℕ) (reading : Reading) →
            Stands wanted chunk before reading self.old contexts.old zp.old (M.count meter.old) →
            EndsBy wanted chunk before reading result self.old self.new contexts.new zp.new (M.count meter.new) }
        ensures underway { (wanted : Wanted) → IsUnderway wanted self.old → IsUnderway wanted self.new }
        ensures known { (value : ℤ) → result ≡ NumberStep.Number value → self.new.phase ≡ Known value }
        ensures below { AreBelow (length zp.new.table) (states_of contexts.new) }
        ensures table { zp.new.table ≡ zp.old.table }
        ensures ended { zp.new.ended ≡ zp.old.ended }
    {
        let mut at = at;
        'decisions: loop {
            match self.step(at, contexts, zp, meter) {
                Ok(next) => at = next,
                Err(answer) => return answer,
            }
        }
    }

    /// One decision further, and the cell of the next one; or the answer.
    fn step<M: Meter>(
        &mut self,
        at: usize,
        contexts: &mut NumberContexts,
        zp: &mut ZpDecoder,
        meter: &mut M,
    ) -> Result<usize, NumberStep>
        requires unknown { is_known self.old.phase ≡ false }
        requires cell { IsCell contexts.old (name self.old.root self.old.decisions) at }
        requires below { AreBelow (length zp.old.table) (states_of contexts.old) }
        ensures goes { OnOk result ((wanted : Wanted) (chunk : Chunk) (before : ℕ) (reading : Reading) →
            Stands wanted chunk before reading self.old contexts.old zp.old (M.count meter.old) →
            Stands wanted chunk before (step wanted chunk reading) self.new contexts.new zp.new (M.count meter.new)) }
        ensures ends { IfErr result (λ end. (wanted : Wanted) (chunk : Chunk) (before : ℕ) (reading : Reading) →
            Stands wanted chunk before reading self.old contexts.old zp.old (M.count meter.old) →
            EndsBy wanted chunk before reading end self.old self.new contexts.new zp.new (M.count meter.new)) }
        ensures next { IfOk result (λ next. IsNext self.old self.new contexts.new next) }
        ensures underway { (wanted : Wanted) → IsUnderway wanted self.old → IsUnderway wanted self.new }
        ensures known { IfErr result (λ end. (value : ℤ) → end ≡ NumberStep.Number value → self.new.phase ≡ Known value) }
        ensures below { AreBelow (length zp.new.table) (states_of contexts.new) }
        ensures table { zp.new.table ≡ zp.old.table }
        ensures ended { zp.new.ended ≡ zp.old.ended }
    {
        let decision = self.decide(at, contexts, zp, meter)?;
        self.take(decision);
        self.cell_after(at, decision, contexts)
    }

    /// The next decision, which is implied or coded; or what keeps it from being decoded, and then nothing changes.
    fn decide<M: Meter>(
        &self,
        at: usize,
        contexts: &mut NumberContexts,
        zp: &mut ZpDecoder,
        meter: &mut M,
    ) -> Result<bool, NumberStep>
        requires unknown { is_known self.now.phase ≡ false }
        requires cell { IsCell contexts.old (name self.now.root self.now.decisions) at }
        requires below { AreBelow (length zp.old.table) (states_of contexts.old) }
        ensures goes { IfOk result (λ bit. (new : Reader) (wanted : Wanted) (chunk : Chunk) (before : ℕ) (reading : Reading) → Takes self.now bit new →
            Stands wanted chunk before reading self.now contexts.old zp.old (M.count meter.old) →
            Stands wanted chunk before (step wanted chunk reading) new contexts.new zp.new (M.count meter.new)) }
        ensures allowed { IfOk result (λ bit. IsTrue (allows self.now.phase bit)) }
        ensures few { length self.now.decisions ≤ 36 }
        ensures ends { IfErr result (λ end. (wanted : Wanted) (chunk : Chunk) (before : ℕ) (reading : Reading) →
            Stands wanted chunk before reading self.now contexts.old zp.old (M.count meter.old) → Ends wanted chunk reading end) }
        ensures stop { IfErr result (λ end. is_stop end ≡ true) }
        ensures still { OnErr result ((contexts.new ≡ contexts.old) × (zp.new ≡ zp.old) × (meter.new ≡ meter.old)) }
        ensures cells { KeepsCells contexts.old contexts.new }
        ensures below { AreBelow (length zp.new.table) (states_of contexts.new) }
        ensures table { zp.new.table ≡ zp.old.table }
        ensures ended { zp.new.ended ≡ zp.old.ended }
    {
        match self.phase.implied() {
            Some(decision) => Ok(decision),
            None => contexts.decode(at, zp, meter),
        }
    }

    /// One decision more.
    fn take(&mut self, decision: bool)
        requires { IsTrue (allows self.old.phase decision) }
        ensures takes { Takes self.old decision self.new }
        ensures few { length self.old.decisions < 36 }
    {
        self.phase = self.phase.next(self.path.count, decision);
        self.path = self.path.with_decision(decision);
    }

    /// The cell of the decision after this one; or the number, where no decision follows.
    fn cell_after(
        &self,
        at: usize,
        decision: bool,
        contexts: &mut NumberContexts,
    ) -> Result<usize, NumberStep>
        requires { at < length contexts.old.cells }
        ensures cell { IfOk result (λ next. (before : Name) → IsCell contexts.old before at → IsCell contexts.new (further before decision) next) }
        ensures unknown { OnOk result (is_known self.now.phase ≡ false) }
        ensures end { IfErr result (λ end. (end ≡ NumberStep.OutOfMemory) ⊎ ((value : ℤ) × (self.now.phase ≡ Known value) × (end ≡ NumberStep.Number value))) }
        ensures same { states_of contexts.new ≡ states_of contexts.old }
    {
        if let Phase::Known(value) = self.phase {
            return Err(NumberStep::Number(value));
        }
        match contexts.next(at, decision) {
            Ok(next) => Ok(next),
            Err(_) => Err(NumberStep::OutOfMemory),
        }
    }
}
