//! The reader of records, whatever they are for. `specs/ReaderState.antt` says how it stands to its bytes.
ghost use Rattle.std.specs.Prelude.{◌≡◌, ◌≢◌, ℕ, ◌-◌, ◌≤◌, List, [], ◌++◌, length, true, false, Some, None, IfOk, OnOk, OnErr};
ghost use Rattle.std.specs.Arc.{arc_value};
ghost use Rattle.djvu_base.specs.Meter.{ticked, TicksExactly};
ghost use Rattle.jb2_records.specs.Reading.{records_of};
ghost use Rattle.jb2_records.specs.Reader.{inherited_of};
ghost use Rattle.jb2_records.specs.Library.{Keeps, IsPurpose};
ghost use Rattle.jb2_records.specs.Picture.{Draws};
ghost use Rattle.jb2_records.specs.ReaderState.{Fed, input_of, standing, IsDrawnFor, answer_of, step_of};

use crate::coder::Coder;
use crate::dictionary::Dictionary;
use crate::library::Library;
use crate::machine::{Halt, Machine};
use crate::purpose::Purpose;
use crate::reader::Jb2Step;
use crate::steps::{Field, Step};
use djvu_base::Meter;
use std::alloc::{AllocError, Global};
use std::marker::Model;
use std::sync::Arc;
use zp_table::Table;

/// Reads the records of a chunk that arrives in pieces.
#[derive(Drop)]
pub(crate) struct RecordReader {
    machine: Machine,
    /// Where the reading goes on, until an answer stands.
    step: Option<Step>,
    /// The last answer.
    answer: Jb2Step,
}

impl Model for RecordReader {
    ghost use Rattle.jb2_records.specs.ReaderState.{ReaderState, state_of, IsHeld};

    ghost Value = { ReaderState };

    ghost view = { λ a. state_of (record { step = a.step; answer = a.answer; machine = a.machine }) };

    ghost invariant = { λ a. IsHeld (record { step = a.step; answer = a.answer; machine = a.machine }) };
}

impl RecordReader {
    /// A reader of which no byte arrived.
    pub(crate) fn new(
        alloc: Global,
        table: Arc<Table>,
        inherited: Option<Arc<Dictionary>>,
        purpose: Purpose,
    ) -> Result<RecordReader, AllocError>
        requires { IsPurpose purpose }
        ensures fed { IfOk result (λ reader. Fed [] reader) }
        ensures source { IfOk result (λ reader. reader.source ≡
            record { table = arc_value table; inherited = inherited_of inherited; purpose = purpose }) }
        ensures open_end { IfOk result (λ reader. reader.ended ≡ false) }
        ensures answered { IfOk result (λ reader. reader.answered ≡ None) }
        ensures units { IfOk result (λ reader. reader.units ≡ 0) }
        ensures decisions { IfOk result (λ reader. reader.decisions ≡ 0) }
    {
        let machine = Machine {
            alloc,
            coder: Coder::new(alloc, table)?,
            library: Library::new(alloc, inherited, purpose),
            picture: None,
            units: 0,
        };
        let step = machine.ask(Field::Kind);
        Ok(RecordReader {
            machine,
            step: Some(step),
            answer: Jb2Step::NeedBytes,
        })
    }

    /// The next bytes of the chunk, which hasn't ended. Where there is no memory for them, nothing changes. Behind an answer that
    /// stands they aren't kept.
    pub(crate) fn push(&mut self, piece: &[u8]) -> Result<(), AllocError>
        requires { self.old.ended ≡ false }
        ensures fed { OnOk result ((payload : List ℕ) → Fed payload self.old → Fed (payload ++ piece.now) self.new) }
        ensures err { OnErr result (self.new ≡ self.old) }
        ensures source { self.new.source ≡ self.old.source }
        ensures open_end { self.new.ended ≡ false }
        ensures answered { self.new.answered ≡ self.old.answered }
        ensures units { self.new.units ≡ self.old.units }
        ensures decisions { self.new.decisions ≡ self.old.decisions }
    {
        if self.step.is_none() {
            return Ok(());
        }
        self.machine.coder.push(piece)
    }

    /// The bytes so far are the whole chunk. A further call changes nothing.
    pub(crate) fn end(&mut self)
        ensures fed { (payload : List ℕ) → Fed payload self.old → Fed payload self.new }
        ensures ended { self.new.ended ≡ true }
        ensures again { self.old.ended ≡ true → self.new ≡ self.old }
        ensures source { self.new.source ≡ self.old.source }
        ensures answered { self.new.answered ≡ self.old.answered }
        ensures units { self.new.units ≡ self.old.units }
        ensures decisions { self.new.decisions ≡ self.old.decisions }
    {
        self.machine.coder.end();
    }

    /// Reads on, as far as the bytes go. Each decision that is new ticks the meter once. `Finished` and `Refused` are
    /// answered from then on.
    pub(crate) fn advance<M: Meter>(&mut self, meter: &mut M) -> Jb2Step
        ensures answer { (payload : List ℕ) → Fed payload self.old → result ≢ Jb2Step.OutOfMemory →
            result ≡ (records_of (input_of self.old payload)).answer }
        ensures units { (payload : List ℕ) → Fed payload self.old → result ≢ Jb2Step.OutOfMemory →
            TicksExactly (length (records_of (input_of self.old payload)).records) 0 self.new.units }
        ensures decisions { (payload : List ℕ) → Fed payload self.old → result ≢ Jb2Step.OutOfMemory →
            TicksExactly (records_of (input_of self.old payload)).decisions 0 self.new.decisions }
        ensures at_most { (payload : List ℕ) → Fed payload self.old →
            (self.new.units ≤ ticked (length (records_of (input_of self.old payload)).records) 0)
            × (self.new.decisions ≤ ticked (records_of (input_of self.old payload)).decisions 0) }
        ensures fed { (payload : List ℕ) → Fed payload self.old → Fed payload self.new }
        ensures answered { self.new.answered ≡ standing result self.old.answered }
        ensures stays { (step : Jb2Step) → self.old.answered ≡ Some step → (result ≡ step) × (self.new ≡ self.old) }
        ensures ticks { TicksExactly (self.new.decisions - self.old.decisions) (M.count meter.old) (M.count meter.new) }
        ensures more_units { self.old.units ≤ self.new.units }
        ensures more_decisions { self.old.decisions ≤ self.new.decisions }
        ensures source { self.new.source ≡ self.old.source }
        ensures ended { self.new.ended ≡ self.old.ended }
    {
        let Some(step) = self.step.take() else {
            return self.answer;
        };
        let before = self.machine.coder.decisions();
        let halt = self.machine.run(step);
        tick(meter, self.machine.coder.decisions() - before);
        self.answer = answer_of(&halt);
        self.step = step_of(halt);
        self.answer
    }

    /// Records that were read whole.
    pub(crate) fn units(&self) -> u64
        ensures { result ≡ self.now.units }
    {
        self.machine.units
    }

    /// Decisions that were read.
    pub(crate) fn decisions(&self) -> u64
        ensures { result ≡ self.now.decisions }
    {
        self.machine.coder.decisions()
    }

    /// What the records came to, once they ended.
    pub(crate) fn into_machine(self) -> Machine
        requires { self.answered ≡ Some Jb2Step.Finished }
        ensures keeps { (payload : List ℕ) → Fed payload self → Keeps (input_of self payload) (records_of (input_of self payload)).records result.library }
        ensures draws { (payload : List ℕ) → Fed payload self → Draws (input_of self payload) (records_of (input_of self payload)).records result.picture }
        ensures drawn { IsDrawnFor self.source.purpose result.picture }
    {
        self.machine
    }
}

/// The answer where the reading halts.
fn answer_of(halt: &Halt) -> Jb2Step
    ensures { result ≡ answer_of halt.now }
{
    match halt {
        Halt::NeedBytes(_) => Jb2Step::NeedBytes,
        Halt::OutOfMemory(_) => Jb2Step::OutOfMemory,
        Halt::Refused(kind) => Jb2Step::Refused(*kind),
        Halt::Finished => Jb2Step::Finished,
    }
}

/// Where the reading goes on.
fn step_of(halt: Halt) -> Option<Step>
    ensures { result ≡ step_of halt }
{
    match halt {
        Halt::NeedBytes(step) | Halt::OutOfMemory(step) => Some(step),
        Halt::Refused(_) | Halt::Finished => None,
    }
}

/// Ticks a meter so many times.
fn tick<M: Meter>(meter: &mut M, count: u64)
    ensures { TicksExactly count (M.count meter.old) (M.count meter.new) }
{
    'ticks: for _ in 0..count {
        meter.tick();
    }
}
