//! The reader of a dictionary.
ghost use Rattle.std.specs.Prelude.{◌≡◌, ◌≢◌, ℕ, ◌-◌, ◌≤◌, List, [], ◌++◌, length, true, false, Some, None, IfOk, OnOk, OnErr};
ghost use Rattle.std.specs.Arc.{arc_value};
ghost use Rattle.djvu_base.specs.Meter.{ticked, TicksExactly};
ghost use Rattle.jb2_records.specs.declared.purpose.Purpose.TheVariants as purpose;
ghost use Rattle.jb2_records.specs.Reading.{records_of};
ghost use Rattle.jb2_records.specs.Mask.{library_left};
ghost use Rattle.jb2_records.specs.Reader.{inherited_of};
ghost use Rattle.jb2_records.specs.ReaderState.{Fed, input_of, standing};

use crate::dictionary::Dictionary;
use crate::machine::Machine;
use crate::purpose::Purpose;
use crate::reader::Jb2Step;
use crate::records::RecordReader;
use djvu_base::Meter;
use std::alloc::{AllocError, Global};
use std::marker::Model;
use std::sync::Arc;
use zp_table::Table;

/// Reads the records of a `Djbz`, which bring a dictionary. It can stop at any decision, and keeps the bytes that it hasn't used.
#[derive(Drop)]
pub struct DictReader {
    records: RecordReader,
}

impl Model for DictReader {
    ghost use Rattle.jb2_records.specs.ReaderState.{ReaderState};

    ghost Value = { ReaderState };

    ghost view = { λ a. a.records };
}

impl DictReader {
    /// A reader of a dictionary of which no byte arrived. Records may inherit the shapes of another one.
    pub fn new(
        alloc: Global,
        table: Arc<Table>,
        inherited: Option<Arc<Dictionary>>,
    ) -> Result<DictReader, AllocError>
        ensures fed { IfOk result (λ reader. Fed [] reader) }
        ensures source { IfOk result (λ reader. reader.source ≡
            record { table = arc_value table; inherited = inherited_of inherited; purpose = purpose.Dictionary }) }
        ensures open_end { IfOk result (λ reader. reader.ended ≡ false) }
        ensures answered { IfOk result (λ reader. reader.answered ≡ None) }
        ensures units { IfOk result (λ reader. reader.units ≡ 0) }
        ensures decisions { IfOk result (λ reader. reader.decisions ≡ 0) }
    {
        Ok(DictReader {
            records: RecordReader::new(alloc, table, inherited, Purpose::Dictionary)?,
        })
    }

    /// The next bytes of the chunk, which hasn't ended. Where there is no memory for them, nothing changes.
    pub fn push(&mut self, piece: &[u8]) -> Result<(), AllocError>
        requires { self.old.ended ≡ false }
        ensures fed { OnOk result ((payload : List ℕ) → Fed payload self.old → Fed (payload ++ piece.now) self.new) }
        ensures err { OnErr result (self.new ≡ self.old) }
        ensures source { self.new.source ≡ self.old.source }
        ensures open_end { self.new.ended ≡ false }
        ensures answered { self.new.answered ≡ self.old.answered }
        ensures units { self.new.units ≡ self.old.units }
        ensures decisions { self.new.decisions ≡ self.old.decisions }
    {
        self.records.push(piece)
    }

    /// The bytes so far are the whole chunk. A further call changes nothing.
    pub fn end(&mut self)
        ensures fed { (payload : List ℕ) → Fed payload self.old → Fed payload self.new }
        ensures ended { self.new.ended ≡ true }
        ensures again { self.old.ended ≡ true → self.new ≡ self.old }
        ensures source { self.new.source ≡ self.old.source }
        ensures answered { self.new.answered ≡ self.old.answered }
        ensures units { self.new.units ≡ self.old.units }
        ensures decisions { self.new.decisions ≡ self.old.decisions }
    {
        self.records.end();
    }

    /// Reads on, as far as the bytes go. Each decision that is new ticks the meter once. `Finished` and `Refused` are
    /// answered from then on.
    pub fn advance<M: Meter>(&mut self, meter: &mut M) -> Jb2Step
        // For every payload that the reader was fed, the definition's answer, and its counts of records and decisions.
        ensures answer { (payload : List ℕ) → Fed payload self.old → result ≢ Jb2Step.OutOfMemory →
            result ≡ (records_of (input_of self.old payload)).answer }
        ensures units { (payload : List ℕ) → Fed payload self.old → result ≢ Jb2Step.OutOfMemory →
            TicksExactly (length (records_of (input_of self.old payload)).records) 0 self.new.units }
        ensures decisions { (payload : List ℕ) → Fed payload self.old → result ≢ Jb2Step.OutOfMemory →
            TicksExactly (records_of (input_of self.old payload)).decisions 0 self.new.decisions }
        // Whatever is answered, counts are at most the definition's.
        ensures at_most { (payload : List ℕ) → Fed payload self.old →
            (self.new.units ≤ ticked (length (records_of (input_of self.old payload)).records) 0)
            × (self.new.decisions ≤ ticked (records_of (input_of self.old payload)).decisions 0) }
        ensures fed { (payload : List ℕ) → Fed payload self.old → Fed payload self.new }

        // What stands, and the meter: after `OutOfMemory` the reader stands behind the decisions that it counted.
        ensures answered { self.new.answered ≡ standing result self.old.answered }
        ensures stays { (step : Jb2Step) → self.old.answered ≡ Some step → (result ≡ step) × (self.new ≡ self.old) }
        ensures ticks { TicksExactly (self.new.decisions - self.old.decisions) (M.count meter.old) (M.count meter.new) }
        ensures more_units { self.old.units ≤ self.new.units }
        ensures more_decisions { self.old.decisions ≤ self.new.decisions }

        ensures source { self.new.source ≡ self.old.source }
        ensures ended { self.new.ended ≡ self.old.ended }
    {
        self.records.advance(meter)
    }

    /// Records that were read whole.
    pub fn units(&self) -> u64
        ensures { result ≡ self.now.units }
    {
        self.records.units()
    }

    /// Decisions that were read.
    pub fn decisions(&self) -> u64
        ensures { result ≡ self.now.decisions }
    {
        self.records.decisions()
    }

    /// The dictionary, once the records ended.
    pub fn dictionary(self) -> Result<Arc<Dictionary>, AllocError>
        requires { self.answered ≡ Some Jb2Step.Finished }
        ensures dictionary { IfOk result (λ dictionary. (payload : List ℕ) → Fed payload self → arc_value dictionary ≡ library_left (input_of self payload)) }
    {
        let Machine { library, .. } = self.records.into_machine();
        library.into_dictionary()
    }
}
