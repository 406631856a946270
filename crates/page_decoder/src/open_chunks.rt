//! A chunk between its header and its end.
ghost use Rattle.std.specs.Prelude.{◌≡◌, ◌≢◌, ℕ, ◌-◌, ◌<◌, ◌≤◌, List, ◌++◌, length, take, false, Some, OnOk, OnErr};
ghost use Rattle.djvu_base.specs.Meter.{ticked, TicksExactly};
ghost use Rattle.zp_table.specs.declared.rows.Row.{Row};
ghost use Rattle.iw44_image.specs.Layer.{Data, data_of};
ghost use Rattle.page_decoder.specs.Headers.{Head};
ghost use Rattle.page_decoder.specs.PageRead.{Decoded};
ghost use Rattle.page_decoder.specs.Kinds.{ChunkKind};
ghost use Rattle.page_decoder.specs.ChunkData.{info_outcome, came_by, came};
ghost use Rattle.page_decoder.specs.LayerState.{Lays, decisions_with};
ghost use Rattle.page_decoder.specs.Kept.{Keeping};
ghost use Rattle.page_decoder.specs.Opened.{Opens, ReadsOn, Answers, AdvancesTo, LayerAnswers, CountsOn, IsRunning, HasRoomFor, StaysWith, records_step, decisions_by, decisions_of};

use crate::layer_reader::{LayerReader, LayerStep};
use crate::page::{size_fault, size_in};
use djvu_base::{FaultKind, Meter};
use jb2_records::{DictReader, Jb2Step, MaskReader};
use std::alloc::AllocError;
use std::marker::Model;

/// What a chunk answers whose data aren't all there.
#[derive(Clone, Copy, Debug, PartialEq, Eq)]
pub enum OpenStep {
    /// The data so far have no fault.
    NeedBytes,
    /// The chunk's first fault.
    Refused(FaultKind),
    /// There was no memory.
    OutOfMemory,
}

/// What reads the data of a chunk.
#[derive(Drop)]
pub enum ChunkReader {
    /// Nothing: the chunk is passed over.
    Passed,
    /// The first ten bytes of an `INFO`.
    Info(Vec<u8>),
    /// The bytes of an `INCL`.
    Name(Vec<u8>),
    Dictionary(DictReader),
    Mask(MaskReader),
    Front(LayerReader),
    Back(LayerReader),
}

/// A chunk whose header came, and whose end didn't. Its data go straight to what reads them, and nothing else keeps them.
///
/// Contracts speak of it by `Opens table head decoded bytes kept open`: behind chunks that left `decoded`, of which this is kept,
/// it is the chunk with this header, of which these bytes came.
#[derive(Drop)]
pub struct Open {
    left: u32,
    reader: ChunkReader,
}

impl Model for Open {
    ghost use Rattle.page_decoder.specs.Opened.{OpenState, IsRunning};

    ghost Value = { OpenState };

    ghost view = { λ a. record { to_come = a.left; reads = a.reader } };

    ghost invariant = { λ a. IsRunning a.left a.reader };
}

impl Open {
    /// A chunk of which so many bytes are to come.
    pub(crate) fn new(size: u32, reader: ChunkReader) -> Open
        requires { IsRunning size reader }
        ensures { result ≡ record { to_come = size; reads = reader } }
    {
        Open { left: size, reader }
    }

    /// The next bytes of the chunk's data. Bytes past the chunk's end aren't taken.
    pub fn push(&mut self, piece: &[u8]) -> Result<(), AllocError>
        ensures opens { OnOk result ((table : List Row) (head : Head) (decoded : Decoded) (bytes : List ℕ) (kept : Keeping) →
            Opens table head decoded bytes kept self.old → length piece.now ≤ self.old.to_come →
            Opens table head decoded (bytes ++ piece.now) kept self.new) }
        ensures decisions { decisions_of self.new ≡ decisions_of self.old }
    {
        let count = piece.len().min(self.left as usize);
        self.reader.push(&piece[..count])?;
        self.left -= count as u32;
        Ok(())
    }

    /// Reads the data on, as far as they go. Each decision ticks the meter once.
    pub fn advance<M: Meter>(&mut self, meter: &mut M) -> OpenStep
        // For all that the chunk may stand for, before all its data are there, what they come to.
        ensures advances { (table : List Row) (head : Head) (decoded : Decoded) (bytes : List ℕ) (kept : Keeping) →
            Opens table head decoded bytes kept self.old → length bytes < head.size →
            AdvancesTo result (came table head (data_of bytes false) decoded) (decisions_of self.new) }
        ensures opens { (table : List Row) (head : Head) (decoded : Decoded) (bytes : List ℕ) (kept : Keeping) →
            Opens table head decoded bytes kept self.old → result ≡ OpenStep.NeedBytes → Opens table head decoded bytes kept self.new }
        ensures counts { CountsOn (decisions_of self.old) (decisions_of self.new) (M.count meter.old) (M.count meter.new) }
    {
        if self.left == 0 {
            return OpenStep::NeedBytes;
        }
        self.reader.advance(meter)
    }

    /// The decisions of the chunk that were read.
    pub fn decisions(&self) -> u64
        ensures { result ≡ decisions_of self.now }
    {
        match &self.reader {
            ChunkReader::Passed | ChunkReader::Info(_) | ChunkReader::Name(_) => 0,
            ChunkReader::Dictionary(reader) => reader.decisions(),
            ChunkReader::Mask(reader) => reader.decisions(),
            ChunkReader::Front(reader) => reader.decisions(),
            ChunkReader::Back(reader) => reader.decisions(),
        }
    }

    /// What reads the chunk's data.
    pub(crate) fn into_reader(self) -> ChunkReader
        ensures reader { result ≡ self.reads }
        ensures running { IsRunning self.to_come result }
    {
        self.reader
    }
}

impl ChunkReader {
    /// The next bytes of the chunk's data.
    fn push(&mut self, piece: &[u8]) -> Result<(), AllocError>
        requires { HasRoomFor (length piece.now) self.old }
        ensures running { OnOk result ((left : ℕ) → IsRunning left self.old → IsRunning (left - length piece.now) self.new) }
        ensures err { OnErr result ((left : ℕ) → IsRunning left self.old → IsRunning left self.new) }
        ensures reads { OnOk result ((of : ChunkKind) (table : List Row) (decoded : Decoded) (bytes : List ℕ) (left : ℕ) →
            ReadsOn self.old of table decoded bytes left → length piece.now ≤ left →
            ReadsOn self.new of table decoded (bytes ++ piece.now) (left - length piece.now)) }
        ensures stays { StaysWith self.old self.new }
        ensures decisions { decisions_by self.new ≡ decisions_by self.old }
    {
        match self {
            ChunkReader::Passed => Ok(()),
            ChunkReader::Info(first) => push_first(first, piece),
            ChunkReader::Name(name) => name.extend_from_slice(piece),
            ChunkReader::Dictionary(reader) => reader.push(piece),
            ChunkReader::Mask(reader) => reader.push(piece),
            ChunkReader::Front(reader) => reader.push(piece),
            ChunkReader::Back(reader) => reader.push(piece),
        }
    }

    /// Reads the data on, of which more are to come.
    fn advance<M: Meter>(&mut self, meter: &mut M) -> OpenStep
        requires { HasRoomFor 1 self.old }
        ensures running { (left : ℕ) → IsRunning left self.old → IsRunning left self.new }
        ensures advances { (of : ChunkKind) (table : List Row) (decoded : Decoded) (bytes : List ℕ) (left offset : ℕ) →
            ReadsOn self.old of table decoded bytes left → 0 < left →
            AdvancesTo result (came_by of table (data_of bytes false) offset decoded) (decisions_by self.new) }
        ensures reads { (of : ChunkKind) (table : List Row) (decoded : Decoded) (bytes : List ℕ) (left : ℕ) →
            ReadsOn self.old of table decoded bytes left → result ≡ OpenStep.NeedBytes → ReadsOn self.new of table decoded bytes left }
        ensures stays { StaysWith self.old self.new }
        ensures counts { CountsOn (decisions_by self.old) (decisions_by self.new) (M.count meter.old) (M.count meter.new) }
    {
        match self {
            ChunkReader::Passed | ChunkReader::Name(_) => OpenStep::NeedBytes,
            ChunkReader::Info(first) => judged(first),
            ChunkReader::Dictionary(reader) => records_step(reader.advance(meter)),
            ChunkReader::Mask(reader) => records_step(reader.advance(meter)),
            ChunkReader::Front(reader) => advance_layer(reader, meter),
            ChunkReader::Back(reader) => advance_layer(reader, meter),
        }
    }
}

/// Keeps the first ten bytes.
fn push_first(first: &mut Vec<u8>, piece: &[u8]) -> Result<(), AllocError>
    ensures { OnOk result ((bytes : List ℕ) → first.old.items ≡ take 10 bytes → first.new.items ≡ take 10 (bytes ++ piece.now)) }
{
    let count = piece.len().min(10usize.saturating_sub(first.len()));
    first.extend_from_slice(&piece[..count])
}

/// A page's size is judged once its four bytes are there.
fn judged(first: &[u8]) -> OpenStep
    ensures answers { (bytes : List ℕ) (decoded : Decoded) → first.now ≡ take 10 bytes → Answers result (info_outcome (data_of bytes false) decoded) }
    ensures memory { result ≢ OpenStep.OutOfMemory }
{
    if first.len() < 4 {
        return OpenStep::NeedBytes;
    }
    match size_fault(size_in(first)) {
        Some(kind) => OpenStep::Refused(kind),
        None => OpenStep::NeedBytes,
    }
}

/// The answer of records, behind which more bytes may come.
fn records_step(step: Jb2Step) -> OpenStep
    ensures { result ≡ records_step step }
{
    match step {
        Jb2Step::Finished | Jb2Step::NeedBytes => OpenStep::NeedBytes,
        Jb2Step::Refused(kind) => OpenStep::Refused(kind),
        Jb2Step::OutOfMemory => OpenStep::OutOfMemory,
    }
}

/// Reads a layer on, of whose chunk more bytes are to come.
fn advance_layer<M: Meter>(reader: &mut LayerReader, meter: &mut M) -> OpenStep
    requires { (left : ℕ) × ((0 < left) × (reader.old.image.to_come ≡ Some left)) }
    ensures answers { (chunks : List Data) (bytes : List ℕ) → Lays chunks bytes reader.old → LayerAnswers result chunks bytes reader.old reader.new }
    ensures decisions { (chunks : List Data) (bytes : List ℕ) → Lays chunks bytes reader.old → result ≢ OpenStep.OutOfMemory →
        TicksExactly (decisions_with reader.old chunks bytes) 0 reader.new.decisions }
    ensures at_most { (chunks : List Data) (bytes : List ℕ) → Lays chunks bytes reader.old →
        reader.new.decisions ≤ ticked (decisions_with reader.old chunks bytes) 0 }
    ensures counts { CountsOn reader.old.decisions reader.new.decisions (M.count meter.old) (M.count meter.new) }
    ensures to_come { reader.new.image.to_come ≡ reader.old.image.to_come }
    ensures table { reader.new.image.zp.table ≡ reader.old.image.zp.table }
    ensures limit { reader.new.image.limit ≡ reader.old.image.limit }
    ensures page { reader.new.page ≡ reader.old.page }
{
    match reader.advance(meter) {
        LayerStep::ChunkDone => unreachable!(),
        LayerStep::NeedBytes => OpenStep::NeedBytes,
        LayerStep::Refused(kind) => OpenStep::Refused(kind),
        LayerStep::OutOfMemory => OpenStep::OutOfMemory,
    }
}
