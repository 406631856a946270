//! What is read of a chunk, one thing after the other: numbers, bits and shapes. A question that waits, for bytes or for memory,
//! is asked again with the same reader, and goes on from there. `specs/Coding.antt` defines what is read, and
//! `specs/Telling.antt` how a coder, its questions and its answers stand to that.
ghost use Rattle.std.specs.Prelude.{◌≡◌, ◌<◌, ◌≤◌, ◌≤ℤ◌, ℕ, ℤ, pos, [], true, false, Some, None, IfOk, OnOk, OnErr};
ghost use Rattle.std.specs.Arc.{arc_value};
ghost use Rattle.zp_decoder.specs.Chunk.{Chunk, chunk};
ghost use Rattle.jb2_numbers.specs.declared.roots.Root.{Root};
ghost use Rattle.jb2_numbers.specs.Number.{Wanted, wanted};
ghost use Rattle.jb2_numbers.specs.Reader.{AreBounds, Reads, IsUnderway};
ghost use Rattle.jb2_shapes.specs.Shape.{IsWhole};
ghost use Rattle.jb2_records.specs.Coding.{Coder as Place, chunk_start, read_number, read_flag, read_row, read_direct, read_refined};
ghost use Rattle.jb2_records.specs.Reading.{with_fresh_numbers};
ghost use Rattle.jb2_records.specs.Taking.{with_bytes, room_of};
ghost use Rattle.jb2_records.specs.Telling.{IsReady, Stands, HalfNumber, HalfShape, Goes, GoesShape, Grows, bit_result, number_result, shape_result};

use crate::stops::Stop;
use crate::unread::{Unread, sound_rows};
use djvu_base::{CountMeter, FaultKind};
use jb2_numbers::{NumberContexts, NumberReader, NumberStep};
use jb2_shapes::{DirectReader, RefineReader, ShapeContexts, ShapeStep};
use std::alloc::{AllocError, Global};
use std::marker::Model;
use std::sync::Arc;
use zp_decoder::{Decision, ZpDecoder};
use zp_table::Table;

/// A decoder over a chunk that arrives in pieces, with the contexts of its records and a count of its decisions.
#[derive(Debug, Drop)]
pub(crate) struct Coder {
    zp: ZpDecoder,
    unread: Unread,
    numbers: NumberContexts,
    pixels: ShapeContexts,
    flag: u8,
    row: u8,
    meter: CountMeter,
}

impl Model for Coder {
    ghost use Rattle.jb2_records.specs.Telling.{Parts, IsReady};

    ghost Value = { Parts };

    ghost view = { λ a. record { zp = a.zp; unread = a.unread; numbers = a.numbers; pixels = a.pixels; flag = a.flag; row = a.row; count = a.meter } };

    ghost invariant = { λ a. IsReady (record {
      zp = a.zp;
      unread = a.unread;
      numbers = a.numbers;
      pixels = a.pixels;
      flag = a.flag;
      row = a.row;
      count = a.meter;
    }) };
}

impl Coder {
    /// A coder at the start of a chunk of which no byte arrived.
    pub(crate) fn new(alloc: Global, table: Arc<Table>) -> Result<Coder, AllocError>
        ensures stands { IfOk result (λ coder. Stands (chunk (arc_value table) [] false) chunk_start coder) }
        ensures table { IfOk result (λ coder. coder.zp.table ≡ arc_value table) }
        ensures open_end { IfOk result (λ coder. coder.unread.ended ≡ false) }
        ensures count { IfOk result (λ coder. coder.count ≡ 0) }
    {
        sound_rows(&table);
        Ok(Coder {
            zp: ZpDecoder::new(table),
            unread: Unread::new(alloc),
            numbers: NumberContexts::new(alloc),
            pixels: ShapeContexts::new(alloc)?,
            flag: 0,
            row: 0,
            meter: CountMeter::new(),
        })
    }

    /// The next bytes of the chunk, which hasn't ended. Where there is no memory for them, nothing changes.
    pub(crate) fn push(&mut self, piece: &[u8]) -> Result<(), AllocError>
        requires { self.old.unread.ended ≡ false }
        ensures grows { OnOk result ((source : Chunk) → Grows source (with_bytes source piece.now false) self.old self.new) }
        ensures err { OnErr result (self.new ≡ self.old) }
        ensures table { self.new.zp.table ≡ self.old.zp.table }
        ensures open_end { self.new.unread.ended ≡ false }
        ensures count { self.new.count ≡ self.old.count }
    {
        self.unread.push(piece)
    }

    /// The bytes so far are the whole chunk. A further call changes nothing.
    pub(crate) fn end(&mut self)
        ensures grows { (source : Chunk) → Grows source (chunk source.table source.payload true) self.old self.new }
        ensures again { self.old.unread.ended ≡ true → self.new ≡ self.old }
        ensures table { self.new.zp.table ≡ self.old.zp.table }
        ensures ended { self.new.unread.ended ≡ true }
        ensures count { self.new.count ≡ self.old.count }
    {
        self.unread.end(&mut self.zp);
    }

    /// Decisions so far.
    pub(crate) fn decisions(&self) -> u64
        ensures { result ≡ self.now.count }
    {
        self.meter.count()
    }

    /// The decoder is told the end in time, and states are rows of its table.
    pub(crate) fn ready(&self)
        ensures { IsReady self.now }
    {
        let _ = &self.flag;
    }

    /// Brings the contexts of numbers back to their start.
    pub(crate) fn reset_numbers(&mut self)
        ensures stands { (source : Chunk) (at : Place) → Stands source at self.old → Stands source (with_fresh_numbers at) self.new }
        ensures room { room_of self.new.unread self.new.zp ≤ room_of self.old.unread self.old.zp }
        ensures table { self.new.zp.table ≡ self.old.zp.table }
        ensures ended { self.new.unread.ended ≡ self.old.unread.ended }
        ensures count { self.new.count ≡ self.old.count }
    {
        self.numbers.reset();
    }

    /// The number that the reader begins, or waits for.
    pub(crate) fn number(&mut self, reader: &mut NumberReader) -> Result<i32, Stop>
        ensures goes { (source : Chunk) (root : Root) (low high : ℤ) (at : Place) → HalfNumber source root low high at reader.old self.old →
            Goes (λ number. number) source (read_number source root low high at) (HalfNumber source root low high at reader.new self.new) result self.new }
        ensures within { (wanted : Wanted) → AreBounds wanted.low wanted.high → IsUnderway wanted reader.old →
            IfOk result (λ number. (wanted.low ≤ℤ number) × (number ≤ℤ wanted.high)) }
        ensures underway { (wanted : Wanted) → AreBounds wanted.low wanted.high → IsUnderway wanted reader.old → IsUnderway wanted reader.new }
        ensures more { (wanted : Wanted) → AreBounds wanted.low wanted.high → IsUnderway wanted reader.old → self.old.count ≤ self.new.count }
        ensures room { (wanted : Wanted) → AreBounds wanted.low wanted.high → IsUnderway wanted reader.old →
            room_of self.new.unread self.new.zp ≤ room_of self.old.unread self.old.zp }
        // The type of a record has a decision, which leaves room for fewer.
        ensures falls { Reads (wanted Root.RecordType (pos 0) (pos 11)) [] reader.old →
            IfOk result (λ number. room_of self.new.unread self.new.zp < room_of self.old.unread self.old.zp) }
        ensures table { self.new.zp.table ≡ self.old.zp.table }
        ensures ended { self.new.unread.ended ≡ self.old.unread.ended }
    {
        self.zp.was_fed();
        number_result(
            self.unread
                .number(reader, &mut self.numbers, &mut self.zp, &mut self.meter),
        )
    }

    /// The flag of a start.
    pub(crate) fn flag(&mut self) -> Result<bool, Stop>
        ensures goes { (source : Chunk) (at : Place) → Stands source at self.old →
            Goes (λ flag. flag) source (read_flag source at) (Stands source at self.new) result self.new }
        ensures more { self.old.count ≤ self.new.count }
        ensures room { room_of self.new.unread self.new.zp ≤ room_of self.old.unread self.old.zp }
        ensures table { self.new.zp.table ≡ self.old.zp.table }
        ensures ended { self.new.unread.ended ≡ self.old.unread.ended }
    {
        bit_result(
            self.unread
                .decide(&mut self.zp, &mut self.flag, &mut self.meter),
        )
    }

    /// Whether a mark begins a new row.
    pub(crate) fn row(&mut self) -> Result<bool, Stop>
        ensures goes { (source : Chunk) (at : Place) → Stands source at self.old →
            Goes (λ is_new. is_new) source (read_row source at) (Stands source at self.new) result self.new }
        ensures more { self.old.count ≤ self.new.count }
        ensures room { room_of self.new.unread self.new.zp ≤ room_of self.old.unread self.old.zp }
        ensures table { self.new.zp.table ≡ self.old.zp.table }
        ensures ended { self.new.unread.ended ≡ self.old.unread.ended }
    {
        bit_result(
            self.unread
                .decide(&mut self.zp, &mut self.row, &mut self.meter),
        )
    }

    /// The pixels of the direct shape that the reader begins, or waits for. Once they are there, the reader has the shape.
    pub(crate) fn direct(&mut self, reader: &mut DirectReader) -> Result<(), Stop>
        ensures goes { (source : Chunk) (width height : ℕ) (at : Place) → HalfShape source None width height at reader.old self.old →
            GoesShape source reader.new.shape (read_direct source width height at)
            (HalfShape source None width height at reader.new self.new) result self.new }
        ensures done { OnOk result (IsWhole reader.new) }
        ensures width { reader.new.shape.width ≡ reader.old.shape.width }
        ensures height { reader.new.shape.height ≡ reader.old.shape.height }
        ensures more { self.old.count ≤ self.new.count }
        ensures room { room_of self.new.unread self.new.zp ≤ room_of self.old.unread self.old.zp }
        ensures table { self.new.zp.table ≡ self.old.zp.table }
        ensures ended { self.new.unread.ended ≡ self.old.unread.ended }
    {
        shape_result(
            self.unread
                .shape(reader, &mut self.pixels, &mut self.zp, &mut self.meter),
        )
    }

    /// The same of a refined shape.
    pub(crate) fn refined(&mut self, reader: &mut RefineReader) -> Result<(), Stop>
        ensures goes { (source : Chunk) (width height : ℕ) (at : Place) →
            HalfShape source (Some reader.old.matched) width height at reader.old.sketch self.old →
            GoesShape source reader.new.sketch.shape (read_refined source reader.old.matched width height at)
            (HalfShape source (Some reader.old.matched) width height at reader.new.sketch self.new) result self.new }
        ensures done { OnOk result (IsWhole reader.new.sketch) }
        ensures matched { reader.new.matched ≡ reader.old.matched }
        ensures width { reader.new.sketch.shape.width ≡ reader.old.sketch.shape.width }
        ensures height { reader.new.sketch.shape.height ≡ reader.old.sketch.shape.height }
        ensures more { self.old.count ≤ self.new.count }
        ensures room { room_of self.new.unread self.new.zp ≤ room_of self.old.unread self.old.zp }
        ensures table { self.new.zp.table ≡ self.old.zp.table }
        ensures ended { self.new.unread.ended ≡ self.old.unread.ended }
    {
        shape_result(
            self.unread
                .shape(reader, &mut self.pixels, &mut self.zp, &mut self.meter),
        )
    }
}

/// The answer to a question for a bit.
fn bit_result(decision: Decision) -> Result<bool, Stop>
    ensures { result ≡ bit_result decision }
{
    match decision {
        Decision::Bit(bit) => Ok(bit),
        Decision::NeedBytes => Err(Stop::NeedBytes),
        Decision::Exhausted => Err(Stop::Refused(FaultKind::ZpExhausted)),
    }
}

/// The answer to a question for a number.
fn number_result(step: NumberStep) -> Result<i32, Stop>
    ensures { result ≡ number_result step }
{
    match step {
        NumberStep::Number(number) => Ok(number),
        NumberStep::NeedBytes => Err(Stop::NeedBytes),
        NumberStep::Exhausted => Err(Stop::Refused(FaultKind::ZpExhausted)),
        NumberStep::OutOfMemory => Err(Stop::OutOfMemory),
    }
}

/// The answer to a question for a shape.
fn shape_result(step: ShapeStep) -> Result<(), Stop>
    ensures { result ≡ shape_result step }
{
    match step {
        ShapeStep::Done => Ok(()),
        ShapeStep::NeedBytes => Err(Stop::NeedBytes),
        ShapeStep::Exhausted => Err(Stop::Refused(FaultKind::ZpExhausted)),
    }
}
