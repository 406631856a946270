//! The reader of a layer of colour of a page.
ghost use Rattle.std.specs.Prelude.{◌≡◌, ◌≢◌, ℕ, ◌-◌, ◌^◌, ◌≤◌, List, [], ◌++◌, length, Some, None, IsSome, IfOk, OnOk, OnErr};
ghost use Rattle.std.specs.Arc.{arc_value};
ghost use Rattle.djvu_base.specs.Meter.{ticked, TicksExactly};
ghost use Rattle.iw44_image.specs.Layer.{Data};
ghost use Rattle.iw44_image.specs.Image.{picture_of};
ghost use Rattle.iw44_image.specs.Keeping.{HasRoom};
ghost use Rattle.iw44_image.specs.Image.{TicksTo};
ghost use Rattle.page_decoder.specs.LayerState.{Rests, Stands, Lays, Reads, Answers, KeepsOpen, decisions_with};

use djvu_base::{CountMeter, FaultKind, Meter, Raster};
use iw44_image::{IwImage, IwStep};
use layer_compose::reduction;
use std::alloc::{AllocError, Global};
use std::marker::Model;
use std::sync::Arc;
use zp_table::Table;

/// What the reader of a layer answers.
#[derive(Clone, Copy, Debug, PartialEq, Eq)]
pub enum LayerStep {
    /// All data of the chunk came, and were read.
    ChunkDone,
    /// The bytes so far don't determine the next decision, or the chunk's data aren't all there.
    NeedBytes,
    /// The chunk's first fault.
    Refused(FaultKind),
    /// There was no memory.
    OutOfMemory,
}

/// Reads the chunks of a layer of colour, one after the other, as their bytes come. The layer must lie on its page by a
/// reduction.
///
/// Contracts speak of it by `Rests chunks reader`: these chunks were read, and none is open; and by `Lays chunks bytes reader`:
/// behind them a chunk is open, of which these bytes came.
#[derive(Debug, Drop)]
pub struct LayerReader {
    iw: IwImage,
    page_size: (u32, u32),
    count: u64,
}

impl Model for LayerReader {
    ghost use Rattle.page_decoder.specs.LayerState.{LayerState};
    ghost use Rattle.zp_table.specs.Rows.{IsTable};

    ghost Value = { LayerState };

    ghost view = { λ a. record { image = a.iw; page = a.page_size; decisions = a.count } };

    ghost invariant = { λ a. IsTable a.iw.zp.table };
}

impl LayerReader {
    /// The reader of a layer of at most `limit` pixels, of which no chunk came, on a page of this width and height. Takes no
    /// memory.
    pub fn new(alloc: Global, table: Arc<Table>, page: (u32, u32), limit: u32) -> LayerReader
        requires { limit ≤ 2 ^ 24 }
        ensures rests { Rests [] result }
        ensures table { result.image.zp.table ≡ arc_value table }
        ensures limit { result.image.limit ≡ limit }
        ensures page { result.page ≡ page }
        ensures closed { result.image.to_come ≡ None }
    {
        table.len();
        LayerReader {
            iw: IwImage::new(alloc, table, limit),
            page_size: page,
            count: 0,
        }
    }

    /// A chunk begins, whose data have so many bytes. None is open.
    pub fn begin(&mut self, size: u32)
        requires { self.old.image.to_come ≡ None }
        ensures lays { (chunks : List Data) → Rests chunks self.old → Lays chunks [] self.new }
        ensures to_come { self.new.image.to_come ≡ Some size }
        ensures decisions { self.new.decisions ≡ 0 }
        ensures table { self.new.image.zp.table ≡ self.old.image.zp.table }
        ensures limit { self.new.image.limit ≡ self.old.image.limit }
        ensures page { self.new.page ≡ self.old.page }
    {
        iw44_image::laws::layers_go_on();
        self.iw.chunk_begin(size);
        self.count = 0;
    }

    /// The next bytes of the open chunk. Where there is no memory for them, nothing changes.
    pub fn push(&mut self, piece: &[u8]) -> Result<(), AllocError>
        requires { HasRoom (length piece.now) self.old.image.to_come }
        ensures lays { OnOk result ((chunks : List Data) (bytes : List ℕ) → Lays chunks bytes self.old → Lays chunks (bytes ++ piece.now) self.new) }
        ensures to_come { OnOk result ((left : ℕ) → self.old.image.to_come ≡ Some left → self.new.image.to_come ≡ Some (left - length piece.now)) }
        ensures err { OnErr result (self.new ≡ self.old) }
        ensures decisions { self.new.decisions ≡ self.old.decisions }
        ensures table { self.new.image.zp.table ≡ self.old.image.zp.table }
        ensures limit { self.new.image.limit ≡ self.old.image.limit }
        ensures page { self.new.page ≡ self.old.page }
    {
        iw44_image::laws::layers_grow();
        self.iw.push(piece)
    }

    /// Reads the open chunk on, as far as its bytes go. Each decision ticks the meter once.
    pub fn advance<M: Meter>(&mut self, meter: &mut M) -> LayerStep
        requires { IsSome self.old.image.to_come }
        // For all that the reader may stand for, the definition's answer and its count of decisions, at most that whatever is answered.
        ensures answers { (chunks : List Data) (bytes : List ℕ) → Lays chunks bytes self.old → Answers result chunks bytes self.old self.new }
        ensures decisions { (chunks : List Data) (bytes : List ℕ) → Lays chunks bytes self.old → result ≢ LayerStep.OutOfMemory →
            TicksExactly (decisions_with self.old chunks bytes) 0 self.new.decisions }
        ensures at_most { (chunks : List Data) (bytes : List ℕ) → Lays chunks bytes self.old →
            self.new.decisions ≤ ticked (decisions_with self.old chunks bytes) 0 }
        ensures ticks { TicksExactly (self.new.decisions - self.old.decisions) (M.count meter.old) (M.count meter.new) }
        ensures more { self.old.decisions ≤ self.new.decisions }
        ensures kept { KeepsOpen result self.old self.new }
    {
        let mut own = CountMeter::new();
        let step = self.read(&mut own);
        let before = self.count;
        self.count = before.saturating_add(own.count());
        tick(meter, self.count - before);
        step
    }

    /// The picture of the layer so far, of which a chunk is done.
    pub fn raster(&self, alloc: Global) -> Result<Raster, AllocError>
        requires { IsSome self.now.image.header }
        ensures { IfOk result (λ raster. raster ≡ picture_of self.now.image) }
    {
        self.iw.raster(alloc)
    }

    /// The decisions of the chunk at hand that were read.
    pub fn decisions(&self) -> u64
        ensures { result ≡ self.now.decisions }
    {
        self.count
    }

    /// Reads the open chunk on, and judges the layer's size once it is told.
    fn read(&mut self, meter: &mut CountMeter) -> LayerStep
        requires { IsSome self.old.image.to_come }
        ensures answers { (total : ℕ) (chunks : List Data) (bytes : List ℕ) → Stands total chunks bytes self.old →
            (now : ℕ) × (Reads result now chunks bytes self.old self.new × TicksTo total now meter.old meter.new) }
        ensures kept { KeepsOpen result self.old self.new }
        ensures count { self.new.decisions ≡ self.old.decisions }
    {
        iw44_image::laws::layers_go_on();
        iw44_image::laws::sizes_are_checked_first();
        iw44_image::laws::told_sizes_are_checked();
        match self.iw.advance(meter) {
            IwStep::Sized { width, height } => {
                if reduction(self.page_size, (width, height)).is_none() {
                    LayerStep::Refused(FaultKind::LayerSize)
                } else {
                    self.read_on(meter)
                }
            }
            IwStep::ChunkDone => LayerStep::ChunkDone,
            IwStep::NeedBytes => LayerStep::NeedBytes,
            IwStep::Refused(kind) => LayerStep::Refused(kind),
            IwStep::OutOfMemory => LayerStep::OutOfMemory,
        }
    }

    /// Reads the open chunk on behind the header that told the layer's size.
    fn read_on(&mut self, meter: &mut CountMeter) -> LayerStep
        requires running { IsSome self.old.image.to_come }
        requires told { IsSome self.old.image.header }
        ensures answers { (total : ℕ) (chunks : List Data) (bytes : List ℕ) → Stands total chunks bytes self.old →
            (now : ℕ) × (Reads result now chunks bytes self.old self.new × TicksTo total now meter.old meter.new) }
        ensures kept { KeepsOpen result self.old self.new }
        ensures count { self.new.decisions ≡ self.old.decisions }
    {
        iw44_image::laws::layers_go_on();
        iw44_image::laws::sizes_are_checked_first();
        iw44_image::laws::told_sizes_are_checked();
        match self.iw.advance(meter) {
            IwStep::Sized { .. } => unreachable!(),
            IwStep::ChunkDone => LayerStep::ChunkDone,
            IwStep::NeedBytes => LayerStep::NeedBytes,
            IwStep::Refused(kind) => LayerStep::Refused(kind),
            IwStep::OutOfMemory => LayerStep::OutOfMemory,
        }
    }
}

/// Ticks a meter so many times.
fn tick<M: Meter>(meter: &mut M, count: u64)
    ensures { TicksExactly count (M.count meter.old) (M.count meter.new) }
{
    'ticks: for _ in 0..count {
        meter.tick();
    }
}
