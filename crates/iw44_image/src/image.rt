//! Images: the chunks of a layer, read as their bytes come.
ghost use Rattle.std.specs.Prelude.{◌≡◌, ◌≢◌, ℕ, ◌+◌, ◌-◌, ◌*◌, ◌^◌, ◌≤◌, ◌<◌, List, [], ◌++◌, length, Option, Some, None, IsSome, IfOk, OnOk, OnErr};
ghost use Rattle.std.specs.Arc.{arc_value};
ghost use Rattle.djvu_base.specs.declared.faults.FaultKind.{FaultKind};
ghost use Rattle.zp_table.specs.Rows.{IsTable};
ghost use Rattle.iw44_image.specs.Layer.{Layer, new_layer};
ghost use Rattle.iw44_image.specs.Image.{Image, Holds, Answers, Steps, TicksTo, open_after, refused, picture_of, is_whole, HasSize};
ghost use Rattle.iw44_image.specs.Keeping.{HasRoom, kept_at};

use crate::headers::Header;
use crate::planes::PlaneReaders;
use crate::steps::{IwStep, Stage};
use crate::unread::Unread;
use djvu_base::{Meter, Raster};
use std::alloc::{AllocError, Global};
use std::marker::Model;
use std::sync::Arc;
use zp_decoder::ZpDecoder;
use zp_table::Table;

/// Reads the chunks of a layer, one after the other, as their bytes come. It goes on wherever these ended, and nothing is
/// read twice.
///
/// Contracts speak of an image by `Holds layer bytes decisions image`: earlier chunks left this layer, these bytes of the open
/// chunk came, and so many decisions were read.
#[derive(Debug, Drop)]
pub struct IwImage {
    pub(crate) alloc: Global,
    pub(crate) most: u32,
    pub(crate) told: Option<Header>,
    pub(crate) to_come: Option<u32>,
    pub(crate) readers: Option<PlaneReaders>,
    pub(crate) decoder: ZpDecoder,
    pub(crate) unread: Unread,
    pub(crate) chunks_done: u32,
    pub(crate) slices_done: u32,
    pub(crate) at: Stage,
}

impl Model for IwImage {
    ghost use Rattle.iw44_image.specs.Image.{Image, image_by};
    ghost use Rattle.iw44_image.specs.Keeping.{IsKept};

    ghost Value = { Image };

    ghost view = { λ a. record {
      limit = a.most;
      header = a.told;
      to_come = a.to_come;
      planes = a.readers;
      zp = a.decoder;
      left = a.unread;
      chunks = a.chunks_done;
      slices = a.slices_done;
      stage = a.at;
    } };

    ghost invariant = { λ a. IsKept (image_by a.most a.told a.to_come a.readers a.decoder a.unread a.chunks_done a.slices_done a.at) };
}

impl IwImage {
    /// An image of which no chunk came, of at most so many pixels. Takes no memory.
    pub fn new(alloc: Global, table: Arc<Table>, limit: u32) -> IwImage
        requires { limit ≤ 2 ^ 24 }
        ensures holds { Holds new_layer [] 0 result }
        ensures table { result.zp.table ≡ arc_value table }
        ensures limit { result.limit ≡ limit }
        ensures header { result.header ≡ None }
        ensures to_come { result.to_come ≡ None }
        ensures refused { refused result ≡ None }
    {
        sound_rows(&table);
        IwImage {
            alloc,
            most: limit,
            told: None,
            to_come: None,
            readers: None,
            decoder: ZpDecoder::new(table),
            unread: Unread::new(alloc),
            chunks_done: 0,
            slices_done: 0,
            at: Stage::Header,
        }
    }

    /// A chunk begins, whose data have so many bytes. No chunk is open.
    pub fn chunk_begin(&mut self, length: u32)
        requires { self.old.to_come ≡ None }
        ensures holds { (layer : Layer) (decisions : ℕ) → Holds layer [] decisions self.old → Holds layer [] decisions self.new }
        ensures to_come { self.new.to_come ≡ Some length }
        ensures header { self.new.header ≡ self.old.header }
        ensures refused { refused self.new ≡ refused self.old }
        ensures picture { picture_of self.new ≡ picture_of self.old }
        ensures table { self.new.zp.table ≡ self.old.zp.table }
        ensures limit { self.new.limit ≡ self.old.limit }
    {
        self.to_come = Some(length);
    }

    /// The next bytes of the open chunk. Where there is no memory for them, nothing changes.
    pub fn push(&mut self, piece: &[u8]) -> Result<(), AllocError>
        requires { HasRoom (length piece.now) self.old.to_come }
        ensures holds { OnOk result ((layer : Layer) (bytes : List ℕ) (decisions : ℕ) → Holds layer bytes decisions self.old → Holds layer
            (bytes ++ piece.now) decisions self.new) }
        ensures to_come { OnOk result ((left : ℕ) → self.old.to_come ≡ Some left → self.new.to_come ≡ Some (left - length piece.now)) }
        ensures err { OnErr result (self.new ≡ self.old) }
        ensures header { self.new.header ≡ self.old.header }
        ensures refused { refused self.new ≡ refused self.old }
        ensures picture { picture_of self.new ≡ picture_of self.old }
        ensures table { self.new.zp.table ≡ self.old.zp.table }
        ensures limit { self.new.limit ≡ self.old.limit }
    {
        keep(&mut self.unread, self.at, piece)?;
        if let Some(left) = self.to_come {
            self.to_come = Some(left - piece.len() as u32);
        }
        Ok(())
    }

    /// Reads the open chunk on, as far as the bytes go. Each decision ticks the meter once.
    pub fn advance<M: Meter>(&mut self, meter: &mut M) -> IwStep
        requires { IsSome self.old.to_come }
        // For all that the image may hold, the definition's answer, with all that was read.
        ensures answers { (layer : Layer) (bytes : List ℕ) (decisions : ℕ) → Holds layer bytes decisions self.old →
            (now : ℕ) × (Answers result layer bytes now self.old self.new × TicksTo decisions now (M.count meter.old) (M.count meter.new)) }
        ensures stays { (kind : FaultKind) → refused self.old ≡ Some kind → (result ≡ IwStep.Refused kind) ×
            ((self.new ≡ self.old) × (meter.new ≡ meter.old)) }
        ensures out_of_memory { result ≡ IwStep.OutOfMemory → (self.new ≡ self.old) × (meter.new ≡ meter.old) }
        ensures refused { (kind : FaultKind) → result ≡ IwStep.Refused kind → refused self.new ≡ Some kind }
        ensures to_come { self.new.to_come ≡ open_after result self.old.to_come }
        ensures header { IsSome self.old.header → self.new.header ≡ self.old.header }
        ensures same_header { ((width height : ℕ) → result ≢ IwStep.Sized width height) → self.new.header ≡ self.old.header }
        ensures sized { (width height : ℕ) → result ≡ IwStep.Sized width height → HasSize width height self.old.header self.new.header }
        ensures done { result ≡ IwStep.ChunkDone → IsSome self.new.header }
        ensures whole { result ≡ IwStep.ChunkDone → self.old.to_come ≡ Some 0 }
        ensures table { self.new.zp.table ≡ self.old.zp.table }
        ensures limit { self.new.limit ≡ self.old.limit }
    {
        if let Stage::Refused(kind) = self.at {
            return IwStep::Refused(kind);
        }
        if self.make_planes().is_err() {
            return IwStep::OutOfMemory;
        }
        'steps: loop {
            if let Some(answer) = self.step(meter) {
                return answer;
            }
        }
    }

    /// The picture of the coefficients so far, also in the middle of a chunk. The size was told.
    pub fn raster(&self, alloc: Global) -> Result<Raster, AllocError>
        requires { IsSome self.now.header }
        ensures { IfOk result (λ raster. raster ≡ picture_of self.now) }
    {
        let Some(header) = self.told else {
            unreachable!()
        };
        match &self.readers {
            Some(planes) => planes.raster(alloc, header),
            None => PlaneReaders::new(alloc, header)?.raster(alloc, header),
        }
    }
}

/// Keeps the next bytes of a chunk, until all its slices were read or it was refused.
fn keep(unread: &mut Unread, at: Stage, piece: &[u8]) -> Result<(), AllocError>
    ensures ok { OnOk result (unread.new ≡ kept_at at unread.old piece.now) }
    ensures err { OnErr result (unread.new ≡ unread.old) }
{
    match at {
        Stage::Header | Stage::Slice { .. } => unread.push(piece),
        Stage::Rest { .. } | Stage::Refused(_) => Ok(()),
    }
}

/// The rows of a table are as decisions need them.
fn sound_rows(table: &Table)
    ensures { IsTable table.now }
{
    let rows = table.len();
    prove!(rows > 0);
    table.row(0);
}
