//! The end of a chunk: what it leaves.
ghost use Rattle.std.specs.Prelude.{◌≡◌, ℕ, List, [], true, Some, None, IsSome};
ghost use Rattle.djvu_base.specs.Announced.{Announced};
ghost use Rattle.zp_table.specs.declared.rows.Row.{Row};
ghost use Rattle.iw44_image.specs.Layer.{data_of};
ghost use Rattle.iw44_image.specs.Image.{picture_of};
ghost use Rattle.page_decoder.specs.Kinds.{kind_of};
ghost use Rattle.page_decoder.specs.Kinds as kind;
ghost use Rattle.page_decoder.specs.Headers.{Head};
ghost use Rattle.page_decoder.specs.PageRead.{Decoded};
ghost use Rattle.page_decoder.specs.ChunkData.{back_limit, front_limit, info_outcome, dictionary_came, mask_came, front_came, back_came};
ghost use Rattle.page_decoder.specs.Found.{CanDraw};
ghost use Rattle.page_decoder.specs.Kept.{Keeps};
ghost use Rattle.page_decoder.specs.Opened.{Closes, ClosesTo, CountsOn, ReadsInfo, ReadsDictionary, ReadsMask, ReadsLayer, LayersStay, HasLaid, HasPage, HasDictionary, NameCame, StaysBeside};

use crate::kept::Kept;
use crate::layer_reader::{LayerReader, LayerStep};
use crate::page::{size_fault, size_in};
use crate::page_layers::{PageLayer, exchanged, layer_fault, notice_of, page_of};
use djvu_base::{FaultKind, Meter, Name, Notice};
use include_graph::include_name;
use jb2_records::{DictReader, Jb2Step, MaskReader, SharedDictionary};
use layer_compose::Layers;
use std::alloc::Global;

/// What a complete chunk came to.
#[derive(Drop)]
pub enum ChunkCame {
    /// A drawing, of which this is told.
    Drew(Notice),
    /// No drawing.
    Left,
    /// The name of an included file.
    Include(Name),
    /// Its first fault.
    Refused(FaultKind),
    /// There was no memory.
    OutOfMemory,
}

/// A chunk that was closed: what it came to, and how many decisions were read of it.
#[derive(Drop)]
pub struct Closed {
    pub came: ChunkCame,
    pub decisions: u64,
}

impl Closed {
    /// Without a decision.
    pub(crate) fn plain(came: ChunkCame) -> Closed
        ensures { result ≡ record { came = came; decisions = 0 } }
    {
        Closed { came, decisions: 0 }
    }

    fn of(came: ChunkCame, decisions: u64) -> Closed
        ensures { result ≡ record { came = came; decisions = decisions } }
    {
        Closed { came, decisions }
    }
}

/// What an `INCL` with these data holds.
pub(crate) fn close_name(alloc: Global, bytes: &[u8]) -> ChunkCame
    ensures { NameCame result bytes.now }
{
    match include_name(alloc, bytes) {
        Ok(Some(name)) => ChunkCame::Include(name),
        Ok(None) => ChunkCame::Refused(FaultKind::BadIncludeName),
        Err(_) => ChunkCame::OutOfMemory,
    }
}

impl Kept {
    /// Closes an `INFO`, of which these are the first ten bytes, or all.
    pub(crate) fn close_info(&mut self, alloc: Global, first: &[u8], chunks: u32) -> ChunkCame
        ensures closes { (table : List Row) (head : Head) (decoded : Decoded) (bytes : List ℕ) → Keeps table decoded self.old →
            ReadsInfo (kind_of head.id) decoded bytes first.now 0 →
            Closes result chunks table head decoded (info_outcome (data_of bytes true) decoded) self.new }
        ensures layers { LayersStay result self.old.layers self.new.layers }
    {
        if first.len() < 4 {
            return ChunkCame::Refused(FaultKind::BadInfo);
        }
        let size = size_in(first);
        match size_fault(size) {
            Some(kind) => ChunkCame::Refused(kind),
            None => self.lay_page(alloc, page_of(size, first), chunks),
        }
    }

    /// Draws the page without a layer.
    fn lay_page(&mut self, alloc: Global, layers: Layers, chunks: u32) -> ChunkCame
        requires { CanDraw layers }
        ensures laid { HasPage layers chunks result self.old.layers self.new.layers }
        ensures others { StaysBeside self.old self.new }
    {
        match notice_of(alloc, &layers, chunks) {
            Ok(notice) => {
                self.page = Some(layers);
                ChunkCame::Drew(notice)
            }
            Err(_) => ChunkCame::OutOfMemory,
        }
    }

    /// Closes a `Djbz`.
    pub(crate) fn close_dictionary<M: Meter>(
        &mut self,
        mut reader: DictReader,
        meter: &mut M,
    ) -> Closed
        ensures closes { (table : List Row) (head : Head) (decoded : Decoded) (bytes : List ℕ) (chunks : ℕ) → Keeps table decoded self.old →
            ReadsDictionary (kind_of head.id) table decoded bytes reader →
            ClosesTo result chunks table head decoded (dictionary_came table (data_of bytes true) decoded) self.new }
        ensures counts { CountsOn reader.decisions result.decisions (M.count meter.old) (M.count meter.new) }
        ensures layers { self.new.layers ≡ self.old.layers }
    {
        jb2_records::laws::records_end();
        reader.end();
        match reader.advance(meter) {
            Jb2Step::Finished => {
                let decisions = reader.decisions();
                Closed::of(self.keep_dictionary(reader), decisions)
            }
            Jb2Step::NeedBytes => Closed::of(
                ChunkCame::Refused(FaultKind::Truncated),
                reader.decisions(),
            ),
            Jb2Step::Refused(kind) => Closed::of(ChunkCame::Refused(kind), reader.decisions()),
            Jb2Step::OutOfMemory => Closed::of(ChunkCame::OutOfMemory, reader.decisions()),
        }
    }

    fn keep_dictionary(&mut self, reader: DictReader) -> ChunkCame
        requires { reader.answered ≡ Some Jb2Step.Finished }
        ensures keeps { HasDictionary reader result self.old self.new }
    {
        match reader.dictionary() {
            Ok(dictionary) => {
                self.dictionary = Some(SharedDictionary::new(dictionary));
                ChunkCame::Left
            }
            Err(_) => ChunkCame::OutOfMemory,
        }
    }

    /// Closes an `Sjbz`.
    pub(crate) fn close_mask<M: Meter>(
        &mut self,
        alloc: Global,
        mut reader: MaskReader,
        chunks: u32,
        meter: &mut M,
    ) -> Closed
        ensures closes { (table : List Row) (head : Head) (decoded : Decoded) (bytes : List ℕ) → Keeps table decoded self.old →
            ReadsMask (kind_of head.id) table decoded bytes reader →
            ClosesTo result chunks table head decoded (mask_came decoded.layers table (data_of bytes true) decoded) self.new }
        ensures counts { CountsOn reader.decisions result.decisions (M.count meter.old) (M.count meter.new) }
        ensures layers { LayersStay result.came self.old.layers self.new.layers }
    {
        jb2_records::laws::records_end();
        reader.end();
        match reader.advance(meter) {
            Jb2Step::Finished => {
                let decisions = reader.decisions();
                let mask = Some(reader.mask());
                Closed::of(self.lay(alloc, PageLayer::Mask(mask), chunks), decisions)
            }
            Jb2Step::NeedBytes => Closed::of(
                ChunkCame::Refused(FaultKind::Truncated),
                reader.decisions(),
            ),
            Jb2Step::Refused(kind) => Closed::of(ChunkCame::Refused(kind), reader.decisions()),
            Jb2Step::OutOfMemory => Closed::of(ChunkCame::OutOfMemory, reader.decisions()),
        }
    }

    /// Closes an `FG44`.
    pub(crate) fn close_front<M: Meter>(
        &mut self,
        alloc: Global,
        mut reader: LayerReader,
        chunks: u32,
        meter: &mut M,
    ) -> Closed
        requires { IsSome reader.image.to_come }
        ensures closes { (table : List Row) (head : Head) (decoded : Decoded) (bytes : List ℕ) → Keeps table decoded self.old →
            ReadsLayer kind.Front (kind_of head.id) front_limit [] table decoded bytes 0 reader →
            ClosesTo result chunks table head decoded (front_came decoded.layers table (data_of bytes true) decoded) self.new }
        ensures counts { CountsOn reader.decisions result.decisions (M.count meter.old) (M.count meter.new) }
        ensures layers { LayersStay result.came self.old.layers self.new.layers }
    {
        let came = self.front_came(alloc, &mut reader, chunks, meter);
        Closed::of(came, reader.decisions())
    }

    fn front_came<M: Meter>(
        &mut self,
        alloc: Global,
        reader: &mut LayerReader,
        chunks: u32,
        meter: &mut M,
    ) -> ChunkCame
        requires { IsSome reader.old.image.to_come }
        ensures closes { (table : List Row) (head : Head) (decoded : Decoded) (bytes : List ℕ) → Keeps table decoded self.old →
            ReadsLayer kind.Front (kind_of head.id) front_limit [] table decoded bytes 0 reader.old →
            ClosesTo (record { came = result; decisions = reader.new.decisions }) chunks table head decoded
            (front_came decoded.layers table (data_of bytes true) decoded) self.new }
        ensures counts { CountsOn reader.old.decisions reader.new.decisions (M.count meter.old) (M.count meter.new) }
        ensures layers { LayersStay result self.old.layers self.new.layers }
    {
        iw44_image::laws::layers_go_on();
        iw44_image::laws::complete_chunks_are_answered();
        match reader.advance(meter) {
            LayerStep::ChunkDone => self.lay_front(alloc, &*reader, chunks),
            LayerStep::NeedBytes => ChunkCame::Refused(FaultKind::Truncated),
            LayerStep::Refused(kind) => ChunkCame::Refused(kind),
            LayerStep::OutOfMemory => ChunkCame::OutOfMemory,
        }
    }

    fn lay_front(&mut self, alloc: Global, reader: &LayerReader, chunks: u32) -> ChunkCame
        requires { IsSome reader.now.image.header }
        ensures laid { HasLaid (PageLayer.Front (Some (picture_of reader.now.image))) chunks result self.old.layers self.new.layers }
        ensures others { StaysBeside self.old self.new }
    {
        match reader.raster(alloc) {
            Ok(raster) => self.lay(alloc, PageLayer::Front(Some(raster)), chunks),
            Err(_) => ChunkCame::OutOfMemory,
        }
    }

    /// Closes a `BG44`.
    pub(crate) fn close_back<M: Meter>(
        &mut self,
        alloc: Global,
        mut reader: LayerReader,
        chunks: u32,
        meter: &mut M,
    ) -> Closed
        requires { IsSome reader.image.to_come }
        ensures closes { (table : List Row) (head : Head) (decoded : Decoded) (bytes : List ℕ) → self.old.layers ≡ decoded.layers →
            self.old.own ≡ decoded.own → ReadsLayer kind.Back (kind_of head.id) back_limit decoded.back table decoded bytes 0 reader →
            ClosesTo result chunks table head decoded (back_came decoded.layers table (data_of bytes true) decoded) self.new }
        ensures counts { CountsOn reader.decisions result.decisions (M.count meter.old) (M.count meter.new) }
        ensures layers { LayersStay result.came self.old.layers self.new.layers }
    {
        iw44_image::laws::layers_go_on();
        iw44_image::laws::complete_chunks_are_answered();
        match reader.advance(meter) {
            LayerStep::ChunkDone => {
                let decisions = reader.decisions();
                Closed::of(self.lay_back(alloc, reader, chunks), decisions)
            }
            LayerStep::NeedBytes => Closed::of(
                ChunkCame::Refused(FaultKind::Truncated),
                reader.decisions(),
            ),
            LayerStep::Refused(kind) => Closed::of(ChunkCame::Refused(kind), reader.decisions()),
            LayerStep::OutOfMemory => Closed::of(ChunkCame::OutOfMemory, reader.decisions()),
        }
    }

    fn lay_back(&mut self, alloc: Global, reader: LayerReader, chunks: u32) -> ChunkCame
        requires told { IsSome reader.image.header }
        requires closed { reader.image.to_come ≡ None }
        ensures laid { HasLaid (PageLayer.Back (Some (picture_of reader.image))) chunks result self.old.layers self.new.layers }
        ensures own { self.new.own ≡ self.old.own }
        ensures back { (notice : Announced) → result ≡ ChunkCame.Drew notice → self.new.back ≡ Some reader }
    {
        match reader.raster(alloc) {
            Ok(raster) => {
                self.background = Some(reader);
                self.lay(alloc, PageLayer::Back(Some(raster)), chunks)
            }
            Err(_) => ChunkCame::OutOfMemory,
        }
    }

    /// Lays a layer on the page, and draws it. Where there is no memory for the notice, the page stays as it was.
    fn lay(&mut self, alloc: Global, layer: PageLayer, chunks: u32) -> ChunkCame
        ensures laid { HasLaid layer chunks result self.old.layers self.new.layers }
        ensures others { StaysBeside self.old self.new }
    {
        let Some(layers) = self.page.take() else {
            return ChunkCame::Refused(FaultKind::NoInfo);
        };
        if let Some(kind) = layer_fault(&layers, &layer) {
            self.page = Some(layers);
            return ChunkCame::Refused(kind);
        }
        let (laid, before) = exchanged(layers, layer);
        match notice_of(alloc, &laid, chunks) {
            Ok(notice) => {
                self.page = Some(laid);
                ChunkCame::Drew(notice)
            }
            Err(_) => {
                self.page = Some(exchanged(laid, before).0);
                ChunkCame::OutOfMemory
            }
        }
    }
}
