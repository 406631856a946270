//! What complete chunks of a file leave to later ones.
ghost use Rattle.std.specs.Prelude.{◌≡◌, ℕ, ◌^◌, ◌≤◌, List, [], length, true, false, Some, None, is_some, unwrap_or, IsSome, IfOk};
ghost use Rattle.std.specs.Arc.{arc_value};
ghost use Rattle.zp_table.specs.declared.rows.Row.{Row};
ghost use Rattle.jb2_records.specs.declared.purpose.Purpose.TheVariants as purpose;
ghost use Rattle.jb2_records.specs.Reader.{inherited_of};
ghost use Rattle.iw44_image.specs.Layer.{Data, data_of};
ghost use Rattle.layer_compose.specs.declared.layers.Layers.{Layers};
ghost use Rattle.page_decoder.specs.Kinds.{kind_of};
ghost use Rattle.page_decoder.specs.PageRead.{Decoded, nothing_decoded, or_else};
ghost use Rattle.page_decoder.specs.ChunkData.{came};
ghost use Rattle.page_decoder.specs.Headers.{Head, front_in};
ghost use Rattle.page_decoder.specs.Reading.{mask_in};
ghost use Rattle.page_decoder.specs.Found.{CanDrawLast};
ghost use Rattle.page_decoder.specs.LayerState.{Rests, Lays};
ghost use Rattle.page_decoder.specs.Kept.{Keeps, IsBehind, IsReady};
ghost use Rattle.page_decoder.specs.Opened.{Opens, Begins, ReadsRecords, ClosesTo, CountsOn, LayersStay, IsRunning, decisions_by, decisions_of};

use crate::closing::{ChunkCame, Closed, close_name};
use crate::headers::Head;
use crate::kinds::ChunkKind;
use crate::layer_reader::LayerReader;
use crate::open_chunks::{ChunkReader, Open};
use djvu_base::{Meter, Share};
use jb2_records::{DictReader, Dictionary, MaskReader, SharedDictionary};
use layer_compose::Layers;
use std::alloc::{AllocError, Global};
use std::marker::Model;
use std::sync::Arc;
use zp_table::Table;

/// The most pixels of a background, and of a foreground.
const BACK_LIMIT: u32 = 16_777_216;

const FRONT_LIMIT: u32 = 1_048_576;

/// What complete chunks of a file leave to later ones, but for its includes: the page's layers, the reader of its background, and
/// the file's own dictionary. Its layers can always be drawn.
///
/// Contracts speak of it by `Keeps table decoded kept`: chunks left `decoded`, and this is kept of it.
#[derive(Drop)]
pub struct Kept {
    pub(crate) page: Option<Layers>,
    pub(crate) background: Option<LayerReader>,
    pub(crate) dictionary: Option<SharedDictionary>,
}

impl Model for Kept {
    ghost use Rattle.page_decoder.specs.Kept.{Keeping, IsKept};

    ghost Value = { Keeping };

    ghost view = { λ a. record { layers = a.page; back = a.background; own = a.dictionary } };

    ghost invariant = { λ a. IsKept (record { layers = a.page; back = a.background; own = a.dictionary }) };
}

impl Kept {
    /// Before the first chunk. Takes no memory.
    pub fn new() -> Kept
        ensures keeps { (table : List Row) → Keeps table nothing_decoded result }
        ensures layers { result.layers ≡ None }
    {
        Kept {
            page: None,
            background: None,
            dictionary: None,
        }
    }

    /// The page's layers. They can be drawn.
    pub fn layers(&self) -> &Option<Layers>
        ensures layers { result.now ≡ self.now.layers }
        ensures drawable { CanDrawLast self.now.layers }
    {
        &self.page
    }

    /// The page's layers, handed out.
    pub fn into_layers(self) -> Option<Layers>
        ensures layers { result ≡ self.layers }
        ensures drawable { CanDrawLast result }
    {
        self.page
    }

    /// The file's own dictionary.
    pub fn dictionary(&self) -> &Option<SharedDictionary>
        ensures { result.now ≡ self.now.own }
    {
        &self.dictionary
    }

    /// Whether the file has a dictionary of its own.
    pub fn has_dictionary(&self) -> bool
        ensures { result ≡ is_some self.now.own }
    {
        self.dictionary.is_some()
    }

    /// Whether the page has a mask.
    pub fn has_mask(&self) -> bool
        ensures { result ≡ is_some (mask_in self.now.layers) }
    {
        match &self.page {
            Some(layers) => layers.mask.is_some(),
            None => false,
        }
    }

    /// Whether the page has a foreground.
    pub fn has_front(&self) -> bool
        ensures { result ≡ is_some (front_in self.now.layers) }
    {
        match &self.page {
            Some(layers) => layers.front.is_some(),
            None => false,
        }
    }

    /// Begins the chunk with this header, which has no fault. `inherited` is the dictionary of the file's includes. The reader of
    /// the background goes into its chunk, until that is closed.
    pub fn begin(
        &mut self,
        alloc: Global,
        table: &Arc<Table>,
        inherited: &Option<SharedDictionary>,
        head: Head,
    ) -> Result<Open, AllocError>
        requires { IsReady (kind_of head.id) head.size self.old.layers }
        ensures opens { IfOk result (λ chunk. (decoded : Decoded) → Keeps (arc_value table.now) decoded self.old → decoded.inherited ≡ inherited.now →
            Opens (arc_value table.now) head decoded [] self.new chunk) }
        ensures decisions { IfOk result (λ chunk. decisions_of chunk ≡ 0) }
        ensures layers { self.new.layers ≡ self.old.layers }
    {
        let reader = self.reader_for(alloc, table, inherited, head)?;
        Ok(Open::new(head.size, reader))
    }

    /// Closes a chunk that was begun here, and whose data are all there: reads them to their end, and lays what they bring. With
    /// this chunk the page has so many chunks. Each decision that is new ticks the meter once.
    ///
    /// Where no drawing comes, the page's layers stay.
    pub fn close<M: Meter>(
        &mut self,
        alloc: Global,
        chunk: Open,
        chunks: u32,
        meter: &mut M,
    ) -> Closed
        // For all that the chunk may stand for, what its complete data come to.
        ensures closes { (table : List Row) (head : Head) (decoded : Decoded) (bytes : List ℕ) →
            Opens table head decoded bytes self.old chunk → length bytes ≡ head.size →
            ClosesTo result chunks table head decoded (came table head (data_of bytes true) decoded) self.new }
        ensures counts { CountsOn (decisions_of chunk) result.decisions (M.count meter.old) (M.count meter.new) }
        ensures layers { LayersStay result.came self.old.layers self.new.layers }
    {
        match chunk.into_reader() {
            ChunkReader::Passed => Closed::plain(ChunkCame::Left),
            ChunkReader::Info(bytes) => Closed::plain(self.close_info(alloc, &bytes, chunks)),
            ChunkReader::Name(bytes) => Closed::plain(close_name(alloc, &bytes)),
            ChunkReader::Dictionary(reader) => self.close_dictionary(reader, meter),
            ChunkReader::Mask(reader) => self.close_mask(alloc, reader, chunks, meter),
            ChunkReader::Front(reader) => self.close_front(alloc, reader, chunks, meter),
            ChunkReader::Back(reader) => self.close_back(alloc, reader, chunks, meter),
        }
    }

    /// What reads the data of the chunk with this header.
    fn reader_for(
        &mut self,
        alloc: Global,
        table: &Arc<Table>,
        inherited: &Option<SharedDictionary>,
        head: Head,
    ) -> Result<ChunkReader, AllocError>
        requires { IsReady (kind_of head.id) head.size self.old.layers }
        ensures begins { IfOk result (λ reader. (decoded : Decoded) → Keeps (arc_value table.now) decoded self.old → decoded.inherited ≡ inherited.now →
            Begins reader (arc_value table.now) head decoded self.new) }
        ensures running { IfOk result (λ reader. IsRunning head.size reader) }
        ensures decisions { IfOk result (λ reader. decisions_by reader ≡ 0) }
        ensures layers { self.new.layers ≡ self.old.layers }
        ensures own { self.new.own ≡ self.old.own }
    {
        match ChunkKind::of(head.id) {
            ChunkKind::Info => Ok(ChunkReader::Info(Vec::new(alloc))),
            ChunkKind::Include => Ok(ChunkReader::Name(Vec::new(alloc))),
            ChunkKind::Dictionary => {
                let reader = self.dictionary_reader(alloc, table, inherited)?;
                Ok(ChunkReader::Dictionary(reader))
            }
            ChunkKind::Mask => {
                let reader = self.mask_reader(alloc, table, inherited)?;
                Ok(ChunkReader::Mask(reader))
            }
            ChunkKind::Front => {
                let reader = self.layer_reader(alloc, table, FRONT_LIMIT)?;
                Ok(ChunkReader::Front(begun(reader, head.size)))
            }
            ChunkKind::Back => {
                let reader = self.back_reader(alloc, table)?;
                Ok(ChunkReader::Back(begun(reader, head.size)))
            }
            ChunkKind::Refused | ChunkKind::Passed => Ok(ChunkReader::Passed),
        }
    }

    fn dictionary_reader(
        &self,
        alloc: Global,
        table: &Arc<Table>,
        inherited: &Option<SharedDictionary>,
    ) -> Result<DictReader, AllocError>
        ensures reads { IfOk result (λ reader. (decoded : Decoded) → Keeps (arc_value table.now) decoded self.now → decoded.inherited ≡ inherited.now →
            ReadsRecords purpose.Dictionary (arc_value table.now) decoded [] reader) }
        ensures open_end { IfOk result (λ reader. reader.ended ≡ false) }
        ensures decisions { IfOk result (λ reader. reader.decisions ≡ 0) }
    {
        table.len();
        let shapes = self.in_force(inherited)?;
        DictReader::new(alloc, Arc::try_clone(table)?, shapes)
    }

    fn mask_reader(
        &self,
        alloc: Global,
        table: &Arc<Table>,
        inherited: &Option<SharedDictionary>,
    ) -> Result<MaskReader, AllocError>
        requires { IsSome self.now.layers }
        ensures reads { IfOk result (λ reader. (decoded : Decoded) (layers : Layers) → Keeps (arc_value table.now) decoded self.now →
            decoded.inherited ≡ inherited.now → decoded.layers ≡ Some layers →
            ReadsRecords (purpose.Mask layers.width layers.height) (arc_value table.now) decoded [] reader) }
        ensures open_end { IfOk result (λ reader. reader.ended ≡ false) }
        ensures decisions { IfOk result (λ reader. reader.decisions ≡ 0) }
    {
        let Some(layers) = &self.page else {
            unreachable!()
        };
        table.len();
        let shapes = self.in_force(inherited)?;
        MaskReader::new(
            alloc,
            Arc::try_clone(table)?,
            shapes,
            layers.width,
            layers.height,
        )
    }

    /// The reader of the background, or a new one for its first chunk.
    fn back_reader(&mut self, alloc: Global, table: &Arc<Table>) -> Result<LayerReader, AllocError>
        requires { IsSome self.old.layers }
        ensures rests { IfOk result (λ reader. (decoded : Decoded) (layers : Layers) → Keeps (arc_value table.now) decoded self.old →
            decoded.layers ≡ Some layers → IsBehind (arc_value table.now) layers decoded.back reader) }
        ensures closed { IfOk result (λ reader. reader.image.to_come ≡ None) }
        ensures layers { self.new.layers ≡ self.old.layers }
        ensures own { self.new.own ≡ self.old.own }
    {
        match self.background.take() {
            Some(reader) => Ok(reader),
            None => self.layer_reader(alloc, table, BACK_LIMIT),
        }
    }

    /// A reader of a layer of at most `limit` pixels, of which no chunk came.
    fn layer_reader(
        &self,
        alloc: Global,
        table: &Arc<Table>,
        limit: u32,
    ) -> Result<LayerReader, AllocError>
        requires sized { IsSome self.now.layers }
        requires most { limit ≤ 2 ^ 24 }
        ensures rests { IfOk result (λ reader. Rests [] reader) }
        ensures table { IfOk result (λ reader. reader.image.zp.table ≡ arc_value table.now) }
        ensures limit { IfOk result (λ reader. reader.image.limit ≡ limit) }
        ensures page { IfOk result (λ reader. (layers : Layers) → self.now.layers ≡ Some layers → reader.page ≡ (layers.width, layers.height)) }
        ensures closed { IfOk result (λ reader. reader.image.to_come ≡ None) }
    {
        let Some(layers) = &self.page else {
            unreachable!()
        };
        Ok(LayerReader::new(
            alloc,
            Arc::try_clone(table)?,
            (layers.width, layers.height),
            limit,
        ))
    }

    /// A share of the dictionary in force: the file's own, or that of its includes.
    fn in_force(
        &self,
        inherited: &Option<SharedDictionary>,
    ) -> Result<Option<Arc<Dictionary>>, AllocError>
        ensures { IfOk result (λ found. inherited_of found ≡ unwrap_or (or_else self.now.own inherited.now) []) }
    {
        match &self.dictionary {
            Some(own) => share_of(own),
            None => match inherited {
                Some(dictionary) => share_of(dictionary),
                None => Ok(None),
            },
        }
    }
}

fn share_of(dictionary: &SharedDictionary) -> Result<Option<Arc<Dictionary>>, AllocError>
    ensures { IfOk result (λ found. inherited_of found ≡ dictionary.now) }
{
    Ok(Some(Arc::try_clone(dictionary.dictionary())?))
}

/// A reader whose next chunk has so many bytes.
fn begun(mut reader: LayerReader, size: u32) -> LayerReader
    requires { reader.image.to_come ≡ None }
    ensures lays { (chunks : List Data) → Rests chunks reader → Lays chunks [] result }
    ensures to_come { result.image.to_come ≡ Some size }
    ensures decisions { result.decisions ≡ 0 }
    ensures table { result.image.zp.table ≡ reader.image.zp.table }
    ensures limit { result.image.limit ≡ reader.image.limit }
    ensures page { result.page ≡ reader.page }
{
    reader.begin(size);
    reader
}
