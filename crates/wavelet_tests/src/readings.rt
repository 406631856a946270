//! Images that are read in pieces, and what is seen of them.
ghost use Rattle.std.specs.Prelude.{◌≡◌, ℕ, ◌-◌, length, Some, None, IsSome, IfSome};
ghost use Rattle.iw44_image.specs.Image.{open_after};
ghost use Rattle.iw44_image.specs.Keeping.{HasRoom};

use djvu_base::{CountMeter, Raster};
use iw44_image::{IwImage, IwStep};
use std::alloc::Global;
use std::sync::Arc;
use zp_table::Table;

/// The built-in tables.
#[derive(Clone, Copy)]
pub enum Rows {
    Flat,
    Djvu,
}

impl Rows {
    fn table(self, alloc: Global) -> Option<Arc<Table>> {
        let table = match self {
            Rows::Flat => Table::flat(alloc),
            Rows::Djvu => Table::djvu(alloc),
        };
        Arc::new(alloc, table.ok()?).ok()
    }
}

/// An image of which no chunk came, of at most 16,777,216 pixels.
pub fn begin(alloc: Global, rows: Rows) -> Option<IwImage>
    ensures { IfSome result (λ image. image.to_come ≡ None) }
{
    Some(IwImage::new(alloc, rows.table(alloc)?, 16_777_216))
}

/// What a chunk came to.
#[derive(Clone, Copy)]
pub struct Seen {
    /// The first answer that isn't that more bytes are needed.
    pub answer: IwStep,
    /// After so many bytes of the chunk.
    pub bytes: usize,
    /// Of all chunks so far.
    pub decisions: u64,
    /// The sum of the decisions after each piece.
    pub counts: u64,
}

/// An image that is read, and its meter.
#[derive(Drop)]
pub struct Reading {
    pub image: IwImage,
    meter: CountMeter,
    /// The width and height that were told, in pixels.
    pub size: Option<(u32, u32)>,
}

impl Reading {
    /// Before the first chunk of a layer.
    pub fn new(alloc: Global, rows: Rows) -> Option<Reading>
        ensures closed { IfSome result (λ reading. reading.image.to_come ≡ None) }
        ensures known { IfSome result (λ reading. IsSome reading.size → IsSome reading.image.header) }
    {
        Some(Reading {
            image: begin(alloc, rows)?,
            meter: CountMeter::new(),
            size: None,
        })
    }

    /// Goes on, behind the size too where it is told.
    fn advance(&mut self) -> IwStep
        requires { IsSome self.old.image.to_come }
        ensures to_come { self.new.image.to_come ≡ open_after result self.old.image.to_come }
        ensures known { (IsSome self.old.size → IsSome self.old.image.header) → IsSome self.new.size → IsSome self.new.image.header }
    {
        let step = self.image.advance(&mut self.meter);
        let IwStep::Sized { width, height } = step else {
            return step;
        };
        self.size = Some((width, height));
        self.image.advance(&mut self.meter)
    }

    /// Takes the next bytes of the open chunk, and goes on.
    fn feed(&mut self, piece: &[u8]) -> Option<IwStep>
        requires { HasRoom (length piece.now) self.old.image.to_come }
        ensures to_come { IfSome result (λ answer. (left : ℕ) → self.old.image.to_come ≡ Some left →
            self.new.image.to_come ≡ open_after answer (Some (left - length piece.now))) }
        ensures known { (IsSome self.old.size → IsSome self.old.image.header) → IsSome self.new.size → IsSome self.new.image.header }
    {
        match self.image.push(piece) {
            Ok(_) => Some(self.advance()),
            Err(_) => None,
        }
    }

    /// Reads a chunk in pieces of so many bytes, and goes on after each.
    pub fn read(&mut self, chunk: &[u8], size: usize) -> Option<Seen>
        requires { self.old.image.to_come ≡ None }
        ensures closed { IfSome result (λ seen. seen.answer ≡ IwStep.ChunkDone → self.new.image.to_come ≡ None) }
        ensures known { (IsSome self.old.size → IsSome self.old.image.header) → IsSome self.new.size → IsSome self.new.image.header }
    {
        self.image.chunk_begin(u32::try_from(chunk.len()).ok()?);
        let mut left = chunk;
        let mut counts = 0u64;
        for _ in 0..=chunk.len() {
            let (piece, rest) = left.split_at(size.min(left.len()));
            let answer = self.feed(piece)?;
            left = rest;
            counts = counts.saturating_add(self.meter.count());
            if answer != IwStep::NeedBytes {
                return Some(Seen {
                    answer,
                    bytes: chunk.len().saturating_sub(left.len()),
                    decisions: self.meter.count(),
                    counts,
                });
            }
        }
        None
    }

    /// Reads a chunk to its end with a stop after so many bytes, and gives the decisions and the picture there.
    pub fn stop(&mut self, alloc: Global, chunk: &[u8], bytes: usize) -> Option<(u64, Raster)>
        requires closed { self.old.image.to_come ≡ None }
        requires known { IsSome self.old.size → IsSome self.old.image.header }
        ensures { IsSome self.new.size → IsSome self.new.image.header }
    {
        self.image.chunk_begin(u32::try_from(chunk.len()).ok()?);
        let (first, rest) = chunk.split_at(bytes.min(chunk.len()));
        if self.feed(first)? != IwStep::NeedBytes {
            return None;
        }
        let decisions = self.meter.count();
        let picture = self.picture(alloc)?;
        if self.feed(rest)? != IwStep::ChunkDone {
            return None;
        }
        Some((decisions, picture))
    }

    /// The picture so far, once the size was told.
    pub fn picture(&self, alloc: Global) -> Option<Raster>
        requires { IsSome self.now.size → IsSome self.now.image.header }
    {
        if self.size.is_none() {
            return None;
        }
        self.image.raster(alloc).ok()
    }

    /// A number that each sample of the picture so far and its place go into.
    pub fn digest(&self, alloc: Global) -> Option<u64>
        requires { IsSome self.now.size → IsSome self.now.image.header }
    {
        Some(digest(&self.picture(alloc)?))
    }
}

/// A number that each sample of a picture and its place go into.
pub fn digest(picture: &Raster) -> u64 {
    let mut sum = 0u64;
    for sample in picture.samples() {
        sum = sum.wrapping_mul(31).wrapping_add(u64::from(*sample));
    }
    sum
}
