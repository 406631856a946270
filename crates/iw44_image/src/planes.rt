//! The planes of an image, and the readers of their slices.
ghost use Rattle.std.specs.Prelude.{◌≡◌, ℕ, ◌-◌, ◌^◌, ◌<◌, List, length, Option, IfOk};
ghost use Rattle.djvu_base.specs.Meter.{TicksExactly};
ghost use Rattle.zp_decoder.specs.Decision.{Interval};
ghost use Rattle.zp_decoder.specs.Decoder.{Fed};
ghost use Rattle.iw44_slices.specs.Slice.{Course};
ghost use Rattle.iw44_slices.specs.Reader.{Stands, reading_from};
ghost use Rattle.iw44_image.specs.declared.headers.Header.{Header};
ghost use Rattle.iw44_image.specs.Starting.{HasArea};
ghost use Rattle.iw44_image.specs.Samples.{components_of, picture};
ghost use Rattle.iw44_image.specs.Readers.{IsSound, AreSound, IsNew, AreNew, HasRead, HaveRead, Placed, HasChannel, plane_reading, planes_of};

use crate::headers::Header;
use crate::rasters::Samples;
use djvu_base::{Meter, Raster};
use iw44_blocks::{Coefficients, laws as blocks};
use iw44_slices::{SliceReader, SliceStep};
use std::alloc::{AllocError, Global};
use zp_decoder::ZpDecoder;

/// A plane of an image: brightness, and two of chroma where it has colours.
#[derive(Clone, Copy, Debug, PartialEq, Eq)]
pub(crate) enum Channel {
    Y,
    B,
    R,
}

/// The coefficients of a plane, and the reader of its slices.
#[derive(Debug, Drop)]
pub(crate) struct PlaneReader {
    pub coefficients: Coefficients,
    pub reader: SliceReader,
}

/// Chroma of an image with colours.
#[derive(Debug, Drop)]
pub(crate) struct ChromaReaders {
    pub b: PlaneReader,
    pub r: PlaneReader,
}

/// The planes of an image.
#[derive(Debug, Drop)]
pub(crate) struct PlaneReaders {
    pub y: PlaneReader,
    pub chroma: Option<ChromaReaders>,
}

impl PlaneReader {
    /// A plane whose coefficients are all 0, before its first slice.
    fn new(alloc: Global, header: Header) -> Result<PlaneReader, AllocError>
        requires { HasArea (2 ^ 24) header }
        ensures new { IfOk result (λ plane. IsNew header plane) }
        ensures sound { IfOk result (λ plane. (count : ℕ) → 0 < count → IsSound count header plane) }
    {
        blocks::small_planes();
        Ok(PlaneReader {
            coefficients: Coefficients::new(alloc, header.width, header.height)?,
            reader: SliceReader::new(),
        })
    }

    /// Reads the slice at hand on, as far as the bytes go.
    fn advance<M: Meter>(&mut self, zp: &mut ZpDecoder, meter: &mut M) -> SliceStep
        requires { (header : Header) × IsSound (length zp.old.table) header self.old }
        ensures read { (slice decisions : ℕ) (course : Course) (payload : List ℕ) (place : Option Interval) →
            Stands slice course self.old.coefficients self.old.reader →
            Fed payload place zp.old → HasRead slice (reading_from course zp.old payload place self.old.reader decisions) payload self.new zp.new result }
        ensures ticks { (slice decisions : ℕ) (course : Course) (payload : List ℕ) (place : Option Interval) →
            Stands slice course self.old.coefficients self.old.reader →
            Fed payload place zp.old →
            TicksExactly ((reading_from course zp.old payload place self.old.reader decisions).at.decisions - decisions) (M.count meter.old)
            (M.count meter.new) }
        ensures sound { (header : Header) → IsSound (length zp.old.table) header self.old → IsSound (length zp.old.table) header self.new }
        ensures table { zp.new.table ≡ zp.old.table }
        ensures ended { zp.new.ended ≡ zp.old.ended }
    {
        self.reader.advance(&mut self.coefficients, zp, meter)
    }
}

impl PlaneReaders {
    /// The planes of an image with this header, all coefficients 0.
    pub fn new(alloc: Global, header: Header) -> Result<PlaneReaders, AllocError>
        requires { HasArea (2 ^ 24) header }
        ensures new { IfOk result (λ planes. AreNew header planes) }
        ensures sound { IfOk result (λ planes. (count : ℕ) → 0 < count → AreSound count header planes) }
    {
        let y = PlaneReader::new(alloc, header)?;
        if header.grey {
            return Ok(PlaneReaders { y, chroma: None });
        }
        let b = PlaneReader::new(alloc, header)?;
        let r = PlaneReader::new(alloc, header)?;
        Ok(PlaneReaders {
            y,
            chroma: Some(ChromaReaders { b, r }),
        })
    }

    /// Reads the slice at hand of a plane on, as far as the bytes go.
    pub fn advance<M: Meter>(
        &mut self,
        channel: Channel,
        zp: &mut ZpDecoder,
        meter: &mut M,
    ) -> SliceStep
        requires sound { (header : Header) × AreSound (length zp.old.table) header self.old }
        requires channel { HasChannel channel self.old }
        ensures read { (header : Header) (slice decisions : ℕ) (course : Course) (payload : List ℕ) (place : Option Interval) →
            AreSound (length zp.old.table) header self.old → Placed header channel slice course self.old → Fed payload place zp.old →
            HaveRead header channel slice (plane_reading header channel course decisions payload place zp.old self.old) payload self.old self.new
            zp.new result }
        ensures ticks { (header : Header) (slice decisions : ℕ) (course : Course) (payload : List ℕ) (place : Option Interval) →
            AreSound (length zp.old.table) header self.old → Placed header channel slice course self.old → Fed payload place zp.old →
            TicksExactly ((plane_reading header channel course decisions payload place zp.old self.old).at.decisions - decisions) (M.count meter.old)
            (M.count meter.new) }
        ensures sound { (header : Header) → AreSound (length zp.old.table) header self.old → AreSound (length zp.old.table) header self.new }
        ensures table { zp.new.table ≡ zp.old.table }
        ensures ended { zp.new.ended ≡ zp.old.ended }
    {
        match channel {
            Channel::Y => self.y.advance(zp, meter),
            Channel::B => match &mut self.chroma {
                Some(chroma) => chroma.b.advance(zp, meter),
                None => unreachable!(),
            },
            Channel::R => match &mut self.chroma {
                Some(chroma) => chroma.r.advance(zp, meter),
                None => unreachable!(),
            },
        }
    }

    /// The picture of the coefficients so far.
    pub fn raster(&self, alloc: Global, header: Header) -> Result<Raster, AllocError>
        requires area { HasArea (2 ^ 24) header }
        requires sound { (count : ℕ) × AreSound count header self.now }
        ensures { IfOk result (λ raster. raster ≡ picture header (components_of (planes_of header self.now))) }
    {
        match &self.chroma {
            None => Samples::grey(alloc, &self.y.coefficients)?.picture(alloc, header),
            Some(chroma) => {
                let (b, r) = (&chroma.b.coefficients, &chroma.r.coefficients);
                let samples = Samples::coloured(alloc, &self.y.coefficients, b, r, header.half)?;
                samples.picture(alloc, header)
            }
        }
    }
}
