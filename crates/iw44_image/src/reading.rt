//! How an image reads its open chunk, step by step.
ghost use Rattle.std.specs.Prelude.{◌≡◌, ℕ, ◌+◌, ◌*◌, ◌<◌, ◌≤◌, List, length, drop, Option, Some, None, IsSome, OnOk, OnErr};
ghost use Rattle.djvu_base.specs.declared.faults.FaultKind.{FaultKind};
ghost use Rattle.iw44_image.specs.Starting.{HasArea};
ghost use Rattle.iw44_image.specs.Header.{Opened, open_chunk};
ghost use Rattle.iw44_image.specs.Layer.{Layer, has_chroma};
ghost use Rattle.iw44_image.specs.Image.{Holds, Steps, TicksTo, refused, is_whole, header_of};
ghost use Rattle.iw44_image.specs.Keeping.{ArePlanesMade, HasStepped, stage_behind, next_stage, first_stage};

use crate::headers::{Header, Start, open_chunk};
use crate::image::IwImage;
use crate::planes::{Channel, PlaneReaders};
use crate::steps::{IwStep, Stage};
use crate::unread::{finish, is_all};
use djvu_base::{FaultKind, Meter};
use iw44_slices::SliceStep;
use std::alloc::AllocError;

impl IwImage {
    /// Makes the planes once the header is known.
    pub(crate) fn make_planes(&mut self) -> Result<(), AllocError>
        ensures made { OnOk result (ArePlanesMade self.new) }
        ensures holds { OnOk result ((layer : Layer) (bytes : List ℕ) (decisions : ℕ) → Holds layer bytes decisions self.old →
            Holds layer bytes decisions self.new) }
        ensures err { OnErr result (self.new ≡ self.old) }
        ensures header { self.new.header ≡ self.old.header }
        ensures to_come { self.new.to_come ≡ self.old.to_come }
        ensures stage { self.new.stage ≡ self.old.stage }
        ensures zp { self.new.zp ≡ self.old.zp }
        ensures limit { self.new.limit ≡ self.old.limit }
    {
        let Some(header) = self.told else {
            return Ok(());
        };
        if self.readers.is_none() {
            self.readers = Some(PlaneReaders::new(self.alloc, header)?);
        }
        Ok(())
    }

    /// A step of the reading, which may have an answer.
    pub(crate) fn step<M: Meter>(&mut self, meter: &mut M) -> Option<IwStep>
        requires running { IsSome self.old.to_come }
        requires made { ArePlanesMade self.old }
        requires unrefused { refused self.old ≡ None }
        ensures steps { (layer : Layer) (bytes : List ℕ) (decisions : ℕ) → Holds layer bytes decisions self.old →
            (now : ℕ) × (Steps result layer bytes now self.old self.new × TicksTo decisions now (M.count meter.old) (M.count meter.new)) }
        ensures stepped { HasStepped result self.old self.new }
    {
        match self.at {
            Stage::Header => self.read_header(),
            Stage::Slice {
                channel,
                done,
                count,
            } => self.read_slice(channel, done, count, meter),
            Stage::Rest { count } => Some(self.end_chunk(count)),
            Stage::Refused(_) => unreachable!(),
        }
    }

    /// Reads the header, once it is there.
    fn read_header(&mut self) -> Option<IwStep>
        requires running { IsSome self.old.to_come }
        requires made { ArePlanesMade self.old }
        requires stage { self.old.stage ≡ Stage.Header }
        ensures steps { (layer : Layer) (bytes : List ℕ) (decisions : ℕ) → Holds layer bytes decisions self.old →
            Steps result layer bytes decisions self.old self.new }
        ensures stepped { HasStepped result self.old self.new }
    {
        let whole = self.is_whole();
        match open_chunk(
            self.most,
            self.chunks_done,
            self.told,
            self.unread.left(),
            whole,
        ) {
            Start::Short => Some(IwStep::NeedBytes),
            Start::Wrong(kind) => {
                self.at = Stage::Refused(kind);
                Some(IwStep::Refused(kind))
            }
            Start::Told {
                header,
                slices,
                length,
            } => self.begin(header, slices, length),
        }
    }

    /// Goes on behind the header, which has so many bytes. The first one tells the size.
    fn begin(&mut self, header: Header, slices: u8, size: usize) -> Option<IwStep>
        requires running { IsSome self.old.to_come }
        requires made { ArePlanesMade self.old }
        requires stage { self.old.stage ≡ Stage.Header }
        requires inside { size ≤ length self.old.left }
        requires some { 1 ≤ size }
        requires opened { open_chunk self.old.limit self.old.chunks self.old.header self.old.left (is_whole self.old.to_come) ≡ Opened header slices
            (drop size self.old.left) }
        requires chunks { self.old.chunks ≤ 255 }
        requires area { self.old.header ≡ None → HasArea self.old.limit header }
        ensures steps { (layer : Layer) (bytes : List ℕ) (decisions : ℕ) → Holds layer bytes decisions self.old →
            Steps result layer bytes decisions self.old self.new }
        ensures stepped { HasStepped result self.old self.new }
    {
        let whole = self.is_whole();
        self.unread.skip(size);
        self.decoder.restart();
        finish(&mut self.decoder, is_all(self.unread.left(), whole));
        self.at = first_stage(slices);
        if self.told.is_some() {
            return None;
        }
        self.told = Some(header);
        Some(IwStep::Sized {
            width: header.width,
            height: header.height,
        })
    }

    /// Reads the slice at hand on.
    fn read_slice<M: Meter>(
        &mut self,
        channel: Channel,
        done: u8,
        count: u8,
        meter: &mut M,
    ) -> Option<IwStep>
        requires running { IsSome self.old.to_come }
        requires made { ArePlanesMade self.old }
        requires stage { self.old.stage ≡ Stage.Slice channel done count }
        ensures steps { (layer : Layer) (bytes : List ℕ) (decisions : ℕ) → Holds layer bytes decisions self.old →
            (now : ℕ) × (Steps result layer bytes now self.old self.new × TicksTo decisions now (M.count meter.old) (M.count meter.new)) }
        ensures stepped { HasStepped result self.old self.new }
    {
        let whole = self.is_whole();
        self.decoder.was_fed();
        let Some(planes) = &mut self.readers else {
            unreachable!()
        };
        match planes.advance(channel, &mut self.decoder, meter) {
            SliceStep::SliceEnd => {
                let chroma = self.has_chroma(done);
                self.at = next_stage(chroma, channel, done, count);
                None
            }
            SliceStep::NeedBytes => {
                if self.unread.offer(&mut self.decoder, whole) {
                    None
                } else {
                    Some(IwStep::NeedBytes)
                }
            }
            SliceStep::Exhausted => {
                self.at = Stage::Refused(FaultKind::ZpExhausted);
                Some(IwStep::Refused(FaultKind::ZpExhausted))
            }
        }
    }

    /// Behind all slices the chunk is done once its data are there.
    fn end_chunk(&mut self, count: u8) -> IwStep
        requires running { IsSome self.old.to_come }
        requires stage { self.old.stage ≡ Stage.Rest count }
        ensures steps { (layer : Layer) (bytes : List ℕ) (decisions : ℕ) → Holds layer bytes decisions self.old → Steps
            (Some result) layer bytes decisions self.old self.new }
        ensures stepped { HasStepped (Some result) self.old self.new }
    {
        if !self.is_whole() {
            return IwStep::NeedBytes;
        }
        self.slices_done += u32::from(count);
        self.chunks_done += 1;
        self.unread.clear();
        self.to_come = None;
        self.at = Stage::Header;
        IwStep::ChunkDone
    }

    /// Whether all data of the open chunk came.
    fn is_whole(&self) -> bool
        ensures { result ≡ is_whole self.now.to_come }
    {
        match self.to_come {
            None => true,
            Some(left) => left == 0,
        }
    }

    /// Whether chroma has begun in the slice behind so many of the chunk.
    fn has_chroma(&self, done: u8) -> bool
        requires known { IsSome self.now.header }
        requires small { self.now.slices ≤ 255 * 255 }
        ensures { result ≡ has_chroma (header_of self.now) (self.now.slices + done) }
    {
        let Some(header) = self.told else {
            unreachable!()
        };
        !header.grey && u32::from(header.delay) <= self.slices_done + u32::from(done)
    }
}

/// Where a chunk goes on behind a slice of the image.
fn stage_behind(done: u8, count: u8) -> Stage
    requires { done < count }
    ensures { result ≡ stage_behind done count }
{
    if done + 1 < count {
        Stage::Slice {
            channel: Channel::Y,
            done: done + 1,
            count,
        }
    } else {
        Stage::Rest { count }
    }
}

/// Where a chunk goes on behind a slice of a plane, where chroma has begun or not.
fn next_stage(chroma: bool, channel: Channel, done: u8, count: u8) -> Stage
    requires { done < count }
    ensures { result ≡ next_stage chroma channel done count }
{
    match channel {
        Channel::Y if chroma => Stage::Slice {
            channel: Channel::B,
            done,
            count,
        },
        Channel::B => Stage::Slice {
            channel: Channel::R,
            done,
            count,
        },
        Channel::Y | Channel::R => stage_behind(done, count),
    }
}

/// Where a chunk of so many slices begins.
fn first_stage(count: u8) -> Stage
    ensures { result ≡ first_stage count }
{
    if count == 0 {
        Stage::Rest { count: 0 }
    } else {
        Stage::Slice {
            channel: Channel::Y,
            done: 0,
            count,
        }
    }
}
