//! How a step changes what a core keeps of a page, and how its layers are taken.
ghost use Rattle.std.specs.Prelude.{◌≡◌, ◌⊎◌, Some, None, true, false, MatchOption};
ghost use Rattle.djvu_base.specs.Library.{Open};
ghost use Rattle.page_decoder.specs.Found.{CanDrawLast};
ghost use Rattle.page_decoder.specs.PageFed.{Decoding};
ghost use Rattle.replay_core.specs.Core.{answer_at};
ghost use Rattle.replay_core.specs.CoreSteps.{part_with, without_decoder};

use crate::core_calls::CoreStep;
use crate::pages::{CoreEnd, CorePage};
use djvu_base::{Notice, Share};
use layer_compose::Layers;
use page_decoder::PageDecoder;

impl CorePage {
    /// The page's decoder, which goes on out of its place. Until it is settled there, it counts as one without memory.
    pub(crate) fn begin(&mut self) -> Option<PageDecoder>
        ensures begins { MatchOption result ((self.old.decoder ≡ None) × (self.new ≡ self.old))
            (λ decoder. (self.old.decoder ≡ Some decoder) × (self.new ≡ without_decoder self.old)) }
        ensures open { (decoder : Decoding) → result ≡ Some decoder → self.old.closed ≡ false → decoder.mark ≡ Open }
    {
        let decoder = self.decoder.take()?;
        self.end = CoreEnd::OutOfMemory;
        Some(decoder)
    }

    /// Puts the decoder back, which answered so, or ends the page. Where there is no memory to keep a notice, the page ends so.
    pub(crate) fn settle(&mut self, decoder: PageDecoder, answer: CoreStep) -> CoreStep
        requires open { self.old.closed ≡ false → decoder.mark ≡ Open }
        requires out { self.old.decoder ≡ None }
        ensures part { self.new ≡ part_with result decoder self.old }
        ensures answer { (result ≡ answer) ⊎ (result ≡ CoreStep.OutOfMemory) }
    {
        self.count(decoder.decisions());
        self.settle_counted(decoder, answer)
    }

    /// So many decisions were read of the page.
    fn count(&mut self, decisions: u64)
        ensures { self.new ≡ record self.old { decisions = decisions } }
    {
        self.decisions = decisions;
    }

    /// The same, once its decisions are counted.
    fn settle_counted(&mut self, decoder: PageDecoder, answer: CoreStep) -> CoreStep
        requires open { self.old.closed ≡ false → decoder.mark ≡ Open }
        requires out { self.old.decoder ≡ None }
        requires decisions { self.old.decisions ≡ decoder.decisions }
        ensures part { self.new ≡ part_with result decoder self.old }
        ensures answer { (result ≡ answer) ⊎ (result ≡ CoreStep.OutOfMemory) }
    {
        match answer {
            CoreStep::Drew(notice) => self.keep(decoder, notice),
            CoreStep::NeedBytes => {
                self.put(decoder);
                CoreStep::NeedBytes
            }
            CoreStep::NeedFile(file) => {
                self.put(decoder);
                CoreStep::NeedFile(file)
            }
            CoreStep::Finished => {
                self.finish(decoder, CoreEnd::Finished);
                CoreStep::Finished
            }
            CoreStep::Refused(fault) => {
                self.finish(decoder, CoreEnd::Refused(fault));
                CoreStep::Refused(fault)
            }
            CoreStep::OutOfMemory => CoreStep::OutOfMemory,
        }
    }

    /// The decoder is back in its place.
    fn put(&mut self, decoder: PageDecoder)
        requires open { self.old.closed ≡ false → decoder.mark ≡ Open }
        requires out { self.old.decoder ≡ None }
        ensures { self.new ≡ record self.old { decoder = Some decoder } }
    {
        self.decoder = Some(decoder);
    }

    /// The page drew this notice.
    fn keep(&mut self, decoder: PageDecoder, notice: Notice) -> CoreStep
        requires open { self.old.closed ≡ false → decoder.mark ≡ Open }
        requires out { self.old.decoder ≡ None }
        requires decisions { self.old.decisions ≡ decoder.decisions }
        ensures part { self.new ≡ part_with result decoder self.old }
        ensures answer { (result ≡ CoreStep.Drew notice) ⊎ (result ≡ CoreStep.OutOfMemory) }
    {
        match notice.share() {
            Ok(share) => {
                self.tell(share);
                self.put(decoder);
                CoreStep::Drew(notice)
            }
            Err(_) => CoreStep::OutOfMemory,
        }
    }

    /// This is its last notice.
    fn tell(&mut self, notice: Notice)
        ensures { self.new ≡ record self.old { last = Some notice } }
    {
        self.last = Some(notice);
    }

    /// The page ends so. Its layers stay, and its decoder goes.
    fn finish(&mut self, decoder: PageDecoder, end: CoreEnd)
        requires out { self.old.decoder ≡ None }
        ensures { self.new ≡ record self.old { end = end; layers = decoder.layers } }
    {
        self.end = end;
        self.put_layers(decoder.take());
    }

    /// Its layers at its end.
    fn put_layers(&mut self, layers: Option<Layers>)
        requires { CanDrawLast layers }
        ensures { self.new ≡ record self.old { layers = layers } }
    {
        self.layers = layers;
    }

    /// Its layers, handed out.
    pub(crate) fn take(&mut self) -> Option<Layers>
        ensures layers { result ≡ self.old.layers }
        ensures drawable { CanDrawLast result }
        ensures part { self.new ≡ record self.old { layers = None; taken = true } }
    {
        self.taken = true;
        self.layers.take()
    }
}

impl CoreEnd {
    /// What is answered from then on.
    pub(crate) fn answer(self) -> CoreStep
        ensures { result ≡ answer_at self }
    {
        match self {
            CoreEnd::Finished => CoreStep::Finished,
            CoreEnd::Refused(fault) => CoreStep::Refused(fault),
            CoreEnd::OutOfMemory => CoreStep::OutOfMemory,
        }
    }
}
