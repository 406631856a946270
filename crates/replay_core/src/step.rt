//! Steps of a core, and the layers of its pages.
ghost use Rattle.std.specs.Prelude.{◌≡◌, ◌≢◌, ◌<◌, ◌⊎◌, ℕ, length, Some, true, slice_get};
ghost use Rattle.page_decoder.specs.Found.{CanDrawLast};
ghost use Rattle.replay_core.specs.Counts.{Counts};
ghost use Rattle.replay_core.specs.CorePages.{PagePart, PageSeen};
ghost use Rattle.replay_core.specs.Core.{Stands, Steps, SameFrame, CanTake, Takes, answer_at, end_with};
ghost use Rattle.replay_core.specs.CoreSteps.{SetsAside, HasRoom, PutsBack};
ghost use Rattle.replay_core.specs.Machine.{State, PageState, layers_drawn};

use crate::core_calls::{Core, CoreStep};
use crate::pages::CoreEnd;
use djvu_base::Meter;
use layer_compose::Layers;
use page_decoder::PageDecoder;

impl Core {
    /// Takes a page a step on: to its next notice, or to where its reading stands. A file that the page reaches is decoded when the page
    /// needs it, unless it was before. Each decision ticks the meter once.
    #[tactic(auto, unfolding(crate::specs::Core::Stands))]
    pub fn step<M: Meter>(&mut self, page: u32, meter: &mut M) -> CoreStep
        requires { page < length self.old.pages }
        ensures steps { (state : State) (counts : Counts) → Stands state counts self.old
            → Steps state counts page self.old self.new result (M.count meter.old) (M.count meter.new) }

        // An end, and want of memory, are answered again, and nothing changes any more.
        ensures again { (it : PageSeen) (end : CoreEnd) → slice_get self.old.pages page ≡ Some it → it.end ≡ Some end
            → (result ≡ answer_at end) × (self.new ≡ self.old) × (M.count meter.new ≡ M.count meter.old) }
        ensures seen { (it : PageSeen) → slice_get self.old.pages page ≡ Some it
            → slice_get self.new.pages page ≡ Some (record it { end = end_with result }) }
        ensures others { (other : ℕ) → other ≢ page → slice_get self.new.pages other ≡ slice_get self.old.pages other }
        ensures frame { SameFrame self.old self.new }
    {
        crate::laws::counts::steps_count_within();
        let Some(mut decoder) = self.set_aside(page) else {
            return self.end_of(page);
        };
        let answer = self.run(&mut decoder, meter);
        self.put_back(page, decoder, answer)
    }

    /// The page's decoder, which goes on out of its place, unless the page has ended.
    fn set_aside(&mut self, page: u32) -> Option<PageDecoder>
        requires { page < length self.old.pages }
        ensures { SetsAside page self.old self.new result }
    {
        self.pages[page as usize].begin()
    }

    /// What a page that has ended answers.
    fn end_of(&self, page: u32) -> CoreStep
        requires { page < length self.now.pages }
        ensures { (part : PagePart) → slice_get self.now.inside.pages page ≡ Some part → result ≡ answer_at part.end }
    {
        self.pages[page as usize].end.answer()
    }

    /// Settles the page by its decoder, which answered so. Where there is no memory for the notice, the page ends so.
    fn put_back(&mut self, page: u32, decoder: PageDecoder, answer: CoreStep) -> CoreStep
        requires { HasRoom page self.old decoder }
        ensures part { PutsBack page self.old self.new decoder result }
        ensures answer { (result ≡ answer) ⊎ (result ≡ CoreStep.OutOfMemory) }
    {
        self.pages[page as usize].settle(decoder, answer)
    }

    /// The layers of a page that is finished or refused, as its last notice was drawn of them: none where it has no notice. They are taken
    /// once. Takes no memory.
    #[tactic(auto, unfolding(crate::specs::Core::Stands))]
    pub fn take(&mut self, page: u32) -> Option<Layers>
        requires { CanTake self.old.pages page }
        ensures layers { (state : State) (counts : Counts) (it : PageState) → Stands state counts self.old → slice_get state.pages page ≡ Some it
            → result ≡ layers_drawn self.old.table state.library it }
        ensures drawable { CanDrawLast result }
        ensures stands { (state : State) (counts : Counts) → Stands state counts self.old → Stands state counts self.new }
        ensures takes { Takes page self.old self.new }
    {
        self.pages[page as usize].take()
    }
}
