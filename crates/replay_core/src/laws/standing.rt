//! What a core's standing says of what it drew and decoded: clauses of functions that do nothing.
ghost use Rattle.std.specs.Prelude.{◌≡◌, map};
ghost use Rattle.replay_core.specs.Counts.{Counts, files_of, CountsWithin, CountsAll};
ghost use Rattle.replay_core.specs.Core.{CoreSeen, Stands, AllOver};
ghost use Rattle.replay_core.specs.Machine.{State, IsSound};

/// At any moment nothing was decoded beyond what pages ask for, each file once, also where there was no memory. The pages are those of the
/// state, and of none more notices were drawn than it has.
#[tactic(auto, unfolding(crate::specs::Core::Stands))]
pub fn standing_counts()
    ensures within { (state : State) (counts : Counts) (core : CoreSeen) → Stands state counts core → CountsWithin core.table state.library counts }
    ensures files { (state : State) (counts : Counts) (core : CoreSeen) → Stands state counts core
        → files_of counts.pages ≡ map (λ page. page.file) core.pages }
    ensures pages { (state : State) (counts : Counts) (core : CoreSeen) → Stands state counts core
        → map (λ page. page.file) state.pages ≡ map (λ page. page.file) core.pages }
    ensures sound { (state : State) (counts : Counts) (core : CoreSeen) → Stands state counts core → IsSound core.table state }
{}

/// Once each page is finished or refused, all that the pages ask for was decoded.
#[tactic(auto, unfolding(crate::specs::Core::Stands))]
pub fn ended_counts()
    ensures { (state : State) (counts : Counts) (core : CoreSeen) → Stands state counts core → AllOver core.pages
        → CountsAll core.table state.library counts }
{}
