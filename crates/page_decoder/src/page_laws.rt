//! Laws of the reading of what was given, which has every kind of chunk: each is a clause of a function that does nothing.
ghost use Rattle.std.specs.Prelude.{◌≡◌, ◌≢◌, ◌<◌, ◌≤◌, ℕ, true, List, [], ◌++◌, length, Some, None, ◌⊎◌};
ghost use Rattle.djvu_base.specs.Library.{Open};
ghost use Rattle.djvu_base.specs.declared.faults.Fault.{Fault};
ghost use Rattle.zp_table.specs.Rows.{IsTable};
ghost use Rattle.include_graph.specs.declared.outline.Outline.{Outline};
ghost use Rattle.include_graph.specs.Verdicts.{is_among};
ghost use Rattle.page_decoder.specs.Results.{Result, Refused as RefusedFile};
ghost use Rattle.page_decoder.specs.Given.{Page, Included, Home, Known, Given, Within, Front};
ghost use Rattle.page_decoder.specs.PageRead.{notices_of, last_layers, Left, Finished, Refused, NeedBytes, NeedOutline, NeedFile};
ghost use Rattle.page_decoder.specs.Acts.{Act, Close};
ghost use Rattle.page_decoder.specs.Read.{after, read_from, step_through, read, decode};
ghost use Rattle.page_decoder.specs.Needs.{Below, Lacks, IsOver, Because, are_bytes, IsOutlined, IncludesFile};

pub mod chunks;
pub mod drawings;
pub mod libraries;
pub mod made;
pub mod plain;
pub mod work;
pub mod worked;

/// More that is given takes nothing back that was told. A reading that is finished or refused stays, with all that it told and
/// left, and so does one whose need isn't met.
pub fn growth()
    ensures told { (less more : Given) → IsTable less.home.table → Within less more → Below (read less).left.told (read more).left.told }
    ensures notices { (less more : Given) → IsTable less.home.table → Within less more
        → Front (notices_of (read less).left.told) (notices_of (read more).left.told) }
    ensures finished { (less more : Given) → IsTable less.home.table → Within less more → (read less).end ≡ Finished → read more ≡ read less }
    ensures refused { (less more : Given) (fault : Fault) → IsTable less.home.table → Within less more → (read less).end ≡ Refused fault
        → read more ≡ read less }
    ensures unmet { (less more : Given) → IsTable less.home.table → Within less more → Lacks less more (read less).end → read more ≡ read less }
{
    iff_chunks::laws::chunks_stay();
    iff_chunks::laws::never_cut();
    iff_chunks::laws::order();
    jb2_records::laws::more_bytes_go_on();
    iw44_image::laws::layers_grow();
    include_graph::laws::verdicts_stay();
}

/// What is given only grows: from less to more, and on to what is given later.
pub fn given_grows()
    ensures same { (given : Given) → Within given given }
    ensures both { (less more most : Given) → Within less more → Within more most → Within less most }
{}

/// A reading of some acts and then of others is that of the first ones, and then, from what these left, of the others.
pub fn acts()
    ensures { (home : Home) (known : Known) (close : Close) (acts others : List Act) (left : Left)
        → read_from home known close (acts ++ others) left ≡ after (step_through home known acts left) (read_from home known close others) }
{}

/// Why a reading ends. It needs a file that stands in the list of a pending include's target, behind files that aren't refused; an
/// outline that isn't known; and bytes only of a file of whose end nothing is known. What the files give that it reached is
/// known, but for one that it needs, which it reached, too.
pub fn needs()
    ensures because { (given : Given) → Because given.home given.known (read given).left.decoded.pending (read given).end }
    ensures outline { (given : Given) (file : ℕ) → (read given).end ≡ NeedOutline file → (given.known.outlines file ≡ None)
        × (file < length given.home.names) }
    ensures file { (given : Given) (file : ℕ) → (read given).end ≡ NeedFile file → (given.known.results file ≡ None) × (file < length given.home.names) }
    ensures closed { (given : Given) → given.mark ≢ Open → (read given).end ≢ NeedBytes }
    ensures reached { (given : Given) (file : ℕ) → is_among file (read given).left.told.reached ≡ true
        → ((result : Result) × (given.known.results file ≡ Some result)) ⊎ ((read given).end ≡ NeedFile file) }
    ensures needed { (given : Given) (file : ℕ) → (read given).end ≡ NeedFile file → is_among file (read given).left.told.reached ≡ true }
    ensures stay_reached { (less more : Given) (file : ℕ) → IsTable less.home.table → Within less more
        → is_among file (read less).left.told.reached ≡ true → is_among file (read more).left.told.reached ≡ true }
{
    growth();
    include_graph::laws::verdicts_ask();
    include_graph::laws::below();
    include_graph::laws::lists();
}

/// A page that is finished has a drawing, and the layers that a reading leaves are those of its last drawing. The file of a
/// fault is one of the folder's, where those of included files are.
pub fn shows()
    ensures drawn { (given : Given) → given.home.role ≡ Page → (read given).end ≡ Finished → (read given).left.told.drawings ≢ [] }
    ensures layers { (given : Given) → (read given).left.decoded.layers ≡ last_layers (read given).left.told.drawings }
    ensures faults { (given : Given) (fault : Fault) → given.home.file < length given.home.names
        → ((file : ℕ) (other : Fault) → file < length given.home.names → given.known.results file ≡ Some (RefusedFile other)
        → other.place.file < length given.home.names)
        → (read given).end ≡ Refused fault → fault.place.file < length given.home.names }
{
    include_graph::laws::lists();
    include_graph::laws::below();
}

/// The decoding of an included file, whose outline is known and has no fault, rests on what its includes give, and on nothing else
/// that is known of other files. Where all of these give something it is over, and stays so.
pub fn included_files()
    ensures alone { (given : Given) (known : Known) (outline : Outline) → given.home.role ≡ Included → IsOutlined given outline
        → ((file : ℕ) → IncludesFile given.home.names outline file → given.known.results file ≡ known.results file)
        → decode (record given { known = known }) ≡ decode given }
    ensures stays { (less more : Given) (outline : Outline) → IsTable less.home.table → Within less more → less.home.role ≡ Included → IsOutlined less outline
        → ((file : ℕ) → IncludesFile less.home.names outline file → (result : Result) × (less.known.results file ≡ Some result))
        → decode more ≡ decode less }
    ensures over { (given : Given) (outline : Outline) → given.home.role ≡ Included → IsOutlined given outline
        → ((file : ℕ) → IncludesFile given.home.names outline file → (result : Result) × (given.known.results file ≡ Some result))
        → IsOver (read given).end }
{
    growth();
}

/// A page has at most 259 drawings: those of its INFO, its mask and its foreground, and of 256 chunks of its background.
pub fn limits()
    ensures { (given : Given) → given.home.role ≡ Page → are_bytes given.bytes ≡ true → length (read given).left.told.drawings ≤ 259 }
{
    iff_chunks::laws::order();
    iff_chunks::laws::layout();
    iw44_image::laws::layers_go_on();
}
