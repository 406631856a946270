//! Laws of the definitions: each is a clause of a function that does nothing. `worked` has outlines and verdicts that are
//! worked out.
ghost use Rattle.std.specs.Prelude.{◌≡◌, ◌↔◌, ℕ, ◌<◌, ◌≤◌, true, List, [], ◌∷◌, length, Option, Some, None, is_some, ◌++◌};
ghost use Rattle.include_graph.specs.declared.outline.Outline.{Outline};
ghost use Rattle.include_graph.specs.declared.verdicts.Verdict.TheVariants.{Files, NeedOutline, Refused};
ghost use Rattle.djvu_base.specs.declared.faults.Fault.{Fault};
ghost use Rattle.djvu_base.specs.Library.{Mark, Open, Whole};
ghost use Rattle.djvu_base.specs.Library as library;
ghost use Rattle.include_graph.specs.Fed.{Outlining, Fed, Reports};
ghost use Rattle.include_graph.specs.Outlines.{outlined, outline_of};
ghost use Rattle.include_graph.specs.Reading.{items_by_events};
ghost use Rattle.include_graph.specs.Verdicts.{Graph, is_among, verdict_of};
ghost use Rattle.include_graph.specs.Graphs.{KnownOn, VerdictOn, InOrder, LeadsTo};
ghost use Rattle.include_graph.specs.Walks.{MetNothing, MetUnknown, MetFault, MeetsFirst, LeavesAll};

pub mod worked;

/// With more outlines known a verdict is the same, or it was unknown at an outline that is known now. So files and faults
/// stay, and an unknown outline stays the one that is asked for until it is known.
pub fn verdicts_stay()
    ensures { (names : List (List ℕ)) (less more : ℕ → Option Outline) (file : ℕ) → KnownOn less more
        → VerdictOn more (verdict_of (record { names = names; outlines = less }) file) (verdict_of (record { names = names; outlines = more }) file) }
{}

/// The list of a verdict has the files in the order in which a walk leaves them. Each stands once, after all that it includes.
/// The file itself is the last, and each that is listed has itself a list as its verdict. A list is at most as long as the names.
pub fn lists()
    ensures leaves { (graph : Graph) (file : ℕ) (files : List ℕ) → file < length graph.names
        → (verdict_of graph file ≡ Files files) ↔ LeavesAll graph file files }
    ensures order { (graph : Graph) (file : ℕ) (files : List ℕ) → file < length graph.names → verdict_of graph file ≡ Files files → InOrder graph [] files }
    ensures itself { (graph : Graph) (file : ℕ) (files : List ℕ) → verdict_of graph file ≡ Files files
        → (before : List ℕ) × (files ≡ before ++ file ∷ []) }
    ensures listed { (graph : Graph) (target file : ℕ) (files : List ℕ) → target < length graph.names → verdict_of graph target ≡ Files files
        → is_among file files ≡ true → (list : List ℕ) × (verdict_of graph file ≡ Files list) }
    ensures length { (graph : Graph) (file : ℕ) (files : List ℕ) → file < length graph.names → verdict_of graph file ≡ Files files
        → length files ≤ length graph.names }
{}

/// An outline can be read event by event.
pub fn by_events()
    ensures { (mark : Mark) (bytes : List ℕ) → items_by_events mark bytes ≡ outlined mark bytes }
{}

/// An outline that is known stays, whatever follows and however the file ends. It is known where the file is closed.
pub fn outlines_stay()
    ensures stays { (mark : Mark) (bytes more : List ℕ) (outline : Outline) → outline_of Open bytes ≡ Some outline
        → outline_of mark (bytes ++ more) ≡ Some outline }
    ensures whole { (bytes : List ℕ) → is_some (outline_of Whole bytes) ≡ true }
    ensures broken { (bytes : List ℕ) → is_some (outline_of library.Broken bytes) ≡ true }
{
    iff_chunks::laws::chunks_stay();
    iff_chunks::laws::never_cut();
}

/// A reader asks for more bytes exactly where the outline isn't known, and is done where it is, unless there was no memory.
pub fn readers_report()
    ensures { (mark : Mark) (bytes : List ℕ) (reader : Outlining) → Fed mark bytes reader → Reports reader.answered (outline_of mark bytes) }
{}

/// A verdict asks for an outline only where that one isn't known. So the number of names is enough for every path.
pub fn verdicts_ask()
    ensures { (graph : Graph) (target file : ℕ) → target < length graph.names → verdict_of graph target ≡ NeedOutline file → graph.outlines file ≡ None }
{}

/// The file that a verdict asks for, and the file of its fault, are below the number of names.
pub fn below()
    ensures asked { (graph : Graph) (target file : ℕ) → target < length graph.names → verdict_of graph target ≡ NeedOutline file → file < length graph.names }
    ensures refused { (graph : Graph) (target : ℕ) (fault : Fault) → target < length graph.names → verdict_of graph target ≡ Refused fault
        → fault.place.file < length graph.names }
{}

/// A verdict is what a walk meets first that remembers no file, but the path by which it came: a fault, an outline that isn't
/// known, or nothing. So it is a fault exactly where some walk from the file meets a missing name, a fault of form, or a file
/// of its path first.
pub fn verdicts_meet_first()
    ensures refused { (graph : Graph) (target : ℕ) (fault : Fault) → target < length graph.names
        → (verdict_of graph target ≡ Refused fault) ↔ MeetsFirst graph target (MetFault fault) }
    ensures asked { (graph : Graph) (target file : ℕ) → target < length graph.names
        → (verdict_of graph target ≡ NeedOutline file) ↔ MeetsFirst graph target (MetUnknown file) }
    ensures listed { (graph : Graph) (target : ℕ) → target < length graph.names
        → ((files : List ℕ) × (verdict_of graph target ≡ Files files)) ↔ MeetsFirst graph target MetNothing }
{}

/// A verdict is a fault only where includes lead from the file to one that has this fault, in whatever order. It is a list only
/// where they lead to no fault. So where all outlines are known, a verdict is a fault exactly where includes lead to one.
pub fn faults()
    ensures refused { (graph : Graph) (target : ℕ) (fault : Fault) → verdict_of graph target ≡ Refused fault → LeadsTo graph target fault }
    ensures listed { (graph : Graph) (target : ℕ) (files : List ℕ) → target < length graph.names → verdict_of graph target ≡ Files files
        → (fault : Fault) → LeadsTo graph target fault → ⊥ }
{}
