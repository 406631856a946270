//! What was given of other files to the reader of a page.
ghost use Rattle.std.specs.Prelude.{◌≡◌, ◌≢◌, ℕ, ◌<◌, [], length, map, replicate, Some, None, IfOk, OnErr};
ghost use Rattle.std.specs.Arc.{arc_value};
ghost use Rattle.include_graph.specs.Verdicts.{outline_in};
ghost use Rattle.page_decoder.specs.Given.{KnowsMore};
ghost use Rattle.page_decoder.specs.Resolving.{IsPlaced, known_by, result_in};

use include_graph::Outline;
use jb2_records::FileResult;
use std::alloc::{AllocError, Global};
use std::marker::Model;
use std::sync::Arc;

/// Outlines of other files, and what these give, as far as they were given: each at the number of its file. The first gift makes
/// room for all.
#[derive(Debug, Drop)]
pub struct OtherFiles {
    alloc: Global,
    files: usize,
    outlines: Vec<Option<Arc<Outline>>>,
    results: Vec<Option<FileResult>>,
}

impl Model for OtherFiles {
    ghost use Rattle.std.specs.Prelude.{map};
    ghost use Rattle.include_graph.specs.Verdicts.{outline_in};
    ghost use Rattle.page_decoder.specs.Resolving.{Gifts, IsPlaced, HasPlaces};

    ghost Value = { Gifts };

    ghost view = { λ a. record { count = a.files; outlines = map outline_in a.outlines.items; results = a.results.items } };

    ghost invariant = { λ a. HasPlaces (record { count = a.files; outlines = map outline_in a.outlines.items; results = a.results.items }) };
}

impl OtherFiles {
    /// Nothing was given of so many files. Takes no memory.
    pub fn new(alloc: Global, count: usize) -> OtherFiles
        ensures { result ≡ record { count = count; outlines = []; results = [] } }
    {
        OtherFiles {
            alloc,
            files: count,
            outlines: Vec::new(alloc),
            results: Vec::new(alloc),
        }
    }

    /// The outlines, each at the number of its file. The list is empty before the first one.
    pub fn outlines(&self) -> &[Option<Arc<Outline>>]
        ensures outlines { map outline_in result.now ≡ self.now.outlines }
        ensures places { IsPlaced self.now.count result.now }
    {
        self.outlines.as_slice()
    }

    /// What files give, each at its number. The list is empty before the first one.
    pub fn results(&self) -> &[Option<FileResult>]
        ensures { result.now ≡ self.now.results }
    {
        self.results.as_slice()
    }

    /// Gives the outline of a file of which it isn't known. Where there is no memory for it, nothing changes.
    pub fn give_outline(&mut self, file: u32, outline: Arc<Outline>) -> Result<(), AllocError>
        requires place { file < self.old.count }
        requires lacking { (known_by self.old).outlines file ≡ None }
        ensures count { self.new.count ≡ self.old.count }
        ensures more { KnowsMore (known_by self.old) (known_by self.new) }
        ensures outline { IfOk result (λ done. (known_by self.new).outlines file ≡ Some (arc_value outline)) }
        ensures others { (other : ℕ) → other ≢ file → (known_by self.new).outlines other ≡ (known_by self.old).outlines other }
        ensures results { self.new.results ≡ self.old.results }
        ensures err { OnErr result (self.new ≡ self.old) }
    {
        self.make_places()?;
        self.outlines[file as usize] = Some(outline);
        Ok(())
    }

    /// Gives what a file gives of which that isn't known. Where there is no memory for it, nothing changes.
    pub fn give_file(&mut self, file: u32, gift: FileResult) -> Result<(), AllocError>
        requires place { file < self.old.count }
        requires lacking { (known_by self.old).results file ≡ None }
        ensures count { self.new.count ≡ self.old.count }
        ensures more { KnowsMore (known_by self.old) (known_by self.new) }
        ensures result { IfOk result (λ done. (known_by self.new).results file ≡ result_in gift) }
        ensures others { (other : ℕ) → other ≢ file → (known_by self.new).results other ≡ (known_by self.old).results other }
        ensures outlines { self.new.outlines ≡ self.old.outlines }
        ensures err { OnErr result (self.new ≡ self.old) }
    {
        if self.results.is_empty() {
            self.results = all_unknown(self.alloc, self.files)?;
        }
        self.results[file as usize] = Some(gift);
        Ok(())
    }

    /// There is a place for the outline of each file, where there was none.
    fn make_places(&mut self) -> Result<(), AllocError>
        ensures places { IfOk result (λ done. length self.new.outlines ≡ self.new.count) }
        ensures same { (file : ℕ) → (known_by self.new).outlines file ≡ (known_by self.old).outlines file }
        ensures count { self.new.count ≡ self.old.count }
        ensures results { self.new.results ≡ self.old.results }
        ensures err { OnErr result (self.new ≡ self.old) }
    {
        if self.outlines.is_empty() {
            self.outlines = all_unknown(self.alloc, self.files)?;
        }
        Ok(())
    }
}

/// Places of so many files, of which nothing is known.
fn all_unknown<T: Drop>(alloc: Global, count: usize) -> Result<Vec<Option<T>>, AllocError>
    ensures { IfOk result (λ places. places.items ≡ replicate count None) }
{
    let mut places = Vec::new(alloc);
    for _ in 0..count {
        places.push(None)?;
    }
    Ok(places)
}
