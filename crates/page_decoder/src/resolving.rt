//! Includes of a file, which are resolved late and in order, and what is kept of them. `specs/Resolving` says how that stands to the
//! definition, whatever more becomes known.
ghost use Rattle.std.specs.Prelude.{◌≡◌, ℕ, ◌<◌, ◌^◌, List, [], ◌∷◌, length, map, drop, Option, Some, None, IfOk, OnErr, slice_set, true};
ghost use Rattle.djvu_base.specs.Name.{IsAscending};
ghost use Rattle.djvu_base.specs.declared.faults.FaultKind.TheVariants as fault;
ghost use Rattle.zp_table.specs.declared.rows.Row.{Row};
ghost use Rattle.include_graph.specs.declared.outline.Outline.{Outline};
ghost use Rattle.include_graph.specs.Verdicts.{outline_in, fault_at};
ghost use Rattle.jb2_records.specs.declared.results.FileResult.{FileResult};
ghost use Rattle.page_decoder.specs.Given.{Home};
ghost use Rattle.page_decoder.specs.PageRead.{Left, or_else};
ghost use Rattle.page_decoder.specs.Resolving.{IsPlaced, is_marked, known_of, home_of, with_include, Resolves, Answers, AnswersIf};

use crate::listing::{Gift, Listed, given, list_of};
use crate::roles::Role;
use djvu_base::{Fault, FaultKind, Items, Name, Place};
use include_graph::{Outline, Verdict, number_of};
use jb2_records::{FileResult, SharedDictionary};
use std::alloc::{AllocError, Global};
use std::marker::Model;
use std::sync::Arc;

/// What resolving comes to.
#[derive(Clone, Copy, Debug, PartialEq, Eq)]
pub enum Resolution {
    /// Every include is resolved.
    Resolved,
    /// The verdict on an include's target stands at the outline of this file, which isn't known.
    NeedOutline(u32),
    /// This is the first listed file of which it isn't known what it gives.
    NeedFile(u32),
    /// An include names no file, a verdict is a fault, or a listed file is refused.
    Refused(Fault),
    /// There was no memory here, or at the decoding of a listed file.
    OutOfMemory,
}

/// An include that was read: the name that it holds, and where its chunk begins.
#[derive(Debug, Drop)]
pub struct Include {
    target: Name,
    place: u32,
}

impl Model for Include {
    ghost use Rattle.page_decoder.specs.PageRead.{Include};

    ghost Value = { Include };

    ghost view = { λ a. record { name = a.target; offset = a.place } };
}

impl Include {
    /// The include of a file by this name, whose chunk begins at this offset.
    pub fn new(name: Name, offset: u32) -> Include
        ensures { result ≡ record { name = name; offset = offset } }
    {
        Include {
            target: name,
            place: offset,
        }
    }
}

/// The includes of a file that aren't resolved yet, and the dictionary that earlier ones gave.
#[derive(Debug, Drop)]
pub struct Includes {
    dictionary: Option<SharedDictionary>,
    read: Vec<Include>,
    /// So many of them were looked up.
    begun: usize,
    /// The list of the last one of these, up to the file of which it isn't known what it gives.
    at_hand: Option<Listed>,
    /// Whether an include of a target was resolved, by the target's number. A page's first list makes room for all.
    resolved: Vec<bool>,
}

impl Model for Includes {
    ghost use Rattle.std.specs.Prelude.{◌≤◌, drop, length};
    ghost use Rattle.page_decoder.specs.Resolving.{Resolving};

    ghost Value = { Resolving };

    ghost view = { λ a. record { inherited = a.dictionary; listed = a.at_hand; pending = drop a.begun a.read.items; marks = a.resolved.items } };

    ghost invariant = { λ a. a.begun ≤ length a.read.items };
}

impl Includes {
    /// Those of a file of which no include was read. Takes no memory.
    pub fn new(alloc: Global) -> Includes
        ensures { result ≡ record { inherited = None; listed = None; pending = []; marks = [] } }
    {
        Includes {
            dictionary: None,
            read: Vec::new(alloc),
            begun: 0,
            at_hand: None,
            resolved: Vec::new(alloc),
        }
    }

    /// One include more was read. Where there is no memory for it, nothing changes.
    pub fn add(&mut self, include: Include) -> Result<(), AllocError>
        ensures added { IfOk result (λ done. self.new ≡ with_include include self.old) }
        ensures err { OnErr result (self.new ≡ self.old) }
    {
        self.read.push(include)?;
        Ok(())
    }

    /// The dictionary that includes gave so far.
    pub fn inherited(&self) -> &Option<SharedDictionary>
        ensures { result.now ≡ self.now.inherited }
    {
        &self.dictionary
    }

    /// Resolves the includes in order, each once: is its target there, then the verdict on it, then what the listed files give. The
    /// file itself has this role and number. The lists have a place for each name, or none yet. An included file asks for no
    /// outline, since those below it were decoded before.
    ///
    /// It is called again after gifts, and goes on where it stands: a verdict that was a list isn't asked for again. After want of
    /// memory it isn't called again.
    pub fn resolve(
        &mut self,
        alloc: Global,
        role: Role,
        names: &[Name],
        file: u32,
        outlines: &[Option<Arc<Outline>>],
        results: &[Option<FileResult>],
    ) -> Resolution
        requires ascending { IsAscending names.now }
        requires few { length names.now < 2 ^ 32 }
        requires places { IsPlaced (length names.now) outlines.now }
        ensures { (table : List Row) (left : Left)
            → Resolves (home_of role table names.now file) (known_of (map outline_in outlines.now) results.now) left self.old
            → Answers (home_of role table names.now file) (known_of (map outline_in outlines.now) results.now) left result self.new }
    {
        match self.go_on(alloc, role, names, file, outlines, results) {
            Ok(resolution) => resolution,
            Err(_) => Resolution::OutOfMemory,
        }
    }

    /// The same, where there is memory.
    fn go_on(
        &mut self,
        alloc: Global,
        role: Role,
        names: &[Name],
        file: u32,
        outlines: &[Option<Arc<Outline>>],
        results: &[Option<FileResult>],
    ) -> Result<Resolution, AllocError>
        requires ascending { IsAscending names.now }
        requires few { length names.now < 2 ^ 32 }
        requires places { IsPlaced (length names.now) outlines.now }
        ensures { IfOk result (λ resolution. (table : List Row) (left : Left)
            → Resolves (home_of role table names.now file) (known_of (map outline_in outlines.now) results.now) left self.old
            → Answers (home_of role table names.now file) (known_of (map outline_in outlines.now) results.now) left resolution self.new) }
    {
        'includes: loop {
            if let Some(stop) = self.pass_files(results)? {
                return Ok(stop);
            }
            if self.read.len() <= self.begun {
                self.forget();
                return Ok(Resolution::Resolved);
            }
            if let Some(stop) = self.list_next(alloc, role, names, file, outlines)? {
                return Ok(stop);
            }
        }
    }

    /// Passes the files at hand, and inherits what the last one gives, which is the target. Answers what stops this, if something does.
    fn pass_files(
        &mut self,
        results: &[Option<FileResult>],
    ) -> Result<Option<Resolution>, AllocError>
        ensures resolves { IfOk result (λ stop. (home : Home) (outlines : List (Option Outline)) (left : Left)
            → Resolves home (known_of outlines results.now) left self.old → AnswersIf home (known_of outlines results.now) left stop self.new) }
        ensures pending { IfOk result (λ stop. self.new.pending ≡ self.old.pending) }
        ensures passed { IfOk result (λ stop. stop ≡ None → self.new.listed ≡ None) }
    {
        let Some(mut listed) = self.at_hand.take() else {
            return Ok(None);
        };
        let mut found = None;
        'files: while let Some(file) = listed.next() {
            match given(results, file)? {
                Gift::Gives(dictionary) => {
                    found = dictionary;
                    listed.pass();
                }
                Gift::Refused(fault) => return Ok(Some(Resolution::Refused(fault))),
                Gift::Unknown => {
                    self.at_hand = Some(listed);
                    return Ok(Some(Resolution::NeedFile(file)));
                }
            }
        }
        self.inherit(found);
        self.mark(listed.target());
        Ok(None)
    }

    /// An include gave this dictionary, or none. The first dictionary counts.
    fn inherit(&mut self, found: Option<SharedDictionary>)
        ensures inherited { self.new.inherited ≡ or_else self.old.inherited found }
        ensures listed { self.new.listed ≡ self.old.listed }
        ensures pending { self.new.pending ≡ self.old.pending }
        ensures marks { self.new.marks ≡ self.old.marks }
    {
        if self.dictionary.is_none() {
            self.dictionary = found;
        }
    }

    /// An include of this target is resolved.
    fn mark(&mut self, target: u32)
        ensures inherited { self.new.inherited ≡ self.old.inherited }
        ensures listed { self.new.listed ≡ self.old.listed }
        ensures pending { self.new.pending ≡ self.old.pending }
        ensures marks { self.new.marks ≡ slice_set self.old.marks target true }
    {
        let place = target as usize;
        if place < self.resolved.len() {
            self.resolved[place] = true;
        }
    }

    /// Whether an include of this target is resolved.
    fn is_marked(&self, target: u32) -> bool
        ensures { result ≡ is_marked self.now.marks target }
    {
        match self.resolved.get(target as usize) {
            Some(mark) => *mark,
            None => false,
        }
    }

    /// There is room for the marks of so many files, where a verdict is costly: on a page.
    fn make_marks(&mut self, alloc: Global, role: Role, count: usize) -> Result<(), AllocError>
        ensures inherited { self.new.inherited ≡ self.old.inherited }
        ensures listed { self.new.listed ≡ self.old.listed }
        ensures pending { self.new.pending ≡ self.old.pending }
        ensures marks { (target : ℕ) → is_marked self.new.marks target ≡ is_marked self.old.marks target }
    {
        if role == Role::Page && self.resolved.is_empty() {
            self.resolved = vec![in alloc; false; count]?;
        }
        Ok(())
    }

    /// The next include comes to hand, by the list of its target's verdict. One of a target that was resolved gives nothing new, and is
    /// passed over. Answers what stops this, if something does.
    fn list_next(
        &mut self,
        alloc: Global,
        role: Role,
        names: &[Name],
        file: u32,
        outlines: &[Option<Arc<Outline>>],
    ) -> Result<Option<Resolution>, AllocError>
        requires ascending { IsAscending names.now }
        requires few { length names.now < 2 ^ 32 }
        requires places { IsPlaced (length names.now) outlines.now }
        requires pending { 0 < length self.old.pending }
        requires passed { self.old.listed ≡ None }
        ensures resolves { IfOk result (λ stop. (table : List Row) (results : List (Option FileResult)) (left : Left)
            → Resolves (home_of role table names.now file) (known_of (map outline_in outlines.now) results) left self.old
            → AnswersIf (home_of role table names.now file) (known_of (map outline_in outlines.now) results) left stop self.new) }
        ensures pending { IfOk result (λ stop. stop ≡ None → length self.new.pending < length self.old.pending) }
    {
        include_graph::laws::verdicts_stay();
        let include = self.next();
        let Some(target) = number_of(names, &include.target) else {
            return Ok(Some(missing(file, include.place)));
        };
        if self.is_marked(target) {
            self.skip();
            return Ok(None);
        }
        match list_of(alloc, role, names, outlines, target)? {
            Verdict::Files(files) => {
                self.make_marks(alloc, role, names.len())?;
                self.begin(target, files);
                Ok(None)
            }
            Verdict::NeedOutline(file) => Ok(Some(Resolution::NeedOutline(file))),
            Verdict::Refused(fault) => Ok(Some(Resolution::Refused(fault))),
        }
    }

    /// The next include.
    fn next(&self) -> &Include
        requires { 0 < length self.now.pending }
        ensures { self.now.pending ≡ result.now ∷ drop 1 self.now.pending }
    {
        &self.read[self.begun]
    }

    /// The next include is looked up.
    fn skip(&mut self)
        requires { 0 < length self.old.pending }
        ensures inherited { self.new.inherited ≡ self.old.inherited }
        ensures listed { self.new.listed ≡ self.old.listed }
        ensures pending { self.new.pending ≡ drop 1 self.old.pending }
        ensures marks { self.new.marks ≡ self.old.marks }
    {
        self.begun += 1;
    }

    /// The next include comes to hand, with this target and its list.
    fn begin(&mut self, target: u32, files: Items<u32>)
        requires { 0 < length self.old.pending }
        ensures inherited { self.new.inherited ≡ self.old.inherited }
        ensures listed { self.new.listed ≡ Some (record { target = target; files = files }) }
        ensures pending { self.new.pending ≡ drop 1 self.old.pending }
        ensures marks { self.new.marks ≡ self.old.marks }
    {
        self.skip();
        self.at_hand = Some(Listed::of(target, files));
    }

    /// All includes were looked up.
    fn forget(&mut self)
        requires { length self.old.pending ≡ 0 }
        ensures inherited { self.new.inherited ≡ self.old.inherited }
        ensures listed { self.new.listed ≡ self.old.listed }
        ensures pending { self.new.pending ≡ [] }
        ensures marks { self.new.marks ≡ self.old.marks }
    {
        self.read.clear();
        self.begun = 0;
    }
}

/// The fault of an include that stands at this offset of a file, and names no file.
fn missing(file: u32, offset: u32) -> Resolution
    ensures { result ≡ Resolution.Refused (fault_at fault.MissingInclude file offset) }
{
    Resolution::Refused(Fault {
        kind: FaultKind::MissingInclude,
        place: Place { file, offset },
    })
}
