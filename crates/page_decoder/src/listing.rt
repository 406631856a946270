//! The list of an include's target, and what the listed files give.
ghost use Rattle.std.specs.Prelude.{◌≡◌, ℕ, ◌<◌, ◌^◌, List, length, map, drop, Option, IfOk, slice_get};
ghost use Rattle.djvu_base.specs.Name.{IsAscending};
ghost use Rattle.zp_table.specs.declared.rows.Row.{Row};
ghost use Rattle.include_graph.specs.Verdicts.{outline_in};
ghost use Rattle.jb2_records.specs.declared.results.FileResult.{FileResult};
ghost use Rattle.page_decoder.specs.Read.{listing};
ghost use Rattle.page_decoder.specs.Resolving.{IsPlaced, given_at, result_from, gift_of, known_of, home_of, role_of};

use crate::roles::Role;
use djvu_base::{Fault, Items, Name, Share};
use include_graph::{Outline, Verdict, verdict};
use jb2_records::{FileResult, SharedDictionary};
use std::alloc::{AllocError, Global};
use std::marker::Model;
use std::sync::Arc;

/// The list of an include's target.
#[derive(Debug, Drop)]
pub(crate) struct Listed {
    include: u32,
    list: Vec<u32>,
    passed: usize,
}

impl Model for Listed {
    ghost use Rattle.std.specs.Prelude.{drop};
    ghost use Rattle.page_decoder.specs.Resolving.{AtHand};

    ghost Value = { AtHand };

    ghost view = { λ a. record { target = a.include; files = drop a.passed a.list.items } };
}

impl Listed {
    /// The files of this target, none of which was passed.
    pub(crate) fn of(target: u32, files: Items<u32>) -> Listed
        ensures { result ≡ record { target = target; files = files } }
    {
        Listed {
            include: target,
            list: files.into_vec(),
            passed: 0,
        }
    }

    pub(crate) fn target(&self) -> u32
        ensures { result ≡ self.now.target }
    {
        self.include
    }

    /// The first file that wasn't passed.
    pub(crate) fn next(&self) -> Option<u32>
        ensures { result ≡ slice_get self.now.files 0 }
    {
        match self.list.get(self.passed) {
            Some(file) => Some(*file),
            None => None,
        }
    }

    /// Passes that file.
    pub(crate) fn pass(&mut self)
        requires { 0 < length self.old.files }
        ensures target { self.new.target ≡ self.old.target }
        ensures files { self.new.files ≡ drop 1 self.old.files }
    {
        self.passed += 1;
    }
}

/// The files that an include of this target comes to, in order.
pub(crate) fn list_of(
    alloc: Global,
    role: Role,
    names: &[Name],
    outlines: &[Option<Arc<Outline>>],
    target: u32,
) -> Result<Verdict, AllocError>
    requires ascending { IsAscending names.now }
    requires few { length names.now < 2 ^ 32 }
    requires places { IsPlaced (length names.now) outlines.now }
    requires below { target < length names.now }
    ensures { IfOk result (λ list. (table : List Row) (results : List (Option FileResult)) (file : ℕ)
        → list ≡ listing (role_of role) (home_of role table names.now file) (known_of (map outline_in outlines.now) results) target) }
{
    match role {
        Role::Page if outlines.is_empty() => Ok(Verdict::NeedOutline(target)),
        Role::Page => verdict(alloc, names, outlines, target),
        Role::Included => {
            let mut files = Vec::new(alloc);
            files.push(target)?;
            Ok(Verdict::Files(Items::of(files)))
        }
    }
}

/// What a listed file is known to give.
#[derive(Debug, Drop)]
pub(crate) enum Gift {
    /// A share of its dictionary, or none.
    Gives(Option<SharedDictionary>),
    /// The file is refused.
    Refused(Fault),
    /// It isn't known.
    Unknown,
}

/// What a file is known to give. Where its decoding found no memory, there is none here.
pub(crate) fn given(results: &[Option<FileResult>], file: u32) -> Result<Gift, AllocError>
    ensures { IfOk result (λ gift. gift_of gift ≡ result_from (given_at (slice_get results.now file))) }
{
    match results.get(file as usize) {
        Some(Some(FileResult::Dictionary(dictionary))) => Ok(Gift::Gives(Some(
            dictionary.share()?,
        ))),
        Some(Some(FileResult::Nothing)) => Ok(Gift::Gives(None)),
        Some(Some(FileResult::Refused(fault))) => Ok(Gift::Refused(*fault)),
        Some(Some(FileResult::NoMemory)) => Err(AllocError),
        Some(None) | None => Ok(Gift::Unknown),
    }
}
