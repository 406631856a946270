//! Verdicts on a long chain of files, on a ladder, and on many files of which each includes all later ones.
ghost use Rattle.std.specs.Prelude.{IfSome};
ghost use Rattle.djvu_base.specs.Name.{IsAscending};

use crate::names::ascend;
use djvu_base::{Items, Name};
use include_graph::{Outline, OutlineItem, Verdict, verdict};
use std::alloc::Global;
use std::sync::Arc;

fn name_of(alloc: Global, number: u32) -> Option<Name> {
    let text = format!(in alloc; "{}", number.wrapping_add(1_000)).ok()?;
    Name::read(alloc, text.as_bytes()).ok()?
}

/// So many names, which are numbers of four digits.
fn names_of(alloc: Global, count: u32) -> Option<Vec<Name>>
    ensures { IfSome result (λ names. IsAscending names.items) }
{
    let mut names = Vec::new(alloc);
    for number in 0..count {
        names.push(name_of(alloc, number)?).ok()?;
    }
    ascend(names.as_slice()).then_some(names)
}

/// The outline of a file that includes those from one number to another, each of them so many times.
fn including(alloc: Global, from: u32, to: u32, times: u32) -> Option<Arc<Outline>> {
    let mut items = Vec::new(alloc);
    for number in from..to {
        for _ in 0..times {
            let name = name_of(alloc, number)?;
            items.push(OutlineItem::Include { name, offset: 12 }).ok()?;
        }
    }
    let outline = Outline {
        items: Items::of(items),
    };
    Arc::new(alloc, outline).ok()
}

/// Whether these are all numbers below their count, the highest first.
fn count_down(files: &[u32]) -> bool {
    let mut next = files.len();
    for file in files {
        next = next.wrapping_sub(1);
        if *file as usize != next {
            return false;
        }
    }
    true
}

/// How many files the verdict on the first of so many lists, the last file first. Each file includes at most so many that follow
/// it, each of them so many times.
fn listed(alloc: Global, count: u32, width: u32, times: u32) -> Option<usize> {
    let names = names_of(alloc, count)?;
    let mut outlines = Vec::new(alloc);
    for number in 0..count {
        let next = number.checked_add(1)?;
        let last = next.saturating_add(width).min(count);
        outlines
            .push(Some(including(alloc, next, last, times)?))
            .ok()?;
    }
    if names.len() == 0 || names.len() > 9_000 || outlines.len() != names.len() {
        return None;
    }
    match verdict(alloc, names.as_slice(), outlines.as_slice(), 0).ok()? {
        Verdict::Files(files) => count_down(files.slice()).then_some(files.slice().len()),
        Verdict::NeedOutline(_) | Verdict::Refused(_) => None,
    }
}

#[test]
fn a_chain(rt: HostRuntime) {
    assert_eq!(rt; listed(rt.alloc(), 1_024, 1, 1), Some(1_024));
}

#[test]
fn a_ladder(rt: HostRuntime) {
    assert_eq!(rt; listed(rt.alloc(), 64, 1, 2), Some(64));
}

#[test]
fn all_that_follow(rt: HostRuntime) {
    assert_eq!(rt; listed(rt.alloc(), 200, 200, 1), Some(200));
}
