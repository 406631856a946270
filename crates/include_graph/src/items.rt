//! What is known of a folder's files: the numbers of names, and the items of outlines.
ghost use Rattle.std.specs.Prelude.{◌≡◌, ◌<◌, ◌^◌, length, map, IfSome, is_some, bytes_eq};
ghost use Rattle.std.specs.List.{position_from};
ghost use Rattle.djvu_base.specs.Name.{IsAscending};
ghost use Rattle.include_graph.specs.Verdicts.{number_of, in_list, outline_in};
ghost use Rattle.include_graph.specs.Stack.{items_known};

use crate::outline::{Outline, OutlineItem};
use djvu_base::Name;
use std::sync::Arc;

/// The number of a name among ascending names, counted from 0, or `None` where it isn't one of them.
pub fn number_of(names: &[Name], name: &Name) -> Option<u32>
    requires ascending { IsAscending names.now }
    requires few { length names.now < 2 ^ 32 }
    ensures { result ≡ number_of name.now names.now }
{
    match place_of(names, name) {
        Some(place) => Some(place as u32),
        None => None,
    }
}

/// The place of a name among others.
fn place_of(names: &[Name], name: &Name) -> Option<usize>
    requires { IsAscending names.now }
    ensures place { result ≡ position_from (bytes_eq name.now) 0 names.now }
    ensures within { IfSome result (λ place. place < length names.now) }
{
    names
        .binary_search_by(|listed| listed.bytes().cmp(name.bytes()))
        .ok()
}

/// Whether the outline of a file is known.
pub(crate) fn is_known(outlines: &[Option<Arc<Outline>>], file: u32) -> bool
    requires { file < length outlines.now }
    ensures { result ≡ is_some (in_list (map outline_in outlines.now) file) }
{
    outlines[file as usize].is_some()
}

/// The items of a file's outline, and none where it isn't known.
pub(crate) fn items_known(outlines: &[Option<Arc<Outline>>], file: u32) -> &[OutlineItem]
    requires { file < length outlines.now }
    ensures { result.now ≡ items_known (in_list (map outline_in outlines.now) file) }
{
    match &outlines[file as usize] {
        Some(outline) => outline.items.slice(),
        None => &[],
    }
}
