//! What is wrong with a file by its FORM's kind, and with a chunk by its header.
ghost use Rattle.std.specs.Prelude.{◌≡◌, Bool, Option, Some, None, nat_lt, if◌then◌else◌};
ghost use Rattle.page_decoder.specs.PageRead.{Decoded, Left};
ghost use Rattle.page_decoder.specs.Headers.{form_fault, first_fault, later_fault, page_fault, header_fault};
ghost use Rattle.page_decoder.specs.Resolving.{role_of};
ghost use Rattle.page_decoder.specs.FileReading.{IsLike};

use crate::kept::Kept;
use crate::kinds::ChunkKind;
use crate::page::kind_fault as page_kind_fault;
use crate::roles::Role;
use djvu_base::FaultKind;
use include_graph::{chunk_fault, kind_fault as included_kind_fault};

/// The header of a chunk.
#[derive(Clone, Copy, Debug, PartialEq, Eq)]
pub struct Head {
    pub id: [u8; 4],
    /// Where the chunk begins in the file.
    pub offset: u32,
    /// How many bytes of data it has.
    pub size: u32,
}

/// Why a FORM of this kind is no file of this role.
pub fn form_fault(role: Role, kind: [u8; 4]) -> Option<FaultKind>
    ensures { result ≡ form_fault (role_of role) kind }
{
    match role {
        Role::Page => page_kind_fault(kind),
        Role::Included => included_kind_fault(kind),
    }
}

/// Why a file of this role can't have a chunk with this header, behind so many complete chunks that left this.
pub fn header_fault(role: Role, chunks: u32, kept: &Kept, head: Head) -> Option<FaultKind>
    ensures { (left : Left) → left.chunks ≡ chunks → IsLike left.decoded kept.now → result ≡ header_fault (role_of role) left head }
{
    match role {
        Role::Page => page_fault(chunks, kept, head),
        Role::Included => chunk_fault(kept.has_dictionary(), head.id),
    }
}

/// Why a page can't have it.
fn page_fault(chunks: u32, kept: &Kept, head: Head) -> Option<FaultKind>
    ensures { (left : Left) → left.chunks ≡ chunks → IsLike left.decoded kept.now → result ≡ page_fault left.chunks left.decoded head }
{
    if chunks == 0 {
        first_fault(ChunkKind::of(head.id), head.size)
    } else {
        later_fault(kept, ChunkKind::of(head.id))
    }
}

/// A page begins with an `INFO`, of at least five bytes.
fn first_fault(kind: ChunkKind, size: u32) -> Option<FaultKind>
    ensures { result ≡ first_fault kind size }
{
    match kind {
        ChunkKind::Info => short_info(size),
        ChunkKind::Include
        | ChunkKind::Dictionary
        | ChunkKind::Mask
        | ChunkKind::Front
        | ChunkKind::Back
        | ChunkKind::Refused
        | ChunkKind::Passed => Some(FaultKind::NoInfo),
    }
}

/// Why an `INFO` can't have so many bytes.
fn short_info(size: u32) -> Option<FaultKind>
    ensures { result ≡ (if nat_lt size 5 then Some FaultKind.BadInfo else None) }
{
    if size < 5 {
        Some(FaultKind::BadInfo)
    } else {
        None
    }
}

/// Why a page can't have a later chunk of this kind, behind those that left this.
fn later_fault(kept: &Kept, kind: ChunkKind) -> Option<FaultKind>
    ensures { (decoded : Decoded) → IsLike decoded kept.now → result ≡ later_fault decoded kind }
{
    match kind {
        ChunkKind::Info => Some(FaultKind::SecondInfo),
        ChunkKind::Include => None,
        ChunkKind::Dictionary => second(FaultKind::SecondDictionary, kept.has_dictionary()),
        ChunkKind::Mask => second(FaultKind::SecondMask, kept.has_mask()),
        ChunkKind::Front => second(FaultKind::SecondFront, kept.has_front()),
        ChunkKind::Back => None,
        ChunkKind::Refused => Some(FaultKind::Unsupported),
        ChunkKind::Passed => None,
    }
}

/// There is one already.
fn second(kind: FaultKind, has_one: bool) -> Option<FaultKind>
    ensures { result ≡ (if has_one then Some kind else None) }
{
    if has_one { Some(kind) } else { None }
}
