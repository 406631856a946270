//! Faults of form of an included file, and the name that an `INCL` holds.
ghost use Rattle.std.specs.Prelude.{◌≡◌, IfOk, reverse};
ghost use Rattle.djvu_base.specs.Name.{is_listed};
ghost use Rattle.include_graph.specs.Included.{kind_fault, chunk_fault, is_dictionary, is_include, misplaced_ids, after_newlines, between_newlines, include_name};

use djvu_base::{FaultKind, Name};
use iff_chunks::is_refused;
use std::alloc::{AllocError, Global};

/// Chunks of pages, that no included file may have.
const MISPLACED_IDS: [[u8; 4]; 4] = [*b"INFO", *b"Sjbz", *b"BG44", *b"FG44"];

/// Why a FORM of this kind is no included file.
pub fn kind_fault(kind: [u8; 4]) -> Option<FaultKind>
    ensures { result ≡ kind_fault kind }
{
    if kind.as_slice() == b"DJVI".as_slice() {
        None
    } else {
        Some(FaultKind::NotIncludedForm)
    }
}

/// Why an included file, that has a dictionary before it or not, can't have a chunk with this identifier.
pub fn chunk_fault(has_dictionary: bool, id: [u8; 4]) -> Option<FaultKind>
    ensures { result ≡ chunk_fault has_dictionary id }
{
    if is_refused(id) {
        Some(FaultKind::Unsupported)
    } else if is_one_of(&MISPLACED_IDS, id) {
        Some(FaultKind::Misplaced)
    } else if has_dictionary && is_dictionary(id) {
        Some(FaultKind::SecondDictionary)
    } else {
        None
    }
}

fn is_one_of(listed: &[[u8; 4]], id: [u8; 4]) -> bool
    ensures { result ≡ is_listed listed.now id }
{
    listed.iter().any(|other| id.as_slice() == other.as_slice())
}

/// Whether a chunk is a dictionary.
pub fn is_dictionary(id: [u8; 4]) -> bool
    ensures { result ≡ is_dictionary id }
{
    id.as_slice() == b"Djbz".as_slice()
}

/// Whether a chunk is an include.
pub fn is_include(id: [u8; 4]) -> bool
    ensures { result ≡ is_include id }
{
    id.as_slice() == b"INCL".as_slice()
}

/// The name that the data of an `INCL` hold, if they hold one.
pub fn include_name(alloc: Global, bytes: &[u8]) -> Result<Option<Name>, AllocError>
    ensures { IfOk result (λ name. name ≡ include_name bytes.now) }
{
    Name::read(alloc, between_newlines(bytes))
}

/// The bytes without the newlines at their start and at their end.
fn between_newlines(bytes: &[u8]) -> &[u8]
    ensures { result.now ≡ between_newlines bytes.now }
{
    before_newlines(after_newlines(bytes))
}

/// The bytes without the newlines at their start.
fn after_newlines(bytes: &[u8]) -> &[u8]
    ensures { result.now ≡ after_newlines bytes.now }
{
    let mut rest = bytes;
    'starts: while let [b'\n', others @ ..] = rest {
        rest = others;
    }
    rest
}

/// The bytes without the newlines at their end.
fn before_newlines(bytes: &[u8]) -> &[u8]
    ensures { result.now ≡ reverse (after_newlines (reverse bytes.now)) }
{
    let mut rest = bytes;
    'ends: while let [others @ .., b'\n'] = rest {
        rest = others;
    }
    rest
}
