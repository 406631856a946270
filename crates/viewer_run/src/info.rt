//! The chunks of a file, in lines.
ghost use Rattle.std.specs.Prelude.{◌≡◌, ◌<◌, ◌^◌, IfOk, [], ◌∷◌, length};
ghost use Rattle.iff_chunks.specs.Ends.{file_end};
ghost use Rattle.iff_chunks.specs.Told.{Told};
ghost use Rattle.viewer_run.specs.Info.{info_lines, has_fault, page_fault, step_line, InformsWhole};
ghost use Rattle.djvu_base.specs.Library.{mark_of};

use djvu_base::{Fault, FaultKind, FileEnd, Name, Place};
use iff_chunks::{WalkEnd, WalkStep, Walker, rest_of};
use std::alloc::{AllocError, Global};
use std::slice::from_ref;
use viewer_words::{chunk_line, fault_line, form_line};

/// What is told of a file's chunks.
#[derive(Debug, Drop)]
pub struct InfoText {
    /// The lines.
    pub lines: Vec<u8>,
    /// Whether the file has a fault of form.
    pub refused: bool,
}

/// The lines of a file: its FORM, its chunks, and its fault of form.
pub fn info_of(
    alloc: Global,
    name: &Name,
    bytes: &[u8],
    end: FileEnd,
) -> Result<InfoText, AllocError>
    requires { length bytes.now < 2 ^ 32 }
    ensures lines { IfOk result (λ text. text.lines.items ≡ info_lines (name.now ∷ []) 0 (mark_of end) bytes.now) }
    ensures refused { IfOk result (λ text. text.refused ≡ has_fault (file_end (mark_of end) bytes.now)) }
{
    let mut walker = Walker::new();
    let mut lines = headings(alloc, name, &mut walker, bytes)?;
    let WalkEnd::Broken { kind, offset } = walker.finish(end, bytes.len() as u32) else {
        return Ok(InfoText {
            lines,
            refused: false,
        });
    };
    let line = own_fault(alloc, name, kind, offset)?;
    lines.extend_from_slice(line.as_slice())?;
    Ok(InfoText {
        lines,
        refused: true,
    })
}

/// The lines of a file's FORM and of its chunks' headers.
fn headings(
    alloc: Global,
    name: &Name,
    walker: &mut Walker,
    file: &[u8],
) -> Result<Vec<u8>, AllocError>
    requires { Told [] [] walker.old }
    ensures { IfOk result (λ lines. InformsWhole file.now name.now lines.items walker.new) }
{
    let mut lines = Vec::new(alloc);
    let mut rest = file;
    loop {
        let (used, step) = walker.feed(rest);
        if !step.is_event() {
            return Ok(lines);
        }
        let line = step_line(alloc, name, step)?;
        lines.extend_from_slice(line.as_slice())?;
        rest = rest_of(rest, used);
    }
}

/// The line of an answer of the walker, or none.
fn step_line(alloc: Global, name: &Name, step: WalkStep) -> Result<Vec<u8>, AllocError>
    ensures { IfOk result (λ line. line.items ≡ step_line name.now step) }
{
    match step {
        WalkStep::Form { kind, length } => form_line(alloc, name, kind, length),
        WalkStep::Header { id, offset, length } => chunk_line(alloc, name, id, offset, length),
        _ => Ok(Vec::new(alloc)),
    }
}

/// The line of a fault in a page's own file.
fn own_fault(
    alloc: Global,
    page: &Name,
    kind: FaultKind,
    offset: u32,
) -> Result<Vec<u8>, AllocError>
    ensures { IfOk result (λ line. line.items ≡ page_fault (page.now ∷ []) 0 kind offset) }
{
    let place = Place { file: 0, offset };
    fault_line(alloc, page, &Fault { kind, place }, from_ref(page))
}
