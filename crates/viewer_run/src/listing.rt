//! Files whose chunks are listed, one after the other.
ghost use Rattle.std.specs.Prelude.{◌≡◌, ℕ, ◌<◌, ◌^◌, List, Option, [], ◌∷◌, Some, IfOk, vec_len};
ghost use Rattle.djvu_base.specs.Library.{Files, mark_of};
ghost use Rattle.djvu_outside.specs.Reading.{HasFile};
ghost use Rattle.djvu_outside.specs.Parts.{Gives, SinkStops};
ghost use Rattle.djvu_outside.specs.Puts.{sinks};
ghost use Rattle.iff_chunks.specs.Ends.{file_end};
ghost use Rattle.viewer_run.specs.Info.{info_lines, has_fault};
ghost use Rattle.viewer_run.specs.Listed.{Lists, HasFiles};
ghost use Rattle.viewer_run.specs.Shown.{PagesCount, AreDistinct};

use crate::info::info_of;
use crate::shown::Shown;
use djvu_base::Name;
use djvu_outside::{FileRead, Folder, Sink, Stop, put_text, read_file};
use std::alloc::Global;

/// Lists the chunks of these files, one after the other.
pub fn list_pages<F: Folder, E: Sink>(
    alloc: Global,
    pages: &[Name],
    folder: &mut F,
    report: &mut E,
) -> Result<Shown, Stop>
    requires listed { (told : Files) → F.files folder.old ≡ Some told → HasFiles told pages.now }
    requires distinct { AreDistinct pages.now }
    ensures told { (told : Files) (out : Option (List ℕ)) → F.files folder.old ≡ Some told →
        Lists told pages.now result (F.failures folder.old) (F.failures folder.new) (sinks out (E.given report.old)) (sinks out (E.given report.new)) }
    ensures counts { PagesCount result (F.faults folder.old) (F.faults folder.new) }
    ensures stops { SinkStops result (E.faults report.old) (E.faults report.new) }
    ensures same_files { F.files folder.new ≡ F.files folder.old }
{
    let mut all = Shown {
        refused: false,
        broken: false,
    };
    for at in 0..pages.len() {
        let shown = list_page(alloc, &pages[at], folder, report)?;
        all = all.with(shown);
    }
    Ok(all)
}

/// Reads a file, and puts the lines of its chunks.
fn list_page<F: Folder, E: Sink>(
    alloc: Global,
    page: &Name,
    folder: &mut F,
    report: &mut E,
) -> Result<Shown, Stop>
    requires { (told : Files) → F.files folder.old ≡ Some told → HasFile told page.now }
    ensures told { (told : Files) (out : Option (List ℕ)) → F.files folder.old ≡ Some told →
        Lists told (page.now ∷ []) result (F.failures folder.old) (F.failures folder.new) (sinks out (E.given report.old)) (sinks out (E.given report.new)) }
    ensures counts { PagesCount result (F.faults folder.old) (F.faults folder.new) }
    ensures stops { SinkStops result (E.faults report.old) (E.faults report.new) }
    ensures same_files { F.files folder.new ≡ F.files folder.old }
{
    let file = read_file(alloc, folder, page)?;
    let refused = put_info(alloc, page, &file, report)?;
    Ok(Shown {
        refused,
        broken: file.is_broken(),
    })
}

/// Puts the lines of a file's chunks. Answers whether it has a fault of form.
fn put_info<E: Sink>(
    alloc: Global,
    page: &Name,
    file: &FileRead,
    report: &mut E,
) -> Result<bool, Stop>
    requires { vec_len file.now.bytes < 2 ^ 32 }
    ensures report_text { Gives result (E.given report.old) (E.given report.new) (info_lines (page.now ∷ []) 0 (mark_of file.now.end) file.now.bytes.items) }
    ensures refused { IfOk result (λ refused. refused ≡ has_fault (file_end (mark_of file.now.end) file.now.bytes.items)) }
    ensures stops { SinkStops result (E.faults report.old) (E.faults report.new) }
{
    let text = info_of(alloc, page, file.bytes.as_slice(), file.end)?;
    put_text(report, text.lines.as_slice())?;
    Ok(text.refused)
}
