//! What is put for one page.
ghost use Rattle.std.specs.Prelude.{◌≡◌, ◌++◌, IfOk};
ghost use Rattle.page_decoder.specs.Found.{CanDrawLast};
ghost use Rattle.djvu_outside.specs.Parts.{Gives, SinkStops, SinksEnd, NeverFolder};
ghost use Rattle.djvu_outside.specs.Puts.{GivesBoth, sinks};
ghost use Rattle.viewer_run.specs.Texts.{texts_at};
ghost use Rattle.viewer_run.specs.Found.{FaultFits, fault_text, raster_found, shown_found};

use crate::put::put_raster;
use djvu_base::{Fault, Name};
use djvu_outside::{Sink, Stop, put_text};
use layer_compose::Layers;
use std::alloc::{AllocError, Global};
use viewer_words::fault_line;

/// What is put for a page behind the lines of its notices: its fault where it has one, and else its layers.
#[derive(Debug, Drop)]
pub struct PageFound {
    pub fault: Option<Fault>,
    pub layers: Option<Layers>,
}

/// Puts the lines of a page, with that of its fault where it has one, and else its raster behind them.
pub fn put_page<S: Sink, E: Sink>(
    alloc: Global,
    names: &[Name],
    page: &Name,
    lines: &[u8],
    found: &PageFound,
    out: &mut S,
    report: &mut E,
) -> Result<(), Stop>
    requires drawable { CanDrawLast found.now.layers }
    requires fits { FaultFits names.now found.now.fault }
    ensures puts { GivesBoth result (texts_at names.now page.now lines.now (shown_found found.now.fault found.now.layers)).puts
        (sinks (S.given out.old) (E.given report.old)) (sinks (S.given out.new) (E.given report.new)) }
    ensures sinks_end { SinksEnd result (S.faults out.old) (S.faults out.new) (E.faults report.old) (E.faults report.new) }
    ensures no_folder { NeverFolder result }
{
    let text = with_fault(alloc, names, page, lines, &found.fault)?;
    put_text(report, text.as_slice())?;
    put_found(alloc, found, out)
}

/// Puts the raster of a page without a fault, where it has one.
fn put_found<S: Sink>(alloc: Global, found: &PageFound, out: &mut S) -> Result<(), Stop>
    requires { CanDrawLast found.now.layers }
    ensures taken { Gives result (S.given out.old) (S.given out.new) (raster_found found.now.fault found.now.layers) }
    ensures stops { SinkStops result (S.faults out.old) (S.faults out.new) }
{
    if found.fault.is_some() {
        return Ok(());
    }
    match &found.layers {
        Some(layers) => put_raster(alloc, out, layers),
        None => Ok(()),
    }
}

/// The lines of a page, and that of its fault where it has one.
fn with_fault(
    alloc: Global,
    names: &[Name],
    page: &Name,
    lines: &[u8],
    fault: &Option<Fault>,
) -> Result<Vec<u8>, AllocError>
    requires { FaultFits names.now fault.now }
    ensures { IfOk result (λ text. text.items ≡ lines.now ++ fault_text names.now page.now fault.now) }
{
    let mut text = Vec::new(alloc);
    text.extend_from_slice(lines)?;
    if let Some(fault) = fault {
        let line = fault_line(alloc, page, fault, names)?;
        text.extend_from_slice(line.as_slice())?;
    }
    Ok(text)
}
