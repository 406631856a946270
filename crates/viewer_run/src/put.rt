//! Putting rasters into sinks.
ghost use Rattle.std.specs.Prelude.{◌≡◌, ℕ, ◌+◌, ◌*◌, ◌<◌, ◌≤◌, IfOk, length, vec_len};
ghost use Rattle.layer_compose.specs.Drawing.{raster_of, samples_of, rows_of, drawing_width, drawing_height};
ghost use Rattle.page_decoder.specs.Found.{CanDraw};
ghost use Rattle.djvu_outside.specs.Parts.{SinkStops, Gives};
ghost use Rattle.viewer_run.specs.Rasters.{raster_head, raster_text};

use djvu_outside::{Sink, Stop, put_text};
use layer_compose::Layers;
use std::alloc::{AllocError, Global};

/// About how many bytes of a raster are put at once: as many whole rows as fit, and at least one.
const BLOCK: u32 = 65_536;

/// Puts the raster of a drawing, in blocks of rows.
pub fn put_raster<S: Sink>(alloc: Global, sink: &mut S, layers: &Layers) -> Result<(), Stop>
    requires { CanDraw layers.now }
    ensures taken { Gives result (S.given sink.old) (S.given sink.new) (raster_text (raster_of layers.now)) }
    ensures stops { SinkStops result (S.faults sink.old) (S.faults sink.new) }
{
    let head = raster_head(alloc, layers.drawing_width(), layers.drawing_height())?;
    put_text(sink, head.as_slice())?;
    put_rows(alloc, sink, layers)
}

/// Puts all rows of a drawing, from the top.
fn put_rows<S: Sink>(alloc: Global, sink: &mut S, layers: &Layers) -> Result<(), Stop>
    requires { CanDraw layers.now }
    ensures taken { Gives result (S.given sink.old) (S.given sink.new) (samples_of layers.now) }
    ensures stops { SinkStops result (S.faults sink.old) (S.faults sink.new) }
{
    layer_compose::laws::rows_make_the_raster();
    let row = 3 * layers.drawing_width();
    let height = layers.drawing_height();
    let at_once = (BLOCK / row).max(1);
    let mut block = make_block(alloc, (at_once * row) as usize)?;
    let mut done = 0;
    while done < height {
        let now = (height - done).min(at_once);
        put_block(sink, layers, done, now, &mut block[..(now * row) as usize])?;
        done += now;
    }
    Ok(())
}

/// Puts so many rows of a drawing, from a row on, which are written into the block first.
fn put_block<S: Sink>(
    sink: &mut S,
    layers: &Layers,
    from: u32,
    count: u32,
    block: &mut [u8],
) -> Result<(), Stop>
    requires drawable { CanDraw layers.now }
    requires rows { from + count ≤ drawing_height layers.now }
    requires room { length block.old ≡ 3 * drawing_width layers.now * count }
    ensures taken { Gives result (S.given sink.old) (S.given sink.new) (rows_of layers.now from count) }
    ensures stops { SinkStops result (S.faults sink.old) (S.faults sink.new) }
{
    layers.rows(from, count, block);
    put_text(sink, block)
}

/// Room for so many samples.
fn make_block(alloc: Global, count: usize) -> Result<Vec<u8>, AllocError>
    ensures { IfOk result (λ block. vec_len block ≡ count) }
{
    vec![in alloc; 0u8; count]
}

/// The head of a raster in the format PPM: `P6`, the sizes in pixels, and the largest sample.
fn raster_head(alloc: Global, width: u32, height: u32) -> Result<Vec<u8>, AllocError>
    ensures { IfOk result (λ line. line.items ≡ raster_head width height) }
{
    let head = format!(in alloc; "P6\n{width} {height}\n255\n")?;
    Ok(head.into_bytes())
}
