//! Runs over long files, over a page alone, and over a table beside its page.

use super::*;

/// The table `flat`, as a file.
const FLAT_TABLE: &[u8] = b"\x80\0\0\0\0\0";

/// A page up to the data of a chunk that isn't read, which are 70,000 bytes.
const LONG_CHUNK: &[u8] =
    b"AT&TFORM\0\x01\x11\x8EDJVUINFO\0\0\0\x0A\0\x01\0\x01\x18\0\x2C\x01\x16\x01TXTz\0\x01\x11\x70";

/// These bytes, and so many zeros behind them.
fn with_zeros(alloc: Global, head: &[u8], zeros: usize) -> Option<Vec<u8>> {
    let mut bytes = Vec::from_slice(alloc, head).ok()?;
    for _ in 0..zeros {
        bytes.push(0).ok()?;
    }
    Some(bytes)
}

/// Draws a page that has these bytes and so many zeros behind them.
fn came_of_long(alloc: Global, head: &[u8], zeros: usize, failing: Failing) -> Option<Came> {
    let page = with_zeros(alloc, head, zeros)?;
    came_over(alloc, page.as_slice(), DRAW_P, failing)
}

/// Two reads give all bytes of these files, and a third nothing. 65,536 bytes had come where the second one fails: a page whose
/// FORM had ended is drawn, and one whose FORM goes on is refused.
#[test]
fn long_files(rt: HostRuntime) {
    let none_came: &[u8] = b"p: read p 0\n";
    let lost: &[u8] = b"p: chunk 1 sum 765\np: read p 65536\n";
    let cases: [(&[u8], Option<u64>, u8, &[u8], &[u8]); 8] = [
        (LONG_CHUNK, None, 0, RASTER, LINE),
        (LONG_CHUNK, Some(2), 3, NONE, none_came),
        (LONG_CHUNK, Some(3), 3, NONE, lost),
        (LONG_CHUNK, Some(4), 3, RASTER, LINE),
        (BLANK, None, 0, RASTER, LINE),
        (BLANK, Some(2), 3, NONE, none_came),
        (BLANK, Some(3), 3, RASTER, LINE),
        (BLANK, Some(4), 3, RASTER, LINE),
    ];
    for (number, (head, folder, status, out, report)) in cases.into_iter().enumerate() {
        let failing = Failing { folder, ..SOUND };
        let came = came_of_long(rt.alloc(), head, 70_000, failing);
        expect_came(&rt, came, status, out, report, number);
    }
}

/// A page alone, whose file can't be opened.
#[test]
fn lost_page(rt: HostRuntime) {
    let failing = Failing {
        folder: Some(1),
        ..SOUND
    };
    let came = came_over(rt.alloc(), BLANK, DRAW_P, failing);
    expect_came(&rt, came, 3, NONE, b"p: read p 0\n", 0);
}

/// Draws a page with a mask, with a table's file.
fn came_by_table(alloc: Global, table: &[u8]) -> Option<Came> {
    let files = two_files(alloc, MASKED, table)?;
    came_to(alloc, files, &[b"draw", b"--table", b"q", b"p"], SOUND)
}

/// The rows of a table's file reach the reader of masks.
#[test]
fn table_of_a_mask(rt: HostRuntime) {
    let came = came_by_table(rt.alloc(), FLAT_TABLE);
    let lines: &[u8] = b"p: chunk 1 sum 765\np: chunk 2 sum 0\n";
    expect_counted(&rt, came, (0, 29), b"P6\n1 1\n255\n\0\0\0", lines, 0);
}
