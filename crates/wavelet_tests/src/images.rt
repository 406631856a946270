//! Layers of images: what they come to in whatever pieces, and their samples. Values are another program's, written after the
//! rules in `docs/iw44.md`.
ghost use Rattle.std.specs.Prelude.{◌≡◌, ◌<◌, None, IsSome};

use crate::layers;
use crate::readings::{Reading, Rows, digest};
use djvu_base::Raster;
use iw44_image::IwStep;
use std::alloc::Global;
use std::process::Abort;

/// In pieces of so many bytes layers are read.
const PIECES: [usize; 3] = [1, 7, 100_000];

/// What a chunk of a layer leaves.
struct Left {
    /// Decisions of all chunks so far.
    decisions: u64,
    /// The sums of decisions after each piece, for each of `PIECES`.
    counts: [u64; 3],
    /// Of the picture.
    digest: u64,
}

/// A pixel's column and row, from the left and from the top, and its colour.
struct Pixel {
    column: usize,
    row: usize,
    colour: [u8; 3],
}

/// A picture in the middle of a chunk, after so many of its bytes.
struct Stop {
    bytes: usize,
    decisions: u64,
    digest: u64,
}

/// What a layer of two chunks comes to.
struct Layer {
    size: (u32, u32),
    chunks: [Left; 2],
    /// In the second chunk.
    stop: Stop,
    /// Of the last picture.
    pixels: [Pixel; 4],
}

const GREY: Layer = Layer {
    size: (37, 53),
    chunks: [
        Left {
            decisions: 2230,
            counts: [156_574, 24_570, 2230],
            digest: 0x657FE1CB9727DE62,
        },
        Left {
            decisions: 4721,
            counts: [665_030, 98_102, 4721],
            digest: 0xD7C08A476D599166,
        },
    ],
    stop: Stop {
        bytes: 100,
        decisions: 3257,
        digest: 0x82F5B2B58C8402EA,
    },
    pixels: [
        Pixel {
            column: 0,
            row: 0,
            colour: [0, 0, 0],
        },
        Pixel {
            column: 36,
            row: 0,
            colour: [84, 84, 84],
        },
        Pixel {
            column: 12,
            row: 26,
            colour: [254, 254, 254],
        },
        Pixel {
            column: 30,
            row: 52,
            colour: [182, 182, 182],
        },
    ],
};

const HALF: Layer = Layer {
    size: (33, 19),
    chunks: [
        Left {
            decisions: 514,
            counts: [7622, 1514, 514],
            digest: 0x797194E079C40430,
        },
        Left {
            decisions: 1166,
            counts: [38_265, 6712, 1166],
            digest: 0xE462BB5DE7233AE4,
        },
    ],
    stop: Stop {
        bytes: 20,
        decisions: 700,
        digest: 0xA29EB96AF89E4521,
    },
    pixels: [
        Pixel {
            column: 0,
            row: 0,
            colour: [222, 206, 123],
        },
        Pixel {
            column: 32,
            row: 18,
            colour: [12, 69, 232],
        },
        Pixel {
            column: 11,
            row: 9,
            colour: [255, 29, 46],
        },
        Pixel {
            column: 20,
            row: 3,
            colour: [22, 63, 247],
        },
    ],
};

const FULL: Layer = Layer {
    size: (19, 33),
    chunks: [
        Left {
            decisions: 551,
            counts: [8305, 1530, 551],
            digest: 0xF34D9520F2037FF6,
        },
        Left {
            decisions: 1338,
            counts: [55_135, 9349, 1338],
            digest: 0xC05CC77EF7260D98,
        },
    ],
    stop: Stop {
        bytes: 30,
        decisions: 813,
        digest: 0x6FAF854AE90BEEBB,
    },
    pixels: [
        Pixel {
            column: 0,
            row: 0,
            colour: [228, 233, 55],
        },
        Pixel {
            column: 18,
            row: 32,
            colour: [255, 250, 68],
        },
        Pixel {
            column: 6,
            row: 16,
            colour: [250, 12, 13],
        },
        Pixel {
            column: 10,
            row: 3,
            colour: [21, 65, 221],
        },
    ],
};

/// The colour of a pixel.
fn colour(raster: &Raster, column: usize, row: usize) -> Option<&[u8]> {
    let pixel = row
        .saturating_mul(raster.width() as usize)
        .saturating_add(column);
    raster.samples().chunks(3).nth(pixel)
}

/// Reads a chunk in pieces, those of this number in `PIECES`, to its end.
fn read_chunk(
    rt: &impl Abort,
    alloc: Global,
    reading: &mut Reading,
    chunk: &[u8],
    left: &Left,
    pieces: usize,
)
    requires closed { reading.old.image.to_come ≡ None }
    requires known { IsSome reading.old.size → IsSome reading.old.image.header }
    requires pieces { pieces < 3 }
    ensures closed { reading.new.image.to_come ≡ None }
    ensures known { IsSome reading.new.size → IsSome reading.new.image.header }
{
    let Some(seen) = reading.read(chunk, PIECES[pieces]) else {
        panic!(rt; "all data of the chunk came");
    };
    if seen.answer != IwStep::ChunkDone {
        panic!(rt; "the chunk is done");
    }
    assert_eq!(rt; seen.bytes, chunk.len());
    assert_eq!(rt; seen.decisions, left.decisions);
    assert_eq!(rt; seen.counts, left.counts[pieces]);
    assert_eq!(rt; reading.digest(alloc), Some(left.digest));
}

/// Reads a layer of two chunks, and gives its last picture.
fn read_layer(
    rt: &impl Abort,
    alloc: Global,
    chunks: [&[u8]; 2],
    layer: &Layer,
    pieces: usize,
) -> Raster
    requires { pieces < 3 }
{
    let Some(mut reading) = Reading::new(alloc, Rows::Djvu) else {
        panic!(rt; "memory is ample");
    };
    read_chunk(rt, alloc, &mut reading, chunks[0], &layer.chunks[0], pieces);
    read_chunk(rt, alloc, &mut reading, chunks[1], &layer.chunks[1], pieces);
    assert_eq!(rt; reading.size, Some(layer.size));
    let Some(picture) = reading.picture(alloc) else {
        panic!(rt; "memory is ample");
    };
    picture
}

/// Reads a layer of two chunks in all pieces, and its last picture's pixels.
fn read_in_pieces(rt: &impl Abort, alloc: Global, chunks: [&[u8]; 2], layer: &Layer) {
    for pieces in 0..3 {
        let picture = read_layer(rt, alloc, chunks, layer, pieces);
        assert_eq!(rt; (picture.width(), picture.height()), layer.size);
        for pixel in &layer.pixels {
            let colour = colour(&picture, pixel.column, pixel.row);
            assert_eq!(rt; colour, Some(&pixel.colour[..]));
        }
    }
}

#[test]
fn layers_come_in_pieces(rt: HostRuntime) {
    read_in_pieces(&rt, rt.alloc(), layers::grey(), &GREY);
    read_in_pieces(&rt, rt.alloc(), layers::half(), &HALF);
    read_in_pieces(&rt, rt.alloc(), layers::full(), &FULL);
}

/// Stops in the second chunk of a layer, and goes on.
fn stop_in_the_middle(rt: &impl Abort, alloc: Global, chunks: [&[u8]; 2], layer: &Layer) {
    let Some(mut reading) = Reading::new(alloc, Rows::Djvu) else {
        panic!(rt; "memory is ample");
    };
    read_chunk(rt, alloc, &mut reading, chunks[0], &layer.chunks[0], 2);
    let Some((decisions, picture)) = reading.stop(alloc, chunks[1], layer.stop.bytes) else {
        panic!(rt; "the second chunk is done too");
    };
    assert_eq!(rt; decisions, layer.stop.decisions);
    assert_eq!(rt; digest(&picture), layer.stop.digest);
    assert_eq!(rt; reading.digest(alloc), Some(layer.chunks[1].digest));
}

/// A picture in the middle of a chunk changes nothing.
#[test]
fn pictures_are_made_in_the_middle(rt: HostRuntime) {
    stop_in_the_middle(&rt, rt.alloc(), layers::grey(), &GREY);
    stop_in_the_middle(&rt, rt.alloc(), layers::half(), &HALF);
    stop_in_the_middle(&rt, rt.alloc(), layers::full(), &FULL);
}
