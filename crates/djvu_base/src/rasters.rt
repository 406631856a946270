//! Rasters: pictures as samples.
ghost use Rattle.std.specs.Prelude.{◌≡◌, ◌*◌, vec_len};
ghost use Rattle.djvu_base.specs.Picture.{IsPicture};

use std::marker::Model;

/// A picture, as three samples (red, green, blue) for each pixel, rows from the top and each row from the left.
#[derive(Debug, Drop)]
pub struct Raster {
    columns: u32,
    rows: u32,
    values: Vec<u8>,
}

impl Model for Raster {
    ghost use Rattle.djvu_base.specs.Picture.{Picture, IsPicture};

    ghost Value = { Picture };

    ghost view = { λ a. record { width = a.columns; height = a.rows; samples = a.values.items } };

    ghost invariant = { λ a. IsPicture (record { width = a.columns; height = a.rows; samples = a.values.items }) };
}

impl Raster {
    /// A raster of these sizes, in pixels, and samples. Takes no memory.
    pub fn new(width: u32, height: u32, samples: Vec<u8>) -> Raster
        requires { vec_len samples ≡ 3 * width * height }
        ensures { result ≡ record { width = width; height = height; samples = samples.items } }
    {
        Raster {
            columns: width,
            rows: height,
            values: samples,
        }
    }

    /// Pixels from left to right.
    pub fn width(&self) -> u32
        ensures { result ≡ self.now.width }
    {
        self.columns
    }

    /// Pixels from top to bottom.
    pub fn height(&self) -> u32
        ensures { result ≡ self.now.height }
    {
        self.rows
    }

    /// Three samples for each pixel, rows from the top and each row from the left.
    pub fn samples(&self) -> &[u8]
        ensures samples { result.now ≡ self.now.samples }
        ensures whole { IsPicture self.now }
    {
        self.values.as_slice()
    }
}
