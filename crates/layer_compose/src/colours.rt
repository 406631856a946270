//! Colours of pixels.
ghost use Rattle.std.specs.Prelude.{◌≡◌, ℕ, ◌+◌, ◌*◌, ◌<◌, ◌≤◌, ◌==◌, length, IfSome};
ghost use Rattle.layer_compose.specs.Drawing.{picture_sample, layer_sample};
ghost use Rattle.layer_compose.specs.Laying.{channel_of, IsColour, Lays, Covers, in_span};

use djvu_base::Raster;

/// The three samples of a pixel.
#[derive(Clone, Copy, Debug)]
pub struct Colour {
    pub red: u8,
    pub green: u8,
    pub blue: u8,
}

impl Colour {
    /// Black at 0, white at 255, and what is between.
    pub fn grey(shade: u8) -> Colour
        ensures { IsColour result (λ channel. shade) }
    {
        Colour {
            red: shade,
            green: shade,
            blue: shade,
        }
    }

    /// The colour of a raster's pixel, whose row counts from the bottom.
    pub fn of(raster: &Raster, x: u32, y: u32) -> Colour
        requires column { x < raster.now.width }
        requires row { y < raster.now.height }
        ensures { IsColour result (picture_sample raster.now x y) }
    {
        let samples = raster.samples();
        let row = (raster.height() - 1 - y) as usize;
        let at = 3 * (row * raster.width() as usize + x as usize);
        Colour {
            red: samples[at],
            green: samples[at + 1],
            blue: samples[at + 2],
        }
    }

    /// The colour that a layer has at a place of its page, so many pixels of which are one of the layer, both ways. Without
    /// a layer it is a grey.
    pub fn in_layer(layer: &Option<Raster>, shade: u8, reduction: u32, x: u32, y: u32) -> Colour
        requires reduction { 0 < reduction }
        requires covers { Covers layer.now reduction x y }
        ensures { IsColour result (layer_sample layer.now shade reduction x y) }
    {
        match layer {
            Some(raster) => Colour::of(raster, x / reduction, y / reduction),
            None => Colour::grey(shade),
        }
    }

    /// The sum of the samples.
    pub fn sum(self) -> u64
        ensures { result ≡ self.red + self.green + self.blue }
    {
        u64::from(self.red) + u64::from(self.green) + u64::from(self.blue)
    }

    /// Lays the colour over a pixel.
    pub fn lay(self, out: &mut [u8], at: usize)
        requires { 3 * at + 3 ≤ length out.old }
        ensures { Lays (λ pixel. pixel == at) (λ pixel channel. channel_of self channel) out.old out.new }
    {
        out[3 * at] = self.red;
        out[3 * at + 1] = self.green;
        out[3 * at + 2] = self.blue;
    }

    /// Lays the colour over the pixels from one on and before another.
    pub fn lay_run(self, out: &mut [u8], from: usize, to: usize)
        requires order { from ≤ to }
        requires room { 3 * to ≤ length out.old }
        ensures { Lays (in_span from to) (λ pixel channel. channel_of self channel) out.old out.new }
    {
        for at in from..to {
            self.lay(out, at);
        }
    }
}
