//! Layers of a page: what is laid on it, and what is told of its drawing.
ghost use Rattle.std.specs.Prelude.{◌≡◌, ℕ, List, take, None, IfOk};
ghost use Rattle.layer_compose.specs.Drawing.{ColourFits};
ghost use Rattle.page_decoder.specs.Reading.{size_in};
ghost use Rattle.page_decoder.specs.ChunkData.{page_of};
ghost use Rattle.page_decoder.specs.Found.{CanDraw};
ghost use Rattle.page_decoder.specs.Opened.{FitsOn, announced, with_layer};

use crate::page::Size;
use bit_plane::Plane;
use djvu_base::{FaultKind, Notice, Raster, Turn};
use layer_compose::{Layers, reduction};
use std::alloc::{AllocError, Global};

/// A layer of a page, or none in its place.
#[derive(Drop)]
pub(crate) enum PageLayer {
    Mask(Option<Plane>),
    Front(Option<Raster>),
    Back(Option<Raster>),
}

/// The page of an `INFO` of this size, of which these are the first bytes.
pub(crate) fn page_of(size: Size, first: &[u8]) -> Layers
    ensures page { (bytes : List ℕ) → size ≡ size_in bytes → first.now ≡ take 10 bytes → result ≡ page_of bytes }
    ensures width { result.width ≡ size.width }
    ensures height { result.height ≡ size.height }
    ensures mask { result.mask ≡ None }
    ensures front { result.front ≡ None }
    ensures back { result.back ≡ None }
{
    Layers {
        width: u32::from(size.width),
        height: u32::from(size.height),
        turn: Turn::of(first.get(9).copied()),
        mask: None,
        front: None,
        back: None,
    }
}

/// The notice of the drawing of these layers, behind so many chunks.
pub(crate) fn notice_of(alloc: Global, layers: &Layers, chunks: u32) -> Result<Notice, AllocError>
    requires { CanDraw layers.now }
    ensures { IfOk result (λ notice. notice ≡ announced chunks layers.now) }
{
    let preview = layers.preview(alloc)?;
    Notice::new(alloc, chunks, layers.sum(), preview)
}

/// The page with another layer, and the layer whose place it takes. Both can be drawn.
pub(crate) fn exchanged(layers: Layers, layer: PageLayer) -> (Layers, PageLayer)
    requires drawable { CanDraw layers }
    requires fits { FitsOn layers layer }
    ensures laid { result.0 ≡ with_layer layer layers }
    ensures before { with_layer result.1 result.0 ≡ layers }
    ensures drawable { CanDraw result.0 }
    ensures fits { FitsOn result.0 result.1 }
{
    match layer {
        PageLayer::Mask(mask) => {
            let before = layers.mask;
            (Layers { mask, ..layers }, PageLayer::Mask(before))
        }
        PageLayer::Front(front) => {
            let before = layers.front;
            (Layers { front, ..layers }, PageLayer::Front(before))
        }
        PageLayer::Back(back) => {
            let before = layers.back;
            (Layers { back, ..layers }, PageLayer::Back(before))
        }
    }
}

/// Why a layer can't be laid on the page.
pub(crate) fn layer_fault(layers: &Layers, layer: &PageLayer) -> Option<FaultKind>
    ensures none { result ≡ None → FitsOn layers.now layer.now }
    ensures fits { FitsOn layers.now layer.now → result ≡ None }
{
    match layer {
        PageLayer::Mask(mask) => mask_fault(layers, mask),
        PageLayer::Front(front) => colour_fault(layers, front),
        PageLayer::Back(back) => colour_fault(layers, back),
    }
}

fn mask_fault(layers: &Layers, mask: &Option<Plane>) -> Option<FaultKind>
    ensures none { result ≡ None → FitsOn layers.now (PageLayer.Mask mask.now) }
    ensures fits { FitsOn layers.now (PageLayer.Mask mask.now) → result ≡ None }
{
    match mask {
        Some(mask) if mask.width() != layers.width || mask.height() != layers.height => Some(
            FaultKind::MaskSize,
        ),
        _ => None,
    }
}

fn colour_fault(layers: &Layers, colour: &Option<Raster>) -> Option<FaultKind>
    ensures none { result ≡ None → ColourFits layers.now colour.now }
    ensures fits { ColourFits layers.now colour.now → result ≡ None }
{
    let Some(raster) = colour else {
        return None;
    };
    let page = (layers.width, layers.height);
    match reduction(page, (raster.width(), raster.height())) {
        Some(_) => None,
        None => Some(FaultKind::LayerSize),
    }
}
