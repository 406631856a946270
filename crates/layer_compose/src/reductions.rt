//! By how much layers of colour are coarser than their page.
ghost use Rattle.std.specs.Prelude.{◌≡◌, ◌<◌};
ghost use Rattle.layer_compose.specs.Reduction.{is_reduced, reduction_of};

/// The reductions of a page's colours, 1 for each that isn't there.
#[derive(Clone, Copy, Debug)]
pub struct Reductions {
    pub front: u32,
    pub back: u32,
}

/// The least number from 1 to 12 by which both sizes of the page, in pixels, are divided and rounded up to those of the
/// layer. `None` exactly where none of them does. Takes no memory.
pub fn reduction(page: (u32, u32), layer: (u32, u32)) -> Option<u32>
    ensures { result ≡ reduction_of page layer }
{
    for by in 1..13u32 {
        if is_reduced(page, layer, by) {
            return Some(by);
        }
    }
    None
}

fn is_reduced(page: (u32, u32), layer: (u32, u32), by: u32) -> bool
    requires { 0 < by }
    ensures { result ≡ is_reduced page layer by }
{
    page.0.div_ceil(by) == layer.0 && page.1.div_ceil(by) == layer.1
}
