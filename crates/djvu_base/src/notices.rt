//! Notices: what is told of a page once a chunk of it is done.
ghost use Rattle.std.specs.Prelude.{◌≡◌, IfOk};

use crate::rasters::Raster;
use crate::shares::Share;
use std::alloc::{AllocError, Global};
use std::marker::Model;
use std::sync::Arc;

/// How far a page is, and what its drawing then is. Shares of a notice have one preview in common.
#[derive(Debug, Drop)]
pub struct Notice {
    done: u32,
    total: u64,
    small: Arc<Raster>,
}

impl Model for Notice {
    ghost use Rattle.std.specs.Arc.{arc_value};
    ghost use Rattle.djvu_base.specs.Announced.{Announced};

    ghost Value = { Announced };

    ghost view = { λ a. record { chunks = a.done; sum = a.total; preview = arc_value a.small } };
}

impl Notice {
    /// A notice of so many chunks that are done, the sum of all samples of the drawing after them, and its preview.
    pub fn new(alloc: Global, chunks: u32, sum: u64, preview: Raster) -> Result<Notice, AllocError>
        ensures { IfOk result (λ notice. notice ≡ record { chunks = chunks; sum = sum; preview = preview }) }
    {
        let small = Arc::new(alloc, preview)?;
        Ok(Notice {
            done: chunks,
            total: sum,
            small,
        })
    }

    /// How many of the page's chunks are done, of every kind.
    pub fn chunks(&self) -> u32
        ensures { result ≡ self.now.chunks }
    {
        self.done
    }

    /// The sum of all samples of the drawing, three for each pixel.
    pub fn sum(&self) -> u64
        ensures { result ≡ self.now.sum }
    {
        self.total
    }

    /// The drawing in small.
    pub fn preview(&self) -> &Raster
        ensures { result.now ≡ self.now.preview }
    {
        &*self.small
    }
}

impl Share for Notice {
    fn share(&self) -> Result<Notice, AllocError> {
        let small = Arc::try_clone(&self.small)?;
        Ok(Notice {
            done: self.done,
            total: self.total,
            small,
        })
    }
}
