//! Shapes that are kept, each with its ink box, which is made once.
ghost use Rattle.std.specs.Prelude.{◌≡◌, ◌≤◌, ◌+ℤ◌, ◌-ℤ◌, pos, IfOk};
ghost use Rattle.std.specs.Arc.{arc_value};
ghost use Rattle.bit_plane.specs.Ink.{ink_box_of, extent};
ghost use Rattle.bit_plane.specs.Pixels.{side_limit};
ghost use Rattle.jb2_places.specs.After.{IsSize};
ghost use Rattle.jb2_records.specs.Records.{ink_frame};
ghost use Rattle.jb2_records.specs.Sides.{IsShape};

use crate::frames::{Frame, signed};
use bit_plane::laws::ink_laws;
use bit_plane::{InkBox, Plane};
use std::alloc::AllocError;
use std::marker::Model;
use std::sync::Arc;

/// A shape that is kept, with its ink box. Contracts see it as its pixels.
#[derive(Debug, Drop)]
pub(crate) struct KeptShape {
    plane: Arc<Plane>,
    ink: InkBox,
}

impl Model for KeptShape {
    ghost use Rattle.std.specs.Arc.{arc_value};
    ghost use Rattle.bit_plane.specs.Pixels.{Pixels};
    ghost use Rattle.jb2_records.specs.Library.{IsKeptShape};

    ghost Value = { Pixels };

    ghost view = { λ a. arc_value a.plane };

    ghost invariant = { λ a. IsKeptShape (arc_value a.plane) a.ink };
}

impl KeptShape {
    /// Keeps a shape.
    pub(crate) fn new(plane: Arc<Plane>) -> KeptShape
        requires { IsShape (arc_value plane) }
        ensures { result ≡ arc_value plane }
    {
        let ink = plane.ink_box();
        KeptShape { plane, ink }
    }

    /// The same shape, shared.
    pub(crate) fn share(&self) -> Result<KeptShape, AllocError>
        ensures { IfOk result (λ shape. shape ≡ self.now) }
    {
        Ok(KeptShape {
            plane: self.plane.clone()?,
            ink: self.ink,
        })
    }

    /// Its pixels.
    pub(crate) fn plane(&self) -> &Arc<Plane>
        ensures plane { arc_value result.now ≡ self.now }
        ensures sides { IsShape self.now }
    {
        &self.plane
    }

    /// Its ink box.
    pub(crate) fn ink(&self) -> InkBox
        ensures { result ≡ ink_box_of self.now }
    {
        self.ink
    }

    /// How many columns there are from the left side of its ink to the right one.
    pub(crate) fn ink_width(&self) -> u32
        ensures extent { result ≡ extent (ink_box_of self.now).left (ink_box_of self.now).right }
        ensures difference { pos result ≡ (ink_box_of self.now).right -ℤ (ink_box_of self.now).left +ℤ pos 1 }
        ensures most { result ≤ side_limit }
    {
        ink_laws();
        self.ink.width()
    }

    /// How many rows there are from the bottom of its ink to the top.
    pub(crate) fn ink_height(&self) -> u32
        ensures extent { result ≡ extent (ink_box_of self.now).bottom (ink_box_of self.now).top }
        ensures difference { pos result ≡ (ink_box_of self.now).top -ℤ (ink_box_of self.now).bottom +ℤ pos 1 }
        ensures most { result ≤ side_limit }
    {
        ink_laws();
        self.ink.height()
    }

    /// Its ink, as it is placed.
    pub(crate) fn frame(&self) -> Frame
        ensures frame { result ≡ ink_frame self.now }
        ensures width { IsSize result.width }
        ensures height { IsSize result.height }
    {
        Frame {
            left: self.ink.left,
            bottom: self.ink.bottom,
            width: signed(self.ink_width()),
            height: signed(self.ink_height()),
        }
    }
}
