//! The picture that the records of a mask draw. `specs/Picture.antt` says how it stands to the list of records.
ghost use Rattle.std.specs.Prelude.{◌≡◌, ◌≤◌, ◌≤ℤ◌, ◌-ℤ◌, ◌++◌, ◌∷◌, ℕ, pos, List, [], Bool, true, Some, None, IfOk};
ghost use Rattle.bit_plane.specs.Ink.{unsigned};
ghost use Rattle.bit_plane.specs.Pixels.{side_limit};
ghost use Rattle.jb2_places.specs.Place.{Placement, place};
ghost use Rattle.jb2_places.specs.After.{IsSize, IsAfter, HasRoom, Within, spot_far};
ghost use Rattle.jb2_records.specs.Records.{Record, Start, Plain, placement_at, mark_of, image_size, library, placed_shapes};
ghost use Rattle.jb2_records.specs.Reading.{Input, Mask as MaskPurpose, place_fault};
ghost use Rattle.jb2_records.specs.Reader.{IsMaskSize};
ghost use Rattle.jb2_records.specs.Sides.{IsShape};
ghost use Rattle.jb2_records.specs.Picture.{Picture as Drawn, Shows, IsBlank, IsPlaceable, mark_at, relative_of};

use crate::checks::place_fault;
use crate::frames::{Frame, Steps, area_of};
use bit_plane::Plane;
use djvu_base::FaultKind;
use jb2_places::{Places, Spot};
use std::alloc::{AllocError, Global};
use std::marker::Model;

/// The mask as far as it was drawn, and what further marks are checked and placed by.
#[derive(Debug, Drop)]
pub(crate) struct Picture {
    mask: Plane,
    places: Places,
    /// How many shapes were placed, and their pixels.
    count: u32,
    pixels: u64,
}

impl Model for Picture {
    ghost use Rattle.jb2_records.specs.Picture.{Picture as Drawn, IsPicture};

    ghost Value = { Drawn };

    ghost view = { λ a. record { mask = a.mask; places = a.places; count = a.count; pixels = a.pixels } };

    ghost invariant = { λ a. IsPicture (record { mask = a.mask; places = a.places; count = a.count; pixels = a.pixels }) };
}

impl Picture {
    /// The picture behind a mask's start: a white mask of this size in pixels.
    pub(crate) fn new(alloc: Global, width: u32, height: u32) -> Result<Picture, AllocError>
        requires { IsMaskSize width height }
        ensures { IfOk result (λ picture. (input : Input) (before : List Record) (flag : Bool) →
            input.purpose ≡ MaskPurpose width height → IsBlank input before → Shows input (Start width height flag ∷ before) picture) }
    {
        Ok(Picture {
            mask: Plane::new(alloc, width, height)?,
            places: Places::new(height),
            count: 0,
            pixels: 0,
        })
    }

    /// The mask's size.
    pub(crate) fn width(&self) -> u32
        ensures width { result ≡ self.now.mask.width }
        ensures image { (input : Input) (before : List Record) → Shows input before self.now → (image_size before).width ≡ result }
        ensures some { 1 ≤ result }
        ensures most { result ≤ side_limit }
    {
        self.mask.width()
    }

    pub(crate) fn height(&self) -> u32
        ensures height { result ≡ self.now.mask.height }
        ensures image { (input : Input) (before : List Record) → Shows input before self.now → (image_size before).height ≡ result }
        ensures some { 1 ≤ result }
        ensures most { result ≤ side_limit }
    {
        self.mask.height()
    }

    /// What is wrong with this shape as one placed shape more.
    pub(crate) fn place_fault(&self, shape: &Plane) -> Option<FaultKind>
        requires { IsShape shape.now }
        ensures fault { (input : Input) (before : List Record) → Shows input before self.now → result ≡ place_fault input before shape.now }
        ensures fits { result ≡ None → IsPlaceable shape.now self.now }
    {
        place_fault(self.count, self.pixels, area_of(shape))
    }

    /// Places this part of a shape, so far from where the marks before it lead.
    pub(crate) fn place(&mut self, shape: &Plane, frame: Frame, steps: Steps)
        requires room { IsPlaceable shape.now self.old }
        requires width { IsSize frame.width }
        requires height { IsSize frame.height }
        ensures { (input : Input) (before : List Record) (entry : Record) →
            mark_of (library input.inherited before) entry ≡ Some (mark_at shape.now frame steps) →
            Shows input before self.old → Shows input (entry ∷ before) self.new }
    {
        let spot = next_spot(&mut self.places, frame, steps);
        let left = corner(spot.left, frame.left);
        let bottom = corner(spot.bottom, frame.bottom);
        self.mask.paint(shape, left, bottom);
        self.count += 1;
        self.pixels += area_of(shape);
    }

    /// Places a shape by its left side and its top, counted from 1.
    pub(crate) fn place_plain(&mut self, shape: &Plane, left: i32, top: i32)
        requires room { IsPlaceable shape.now self.old }
        requires some_left { pos 1 ≤ℤ left }
        requires some_top { pos 1 ≤ℤ top }
        ensures { (input : Input) (before : List Record) → Shows input before self.old →
            Shows input (Plain shape.now (unsigned left) (unsigned top) ∷ before) self.new }
    {
        let spot = Places::absolute(left, top, shape.height() as i32);
        self.mask.paint(shape, spot.left, spot.bottom);
        self.count += 1;
        self.pixels += area_of(shape);
    }

    /// The mask.
    pub(crate) fn into_mask(self) -> Plane
        ensures { result ≡ self.mask }
    {
        self.mask
    }
}
/// Where the next mark stands.
fn next_spot(places: &mut Places, frame: Frame, steps: Steps) -> Spot
    requires room { HasRoom places.old }
    requires width { IsSize frame.width }
    requires height { IsSize frame.height }
    ensures spot { (image_height : ℕ) (earlier : List Placement) → IsAfter image_height earlier places.old →
        result ≡ place image_height earlier (placement_at (relative_of steps) frame) }
    ensures after { (image_height : ℕ) (earlier : List Placement) → IsAfter image_height earlier places.old →
        IsAfter image_height (earlier ++ placement_at (relative_of steps) frame ∷ []) places.new }
    ensures left { Within spot_far result.left }
    ensures bottom { Within spot_far result.bottom }
{
    if steps.is_new {
        places.new_row(steps.dx, steps.dy, frame.width, frame.height)
    } else {
        places.same_row(steps.dx, steps.dy, frame.width, frame.height)
    }
}

/// Where the corner of a shape comes to stand, so that a place in it stands at a spot.
fn corner(spot: i64, place: i32) -> i64
    requires { Within spot_far spot }
    ensures { result ≡ spot -ℤ place }
{
    spot - i64::from(place)
}
