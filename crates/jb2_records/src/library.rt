//! The library that records leave: the inherited shapes that they take, and then their own. No shape is copied.
//! `specs/Library.antt` says how it stands to the list of records.
ghost use Rattle.std.specs.Prelude.{◌≡◌, ◌+◌, ◌<◌, ◌≤◌, ◌==◌, ◌++◌, ◌∷◌, ℕ, length, List, [], Bool, true, false, nat_lt, None, IfOk, OnOk, OnErr, All};
ghost use Rattle.std.specs.Arc.{arc_value};
ghost use Rattle.bit_plane.specs.Ink.{unsigned};
ghost use Rattle.bit_plane.specs.Pixels.{area_limit};
ghost use Rattle.jb2_records.specs.Limits.{shape_limit};
ghost use Rattle.jb2_records.specs.Records.{Record, Start, Require, shape_at, is_started};
ghost use Rattle.jb2_records.specs.Reading.{Input, type_fault, start_fault, count_fault, shape_fault, fault_of_shape, pixel_limit, has_shapes, needs_start, needs_match};
ghost use Rattle.jb2_records.specs.Reader.{inherited_of};
ghost use Rattle.jb2_records.specs.Sides.{IsShape};
ghost use Rattle.jb2_records.specs.Library.{Library as Kept, shapes_of, Keeps, with_start, with_used, with_kept, HasRoomFor, IsAddable, IsPurpose};

use crate::checks::{count_fault, shape_fault};
use crate::dictionary::{Dictionary, inherited_count};
use crate::frames::area_of;
use crate::kept::KeptShape;
use crate::purpose::Purpose;
use crate::types::RecordType;
use bit_plane::Plane;
use djvu_base::FaultKind;
use std::alloc::{AllocError, Global};
use std::marker::Model;
use std::sync::Arc;

/// The shapes that records keep, and what further records are checked by.
#[derive(Debug, Drop)]
pub(crate) struct Library {
    alloc: Global,
    purpose: Purpose,
    inherited: Option<Arc<Dictionary>>,
    /// Whether the inherited shapes are its first ones.
    takes: bool,
    own: Vec<KeptShape>,
    started: bool,
    /// How many shapes the records brought, and their pixels.
    count: u32,
    pixels: u64,
}

impl Model for Library {
    ghost use Rattle.jb2_records.specs.Reader.{inherited_of};
    ghost use Rattle.jb2_records.specs.Library.{Library as Kept, IsKept, taken_of};

    ghost Value = { Kept };

    ghost view = { λ a. record {
      inherited = inherited_of a.inherited;
      purpose = a.purpose;
      started = a.started;
      taken = taken_of a.takes (inherited_of a.inherited);
      own = a.own.items;
      count = a.count;
      pixels = a.pixels;
    } };

    ghost invariant = { λ a. IsKept (record {
      inherited = inherited_of a.inherited;
      purpose = a.purpose;
      started = a.started;
      taken = taken_of a.takes (inherited_of a.inherited);
      own = a.own.items;
      count = a.count;
      pixels = a.pixels;
    }) };
}

impl Library {
    /// The library before any record.
    pub(crate) fn new(
        alloc: Global,
        inherited: Option<Arc<Dictionary>>,
        purpose: Purpose,
    ) -> Library
        requires { IsPurpose purpose }
        ensures { (input : Input) → input.inherited ≡ inherited_of inherited → input.purpose ≡ purpose → Keeps input [] result }
    {
        Library {
            alloc,
            purpose,
            inherited,
            takes: false,
            own: Vec::new(alloc),
            started: false,
            count: 0,
            pixels: 0,
        }
    }

    /// What the records are for.
    pub(crate) fn purpose(&self) -> Purpose
        ensures purpose { result ≡ self.now.purpose }
        ensures sound { IsPurpose result }
    {
        self.purpose
    }

    /// Whether the start was read.
    pub(crate) fn is_started(&self) -> bool
        ensures { result ≡ self.now.started }
    {
        self.started
    }

    /// How many of its shapes are inherited.
    fn taken_count(&self) -> u32
        ensures count { result ≡ length self.now.taken }
        ensures most { result ≤ shape_limit }
    {
        if self.takes {
            inherited_count(&self.inherited)
        } else {
            0
        }
    }

    /// How many shapes it has.
    pub(crate) fn shape_count(&self) -> u32
        ensures count { result ≡ length (shapes_of self.now) }
        ensures most { result ≤ shape_limit }
    {
        self.taken_count() + self.own.len() as u32
    }

    /// The shape with a number: the inherited ones come first.
    pub(crate) fn shape(&self, number: u32) -> &KeptShape
        requires { number < length (shapes_of self.now) }
        ensures shape { result.now ≡ shape_at (shapes_of self.now) number }
        ensures sides { IsShape result.now }
    {
        let count = self.taken_count();
        if number < count {
            inherited_shape(&self.inherited, number)
        } else {
            &self.own[(number - count) as usize]
        }
    }

    /// What is wrong with a record of this type.
    pub(crate) fn type_fault(&self, kind: RecordType) -> Option<FaultKind>
        ensures fault { (input : Input) (before : List Record) → Keeps input before self.now →
            result ≡ type_fault input.purpose (is_started before) (has_shapes input before) kind }
        ensures here { result ≡ type_fault self.now.purpose self.now.started (nat_lt 0 (length (shapes_of self.now))) kind }
        ensures started { result ≡ None → needs_start kind ≡ true → self.now.started ≡ true }
        ensures some { result ≡ None → needs_match kind ≡ true → 0 < length (shapes_of self.now) }
    {
        self.purpose
            .type_fault(self.started, self.shape_count() > 0, kind)
    }

    /// What is wrong with a start of this size.
    pub(crate) fn start_fault(&self, width: i32, height: i32) -> Option<FaultKind>
        ensures fault { (input : Input) (before : List Record) → Keeps input before self.now →
            result ≡ start_fault input.purpose width height }
        ensures here { result ≡ start_fault self.now.purpose width height }
    {
        self.purpose.start_fault(width, height)
    }

    /// What is wrong with a count of inherited shapes.
    pub(crate) fn count_fault(&self, count: i32) -> Option<FaultKind>
        ensures { (input : Input) (before : List Record) → Keeps input before self.now → result ≡ count_fault input count }
    {
        count_fault(inherited_count(&self.inherited), count)
    }

    /// What is wrong with one shape more of this size.
    pub(crate) fn shape_fault(&self, width: i64, height: i64) -> Option<FaultKind>
        ensures fault { (input : Input) (before : List Record) → Keeps input before self.now →
            result ≡ shape_fault input before width height }
        ensures here { result ≡ fault_of_shape (pixel_limit self.now.purpose) (length self.now.taken + self.now.count) self.now.pixels width height }
        ensures fits { result ≡ None → self.now.started ≡ true → HasRoomFor (unsigned width) (unsigned height) self.now }
    {
        shape_fault(
            self.purpose.pixel_limit(),
            self.taken_count() + self.count,
            self.pixels,
            width,
            height,
        )
    }

    /// The start.
    pub(crate) fn start(&mut self)
        ensures keeps { (input : Input) (before : List Record) (width height : ℕ) (flag : Bool) → Keeps input before self.old →
            Keeps input (Start width height flag ∷ before) self.new }
        ensures is { self.new ≡ with_start self.old }
    {
        self.started = true;
    }

    /// Takes no inherited shapes in place of what was taken before, or all of them.
    pub(crate) fn take(&mut self, is_none: bool)
        requires { self.old.started ≡ false }
        ensures keeps { (input : Input) (before : List Record) (count : ℕ) → is_none ≡ (count == 0) → Keeps input before self.old →
            Keeps input (Require count ∷ before) self.new }
        ensures inherited { self.new.inherited ≡ self.old.inherited }
        ensures purpose { self.new.purpose ≡ self.old.purpose }
        ensures unstarted { self.new.started ≡ false }
    {
        // A dictionary has few enough shapes.
        inherited_count(&self.inherited);
        self.takes = !is_none;
    }

    /// One shape more, which isn't kept.
    pub(crate) fn add(&mut self, shape: &Plane)
        requires { IsAddable shape.now self.old }
        ensures { self.new ≡ with_used shape.now self.old }
    {
        self.count += 1;
        self.pixels += area_of(shape);
    }

    /// One shape more, which is kept.
    pub(crate) fn keep(&mut self, shape: &Arc<Plane>) -> Result<(), AllocError>
        requires { IsAddable (arc_value shape.now) self.old }
        ensures kept { OnOk result (self.new ≡ with_kept (arc_value shape.now) self.old) }
        ensures err { OnErr result (self.new ≡ self.old) }
    {
        self.own.push(KeptShape::new(shape.clone()?))?;
        self.count += 1;
        self.pixels += area_of(shape);
        Ok(())
    }

    /// The dictionary of its shapes. It is the inherited one where there are no others.
    pub(crate) fn into_dictionary(self) -> Result<Arc<Dictionary>, AllocError>
        ensures { IfOk result (λ dictionary. arc_value dictionary ≡ shapes_of self) }
    {
        let Library {
            alloc,
            inherited,
            takes,
            own,
            ..
        } = self;
        let Some(dictionary) = inherited else {
            return Ok(Arc::new(alloc, Dictionary::of(own))?);
        };
        if !takes {
            return Ok(Arc::new(alloc, Dictionary::of(own))?);
        }
        if own.is_empty() {
            return Ok(dictionary);
        }
        let shapes = joined(alloc, &dictionary, own)?;
        Ok(Arc::new(alloc, Dictionary::of(shapes))?)
    }
}

/// The shape of a dictionary with a number.
fn inherited_shape(inherited: &Option<Arc<Dictionary>>, number: u32) -> &KeptShape
    requires { number < length (inherited_of inherited.now) }
    ensures shape { result.now ≡ shape_at (inherited_of inherited.now) number }
    ensures sides { IsShape result.now }
{
    match inherited {
        None => unreachable!(),
        Some(dictionary) => dictionary.kept(number),
    }
}

/// All shapes of a dictionary, shared, and then these.
fn joined(
    alloc: Global,
    dictionary: &Dictionary,
    mut own: Vec<KeptShape>,
) -> Result<Vec<KeptShape>, AllocError>
    requires { All IsShape own.items }
    ensures shapes { IfOk result (λ shapes. shapes.items ≡ dictionary.now ++ own.items) }
    ensures sides { IfOk result (λ shapes. All IsShape shapes.items) }
{
    let mut shapes = Vec::new(alloc);
    for number in 0..dictionary.count() {
        shapes.push(dictionary.kept(number).share()?)?;
    }
    shapes.append(&mut own)?;
    Ok(shapes)
}
