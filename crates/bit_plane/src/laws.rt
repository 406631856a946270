//! Laws and worked values of the definitions, as clauses of functions that do nothing.
ghost use Rattle.std.specs.Prelude.{◌≡◌, ℕ, ◌<◌, ◌*◌, ◌/◌, ◌%◌, Bool, true, false, ◌&&◌, ◌||◌, [], ◌∷◌, count_by, ℤ, pos, negsuc, ◌-ℤ◌};
ghost use Rattle.std.specs.List.{range_with_len};
ghost use Rattle.bit_plane.specs.Pixels.{Pixels, IsPlane, is_inside, is_black, is_black_at, is_place, pixels_where, black_count, blank, with_black, painted};
ghost use Rattle.bit_plane.specs.Ink.{IsInkBox, IsWithin, ink_box_of, no_ink};
ghost use Rattle.bit_plane.specs.Worked.{dash, corner, post, copy};

/// What is black in planes that are made: nothing of a blank one, a place more, the union with what is painted.
pub fn pixel_laws()
    ensures made { (width height x y : ℕ) (test : ℕ → ℕ → Bool) → x < width → y < height →
        is_black (pixels_where width height test) (pos x) (pos y) ≡ test x y }
    ensures blank { (width height : ℕ) (x y : ℤ) → is_black (blank width height) x y ≡ false }
    ensures set { (plane : Pixels) (x y : ℕ) (a b : ℤ) → x < plane.width → y < plane.height →
        is_black (with_black plane x y) a b ≡ (is_place a b x y || is_black plane a b) }
    ensures painted { (plane shape : Pixels) (left bottom x y : ℤ) →
        is_black (painted plane shape left bottom) x y ≡ (is_black plane x y || (is_inside plane x y && is_black shape (x -ℤ left) (y -ℤ bottom))) }

    // A plane that is made by a test has a pixel for each place, and planes of one size with the same black pixels are
    // the same.
    ensures whole { (width height : ℕ) (test : ℕ → ℕ → Bool) → IsPlane (pixels_where width height test) }
    ensures same { (plane other : Pixels) → IsPlane plane → IsPlane other → plane.width ≡ other.width → plane.height ≡ other.height →
        ((x y : ℤ) → is_black plane x y ≡ is_black other x y) → plane ≡ other }
{}

/// The black pixels are those places of a plane that are black, and a blank plane has none.
pub fn count_laws()
    ensures places { (plane : Pixels) → IsPlane plane →
        black_count plane ≡ count_by (λ n. is_black_at plane (n % plane.width) (n / plane.width)) (range_with_len 0 (plane.width * plane.height)) }
    ensures blank { (width height : ℕ) → black_count (blank width height) ≡ 0 }
    ensures dash { black_count dash ≡ 2 }
{}

/// Painting twice is painting once, the order doesn't matter, a shape without a black pixel changes no pixel, and what
/// is black stays black.
pub fn paint_laws()
    ensures twice { (plane shape : Pixels) (left bottom : ℤ) →
        painted (painted plane shape left bottom) shape left bottom ≡ painted plane shape left bottom }
    ensures any_order { (plane shape other : Pixels) (left bottom right top : ℤ) →
        painted (painted plane shape left bottom) other right top ≡ painted (painted plane other right top) shape left bottom }
    ensures empty_shape { (plane shape : Pixels) (left bottom x y : ℤ) → ((a b : ℤ) → is_black shape a b ≡ false) →
        is_black (painted plane shape left bottom) x y ≡ is_black plane x y }
    ensures black_stays { (plane shape : Pixels) (left bottom x y : ℤ) → is_black plane x y ≡ true →
        is_black (painted plane shape left bottom) x y ≡ true }
{}

/// The ink box is the least and greatest column and row with a black pixel, and lies within the plane.
pub fn ink_laws()
    ensures ends { (plane : Pixels) → IsInkBox plane (ink_box_of plane) }
    ensures inside { (plane : Pixels) → IsWithin plane (ink_box_of plane) }
    ensures none { (plane : Pixels) → ((x y : ℤ) → is_black plane x y ≡ false) → ink_box_of plane ≡ no_ink }
{}

/// Ink boxes of small planes, and that of one with a copy of another.
pub fn worked_boxes()
    ensures dash { ink_box_of dash ≡ record { left = pos 1; right = pos 2; bottom = pos 1; top = pos 1 } }
    ensures corner { ink_box_of corner ≡ record { left = pos 0; right = pos 2; bottom = pos 0; top = pos 2 } }
    ensures post { ink_box_of post ≡ record { left = pos 0; right = pos 0; bottom = pos 2; top = pos 3 } }
    ensures blank { ink_box_of (blank 3 2) ≡ record { left = pos 0; right = negsuc 0; bottom = pos 0; top = negsuc 0 } }
    ensures no_pixel { ink_box_of (blank 0 0) ≡ no_ink }
    ensures copy { ink_box_of copy ≡ record { left = pos 3; right = pos 4; bottom = pos 2; top = pos 2 } }
{}
