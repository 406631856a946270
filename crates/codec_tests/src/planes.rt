//! Planes of pixels: painting at every offset, and their size and ink.
ghost use Rattle.std.specs.Prelude.{◌*◌, ◌≤◌};
ghost use Rattle.bit_plane.specs.Pixels.{area_limit};

use bit_plane::{InkBox, Plane};
use std::alloc::{AllocError, Global};
use std::process::Abort;
use std::test::Fail;

/// Whether a pixel of the pattern with this step is black.
fn is_speck(x: u32, y: u32, step: Step) -> bool {
    let place = u64::from(x) * 3 + u64::from(y) * 7;
    match step {
        Step::Five => place % 5 < 2,
        Step::Eleven => place % 11 == 0,
    }
}

#[derive(Clone, Copy)]
enum Step {
    Five,
    Eleven,
}

/// A plane with the pattern's pixels.
fn speckled(alloc: Global, width: u32, height: u32, step: Step) -> Result<Plane, AllocError>
    requires { width * height ≤ area_limit }
{
    let mut plane = Plane::new(alloc, width, height)?;
    for y in 0..height {
        for x in 0..width {
            if x < plane.width() && y < plane.height() && is_speck(x, y, step) {
                plane.set(x, y);
            }
        }
    }
    Ok(plane)
}

/// The place of a shape that comes to stand there, if the shape has so many.
fn place_in_shape(at: i64, offset: i64, size: u32) -> Option<u32> {
    let place = at.checked_sub(offset)?;
    if 0 <= place && place < i64::from(size) {
        Some(place as u32)
    } else {
        None
    }
}

/// Whether the shape of 70 by 5, moved there, has a black pixel at a place.
fn is_shape_speck(x: u32, y: u32, left: i64, bottom: i64) -> bool {
    let Some(column) = place_in_shape(i64::from(x), left, 70) else {
        return false;
    };
    let Some(row) = place_in_shape(i64::from(y), bottom, 5) else {
        return false;
    };
    is_speck(column, row, Step::Five)
}

/// Paints the shape there, and looks at each pixel.
fn paint_there(
    rt: &impl Abort,
    alloc: Global,
    shape: &Plane,
    left: i64,
    bottom: i64,
) -> Result<(), AllocError> {
    let mut plane = speckled(alloc, 130, 9, Step::Eleven)?;
    plane.paint(shape, left, bottom);
    for y in 0..9u32 {
        for x in 0..130u32 {
            let wanted = is_speck(x, y, Step::Eleven) || is_shape_speck(x, y, left, bottom);
            assert!(rt;
                plane.get(i64::from(x), i64::from(y)) == wanted,
                "{x} {y} after {left} {bottom}"
            );
        }
    }
    Ok(())
}

#[test]
fn paints_at_every_offset(rt: HostRuntime) -> Result<(), Fail> {
    let shape = speckled(rt.alloc(), 70, 5, Step::Five)?;
    for row in 0..17u32 {
        for column in 0..204u32 {
            paint_there(
                &rt,
                rt.alloc(),
                &shape,
                i64::from(column) - 72,
                i64::from(row) - 6,
            )?;
        }
    }
    for left in [i64::MIN, i64::MIN + 69, i64::MAX - 69, i64::MAX] {
        for bottom in [i64::MIN, 3, i64::MAX] {
            paint_there(&rt, rt.alloc(), &shape, left, bottom)?;
        }
    }
    Ok(())
}

#[test]
fn a_plane_has_its_size_and_pixels(rt: HostRuntime) -> Result<(), Fail> {
    let mut plane = Plane::new(rt.alloc(), 5, 30)?;
    assert_eq!(rt; (plane.width(), plane.height()), (5, 30));
    assert_eq!(rt;
        plane.ink_box(),
        InkBox {
            left: 0,
            right: -1,
            bottom: 0,
            top: -1
        }
    );
    plane.set(3, 20);
    plane.set(1, 7);
    assert!(rt; plane.get(3, 20) && plane.get(1, 7) && !plane.get(3, 7));
    assert!(rt;
        !plane.get(-1, 0) && !plane.get(5, 0) && !plane.get(0, 30) && !plane.get(i64::MIN, i64::MAX)
    );
    assert_eq!(rt;
        plane.ink_box(),
        InkBox {
            left: 1,
            right: 3,
            bottom: 7,
            top: 20
        }
    );
    Ok(())
}

#[test]
fn thin_planes_are_painted(rt: HostRuntime) -> Result<(), Fail> {
    let mut post = Plane::new(rt.alloc(), 1, 65_535)?;
    post.set(0, 65_534);
    let mut wide = Plane::new(rt.alloc(), 200, 2)?;
    wide.paint(&post, 150, -65_533);
    assert_eq!(rt;
        wide.ink_box(),
        InkBox {
            left: 150,
            right: 150,
            bottom: 1,
            top: 1
        }
    );
    let mut none = Plane::new(rt.alloc(), 0, u32::MAX)?;
    none.paint(&wide, 0, 0);
    wide.paint(&none, 0, 0);
    assert_eq!(rt;
        none.ink_box(),
        InkBox {
            left: 0,
            right: -1,
            bottom: 0,
            top: -1
        }
    );
    Ok(())
}
