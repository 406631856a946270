//! Notices and turns of pages.

use djvu_base::{Notice, Raster, Share, Turn};
use std::test::Fail;

#[test]
fn a_notice_is_shared(rt: HostRuntime) -> Result<(), Fail> {
    let raster = Raster::new(1, 1, vec![in rt.alloc(); 1u8, 2, 3]?);
    let notice = Notice::new(rt.alloc(), 4, 6, raster)?;
    let copy = notice.share()?;
    assert_eq!(rt; (notice.chunks(), notice.sum()), (4, 6));
    assert_eq!(rt; (copy.chunks(), copy.sum()), (4, 6));
    assert_eq!(rt; copy.preview().samples(), [1u8, 2, 3].as_slice());
    Ok(())
}

#[test]
fn flags_turn_a_page(rt: HostRuntime) -> Result<(), Fail> {
    assert!(rt; Turn::of(Some(5)) == Turn::Right);
    assert!(rt; Turn::of(Some(2)) == Turn::Over);
    assert!(rt; Turn::of(Some(6)) == Turn::Left);
    assert!(rt; Turn::of(Some(1)) == Turn::Upright && Turn::of(None) == Turn::Upright);
    Ok(())
}
