//! Values that threads will hold or share.

use bit_plane::Plane;
use djvu_base::Turn;
use jb2_numbers::NumberContexts;
use jb2_records::{DictReader, Dictionary, MaskReader};
use jb2_shapes::ShapeContexts;
use layer_compose::Layers;
use std::alloc::{AllocError, Global};
use std::process::Abort;
use std::sync::Arc;
use std::test::Fail;
use zp_decoder::ZpDecoder;
use zp_table::Table;

/// A value that another thread may take.
fn may_go<T: Send + Drop>(_value: T) {}

/// A value that several threads may look at.
fn may_be_shared<T: Sync>(_value: &T) {}

/// Makes one value of each type, and hands it on as to another thread.
fn hand_on(alloc: Global) -> Result<(), AllocError> {
    let table = Arc::new(alloc, Table::flat(alloc)?)?;
    may_be_shared(&*table);
    may_go(ZpDecoder::new(Arc::try_clone(&table)?));
    may_go(NumberContexts::new(alloc));
    may_go(ShapeContexts::new(alloc)?);
    may_go(DictReader::new(alloc, Arc::try_clone(&table)?, None)?);
    may_go(MaskReader::new(alloc, table, None, 3, 2)?);
    let plane = Plane::new(alloc, 3, 2)?;
    may_be_shared(&plane);
    may_go(plane);
    let layers = Layers {
        width: 3,
        height: 2,
        turn: Turn::Upright,
        mask: None,
        front: None,
        back: None,
    };
    may_be_shared(&layers);
    may_go(layers);
    Ok(())
}

/// Several threads may look at a dictionary.
fn share_dictionary(dictionary: Option<&Dictionary>) {
    if let Some(dictionary) = dictionary {
        may_be_shared(dictionary);
    }
}

#[test]
fn values_go_to_threads(rt: HostRuntime) -> Result<(), Fail> {
    hand_on(rt.alloc())?;
    share_dictionary(None);
    Ok(())
}
