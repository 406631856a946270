//! State tables: the two built-in ones, and what files of tables are refused for.
use std::alloc::Global;
use std::test::Fail;
use zp_table::{Row, Table, TableError};

/// What these bytes are refused for.
fn refusal(alloc: Global, bytes: &[u8]) -> Option<(u16, &'static str)> {
    match Table::read(alloc, bytes) {
        Ok(_) => None,
        Err(TableError::Refused(fault)) => Some((fault.row, fault.why.word())),
        Err(TableError::OutOfMemory) => Some((0, "out of memory")),
    }
}

#[test]
fn tables_are_made(rt: HostRuntime) -> Result<(), Fail> {
    let djvu = Table::djvu(rt.alloc())?;
    assert_eq!(rt; djvu.len(), 251);
    assert_eq!(rt;
        djvu.row(250),
        Row {
            p: 0x481a,
            m: 0,
            up: 230,
            dn: 246
        }
    );
    let flat = Table::flat(rt.alloc())?;
    assert_eq!(rt; flat.len(), 1);
    assert_eq!(rt;
        flat.row(0),
        Row {
            p: 0x8000,
            m: 0,
            up: 0,
            dn: 0
        }
    );
    Ok(())
}

#[test]
fn tables_are_read(rt: HostRuntime) {
    let Ok(table) = Table::read(
        rt.alloc(),
        &[0x12, 0x34, 0x56, 0x78, 1, 0, 0x80, 0, 0, 1, 1, 1],
    ) else {
        panic!(rt; "two rows are a table");
    };
    assert_eq!(rt; table.len(), 2);
    assert_eq!(rt;
        table.row(0),
        Row {
            p: 0x1234,
            m: 0x5678,
            up: 1,
            dn: 0
        }
    );
    assert_eq!(rt; refusal(rt.alloc(), &[0x80, 0, 0, 0, 0, 0]), None);
    assert_eq!(rt; refusal(rt.alloc(), &[]), Some((0, "empty")));
    assert_eq!(rt; refusal(rt.alloc(), &[0; 1537]), Some((256, "too-many")));
    assert_eq!(rt; refusal(rt.alloc(), &[0; 5]), Some((0, "short")));
    assert_eq!(rt; refusal(rt.alloc(), &[0; 6]), Some((0, "chance")));
    assert_eq!(rt; refusal(rt.alloc(), &[1, 0, 0, 0, 1, 0]), Some((0, "up")));
    assert_eq!(rt; refusal(rt.alloc(), &[1, 0, 0, 0, 0, 1]), Some((0, "down")));
}
