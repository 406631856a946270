//! Tables out of bytes.
ghost use Rattle.std.specs.Prelude.{◌≡◌, ◌+◌, ◌*◌, ◌<◌, ◌≤◌, ◌++◌, ◌∷◌, ℕ, List, IfOk, length, vec_len};
ghost use Rattle.zp_table.specs.Reading.{rows_in, fault_of_row, first_fault, fault_of_length};

use crate::faults::{TableFault, TableWhy};
use crate::rows::Row;
use byteorder::{BigEndian, ByteOrder};
use std::alloc::{AllocError, Global};

/// The bytes of a row.
const ROW_LEN: usize = 6;

/// The most rows that a table has.
const MOST_ROWS: usize = 256;

/// What a length alone is refused for.
pub(crate) fn fault_of_length(len: usize) -> Option<TableFault>
    ensures { result ≡ fault_of_length len }
{
    if len == 0 {
        Some(TableFault {
            row: 0,
            why: TableWhy::Empty,
        })
    } else if len > MOST_ROWS * ROW_LEN {
        Some(TableFault {
            row: 256,
            why: TableWhy::TooMany,
        })
    } else if len % ROW_LEN == 0 {
        None
    } else {
        Some(TableFault {
            row: (len / ROW_LEN) as u16,
            why: TableWhy::Short,
        })
    }
}

/// All whole rows of these bytes.
pub(crate) fn rows_in(alloc: Global, bytes: &[u8]) -> Result<Vec<Row>, AllocError>
    ensures rows { IfOk result (λ rows. rows.items ≡ rows_in bytes.now) }
    ensures most { IfOk result (λ rows. 6 * vec_len rows ≤ length bytes.now) }
    ensures least { IfOk result (λ rows. length bytes.now < 6 * vec_len rows + 6) }
{
    let mut rows = Vec::new(alloc);
    let mut rest = bytes;
    while rest.len() >= ROW_LEN {
        let (first, others) = rest.split_at(ROW_LEN);
        rows.push(row_of(first))?;
        rest = others;
    }
    Ok(rows)
}

fn row_of(bytes: &[u8]) -> Row
    requires { length bytes.now ≡ 6 }
    ensures { (more : List ℕ) → rows_in (bytes.now ++ more) ≡ result ∷ rows_in more }
{
    Row {
        p: BigEndian::read_u16(bytes),
        m: BigEndian::read_u16(&bytes[2..]),
        up: bytes[4],
        dn: bytes[5],
    }
}

/// The first row that no table of so many rows has, and what is wrong with it.
pub(crate) fn first_fault(rows: &[Row]) -> Option<TableFault>
    requires { length rows.now ≤ 256 }
    ensures { result ≡ first_fault (length rows.now) 0 rows.now }
{
    let mut number = 0;
    for row in rows {
        if let Some(why) = fault_of_row(rows.len(), *row) {
            return Some(TableFault { row: number, why });
        }
        number += 1;
    }
    None
}

fn fault_of_row(count: usize, row: Row) -> Option<TableWhy>
    ensures { result ≡ fault_of_row count row }
{
    if row.p == 0 || row.p > 0x8000 {
        Some(TableWhy::Chance)
    } else if usize::from(row.up) >= count {
        Some(TableWhy::Up)
    } else if usize::from(row.dn) >= count {
        Some(TableWhy::Down)
    } else {
        None
    }
}
