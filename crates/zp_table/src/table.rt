//! State tables.
ghost use Rattle.std.specs.Prelude.{◌≡◌, ◌<◌, ◌≤◌, IfOk, Some, None, Err, length, IsTrue};
ghost use Rattle.zp_table.specs.Listing.{djvu_rows, flat_rows};
ghost use Rattle.zp_table.specs.Rows.{IsTable, is_row, row_at};
ghost use Rattle.zp_table.specs.Reading.{rows_in, fault_of};
ghost use Rattle.zp_table.specs.declared.faults.TableFault.{TableFault};

use crate::faults::TableError;
use crate::listing::{DJVU, FLAT};
use crate::reading::{fault_of_length, first_fault, rows_in};
use crate::rows::Row;
use std::alloc::{AllocError, Global};
use std::marker::Model;

/// A state table: 1 to 256 rows, each of which leads to rows of the table. Contracts see it as the list of its rows.
#[derive(Debug, Drop)]
pub struct Table {
    rows: Vec<Row>,
}

impl Model for Table {
    ghost use Rattle.std.specs.Prelude.{List};
    ghost use Rattle.zp_table.specs.declared.rows.Row.{Row};
    ghost use Rattle.zp_table.specs.Rows.{IsTable};

    ghost Value = { List Row };

    ghost view = { λ a. a.rows.items };

    ghost invariant = { λ a. IsTable a.rows.items };
}

impl Table {
    /// The table of 251 rows that DjVu files are written with, after the DjVu 3 reference's default table.
    pub fn djvu(alloc: Global) -> Result<Table, AllocError>
        ensures { IfOk result (λ table. table ≡ djvu_rows) }
    {
        let rows = Vec::from_slice(alloc, DJVU.as_slice())?;
        Ok(Table { rows })
    }

    /// The table of one row, with which each decision is one bit of the input, inverted.
    pub fn flat(alloc: Global) -> Result<Table, AllocError>
        ensures { IfOk result (λ table. table ≡ flat_rows) }
    {
        let rows = Vec::from_slice(alloc, FLAT.as_slice())?;
        Ok(Table { rows })
    }

    /// The table whose rows these bytes are: six bytes a row, p and m with the high byte first, then up and dn. A
    /// refusal tells the first check that fails: no bytes, more than 1,536, a row that isn't whole, and then row by
    /// row p, up and dn.
    pub fn read(alloc: Global, bytes: &[u8]) -> Result<Table, TableError>
        ensures accepted { IfOk result (λ _. fault_of bytes.now ≡ None) }
        ensures rows { IfOk result (λ table. table ≡ rows_in bytes.now) }
        ensures refused { (fault : TableFault) → result ≡ Err (TableError.Refused fault) → fault_of bytes.now ≡ Some fault }
    {
        if let Some(fault) = fault_of_length(bytes.len()) {
            return Err(TableError::Refused(fault));
        }
        let rows = rows_in(alloc, bytes).map_err(|_| TableError::OutOfMemory)?;
        match first_fault(rows.as_slice()) {
            Some(fault) => Err(TableError::Refused(fault)),
            None => Ok(Table { rows }),
        }
    }

    /// The number of rows, from 1 to 256.
    pub fn len(&self) -> u16
        ensures len { result ≡ length self.now }
        ensures some { 0 < result }
        ensures most { result ≤ 256 }
        ensures table { IsTable self.now }
    {
        self.rows.len() as u16
    }

    /// The row of a state.
    pub fn row(&self, state: u8) -> Row
        requires { state < length self.now }
        ensures row { result ≡ row_at self.now state }
        ensures valid { IsTrue (is_row (length self.now) result) }
        ensures table { IsTable self.now }
    {
        self.rows[usize::from(state)]
    }
}
