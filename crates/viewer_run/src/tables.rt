//! The state table by which the pages of a run are drawn.
ghost use Rattle.std.specs.Prelude.{◌≡◌, Some, IfOk, take};
ghost use Rattle.std.specs.Arc.{arc_value};
ghost use Rattle.djvu_base.specs.Library.{Files, library_of, file_limit};
ghost use Rattle.djvu_outside.specs.Reading.{HasFile, bytes_in};
ghost use Rattle.djvu_outside.specs.Parts.{FolderStops};
ghost use Rattle.viewer_run.specs.Plan.{table_of, table_in};
ghost use Rattle.viewer_run.specs.Start.{Starts, CanRead};

use djvu_base::Name;
use djvu_outside::{Folder, Stop, read_file};
use std::alloc::{AllocError, Global};
use std::marker::Model;
use std::sync::Arc;
use viewer_words::TableChoice;
use zp_table::{Table, TableError, TableFault};

/// A state table that all pages of a run share. Contracts see it as the list of its rows.
#[derive(Debug, Drop)]
pub struct SharedTable {
    table: Arc<Table>,
}

impl Model for SharedTable {
    ghost use Rattle.std.specs.Prelude.{List};
    ghost use Rattle.std.specs.Arc.{arc_value};
    ghost use Rattle.zp_table.specs.declared.rows.Row.{Row};

    ghost Value = { List Row };

    ghost view = { λ a. arc_value a.table };
}

impl SharedTable {
    /// A table, to be shared.
    fn new(alloc: Global, table: Table) -> Result<SharedTable, AllocError>
        ensures { IfOk result (λ shared. shared ≡ table) }
    {
        let table = Arc::new(alloc, table)?;
        Ok(SharedTable { table })
    }

    /// A share of the table.
    pub fn share(&self) -> Result<Arc<Table>, AllocError>
        ensures { IfOk result (λ share. arc_value share ≡ self.now) }
    {
        Arc::try_clone(&self.table)
    }
}

/// The table of this choice, or what is wrong with its file. Where it is a file's, that is read.
pub fn choose_table<F: Folder>(
    alloc: Global,
    choice: &TableChoice,
    folder: &mut F,
) -> Result<Result<SharedTable, TableFault>, Stop>
    requires { (told : Files) → F.files folder.old ≡ Some told → CanRead told choice.now }
    ensures told { (told : Files) → F.files folder.old ≡ Some told → IfOk result (λ table. table ≡ table_of (library_of told) choice.now) }
    ensures failure { (told : Files) → F.files folder.old ≡ Some told → Starts result choice.now (F.failures folder.old) (F.failures folder.new) }
    ensures stops { FolderStops result (F.faults folder.old) (F.faults folder.new) }
    ensures same_files { F.files folder.new ≡ F.files folder.old }
{
    match choice {
        TableChoice::Djvu => Ok(Ok(SharedTable::new(alloc, Table::djvu(alloc)?)?)),
        TableChoice::Flat => Ok(Ok(SharedTable::new(alloc, Table::flat(alloc)?)?)),
        TableChoice::File(name) => read_table(alloc, name, folder),
    }
}

/// The table in the file of this name, or what is wrong with it.
fn read_table<F: Folder>(
    alloc: Global,
    name: &Name,
    folder: &mut F,
) -> Result<Result<SharedTable, TableFault>, Stop>
    requires { (told : Files) → F.files folder.old ≡ Some told → HasFile told name.now }
    ensures told { (told : Files) → F.files folder.old ≡ Some told → IfOk result (λ table. table ≡ table_in (take file_limit (bytes_in told name.now))) }
    ensures failure { (told : Files) → F.files folder.old ≡ Some told
        → Starts result (TableChoice.File name.now) (F.failures folder.old) (F.failures folder.new) }
    ensures stops { FolderStops result (F.faults folder.old) (F.faults folder.new) }
    ensures same_files { F.files folder.new ≡ F.files folder.old }
{
    let file = read_file(alloc, folder, name)?;
    if file.is_broken() {
        return Err(Stop::Folder);
    }
    match Table::read(alloc, file.bytes.as_slice()) {
        Ok(table) => Ok(Ok(SharedTable::new(alloc, table)?)),
        Err(TableError::Refused(fault)) => Ok(Err(fault)),
        Err(TableError::OutOfMemory) => Err(Stop::Memory),
    }
}
