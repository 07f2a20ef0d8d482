ghost use Rattle.std.specs.Prelude.{◌≡◌, IfErr, OnErr, OnOk};
ghost use Rattle.tpcc.specs.EarlyEnds.{IsOfMigrating};
ghost use Rattle.tpcc.specs.Effects.{change, source_of};
ghost use Rattle.tpcc.specs.Migrate.{MigrateEnds, Migrates, migrate_streams};

use crate::command_fault::CommandFault;
use crate::output_files::OutputFiles;
use crate::report::Report;
use crate::streams::{name_tables, read_tables};
use command_line::{MigrateSettings, Status};
use files::Input;
use std::alloc::Global;
use std::io::Write;
use std::mem;

/// Reads the tables of the dataset `data`, which is of either format, writes them to `file` in format 2, which gets its
/// name on `output_files`, and returns the exit status. Whether the tables are consistent is not asked.
///
/// A fault is reported to `errors`: of a file, or out of memory. The file has not got its name then.
pub fn migrate_over<D: Input + Drop, T: Write + Drop, N: OutputFiles<T>, E: Report>(
    alloc: Global,
    settings: &MigrateSettings,
    data: D,
    file: T,
    output_files: &mut N,
    errors: &mut E,
) -> Status
    ensures { MigrateEnds T.contents settings.entry.now
        (migrate_streams (source_of D.remaining D.lasts «data») file)
        (change N.named output_files.old output_files.new)
        (change E.reported errors.old errors.new) result }
{
    match migrate(alloc, settings, data, file, output_files) {
        Ok(()) => Status::Success,
        Err(fault) => errors.report(fault),
    }
}

// Reads the tables and writes them. After an error the file has not got its name.
fn migrate<'a, D: Input + Drop, T: Write + Drop, N: OutputFiles<T>>(
    alloc: Global,
    settings: &MigrateSettings<'a>,
    data: D,
    file: T,
    output_files: &mut N,
) -> Result<(), CommandFault<'a>>
    ensures migrates { OnOk result (Migrates T.contents
        (migrate_streams (source_of D.remaining D.lasts «data») file)
        (change N.named output_files.old output_files.new)) }
    ensures named { OnErr result (N.named output_files.new ≡ N.named output_files.old) }
    ensures fault { IfErr result
        (IsOfMigrating settings.entry.now (source_of D.remaining D.lasts «data»)) }
{
    let tables = read_tables(alloc, settings.data, data)?;
    name_tables(alloc, settings.file, file, &tables, output_files)?;
    // The end of the process frees all rows at once.
    mem::forget(tables);
    Ok(())
}
