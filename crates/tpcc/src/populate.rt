ghost use Rattle.std.specs.Prelude.{◌≡◌, IfErr, OnOk, OnErr};
ghost use Rattle.tpcc.specs.Effects.{change};
ghost use Rattle.tpcc.specs.Faults.{IsOfWriting};
ghost use Rattle.tpcc.specs.Populate.{Populates, PopulateEnds};

use crate::command_fault::CommandFault;
use crate::output_files::OutputFiles;
use crate::report::Report;
use crate::streams::name_tables;
use command_line::{PopulateSettings, Status};
use population::populate;
use std::alloc::Global;
use std::io::Write;
use std::mem;

/// Makes the initial dataset of the benchmark, writes it to `file`, which gets its name on `output_files`, and returns
/// the exit status. A fault is reported to `errors`: of the file, or out of memory; the file has not got its name then.
pub fn populate_over<T: Write + Drop, N: OutputFiles<T>, E: Report>(
    alloc: Global,
    settings: &PopulateSettings,
    file: T,
    output_files: &mut N,
    errors: &mut E,
) -> Status
    ensures { PopulateEnds T.contents settings.entry.now file
        (change N.named output_files.old output_files.new)
        (change E.reported errors.old errors.new) result }
{
    match make(alloc, settings, file, output_files, errors) {
        Ok(()) => Status::Success,
        Err(fault) => errors.report(fault),
    }
}

// Makes the dataset and writes it. After an error its file has not got its name.
fn make<'a, T: Write + Drop, N: OutputFiles<T>, E: Report>(
    alloc: Global,
    settings: &PopulateSettings<'a>,
    file: T,
    output_files: &mut N,
    errors: &mut E,
) -> Result<(), CommandFault<'a>>
    ensures populates { OnOk result (Populates T.contents settings.entry.now file
        (change N.named output_files.old output_files.new)
        (change E.reported errors.old errors.new)) }
    ensures named { OnErr result (N.named output_files.new ≡ N.named output_files.old) }
    ensures reported { OnErr result (E.reported errors.new ≡ E.reported errors.old) }
    ensures fault { IfErr result (IsOfWriting settings.entry.now.file.now) }
{
    let scale = settings.scale;
    let customers = scale.warehouses as usize * 10 * scale.customers as usize;
    errors.begin("making", customers, "customers, and what belongs to them");
    let tables = populate(alloc, settings.scale, settings.seed, settings.now)?;
    name_tables(alloc, settings.file, file, &tables, output_files)?;
    // The end of the process frees all rows at once.
    mem::forget(tables);
    Ok(())
}
