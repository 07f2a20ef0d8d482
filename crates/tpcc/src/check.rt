ghost use Rattle.std.specs.Prelude.{IfOk, IfErr, OnErr};
ghost use Rattle.tpcc.specs.Check.{Checks, ChecksSome, CheckEnds};
ghost use Rattle.tpcc.specs.EarlyEnds.{IsOfChecking};
ghost use Rattle.tpcc.specs.Effects.{change, source_of};

use crate::command_fault::CommandFault;
use crate::report::Report;
use crate::streams::{print_lines, read_tables};
use crate::verdicts::{any_broken, verdicts};
use command_line::{CheckSettings, Status};
use files::Input;
use std::alloc::Global;
use std::io::Write;
use std::mem;

/// Checks the twelve conditions of consistency (TPC-C 5.11, clause 3.3.2) on the dataset and returns the exit status.
///
/// A line for each condition is printed to `found`: `1 ok` or `1 broken`, and so on to 12. Condition 11 is
/// `11 skipped`, unless the settings say that the dataset is fresh.
///
/// A fault is reported to `errors`: of the file, of printing, or out of memory. A beginning of the lines may have been
/// printed then.
pub fn check_over<D: Input + Drop, A: Write, E: Report>(
    alloc: Global,
    settings: &CheckSettings,
    data: D,
    found: &mut A,
    errors: &mut E,
) -> Status
    ensures { CheckEnds settings.entry.now (source_of D.remaining D.lasts «data»)
        (change A.contents found.old found.new) (change E.reported errors.old errors.new) result }
{
    match check(alloc, settings, data, found) {
        Ok(false) => Status::Success,
        Ok(true) => Status::NotConsistent,
        Err(fault) => errors.report(fault),
    }
}

// Whether a condition that was checked is broken.
fn check<'a, D: Input + Drop, A: Write>(
    alloc: Global,
    settings: &CheckSettings<'a>,
    data: D,
    found: &mut A,
) -> Result<bool, CommandFault<'a>>
    ensures checks { IfOk result (Checks settings.entry.now.fresh (D.remaining «data»)
        (change A.contents found.old found.new)) }
    ensures some { OnErr result (ChecksSome settings.entry.now.fresh (D.remaining «data»)
        (change A.contents found.old found.new)) }
    ensures fault { IfErr result
        (IsOfChecking settings.entry.now (source_of D.remaining D.lasts «data»)) }
{
    let tables = read_tables(alloc, settings.data, data)?;
    let answers = consistency::check(alloc, &tables)?;
    let verdicts = verdicts(alloc, settings.fresh, &answers)?;
    print_lines(alloc, found, verdicts.as_slice())?;
    // The end of the process frees all rows at once.
    mem::forget(tables);
    Ok(any_broken(verdicts.as_slice()))
}
