ghost use Rattle.std.specs.Prelude.{◌≡◌, ◌⊎◌, ◌≤◌, length, IfOk, IfErr, OnOk, OnErr};
ghost use Rattle.dataset.specs.FirstFault.{first_fault};
ghost use Rattle.tpcc.specs.Effects.{change, source_of};
ghost use Rattle.tpcc.specs.Faults.{IsFirst, IsOfReading, IsOfWritingOneOf};
ghost use Rattle.tpcc.specs.Script.{GivesScale, IsNoWarehouse, IsOfMaking, MakesAll, MakesSome, NamesFirstScripts, NamesScripts, ScriptEnds, IsWorkload, script_streams};
ghost use Rattle.command_line.specs.Settings.{HasFiles};

use crate::command_fault::CommandFault;
use crate::output_files::OutputFiles;
use crate::report::Report;
use crate::streams::write_requests;
use command_line::{ScriptSettings, Status};
use dataset::read_scale;
use files::Input;
use rows::SESSIONS;
use schema::Scale;
use std::alloc::Global;
use std::io::Write;
use workload::{Workload, draw_script};

/// Draws a script for each session, at the scale in the header of `data`, writes them one after the other to `files`,
/// each of which then gets its name on `output_files`, and returns the exit status. A fault is reported to `errors`: of
/// a file, a home warehouse that is not in the scale, or out of memory. A prefix of the files may have their names then.
pub fn script_over<D: Input + Drop, T: Write + Drop, N: OutputFiles<T>, E: Report>(
    alloc: Global,
    settings: &ScriptSettings,
    data: D,
    files: Vec<T>,
    output_files: &mut N,
    errors: &mut E,
) -> Status
    requires settings { HasFiles settings.now }
    requires files { length files.items ≡ length settings.now.files.items }
    ensures { ScriptEnds T.contents settings.entry.now
        (script_streams (source_of D.remaining D.lasts «data») files.items)
        (change N.named output_files.old output_files.new)
        (change E.reported errors.old errors.new) result }
{
    match make(alloc, settings, data, files, output_files) {
        Ok(()) => Status::Success,
        Err(fault) => errors.report(fault),
    }
}

// Reads the scale, draws the scripts at it, and gives their files their names.
fn make<'a, D: Input + Drop, T: Write + Drop, N: OutputFiles<T>>(
    alloc: Global,
    settings: &ScriptSettings<'a>,
    data: D,
    files: Vec<T>,
    output_files: &mut N,
) -> Result<(), CommandFault<'a>>
    requires settings { HasFiles settings.now }
    requires files { length files.items ≡ length settings.now.files.items }
    ensures all { OnOk result (MakesAll T.contents settings.entry.now (D.remaining «data»)
        files.items (change N.named output_files.old output_files.new)) }
    ensures some { OnErr result (MakesSome T.contents settings.entry.now (D.remaining «data»)
        files.items (change N.named output_files.old output_files.new)) }
    ensures fault { IfErr result
        (IsOfMaking settings.entry.now (source_of D.remaining D.lasts «data»)) }
{
    let scale = read_header(alloc, settings.data, data)?;
    let workload = match workload(settings, scale) {
        Ok(workload) => workload,
        Err(fault) => return Err(fault),
    };
    write_scripts(alloc, &settings.files, &workload, files, output_files)
}

// Reads the scale of the dataset of that path.
fn read_header<'a, D: Input + Drop>(
    alloc: Global,
    path: &'a str,
    data: D,
) -> Result<Scale, CommandFault<'a>>
    ensures scale { IfOk result (GivesScale (D.remaining «data»)) }
    ensures fault { IfErr result
        (IsOfReading path.now (D.remaining «data») (D.lasts «data») (IsFirst first_fault)) }
{
    match read_scale(alloc, data) {
        Ok(scale) => Ok(scale),
        Err(error) => Err(CommandFault::of_file(path, error)),
    }
}

// The workload that the settings ask for, at this scale.
fn workload<'a>(settings: &ScriptSettings<'a>, scale: Scale) -> Result<Workload, CommandFault<'a>>
    ensures value { IfOk result (IsWorkload settings.entry.now scale) }
    ensures fault { IfErr result (IsNoWarehouse settings.entry.now.home scale) }
{
    if let Some(home) = settings.home {
        if !scale.has_warehouse(home) {
            return Err(CommandFault::NoWarehouse(home));
        }
    }
    Ok(Workload {
        scale,
        home: settings.home,
        remote: settings.remote,
        mix: settings.mix,
        start: settings.start,
        seed: settings.seed,
        requests: settings.requests,
    })
}

// Draws the script of each session and writes it to its file, which then gets its name.
fn write_scripts<'a, T: Write + Drop, N: OutputFiles<T>>(
    alloc: Global,
    paths: &[&'a str],
    workload: &Workload,
    mut files: Vec<T>,
    output_files: &mut N,
) -> Result<(), CommandFault<'a>>
    requires few { length paths.now ≤ SESSIONS }
    requires files { length files.items ≡ length paths.now }
    ensures all { OnOk result (NamesScripts T.contents workload.now 0 files.items
        (N.named output_files.old) (N.named output_files.new)) }
    ensures some { OnErr result (NamesFirstScripts T.contents workload.now files.items
        (N.named output_files.old) (N.named output_files.new)) }
    ensures fault { IfErr result
        (λ fault. (fault ≡ CommandFault.NoMemory) ⊎ IsOfWritingOneOf paths.now fault) }
{
    for (session, path) in paths.iter().enumerate() {
        let file = files.remove(0);
        let asked = draw_script(alloc, workload, session as u32)?;
        write_requests(alloc, path, file, asked.as_slice(), output_files)?;
    }
    Ok(())
}
