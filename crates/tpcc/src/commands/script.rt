ghost use Rattle.std.specs.Prelude.{◌≡◌, length, IfOk};
ghost use Rattle.command_line.specs.Settings.{HasFiles};

use crate::command_fault::CommandFault;
use crate::meaning::Inputs;
use crate::opening::{Opener, Watched};
use crate::output::{Folders, NewFile, make};
use crate::report::{FaultReporter, Report};
use crate::script::script_over;
use crate::trouble::Trouble;
use command_line::{ScriptSettings, Status};
use std::io::Stderr;
use std::rt::Files;

/// Opens the command's files, carries it out and returns the exit status.
pub fn carry_out<R: Files + AllocGlobal>(
    rt: &R,
    stderr: Stderr,
    settings: &ScriptSettings,
) -> Status
    requires { HasFiles settings.now }
{
    let trouble = Trouble::new();
    let inputs = Inputs::dataset(settings.data);
    let mut fault_reporter = FaultReporter::new(
        rt,
        stderr,
        settings.quiet,
        false,
        inputs,
        &trouble,
    );
    let opener = Opener::new(rt, stderr, settings.quiet, &trouble);
    match ScriptFiles::open(&opener, settings) {
        Ok(ScriptFiles { data, scripts }) => script_over(
            rt.alloc(),
            settings,
            data,
            scripts,
            &mut Folders,
            &mut fault_reporter,
        ),
        Err(fault) => fault_reporter.report(fault),
    }
}

// The files of the command: the dataset that is read, with its progress on a terminal, and those that are written.
struct ScriptFiles<'a, R: Files> {
    data: Watched<'a, R::File>,
    scripts: Vec<NewFile<'a, R>>,
}

impl<'a, R: Files + AllocGlobal> ScriptFiles<'a, R> {
    fn open(
        opener: &Opener<'a, R>,
        settings: &'a ScriptSettings<'a>,
    ) -> Result<ScriptFiles<'a, R>, CommandFault<'a>>
        ensures { IfOk result
            (λ files. length files.scripts.items ≡ length settings.now.files.items) }
    {
        let data = opener.open(settings.data)?;
        let mut scripts = Vec::new(opener.rt.alloc());
        for path in &settings.files {
            scripts.push(make(opener.rt, path, opener.terminal, opener.trouble)?)?;
        }
        Ok(ScriptFiles { data, scripts })
    }
}
