use commit_log::Names;
use std::marker::Brand;

/// Identifies the scripts that are served, beside the tables on which all messages in flight agree. All that serves the scripts
/// has it as a type parameter. Ghost data only: the call that serves the scripts picks it.
pub trait ServeNames: Names {
    ghost use Rattle.std.specs.Prelude.{List};
    ghost use Rattle.atomic_table.specs.Seated.{TableId};
    ghost use Rattle.requests.specs.declared.script.Part.{Part};

    /// The scripts, by the numbers of their sessions.
    ghost scripts: { List (List Part) };
    /// The table of the word by which the engine is closed.
    ghost closing: { TableId };
}

impl ServeNames for Brand {
    ghost use Rattle.std.specs.Prelude.{[]};
    ghost use Rattle.commit_log.specs.NoTables.{no_table};

    ghost scripts = { [] };

    ghost closing = { no_table };
}
