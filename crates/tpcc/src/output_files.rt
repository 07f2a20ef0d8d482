ghost use Rattle.std.specs.Prelude.{◌≡◌, ℕ, List, Option, OnOk, OnErr};
ghost use Rattle.tpcc.specs.OutputFiles.{Shelves};

use std::io;
use std::io::Write;

/// Gives files their names once they are whole.
pub trait OutputFiles<F: Write> {
    // The contents of the files that were named here, in order, where that is known.
    ghost named: { Self → Option (List (Option (List ℕ))) };

    /// Brings all of the file to the disk.
    fn settle(&mut self, file: &mut F) -> io::Result<()>
        ensures same { named self.new ≡ named self.old }
        ensures text { F.contents file.new ≡ F.contents file.old };

    /// Gives the file its own name and replaces what had that name. After an error the file is removed, and the
    /// name is as it was.
    fn give_name(&mut self, file: F) -> io::Result<()>
        ensures ok { OnOk result (Shelves (named self.old) (named self.new) (F.contents file)) }
        ensures err { OnErr result (named self.new ≡ named self.old) };

    /// Leaves the file under its other name.
    fn leave(&mut self, file: F)
        ensures { named self.new ≡ named self.old };
}
