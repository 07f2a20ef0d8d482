//! The files that commands read and write.
ghost use Rattle.std.specs.Prelude.{◌≡◌, is_some, IfOk};

use crate::command_fault::CommandFault;
use crate::output::{NewFile, make};
use crate::progress::{Meter, ProgressReader};
use crate::trouble::Trouble;
use files::Reader;
use std::fs;
use std::io::{IsTerminal, Stderr};
use std::rt::Files;

/// Opens and makes files whose reading and writing is shown on a terminal.
#[derive(Drop)]
pub struct Opener<'a, R> {
    pub rt: &'a R,
    /// None if there is no terminal, or progress is not to be shown.
    pub terminal: Option<Stderr>,
    pub trouble: &'a Trouble,
}

/// A file that is read, with its progress on a terminal.
pub type Watched<'a, F> = ProgressReader<'a, Reader<F>, Stderr>;

impl<'a, R: Files + AllocGlobal> Opener<'a, R> {
    /// An opener of the files of `rt`. Progress is shown on the standard error if that is a terminal, unless `quiet`.
    pub fn new(rt: &'a R, stderr: Stderr, quiet: bool, trouble: &'a Trouble) -> Self {
        let terminal = if !quiet && stderr.is_terminal() {
            Some(stderr)
        } else {
            None
        };
        Opener {
            rt,
            terminal,
            trouble,
        }
    }

    /// Opens an input file.
    pub fn open(&self, path: &'a str) -> Result<Watched<'a, R::File>, CommandFault<'a>> {
        let source = self.trouble.opened(path, fs::open(self.rt, path))?;
        let meter = Meter::new(path, "read", self.terminal);
        Ok(ProgressReader::new(Reader { source }, meter, self.trouble))
    }

    /// Opens an input file, if there is a path.
    pub fn open_some(
        &self,
        path: Option<&'a str>,
    ) -> Result<Option<Watched<'a, R::File>>, CommandFault<'a>>
        ensures { IfOk result (λ file. is_some file ≡ is_some path.entry) }
    {
        match path {
            Some(path) => Ok(Some(self.open(path)?)),
            None => Ok(None),
        }
    }

    /// Makes an output file, if there is a path.
    pub fn make(&self, path: Option<&'a str>) -> Result<Option<NewFile<'a, R>>, CommandFault<'a>>
        ensures { IfOk result (λ file. is_some file ≡ is_some path.entry) }
    {
        match path {
            Some(path) => Ok(Some(make(self.rt, path, self.terminal, self.trouble)?)),
            None => Ok(None),
        }
    }
}
