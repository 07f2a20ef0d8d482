//! An output file is written beside its path under another name, and gets its own name once it is whole. So what
//! had the name before stays as it was if the program ends earlier.
ghost use Rattle.std.specs.Prelude.{None};

use crate::command_fault::CommandFault;
use crate::other_name::other_name;
use crate::output_files::OutputFiles;
use crate::progress::Meter;
use crate::trouble::Trouble;
use std::fs::{OpenFile, OpenOptions, Permissions};
use std::io::{ErrorKind, Stderr, Write};
use std::rt::Files;
use std::{fs, io};

// How many other names are tried. Some may be left from runs that were interrupted.
const MOST_NAMES: u32 = 10_000;

/// A file that is being written. It is removed if it is dropped before it has its name or is left.
pub struct NewFile<'a, R: Files> {
    rt: &'a R,
    file: R::File,
    // None if it is written in place, or stays under the name that it has.
    names: Option<Names>,
    meter: Meter<'a, Stderr>,
    trouble: &'a Trouble,
}

// The other name, under which the file is written, that name's number, and the file's own name.
#[derive(Debug, Drop)]
struct Names {
    other: String,
    number: u32,
    own: String,
}

impl<R: Files> Drop for NewFile<'_, R> {
    fn drop(self) {
        let NewFile {
            rt,
            file: _,
            names,
            meter: _,
            trouble: _,
        } = self;
        if let Some(names) = names {
            let _ = fs::remove_file(rt, names.other.as_str());
        }
    }
}

impl<R: Files> Write for NewFile<'_, R> {
    fn write(&mut self, buf: &[u8]) -> io::Result<usize> {
        match self.file.write(buf) {
            Ok(count) => {
                self.meter.count(count as u64);
                Ok(count)
            }
            Err(error) => {
                self.trouble.note(&error);
                Err(error)
            }
        }
    }

    fn flush(&mut self) -> io::Result<()> {
        self.file.flush()
    }
}

/// Names files in the folders where they were made.
#[derive(Clone, Copy, Debug)]
pub struct Folders;

impl<'a, R: Files> OutputFiles<NewFile<'a, R>> for Folders {
    ghost named = { λ _. None };

    fn settle(&mut self, file: &mut NewFile<'a, R>) -> io::Result<()> {
        file.meter.end();
        if file.names.is_none() {
            return Ok(());
        }
        match file.file.sync_all() {
            Ok(()) => Ok(()),
            Err(error) => {
                file.trouble.note(&error);
                Err(error)
            }
        }
    }

    fn give_name(&mut self, mut file: NewFile<'a, R>) -> io::Result<()> {
        let Some(names) = &file.names else {
            return Ok(());
        };
        match fs::rename(file.rt, names.other.as_str(), names.own.as_str()) {
            Ok(()) => {
                file.names = None;
                Ok(())
            }
            Err(error) => {
                file.trouble.note(&error);
                Err(error)
            }
        }
    }

    fn leave(&mut self, mut file: NewFile<'a, R>) {
        if let Some(names) = &file.names {
            file.trouble.note_left(names.number);
        }
        file.names = None;
    }
}

/// Makes an output file for that path, beside it and under another name. A file that has the path already has to
/// be writable, and stays as it is. A link is followed. A device, a pipe or anything else that is not a plain file
/// is opened and written in place.
pub fn make<'a, R: Files + AllocGlobal>(
    rt: &'a R,
    path: &'a str,
    terminal: Option<Stderr>,
    trouble: &'a Trouble,
) -> Result<NewFile<'a, R>, CommandFault<'a>> {
    let (file, names) = match fs::metadata(rt, path) {
        Ok(there) if !there.is_file() => (trouble.opened(path, fs::create(rt, path))?, None),
        Ok(there) => {
            let mut options = OpenOptions::new();
            options.write(true);
            trouble.opened(path, options.open(rt, path))?;
            let own = trouble
                .opened(path, fs::canonicalize(rt, path))?
                .into_string();
            make_beside(rt, path, own, Some(there.permissions()), trouble)?
        }
        Err(error) if error.kind() == ErrorKind::NotFound && !path.is_empty() => {
            let own = String::from_str(rt.alloc(), path)?;
            make_beside(rt, path, own, None, trouble)?
        }
        Err(error) => return Err(trouble.not_opened(path, &error)),
    };
    Ok(NewFile {
        rt,
        file,
        names,
        meter: Meter::new(path, "written", terminal),
        trouble,
    })
}

// Makes a file beside the name `own`. `permissions` are those of the file that has this name, if there is one; the
// new file gets them.
fn make_beside<'a, R: Files + AllocGlobal>(
    rt: &R,
    path: &'a str,
    own: String,
    permissions: Option<Permissions>,
    trouble: &Trouble,
) -> Result<(R::File, Option<Names>), CommandFault<'a>> {
    let mut options = OpenOptions::new();
    options.write(true);
    options.create_new(true);
    for number in 0..MOST_NAMES {
        let other = other_name(rt.alloc(), own.as_str(), number)?;
        match options.open(rt, other.as_str()) {
            Ok(file) => {
                // If they can't be set, the file keeps those of a new file.
                if let Some(permissions) = permissions {
                    let _ = file.set_permissions(permissions);
                }
                let names = Names { other, number, own };
                return Ok((file, Some(names)));
            }
            Err(error) if error.kind() == ErrorKind::AlreadyExists => {}
            Err(error) => return Err(trouble.not_opened(path, &error)),
        }
    }
    Err(CommandFault::not_opened(path))
}
