//! The formats of the files that a command reads.

use crate::meaning::listings::{end, entry, move_order, scheduled, terminal_request};
use crate::meaning::search::Search;
use crate::meaning::tables::{Tables, header, key_names};
use files::{FaultKind, Fields};

/// The format of a file.
#[derive(Clone, Copy, Debug, PartialEq, Eq)]
pub enum Format {
    Dataset,
    Script,
    Moves,
    Schedule,
    Log,
}

/// The formats of the files that a command reads, by their paths.
#[derive(Clone, Copy, Debug)]
pub struct Inputs<'a> {
    /// The path of the dataset.
    pub data: &'a str,
    pub moves: Option<&'a str>,
    /// The format of all other files.
    pub others: Format,
}

impl Inputs<'_> {
    /// No files.
    pub fn none() -> Inputs<'static> {
        Inputs::dataset("")
    }

    /// A dataset only.
    pub fn dataset(data: &str) -> Inputs<'_> {
        Inputs {
            data,
            moves: None,
            others: Format::Dataset,
        }
    }

    /// The format of the file of that path.
    pub fn format(&self, path: &str) -> Format {
        if path == self.data {
            Format::Dataset
        } else if self.moves == Some(path) {
            Format::Moves
        } else {
            self.others
        }
    }
}

/// What the check of a faulty record needs of the records before it.
#[derive(Clone, Copy, Debug)]
pub struct Before {
    format: Format,
    // How many records there are.
    count: u64,
    // What is needed of a dataset.
    tables: Tables,
}

impl Before {
    /// No records, of a file of that format.
    pub fn new(format: Format) -> Before {
        Before {
            format,
            count: 0,
            tables: Tables::new(),
        }
    }

    /// Takes the next record, which has no fault.
    pub fn pass(&mut self, fields: Fields<'_>) {
        self.count = self.count.saturating_add(1);
        if self.format == Format::Dataset {
            self.tables.pass(fields);
        }
    }

    /// Searches the fields of the next record, whose first field is that word.
    pub fn search(&self, search: &mut Search<'_>, first: &str) {
        match self.format {
            Format::Dataset if self.count == 0 => header(search),
            Format::Dataset => self.tables.search(search, first),
            _ if first == "END" => end(search, self.count),
            Format::Script => terminal_request(search),
            Format::Moves => move_order(search),
            Format::Schedule => scheduled(search),
            Format::Log => entry(search, self.count),
        }
    }

    /// The names of the key fields of a record that is out of order, if it is a row of a dataset.
    pub fn key_names(&self, kind: FaultKind, first: &str) -> Option<&'static str> {
        if self.format == Format::Dataset && kind == FaultKind::OutOfOrder {
            key_names(first)
        } else {
            None
        }
    }
}
