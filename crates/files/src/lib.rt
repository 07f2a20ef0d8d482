//! The common format of the program's files: CSV without a header row, with records of different
//! lengths. A fault has a kind and the number of its record.
#![tactic(auto)]

mod fault;
mod fields;
mod input;
mod line;
mod marks;
mod moment;
mod new_record;
mod numbers;
mod record_writer;
mod records;
mod sending;
mod source;
mod span;
mod stop;
mod unquoted;
mod window;
mod words;

pub use fault::{FaultKind, FileError, FileFault};
pub use fields::Fields;
pub use input::{Input, Reader};
pub use moment::{moment_text, parse_moment};
pub use new_record::NewRecord;
pub use numbers::{parse_cents, parse_whole};
pub use record_writer::RecordWriter;
pub use records::Records;
pub use sending::send;
pub use words::{credit_word, parse_credit, parse_text};
