ghost use Rattle.std.specs.Prelude.{◌≡◌, ◌<◌, List, [], ◌∷◌, length, IfErr, OnErr, OnOk};
ghost use Rattle.std.specs.List.{slice_get};
ghost use Rattle.schema.specs.declared.scale.Scale.{Scale};
ghost use Rattle.dataset.specs.Records.{Field};
ghost use Rattle.files.specs.Failure.{IsOfWriting};
ghost use Rattle.dataset.specs.Writing.{Adds, Puts, StopsIn};

use files::{FileError, NewRecord, RecordWriter};
use schema::{NoMemory, Scale};
use std::io::Write;

/// A row of a table, with a key. A dataset has one record for it.
pub trait Recorded<K> {
    ghost fields: { K → Self → List Field };

    /// Appends the fields of the record: the table's letter, the key, and the other columns.
    fn put(&self, key: K, out: &mut NewRecord) -> Result<(), NoMemory>
        ensures { OnOk result (Adds (fields key self.now) out.old out.new) };
}

/// A row of a table whose keys are exactly those of the scale.
pub trait Dense<K>: Recorded<K> {
    ghost keys: { Scale → List K };

    /// The key at this index among the keys in ascending order, from 0.
    fn key_at(scale: Scale, place: usize) -> K
        requires { place < length (keys scale) }
        ensures { slice_get (keys scale) place ≡ Some result };
}

/// Writes the record of the row.
pub fn write_row<W: Write, K, T: Recorded<K>>(
    writer: &mut RecordWriter,
    sink: &mut W,
    out: &mut NewRecord,
    key: K,
    row: &T,
) -> Result<(), FileError>
    ensures written { OnOk result
        (Puts (W.contents sink.old) (W.contents sink.new) writer.old.text writer.new.text
        (T.fields key row.now ∷ [])) }
    ensures begun { OnErr result
        (StopsIn (W.contents sink.old) (W.contents sink.new) writer.old.text
        (T.fields key row.now ∷ [])) }
    ensures failed { IfErr result IsOfWriting }
{
    out.clear();
    row.put(key, out)?;
    writer.write(sink, out)
}
