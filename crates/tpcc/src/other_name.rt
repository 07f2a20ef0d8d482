ghost use Rattle.std.specs.Prelude.{◌≡◌, IfOk, string_bytes};
ghost use Rattle.tpcc.specs.OtherName.{other_name_of};

use schema::NoMemory;
use std::alloc::Global;

/// The other name, with this number, of the file of that path, in the same folder: `log.csv.tpcc-0`. Returns NoMemory if
/// an allocation fails.
pub fn other_name(alloc: Global, path: &str, number: u32) -> Result<String, NoMemory>
    ensures { IfOk result (λ name. string_bytes name ≡ other_name_of path.now number) }
{
    format!(in alloc; "{path}.tpcc-{number}")
}
