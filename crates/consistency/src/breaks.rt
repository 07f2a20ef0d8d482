ghost use Rattle.std.specs.Prelude.{IfOk, MatchOption};
ghost use Rattle.schema.specs.Consistency.{Consistent};
ghost use Rattle.consistency.specs.Broken.{BreaksFirst};

use crate::check;
use schema::{NoMemory, Tables};
use std::alloc::Global;

// The index of condition 11, which applies to fresh tables only.
const FRESH_ORDERS: usize = 10;

/// The lowest of the consistency conditions 1 to 10 and 12 that the tables break (TPC-C 5.11, clause
/// 3.3.2), or `None` if they meet all of them. Returns `NoMemory` if an allocation fails.
pub fn first_broken(alloc: Global, tables: &Tables) -> Result<Option<u8>, NoMemory>
    ensures { IfOk result
        (λ broken. MatchOption broken (Consistent tables.now) (λ n. BreaksFirst tables.now n)) }
{
    let answers = check(alloc, tables)?;
    for (place, holds) in answers.iter().enumerate() {
        if !*holds && place != FRESH_ORDERS {
            return Ok(Some(place as u8 + 1));
        }
    }
    Ok(None)
}
