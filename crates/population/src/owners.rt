ghost use Rattle.std.specs.Prelude.{◌≡◌, IfOk};
ghost use Rattle.std.specs.List.{range_with_len};
ghost use Rattle.std.specs.List.Sorted.{IsPermutation};

use crate::draws::Draws;
use schema::NoMemory;
use std::alloc::Global;

/// Returns the customer of each order of a district: the numbers from 1 to `count`, shuffled.
pub(crate) fn owners(alloc: Global, draws: &mut Draws, count: u32) -> Result<Vec<u32>, NoMemory>
    ensures { IfOk result (λ owners. IsPermutation (range_with_len 1 count) owners.items) }
{
    let mut owners = numbers(alloc, count)?;
    draws.shuffle(owners.as_mut_slice());
    Ok(owners)
}

// Returns the numbers from 1 to `count`, in order.
fn numbers(alloc: Global, count: u32) -> Result<Vec<u32>, NoMemory>
    ensures { IfOk result (λ numbers. numbers.items ≡ range_with_len 1 count) }
{
    let mut numbers = Vec::new(alloc);
    for place in 0..count {
        numbers.push(place + 1)?;
    }
    Ok(numbers)
}
