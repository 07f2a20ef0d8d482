//! The shards of all warehouses: built from slices, and taken apart into slices again.
ghost use Rattle.std.specs.Prelude.{◌≡◌, [], All, IfOk, map};
ghost use Rattle.slices.specs.SliceView.{AreSlicesOf, joined};
ghost use Rattle.world.specs.Shards.{IsShardOf, NobodyWaitsIn, slice_of, shard_of};

use crate::flight::Carried;
use commit_log::Names;
use partitions::Catalog;
use schema::{NoMemory, Tables};
use slices::Slice;
use std::alloc::Global;
use transactions::Shard;

// The shards of these slices, in which no action waits.
pub(crate) fn open_shards<J: Names>(
    alloc: Global,
    slices: Vec<Slice<J>>,
) -> Result<Vec<Shard<J, Carried<J>>>, NoMemory>
    requires { All NobodyWaitsIn slices.items }
    ensures made { IfOk result (λ shards. shards.items ≡ map shard_of slices.items) }
    ensures shards { IfOk result (λ shards. All (IsShardOf J.warehouses) shards.items) }
{
    let mut shards = Vec::with_capacity(alloc, slices.len())?;
    for slice in slices {
        let shard = Shard::new(alloc, slice);
        let _ = shard.slice();
        shards.push(shard)?;
    }
    Ok(shards)
}

// The slices of these shards. Rows are moved, not copied.
pub(crate) fn into_slices<J: Names>(
    shards: Vec<Shard<J, Carried<J>>>,
) -> Result<Vec<Slice<J>>, NoMemory>
    ensures { IfOk result (λ slices. slices.items ≡ map slice_of shards.items) }
{
    let mut slices = Vec::with_capacity(*shards.allocator(), shards.len())?;
    for shard in shards {
        slices.push(shard.into_slice())?;
    }
    Ok(slices)
}

// Tables equal to those that the slices make together. The shards are unchanged. After an error nothing new is left.
pub(crate) fn copy_whole<J: Names>(
    alloc: Global,
    catalog: &Catalog,
    shards: &[Shard<J, Carried<J>>],
) -> Result<Tables, NoMemory>
    requires { AreSlicesOf catalog.now (map slice_of shards.now) }
    ensures { IfOk result (λ tables.
        tables ≡ (joined catalog.now (map slice_of shards.now)).tables) }
{
    let mut parts = Vec::with_capacity(alloc, shards.len())?;
    for shard in shards {
        parts.push(shard.slice().partition().try_clone()?)?;
    }
    partitions::whole(catalog.share()?, parts)
}
