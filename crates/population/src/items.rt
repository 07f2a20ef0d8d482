ghost use Rattle.std.specs.Prelude.{◌≡◌, IfOk, Some, length};
ghost use Rattle.std.specs.List.{All, slice_get};
ghost use Rattle.number_draws.specs.Draws.{random_of};
ghost use Rattle.rows.specs.declared.records.Item as item_kind;
ghost use Rattle.population.specs.Rows.{IsOpeningItem};

use crate::draws::Draws;
use schema::{ImageId, Item, NoMemory, Price};
use std::alloc::Global;

/// Returns the rows of ITEM, by I_ID.
pub(crate) fn items(alloc: Global, draws: &mut Draws, count: u32) -> Result<Vec<Item>, NoMemory>
    ensures count { IfOk result (λ items. length items.items ≡ count) }
    ensures rows { IfOk result (λ items. All IsOpeningItem items.items) }
    ensures first { IfOk result (λ items. (row : item_kind.Item)
        → slice_get items.items 0 ≡ Some row → row.im_id ≡ random_of 1 10000 draws.old.numbers) }
{
    let mut items = Vec::new(alloc);
    for _ in 0..count {
        items.push(item(draws))?;
    }
    Ok(items)
}

fn item(draws: &mut Draws) -> Item
    ensures first { result.im_id ≡ random_of 1 10000 draws.old.numbers }
    ensures row { IsOpeningItem result }
{
    Item {
        im_id: ImageId::new(draws.random(1, 10_000)),
        name: draws.text(14, 24),
        price: Price::new(draws.random(100, 10_000)),
        data: draws.original_text(26, 50),
    }
}
