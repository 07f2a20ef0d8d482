ghost use Rattle.std.specs.Prelude.{◌≡◌, IfOk};
ghost use Rattle.workload.specs.Decks.{kinds_drawn};

use crate::{Kind, Mix};
use number_draws::NumberDraws;
use schema::NoMemory;
use std::alloc::Global;

/// Returns the kinds of `count` requests: the cards of decks. Each deck is the one before it, shuffled again.
pub(crate) fn draw_kinds(
    alloc: Global,
    draws: &mut NumberDraws,
    mix: Mix,
    count: u32,
) -> Result<Vec<Kind>, NoMemory>
    ensures { IfOk result (λ kinds. kinds.items ≡ kinds_drawn mix count draws.old) }
{
    let mut deck = mix.cards(alloc)?;
    let cards = deck.as_mut_slice();
    let mut kinds = Vec::new(alloc);
    let size = cards.len() as u64;
    let decks = (u64::from(count) + (size - 1)) / size;
    for _ in 0..decks {
        draws.shuffle(cards);
        kinds.extend_from_slice(cards)?;
    }
    kinds.truncate(count as usize);
    Ok(kinds)
}
