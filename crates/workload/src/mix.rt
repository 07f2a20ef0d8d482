ghost use Rattle.std.specs.Prelude.{◌≡◌, ◌++◌, ◌↔◌, IsSome, IfSome, IfOk, OnOk, replicate};
ghost use Rattle.workload.specs.Limits.{IsMix};

use crate::Kind;
use schema::NoMemory;
use std::alloc::Global;

/// The number of cards of each kind in a deck: at most 1,000 of each, and at least one in all.
#[derive(Clone, Copy, Debug, PartialEq, Eq)]
pub struct Mix {
    pub new_orders: u32,
    pub payments: u32,
    pub order_statuses: u32,
    pub deliveries: u32,
    pub stock_levels: u32,
    pub ghost limits: { IsMix new_orders payments order_statuses deliveries stock_levels },
}

impl Mix {
    ghost use Rattle.workload.specs.Decks.{cards_of};

    /// Returns the mix with these numbers of cards; `None` exactly if a number is greater than 1,000 or all are 0.
    pub fn checked_new(
        new_orders: u32,
        payments: u32,
        order_statuses: u32,
        deliveries: u32,
        stock_levels: u32,
    ) -> Option<Mix>
        ensures fits { IsSome result
            ↔ IsMix new_orders payments order_statuses deliveries stock_levels }
        ensures new_orders { IfSome result (λ mix. mix.new_orders ≡ new_orders) }
        ensures payments { IfSome result (λ mix. mix.payments ≡ payments) }
        ensures order_statuses { IfSome result (λ mix. mix.order_statuses ≡ order_statuses) }
        ensures deliveries { IfSome result (λ mix. mix.deliveries ≡ deliveries) }
        ensures stock_levels { IfSome result (λ mix. mix.stock_levels ≡ stock_levels) }
    {
        let fits = new_orders <= 1_000
            && payments <= 1_000
            && order_statuses <= 1_000
            && deliveries <= 1_000
            && stock_levels <= 1_000
            && new_orders + payments + order_statuses + deliveries + stock_levels >= 1;
        if fits {
            Some(Mix {
                new_orders,
                payments,
                order_statuses,
                deliveries,
                stock_levels,
            })
        } else {
            None
        }
    }

    /// Returns the cards of a deck before its first shuffle, sorted by kind.
    #[tactic(auto, unfolding(crate::specs::Decks::cards_of))]
    pub fn cards(self, alloc: Global) -> Result<Vec<Kind>, NoMemory>
        ensures { IfOk result (λ cards. cards.items ≡ cards_of self) }
    {
        let mut cards = Vec::new(alloc);
        add_cards(&mut cards, Kind::NewOrder, self.new_orders)?;
        add_cards(&mut cards, Kind::Payment, self.payments)?;
        add_cards(&mut cards, Kind::OrderStatus, self.order_statuses)?;
        add_cards(&mut cards, Kind::Delivery, self.deliveries)?;
        add_cards(&mut cards, Kind::StockLevel, self.stock_levels)?;
        Ok(cards)
    }
}

fn add_cards(cards: &mut Vec<Kind>, kind: Kind, count: u32) -> Result<(), NoMemory>
    ensures { OnOk result (cards.new.items ≡ cards.old.items ++ replicate count kind) }
{
    for _ in 0..count {
        cards.push(kind)?;
    }
    Ok(())
}
