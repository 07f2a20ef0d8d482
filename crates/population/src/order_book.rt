ghost use Rattle.std.specs.Prelude.{◌≡◌, ℕ, ◌++◌, ◌∷◌, [], IsTrue, OnOk, length};
ghost use Rattle.std.specs.List.{All, filter};
ghost use Rattle.std.specs.Map.{keys_of};
ghost use Rattle.std.specs.BTreeMap.{IsOrdered};
ghost use Rattle.rows.specs.Ranged.{is_between};
ghost use Rattle.schema.specs.declared.scale.Scale as scale_kind;
ghost use Rattle.schema.specs.Scale.{customer_key, has_customer, has_district};
ghost use Rattle.schema.specs.Database.{is_order_id};
ghost use Rattle.rows.specs.Keys.{district_of_order, order_cmp};
ghost use Rattle.population.specs.Append.{AreBefore};
ghost use Rattle.population.specs.Book.{IsBookOf, AreOfEarlierDistricts, all_owned, owned_by, is_new_order};

use crate::append::append;
use crate::draws::Draws;
use crate::order_rows::{add_lines, carrier};
use crate::profile::is_new;
use rows::{FEWEST_LINES, MOST_DRAWN_LINES};
use schema::{
    DistrictKey, LineCount, Moment, NewOrder, NoMemory, Order, OrderKey, OrderLines, Scale,
};
use std::alloc::Global;
use std::collections::BTreeMap;

/// The tables ORDER, NEW-ORDER and ORDER-LINE.
#[derive(Drop)]
pub(crate) struct OrderBook {
    pub(crate) orders: BTreeMap<OrderKey, Order>,
    pub(crate) new_orders: BTreeMap<OrderKey, NewOrder>,
    pub(crate) lines: OrderLines,
}

impl OrderBook {
    /// Returns empty tables. Never allocates.
    pub(crate) fn new(alloc: Global) -> Self
        ensures none { result.orders.entries ≡ [] }
        ensures book { (scale : scale_kind.Scale) (now : ℕ) → IsBookOf scale now result }
    {
        OrderBook {
            orders: BTreeMap::new(alloc),
            new_orders: BTreeMap::new(alloc),
            lines: OrderLines::new(alloc),
        }
    }

    /// Adds a district's orders, one for each owner, numbered from 1 in the order of `owners`.
    pub(crate) fn add_orders(
        &mut self,
        draws: &mut Draws,
        scale: Scale,
        now: Moment,
        home: DistrictKey,
        owners: &[u32],
    ) -> Result<(), NoMemory>
        requires home { IsTrue (has_district scale home) }
        requires count { length owners.now ≡ scale.customers }
        requires owners { All (λ owner. IsTrue (is_between 1 scale.customers owner)) owners.now }
        requires earlier { AreOfEarlierDistricts home self.old.orders.entries }
        requires book { IsBookOf scale now self.old }
        ensures owned { OnOk result
            (all_owned self.new ≡ all_owned self.old ++ owned_by home 1 owners.now) }
        ensures book { OnOk result (IsBookOf scale now self.new) }
    {
        for (place, customer) in owners.iter().enumerate() {
            let key = OrderKey {
                w_id: home.w_id,
                d_id: home.d_id,
                o_id: place as u32 + 1,
            };
            self.add_order(draws, scale, now, key, *customer)?;
        }
        Ok(())
    }

    // Adds an order of the customer with its lines, and its row of NEW-ORDER if it is new.
    fn add_order(
        &mut self,
        draws: &mut Draws,
        scale: Scale,
        now: Moment,
        key: OrderKey,
        customer: u32,
    ) -> Result<(), NoMemory>
        requires number { IsTrue (is_order_id key.o_id) }
        requires customer { IsTrue
            (has_customer scale (customer_key (district_of_order key) customer)) }
        requires earlier { AreBefore order_cmp key self.old.orders.entries }
        requires book { IsBookOf scale now self.old }
        ensures owned { OnOk result
            (all_owned self.new ≡ all_owned self.old ++ (key, customer) ∷ []) }
        ensures book { OnOk result (IsBookOf scale now self.new) }
    {
        let carrier_id = carrier(draws, scale, key.o_id);
        let ol_cnt = LineCount::new(draws.random(FEWEST_LINES as u32, MOST_DRAWN_LINES));
        let row = Order {
            c_id: customer,
            entry_d: now,
            carrier_id,
            ol_cnt,
            all_local: true,
        };
        append(&mut self.orders, key, row)?;
        add_if_new(&mut self.new_orders, scale, key)?;
        add_lines(draws, &mut self.lines, scale, now, key, ol_cnt)?;
        Ok(())
    }
}

// Adds the order's row of NEW-ORDER if it is new.
fn add_if_new(
    new_orders: &mut BTreeMap<OrderKey, NewOrder>,
    scale: Scale,
    key: OrderKey,
) -> Result<(), NoMemory>
    requires earlier { AreBefore order_cmp key new_orders.old.entries }
    requires ordered { IsOrdered order_cmp new_orders.old }
    ensures keys { OnOk result (keys_of new_orders.new.entries
        ≡ keys_of new_orders.old.entries ++ filter (is_new_order scale) (key ∷ [])) }
    ensures ordered { IsOrdered order_cmp new_orders.new }
{
    if is_new(scale, key.o_id) {
        append(new_orders, key, NewOrder)?;
    }
    Ok(())
}
