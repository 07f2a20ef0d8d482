ghost use Rattle.std.specs.Prelude.{ℕ, ◌+◌, ◌-◌, ◌*◌, IsTrue, OnOk};
ghost use Rattle.schema.specs.declared.scale.Scale as scale_kind;
ghost use Rattle.schema.specs.Scale.{has_warehouse, has_district};
ghost use Rattle.population.specs.Rows.{IsOpeningDistrict};
ghost use Rattle.population.specs.Filled.{AreFilled};

use crate::customers::add_customers;
use crate::draws::Draws;
use crate::order_book::OrderBook;
use crate::owners::owners;
use amounts::{Cents, Rate};
use schema::{Customer, District, DistrictKey, HistoryList, Moment, NextOrderId, NoMemory, Scale};
use std::alloc::Global;

/// The tables that are filled district by district, in the order of the districts' keys.
#[derive(Drop)]
pub(crate) struct DistrictTables {
    pub(crate) districts: Vec<District>,
    pub(crate) customers: Vec<Customer>,
    pub(crate) histories: Vec<HistoryList>,
    pub(crate) book: OrderBook,
}

impl DistrictTables {
    /// Returns empty tables. Never allocates.
    pub(crate) fn new(alloc: Global) -> Self
        ensures { (scale : scale_kind.Scale) (now : ℕ) → AreFilled scale now 0 result }
    {
        DistrictTables {
            districts: Vec::new(alloc),
            customers: Vec::new(alloc),
            histories: Vec::new(alloc),
            book: OrderBook::new(alloc),
        }
    }

    /// Adds the ten districts of a warehouse.
    pub(crate) fn add_warehouse(
        &mut self,
        alloc: Global,
        draws: &mut Draws,
        scale: Scale,
        now: Moment,
        w_id: u32,
    ) -> Result<(), NoMemory>
        requires warehouse { IsTrue (has_warehouse scale w_id) }
        requires filled { AreFilled scale now ((w_id - 1) * 10) self.old }
        ensures { OnOk result (AreFilled scale now (w_id * 10) self.new) }
    {
        for place in 0..10 {
            let home = DistrictKey {
                w_id,
                d_id: place + 1,
            };
            self.add_district(alloc, draws, scale, now, home)?;
        }
        Ok(())
    }

    // Adds a district with its customers, their payments and their orders.
    fn add_district(
        &mut self,
        alloc: Global,
        draws: &mut Draws,
        scale: Scale,
        now: Moment,
        home: DistrictKey,
    ) -> Result<(), NoMemory>
        requires home { IsTrue (has_district scale home) }
        requires filled { AreFilled scale now ((home.w_id - 1) * 10 + (home.d_id - 1)) self.old }
        ensures { OnOk result (AreFilled scale now ((home.w_id - 1) * 10 + home.d_id) self.new) }
    {
        self.districts.push(district(draws, scale))?;
        let payments = add_customers(alloc, draws, &mut self.customers, home, scale, now)?;
        self.histories.push(payments)?;
        let owners = owners(alloc, draws, scale.customers)?;
        self.book.add_orders(draws, scale, now, home, &owners)?;
        Ok(())
    }
}

// Returns the row of a district that has received 1,000 cents from each customer and has one order of each.
fn district(draws: &mut Draws, scale: Scale) -> District
    ensures { IsOpeningDistrict scale result }
{
    District {
        name: draws.text(6, 10),
        address: draws.address(),
        tax: Rate::new(draws.random(0, 2_000) as u16),
        ytd: Cents::new(1_000 * i64::from(scale.customers)),
        next_o_id: NextOrderId::new(scale.customers + 1),
    }
}
