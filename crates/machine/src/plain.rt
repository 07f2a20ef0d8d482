ghost use Rattle.std.specs.Prelude.{◌≡◌, IfOk, OnOk, OnErr};
ghost use Rattle.requests.specs.Check.{IsAccepted};
ghost use Rattle.machine.specs.Machine.{transaction};

use crate::{delivery, new_order, order_status, payment, stock_level};
use indexes::{LatestOrders, NameIndex};
use requests::{Reply, Request, Shown};
use schema::{NoMemory, Tables};
use std::alloc::Global;
use std::marker::Model;

/// The plain engine: carries out one request at a time on all tables.
#[derive(Drop)]
pub struct Plain {
    alloc: Global,
    tables: Tables,
    names: NameIndex,
    latest: LatestOrders,
}

impl Model for Plain {
    ghost use Rattle.schema.specs.Database.{Database};
    ghost use Rattle.schema.specs.contracts.tables.Tables as tables_kind;

    ghost Value = { Database };

    ghost coded = { tables_kind.the_row.coded };

    ghost view = { λ p. p.tables };

    ghost use Rattle.indexes.specs.NameOrder.{FitsNames};
    ghost use Rattle.indexes.specs.LatestIndex.{FitsLatest};

    ghost invariant = { λ p. FitsNames p.names p.tables × FitsLatest p.latest p.tables };
}

impl Plain {
    /// Returns an engine over these tables. Sorts the customers by last name. Returns NoMemory if an allocation fails;
    /// nothing is left behind then.
    pub fn open(alloc: Global, tables: Tables) -> Result<Self, NoMemory>
        ensures { IfOk result (λ plain. plain ≡ tables) }
    {
        let names = NameIndex::build(alloc, &tables)?;
        let latest = LatestOrders::build(alloc, &tables)?;
        Ok(Plain {
            alloc,
            tables,
            names,
            latest,
        })
    }

    pub fn tables(&self) -> &Tables
        ensures { result.now ≡ self.now }
    {
        &self.tables
    }

    /// Returns the tables after the requests so far.
    pub fn into_tables(self) -> Tables
        ensures { result ≡ self }
    {
        self.tables
    }

    /// Carries out one request, completely or not at all: the reply and the tables are those of the definition of its
    /// transaction. Returns NoMemory if an allocation fails; the tables are unchanged then.
    pub fn step(&mut self, request: &Request) -> Result<Reply, NoMemory>
        requires { IsAccepted self.old.scale request.now }
        ensures reply { IfOk result (λ reply. reply ≡ (transaction self.old request.now).reply) }
        ensures tables { OnOk result (self.new ≡ (transaction self.old request.now).tables) }
        ensures err { OnErr result (self.new ≡ self.old) }
    {
        let tables = &mut self.tables;
        match request {
            Request::NewOrder(asked) => {
                new_order::place_order(self.alloc, tables, &mut self.latest, asked)
            }
            Request::Payment(asked) => payment::pay(self.alloc, tables, &self.names, asked),
            Request::OrderStatus(asked) => {
                order_status::show(self.alloc, tables, &self.names, &self.latest, asked)
            }
            Request::Delivery(asked) => Ok(delivery::deliver(tables, asked)),
            Request::StockLevel(asked) => {
                let shown = stock_level::stock_level_reply(self.alloc, tables, asked)?;
                Ok(Reply::Done(Shown::StockLevel(shown)))
            }
        }
    }
}
