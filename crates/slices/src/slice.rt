ghost use Rattle.std.specs.Prelude.{◌≡◌, ◌<◌, ◌≤◌, ◌%◌, [], ◌∷◌, All, length, IfNone, IfOk, IfSome, IsTrue, OnErr, OnOk};
ghost use Rattle.std.specs.List.{list_all};
ghost use Rattle.std.specs.FinMap as map;
ghost use Rattle.rows.specs.declared.limits.TheConstants.{MOST_LINES, STOCK_GROUPS};
ghost use Rattle.schema.specs.Database.{customer_of_order, is_order_id};
ghost use Rattle.schema.specs.OrderRows.{is_line_within};
ghost use Rattle.schema.specs.Scale.{has_customer};
ghost use Rattle.partitions.specs.Parts.{IsPart};
ghost use Rattle.partitions.specs.Slots.{home_slot};
ghost use Rattle.requests.specs.declared.group.Group.TheVariants as group;
ghost use Rattle.groups.specs.declared.group_wants.Mode.TheVariants.{Exclusive};
ghost use Rattle.groups.specs.Content.{content};
ghost use Rattle.groups.specs.Laws.{ChangesOneGroup, with_warehouse, with_district, with_customer, with_stock};
ghost use Rattle.indexes.specs.LatestIndex.{FitsLatestBy};
ghost use Rattle.indexes.specs.NameOrder.{FitsNamesBy};
ghost use Rattle.tickets.specs.Claims.{leaving};
ghost use Rattle.tickets.specs.Places.{IsGroupOf, place_in_warehouse};
ghost use Rattle.local_locks.specs.Asking.{StillWaits};
ghost use Rattle.local_locks.specs.Conflicts.{NeedNotDie};
ghost use Rattle.local_locks.specs.Laws.{CouldAsk, IsClaimOf, NoneConflict};
ghost use Rattle.local_locks.specs.GroupWants.{CanAsk};
ghost use Rattle.slices.specs.Asked.{claims_asked, claims_of_turn, AnswersIn, GrantsIn, TakesTurnIn};
ghost use Rattle.slices.specs.Openings.{AreHomeBoxesOf};
ghost use Rattle.slices.specs.SliceView.{at_rest, part_in, HasLocksOf, IsClaimAt, SliceKeeps};
ghost use Rattle.slices.specs.SliceChanges.{ClaimLeaves, SliceAddsOrder, SliceAddsPayment, SliceDeliversOrder, SliceKeepsGranting, SliceKeepsUnder, SlicePutsCustomer, SlicePutsDistrict, SlicePutsStock, SlicePutsWarehouse};
ghost use Rattle.slices.specs.Undo.{with_order_delivered, with_order_more, with_payment_more, AreNamesAt};

use crate::changes::ContentOf;
use crate::indexed::IndexedRows;
use crate::row_steps::{
    AddOrder, AddPayment, DeliverOrder, PutCustomer, PutDistrict, PutStock, PutWarehouse,
};
use crate::step::Step;
use crate::undo_log::UndoLog;
use groups::Want;
use indexes::{LatestOrders, NameIndex};
use local_locks::{Asked, LockTable, Turn};
use partitions::Partition;
use schema::{
    CarrierId, Customer, CustomerKey, District, DistrictKey, History, Moment, NoMemory, Order,
    OrderKey, OrderLine, Stock, StockKey, Warehouse,
};
use std::alloc::Global;
use std::marker::Model;
use tickets::{Claim, GROUPS_PER_WAREHOUSE, GroupNames, TicketBox};
use wait_die::Holder;

/// The rows of one warehouse with their indexes (its customers by last name, and each customer's latest order), the
/// lock table of its 105 groups, and an undo log for each group.
///
/// Contracts see the warehouse, its current rows, including the changes of open transactions, all claims that are out,
/// in any order, and all waiters.
#[derive(Drop)]
pub struct Slice<J: GroupNames> {
    rows: IndexedRows,
    locks: LockTable<J>,
    undo_logs: Vec<UndoLog>,
}

impl<J: GroupNames> Model for Slice<J> {
    ghost use Rattle.std.specs.Coded.{codes};
    ghost use Rattle.schema.specs.contracts.tables.Tables as tables_kind;
    ghost use Rattle.slices.specs.SliceView.{SliceView};

    ghost Value = { SliceView };

    ghost coded = { Prim.hlevel (codes, tables_kind.the_row.coded) };

    ghost use Rattle.slices.specs.UndoLogs.{slice_view, IsSlice};

    ghost view = { λ s. slice_view s.rows s.locks };

    ghost invariant = { λ s. IsSlice J.warehouses s.rows s.locks s.undo_logs.items };
}

impl<J: GroupNames> Slice<J> {
    /// Returns the slice of this warehouse's rows, with the boxes of its groups. Sorts the customers by last name, and
    /// finds the latest order of each. Returns NoMemory if an allocation fails; nothing is left then.
    pub(crate) fn open(
        alloc: Global,
        partition: Partition,
        boxes: Vec<TicketBox<J>>,
    ) -> Result<Slice<J>, NoMemory>
        requires warehouses { J.warehouses ≡ partition.tables.scale.warehouses }
        requires boxes { AreHomeBoxesOf partition boxes.items }
        ensures { IfOk result (λ slice. slice ≡ at_rest partition) }
    {
        let home = partition.home();
        let rows = IndexedRows::build(alloc, partition)?;
        let locks = LockTable::open(alloc, home, boxes)?;
        let mut undo_logs = Vec::with_capacity(alloc, GROUPS_PER_WAREHOUSE)?;
        for _ in 0..GROUPS_PER_WAREHOUSE {
            undo_logs.push(UndoLog::new(alloc))?;
        }
        Ok(Slice {
            rows,
            locks,
            undo_logs,
        })
    }

    /// Returns the W_ID of the warehouse.
    pub fn home(&self) -> u32
        ensures { result ≡ self.now.home }
    {
        self.rows.partition().home()
    }

    /// Returns the current rows.
    pub fn partition(&self) -> &Partition
        ensures rows { result.now ≡ part_in self.now }
        ensures part { IsPart (part_in self.now) }
        ensures warehouses { self.now.tables.scale.warehouses ≡ J.warehouses }
    {
        self.rows.partition()
    }

    /// Returns the current rows. Never allocates.
    pub(crate) fn into_partition(self) -> Partition
        ensures { result ≡ part_in self }
    {
        self.rows.into_partition()
    }

    /// Returns the index of the customers by last name, for the current rows.
    pub fn names(&self) -> &NameIndex
        ensures { FitsNamesBy (home_slot self.now.home) result.now self.now.tables }
    {
        self.rows.names()
    }

    /// Returns the index of each customer's latest order, for the current rows.
    pub fn latest(&self) -> &LatestOrders
        ensures { FitsLatestBy (home_slot self.now.home) result.now self.now.tables }
    {
        self.rows.latest()
    }

    /// Returns the lock table, to be looked at.
    pub fn locks(&self) -> &LockTable<J>
        ensures home { result.now.w_id ≡ self.now.home }
        ensures holdings { result.now.holdings ≡ self.now.holdings }
        ensures waiters { result.now.waiters ≡ self.now.waiters }
    {
        &self.locks
    }

    /// An action asks for all its groups at once, as in `LockTable::ask`. It is granted a claim on each group; or it
    /// waits, if all conflicting holders are younger; or it dies, if one of them is not younger. Returns NoMemory if an
    /// allocation fails; nothing changes then.
    pub fn ask(&mut self, alloc: Global, by: Holder, wants: &[Want]) -> Result<Asked<J>, NoMemory>
        requires { CanAsk J.warehouses self.old.home wants.now }
        ensures answers { IfOk result (λ asked. AnswersIn by wants.now self.old asked self.new) }
        ensures kept { IfOk result (λ asked.
            SliceKeepsGranting (claims_asked asked) self.old self.new) }
        ensures err { OnErr result (self.new ≡ self.old) }
        ensures death_takes_none { OnErr result (NeedNotDie self.old.holdings by.age wants.now) }
    {
        // Before the call this establishes the contents of the groups; after it, that no two claims conflict.
        self.locks.agree();
        let asked = self.locks.ask(alloc, by, wants)?;
        self.locks.agree();
        Ok(asked)
    }

    /// An action asks for all its groups at once, and is granted a claim on each, want by want; those of a prefix are
    /// in the order of groups. Returns `None` if a holder conflicts or an allocation fails: nothing changes then, and
    /// the action doesn't wait.
    pub fn ask_at_once(
        &mut self,
        alloc: Global,
        by: Holder,
        wants: &[Want],
    ) -> Option<Vec<Claim<J>>>
        requires { CanAsk J.warehouses self.old.home wants.now }
        ensures granted { IfSome result (λ claims.
            GrantsIn by wants.now self.old claims.items self.new) }
        ensures waiters { self.new.waiters ≡ self.old.waiters }
        ensures kept { IfSome result (λ claims. SliceKeeps [] self.old claims.items self.new) }
        ensures none { IfNone result (self.new ≡ self.old) }
    {
        // Before the call this establishes the contents of the groups; after it, that no two claims conflict.
        self.locks.agree();
        let Ok(Asked::Granted(claims)) = self.locks.ask_at_once(alloc, by, wants) else {
            return None;
        };
        self.locks.agree();
        Some(claims)
    }

    /// Gives the oldest of the waiters that need not wait any longer its turn: it is granted its claims, or dies. Among
    /// waiters of the same age, the one with the least place comes first. Returns `None` if all waiters have to wait;
    /// nothing changes then. Never allocates.
    pub fn next_grant(&mut self) -> Option<Turn<J>>
        ensures turn { IfSome result (λ turn. TakesTurnIn self.old turn self.new) }
        ensures kept { IfSome result (λ turn.
            SliceKeepsGranting (claims_of_turn turn) self.old self.new) }
        ensures none { IfNone result (All (StillWaits self.old.holdings) self.old.waiters) }
        ensures same { IfNone result (self.new ≡ self.old) }
    {
        self.locks.agree();
        let turn = self.locks.next_grant()?;
        self.locks.agree();
        Some(turn)
    }

    /// Establishes for contracts that the contents left by a claim are the group's current contents. A shared claim
    /// left the contents that it records (`Claim::look_untouched`). Both are unchanged.
    pub fn look(&mut self, claim: &mut Claim<J>)
        requires home { IsClaimAt self.old.home claim.old }
        ensures left { claim.old.left ≡ content self.old.tables claim.old.group }
        ensures same { (self.new ≡ self.old) × (claim.new ≡ claim.old) }
    {
        self.locks.agree();
        self.locks.look(claim);
    }

    /// Replaces the warehouse's row, under an exclusive claim on its group. Returns NoMemory if an allocation fails;
    /// nothing changes then. The same holds for the six calls below.
    pub fn put_warehouse(
        &mut self,
        claim: &mut Claim<J>,
        w_id: u32,
        row: Warehouse,
    ) -> Result<(), NoMemory>
        requires group { claim.old.group ≡ group.Warehouse w_id }
        requires exclusive { claim.old.mode ≡ Exclusive }
        requires there { IsTrue (map.contains_key self.old.tables.warehouses w_id) }
        ensures claim { OnOk result (ClaimLeaves (with_warehouse row) claim.old claim.new) }
        ensures kept { OnOk result (SliceKeepsUnder claim.old self.old claim.new self.new) }
        ensures rows { OnOk result (SlicePutsWarehouse w_id row self.old self.new) }
        ensures err { OnErr result ((self.new ≡ self.old) × (claim.new ≡ claim.old)) }
    {
        self.put(claim, PutWarehouse { w_id, row })
    }

    pub fn put_district(
        &mut self,
        claim: &mut Claim<J>,
        key: DistrictKey,
        row: District,
    ) -> Result<(), NoMemory>
        requires group { claim.old.group ≡ group.District key.w_id key.d_id }
        requires exclusive { claim.old.mode ≡ Exclusive }
        requires there { IsTrue (map.contains_key self.old.tables.districts key) }
        ensures claim { OnOk result (ClaimLeaves (with_district row) claim.old claim.new) }
        ensures kept { OnOk result (SliceKeepsUnder claim.old self.old claim.new self.new) }
        ensures rows { OnOk result (SlicePutsDistrict key row self.old self.new) }
        ensures err { OnErr result ((self.new ≡ self.old) × (claim.new ≡ claim.old)) }
    {
        self.put(claim, PutDistrict { key, row })
    }

    pub fn put_stock(
        &mut self,
        claim: &mut Claim<J>,
        key: StockKey,
        row: Stock,
    ) -> Result<(), NoMemory>
        requires group { claim.old.group ≡ group.Stock key.w_id (key.i_id % STOCK_GROUPS) }
        requires exclusive { claim.old.mode ≡ Exclusive }
        requires there { IsTrue (map.contains_key self.old.tables.stocks key) }
        ensures claim { OnOk result (ClaimLeaves (with_stock key row) claim.old claim.new) }
        ensures kept { OnOk result (SliceKeepsUnder claim.old self.old claim.new self.new) }
        ensures rows { OnOk result (SlicePutsStock key row self.old self.new) }
        ensures err { OnErr result ((self.new ≡ self.old) × (claim.new ≡ claim.old)) }
    {
        self.put(claim, PutStock { key, row })
    }

    /// `row` must have the names of the stored row.
    pub fn put_customer(
        &mut self,
        claim: &mut Claim<J>,
        key: CustomerKey,
        row: Customer,
    ) -> Result<(), NoMemory>
        requires group { claim.old.group ≡ group.Customers key.w_id key.d_id }
        requires exclusive { claim.old.mode ≡ Exclusive }
        requires there { IsTrue (map.contains_key self.old.tables.customers key) }
        requires names { AreNamesAt self.old.tables key row }
        ensures claim { OnOk result (ClaimLeaves (with_customer key row) claim.old claim.new) }
        ensures kept { OnOk result (SliceKeepsUnder claim.old self.old claim.new self.new) }
        ensures rows { OnOk result (SlicePutsCustomer key row self.old self.new) }
        ensures err { OnErr result ((self.new ≡ self.old) × (claim.new ≡ claim.old)) }
    {
        self.put(claim, PutCustomer { key, row })
    }

    /// Adds a payment at the end of the district's list, under an exclusive claim on the list. The payer may belong to
    /// another warehouse.
    pub fn add_payment(
        &mut self,
        claim: &mut Claim<J>,
        key: DistrictKey,
        row: History,
    ) -> Result<(), NoMemory>
        requires group { claim.old.group ≡ group.History key.w_id key.d_id }
        requires exclusive { claim.old.mode ≡ Exclusive }
        requires district { IsTrue (map.contains_key self.old.tables.districts key) }
        requires payer { IsTrue (has_customer self.old.tables.scale row.customer) }
        ensures claim { OnOk result (ClaimLeaves (with_payment_more row) claim.old claim.new) }
        ensures kept { OnOk result (SliceKeepsUnder claim.old self.old claim.new self.new) }
        ensures rows { OnOk result (SliceAddsPayment key row self.old self.new) }
        ensures err { OnErr result ((self.new ≡ self.old) × (claim.new ≡ claim.old)) }
    {
        self.put(claim, AddPayment { key, row })
    }

    /// Adds an order, its row of NEW-ORDER and its lines, numbered from 1 (clause 2.4.2.2), under an exclusive claim on
    /// the district's orders. All of it is one step.
    pub fn add_order(
        &mut self,
        claim: &mut Claim<J>,
        key: OrderKey,
        order: Order,
        lines: Vec<OrderLine>,
    ) -> Result<(), NoMemory>
        requires group { claim.old.group ≡ group.Orders key.w_id key.d_id }
        requires home { IsClaimAt self.old.home claim.old }
        requires exclusive { claim.old.mode ≡ Exclusive }
        requires number { IsTrue (is_order_id key.o_id) }
        requires customer { IsTrue
            (has_customer self.old.tables.scale (customer_of_order key order)) }
        requires few { length lines.items ≤ MOST_LINES }
        requires lines { IsTrue (list_all (is_line_within self.old.tables.scale) lines.items) }
        ensures claim { OnOk result
            (ClaimLeaves (with_order_more key order lines.items) claim.old claim.new) }
        ensures kept { OnOk result (SliceKeepsUnder claim.old self.old claim.new self.new) }
        ensures rows { OnOk result (SliceAddsOrder key order lines.items self.old self.new) }
        ensures err { OnErr result ((self.new ≡ self.old) × (claim.new ≡ claim.old)) }
    {
        self.put(claim, AddOrder { key, order, lines })
    }

    /// Delivers an order: its row of NEW-ORDER is deleted, it gets the carrier, and its lines get the moment (clause
    /// 2.7.4.2), under an exclusive claim on the district's orders. All of it is one step.
    pub fn deliver_order(
        &mut self,
        claim: &mut Claim<J>,
        key: OrderKey,
        carrier: CarrierId,
        moment: Moment,
    ) -> Result<(), NoMemory>
        requires group { claim.old.group ≡ group.Orders key.w_id key.d_id }
        requires exclusive { claim.old.mode ≡ Exclusive }
        requires there { IsTrue (map.contains_key self.old.tables.orders key) }
        ensures claim { OnOk result
            (ClaimLeaves (with_order_delivered key carrier moment) claim.old claim.new) }
        ensures kept { OnOk result (SliceKeepsUnder claim.old self.old claim.new self.new) }
        ensures rows { OnOk result (SliceDeliversOrder key carrier moment self.old self.new) }
        ensures err { OnErr result ((self.new ≡ self.old) × (claim.new ≡ claim.old)) }
    {
        self.put(
            claim,
            DeliverOrder {
                key,
                carrier,
                moment,
            },
        )
    }

    // Does a step in a group of the warehouse, under an exclusive claim on the group, and keeps its undo record.
    // Returns NoMemory if an allocation fails; nothing changes then.
    fn put<S: Step>(&mut self, claim: &mut Claim<J>, step: S) -> Result<(), NoMemory>
        requires group { claim.old.group ≡ S.group step }
        requires exclusive { claim.old.mode ≡ Exclusive }
        requires possible { S.is_possible step (part_in self.old) }
        ensures claim { OnOk result (ClaimLeaves (S.changed step) claim.old claim.new) }
        ensures kept { OnOk result (SliceKeepsUnder claim.old self.old claim.new self.new) }
        ensures rows { OnOk result
            (self.new ≡ record self.old { tables = S.done step self.old.tables }) }
        ensures err { OnErr result ((self.new ≡ self.old) × (claim.new ≡ claim.old)) }
    {
        // Called for their contracts: the rows are the warehouse's, and so are the groups of its lock table.
        let _ = self.rows.partition();
        self.locks.agree();
        let undo_log = &mut self.undo_logs[place_of_claim(claim)];
        undo_log.make_room()?;
        let kept = step.run(&mut self.rows)?;
        let now = ContentOf {
            rows: self.rows.partition(),
            group: claim.group(),
        };
        self.locks.leave(claim, &now);
        undo_log.keep(kept);
        Ok(())
    }

    /// Undoes everything that was done under an exclusive claim: its group has the contents that the claim records as
    /// `back` again, and nothing else changes. Never allocates.
    pub fn undo(&mut self, claim: &mut Claim<J>)
        requires home { IsClaimAt self.old.home claim.old }
        requires exclusive { claim.old.mode ≡ Exclusive }
        ensures claim { claim.new ≡ leaving claim.old claim.old.back }
        ensures kept { SliceKeepsUnder claim.old self.old claim.new self.new }
        ensures rows { ChangesOneGroup
            claim.old.group (λ before. claim.old.back) self.old.tables self.new.tables }
        ensures locks { HasLocksOf self.old self.new }
    {
        self.locks.agree();
        let undo_log = &mut self.undo_logs[place_of_claim(claim)];
        undo_log.put_back(&mut self.rows);
        self.locks.undo(claim);
    }

    /// Takes a claim back, after what it left is committed; a shared claim left nothing. Never allocates. The holder of
    /// any claim may call it: the committed contents are kept, whether or not the claim is out to the holder that it
    /// records.
    pub fn take_back(&mut self, claim: Claim<J>)
        requires home { IsClaimAt self.old.home claim }
        requires committed { claim.mode ≡ Exclusive → claim.recorded ≡ claim.left }
        ensures kept { SliceKeeps (claim ∷ []) self.old [] self.new }
        ensures tables { self.new.tables ≡ self.old.tables }
    {
        self.locks.agree();
        self.undo_logs[place_of_claim(&claim)].forget();
        self.locks.take_back(claim);
    }

    /// Establishes for contracts that no two claims that are out conflict, that all are on groups of the warehouse, and
    /// that all waiters wait for wants that can be asked.
    pub fn agree(&self)
        ensures claims { All (IsClaimOf J.warehouses self.now.home) self.now.holdings }
        ensures none_conflict { NoneConflict self.now.holdings }
        ensures waiters { All (CouldAsk J.warehouses self.now.home) self.now.waiters }
    {
        self.locks.agree();
    }
}

// Returns the place of a claim's group among those of its warehouse.
fn place_of_claim<J: GroupNames>(claim: &Claim<J>) -> usize
    ensures known { IsGroupOf J.warehouses claim.now.group }
    ensures place { result ≡ place_in_warehouse claim.now.group }
{
    claim.place() % GROUPS_PER_WAREHOUSE
}
