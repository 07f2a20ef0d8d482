//! The phases of a New-Order.
ghost use Rattle.std.specs.Prelude.{◌≡◌, ◌≤◌, [], ◌∷◌, length, List, IfOk};
ghost use Rattle.std.specs.List.{list_any};
ghost use Rattle.requests.specs.declared.group.Group.{Group as AnyGroup};
ghost use Rattle.groups.specs.Groups.{is_same};
ghost use Rattle.groups.specs.NewOrder.{supplies_of};
ghost use Rattle.transactions.specs.declared.new_order.HomeFound.{HomeFound as AnyHomeFound};
ghost use Rattle.transactions.specs.declared.new_order.OrdererFound.{OrdererFound as AnyOrdererFound};
ghost use Rattle.transactions.specs.declared.new_order.StockTaken.{StockTaken as AnyStockTaken};
ghost use Rattle.transactions.specs.declared.work.Found.TheVariants as any_found;
ghost use Rattle.transactions.specs.declared.progress.Progress.TheVariants as any;
ghost use Rattle.transactions.specs.NewOrder.{AreRowsFound, AreStocksFound, taking, works_of};
ghost use Rattle.transactions.specs.Progresses.{FollowsFrom, HasFound};

use super::deciding::decide;
use super::stock::supply_of;
use super::work::{Found, Work};
use super::{HomeFound, OrderBegun, OrderPlaced, OrdererFound, StockTaken};
use crate::listed::Listed;
use crate::progress::Gathered;
use requests::{Fault, Group, NewOrder, OrderedLine, Reply, Shown};
use schema::NoMemory;
use std::alloc::Global;

/// How far a New-Order has come: its phase, with the phase's input.
#[derive(Drop)]
pub enum Progress {
    /// Takes its number at place 0, and shows its customer at place 1.
    ReadRows(NewOrder),
    /// Takes its lines from the stock, from place 2 on: one action for each group that supplies lines.
    TakeLines(OrderBegun),
    /// Adds it, at the last place.
    AddRows(OrderPlaced),
}

impl Progress {
    // The works of the phase's actions, by place. Returns NoMemory if an allocation fails; nothing is left then.
    pub(crate) fn works(&self, alloc: Global) -> Result<Vec<crate::Work>, NoMemory>
        ensures { IfOk result (λ works. works.items ≡ works_of self.now) }
    {
        match self {
            Progress::ReadRows(order) => {
                let mut works = Vec::with_capacity(alloc, 2)?;
                works.push(crate::Work::NewOrder(Work::TakeNumber(order.clone()?)))?;
                works.push(crate::Work::NewOrder(Work::ShowOrderer(order.clone()?)))?;
                Ok(works)
            }
            Progress::TakeLines(given) => stock_works(alloc, given),
            Progress::AddRows(placed) => {
                let mut works = Vec::with_capacity(alloc, 1)?;
                works.push(crate::Work::NewOrder(Work::AddOrder(placed.rows.clone()?)))?;
                Ok(works)
            }
        }
    }

    // The step after the phase, from what its actions found, by place. Returns NoMemory if an allocation fails; nothing is left
    // then.
    pub(crate) fn gather(
        self,
        alloc: Global,
        found: Vec<crate::Found>,
    ) -> Result<Gathered, NoMemory>
        requires { HasFound (any.NewOrder self) found.items }
        ensures { IfOk result (λ gathered. FollowsFrom (any.NewOrder self) found.items gathered) }
    {
        match self {
            Progress::ReadRows(order) => gather_rows(alloc, order, found),
            Progress::TakeLines(given) => gather_stock(alloc, given, found),
            Progress::AddRows(placed) => Ok(gather_added(placed, found)),
        }
    }
}

// One action for each group of stock that supplies lines.
fn stock_works(alloc: Global, given: &OrderBegun) -> Result<Vec<crate::Work>, NoMemory>
    ensures { IfOk result (λ works. works.items ≡ works_of (Progress.TakeLines given.now)) }
{
    let others = given.others.as_slice();
    let mut works = Vec::with_capacity(alloc, others.len() + 1)?;
    works.push(stock_work(&given.order, given.first)?)?;
    for group in others {
        works.push(stock_work(&given.order, *group)?)?;
    }
    Ok(works)
}

fn stock_work(order: &NewOrder, group: Group) -> Result<crate::Work, NoMemory>
    ensures { IfOk result (λ work. work ≡ taking order.now group) }
{
    Ok(crate::Work::NewOrder(Work::TakeStock(order.clone()?, group)))
}

// The step after the first phase: the groups that supply the lines, or a rollback if its home rows or its customer are missing.
fn gather_rows(
    alloc: Global,
    order: NewOrder,
    found: Vec<crate::Found>,
) -> Result<Gathered, NoMemory>
    requires { HasFound (any.NewOrder (Progress.ReadRows order)) found.items }
    ensures { IfOk result (λ gathered.
        FollowsFrom (any.NewOrder (Progress.ReadRows order)) found.items gathered) }
{
    let mut groups = supplies(alloc, order.lines.as_slice())?;
    let first = groups.remove(0);
    let (home, orderer) = rows_found(found);
    let HomeFound::Shown(home) = home else {
        return Ok(Gathered::Finish(Reply::RolledBack(Fault::NoCustomer)));
    };
    let OrdererFound::Shown(orderer) = orderer else {
        return Ok(Gathered::Finish(Reply::RolledBack(Fault::NoCustomer)));
    };
    let begun = OrderBegun {
        order,
        home,
        orderer,
        first,
        others: Listed::new(groups),
    };
    Ok(Gathered::Next(crate::Progress::NewOrder(Progress::TakeLines(begun))))
}

// The groups that supply the lines, each once, in the order of their first lines.
fn supplies(alloc: Global, lines: &[OrderedLine]) -> Result<Vec<Group>, NoMemory>
    ensures { IfOk result (λ groups. groups.items ≡ supplies_of lines.now) }
{
    let mut groups = Vec::with_capacity(alloc, lines.len())?;
    for line in lines {
        let group = supply_of(*line);
        if !is_among(&groups, group) {
            groups.push(group)?;
        }
    }
    Ok(groups)
}

// Whether the group is among these.
fn is_among(groups: &[Group], group: Group) -> bool
    ensures { result ≡ list_any (λ own. is_same own group) groups.now }
{
    for own in groups {
        if *own == group {
            return true;
        }
    }
    false
}

// The step after the second phase: the order with its lines in order, or a rollback.
fn gather_stock(
    alloc: Global,
    given: OrderBegun,
    found: Vec<crate::Found>,
) -> Result<Gathered, NoMemory>
    requires { HasFound (any.NewOrder (Progress.TakeLines given)) found.items }
    ensures { IfOk result (λ gathered.
        FollowsFrom (any.NewOrder (Progress.TakeLines given)) found.items gathered) }
{
    let stocks = stocks_found(alloc, found)?;
    match decide(alloc, given, stocks)? {
        Ok(placed) => Ok(Gathered::Next(crate::Progress::NewOrder(Progress::AddRows(placed)))),
        Err(fault) => Ok(Gathered::Finish(Reply::RolledBack(fault))),
    }
}

// The step after the third phase: the New-Order is carried out.
fn gather_added(placed: OrderPlaced, found: Vec<crate::Found>) -> Gathered
    ensures { FollowsFrom (any.NewOrder (Progress.AddRows placed)) found.items result }
{
    drop(found);
    Gathered::Finish(Reply::Done(Shown::NewOrder(placed.reply)))
}

// What places 0 and 1 found.
fn rows_found(mut found: Vec<crate::Found>) -> (HomeFound, OrdererFound)
    requires { AreRowsFound found.items }
    ensures { found.items ≡ any_found.NewOrder (Found.Home result.0)
        ∷ any_found.NewOrder (Found.Orderer result.1) ∷ [] }
{
    let Some(orderer) = found.pop() else {
        unreachable!()
    };
    let Some(home) = found.pop() else {
        unreachable!()
    };
    (home_of_found(home), orderer_of_found(orderer))
}

fn home_of_found(found: crate::Found) -> HomeFound
    requires { (home : AnyHomeFound) × (found ≡ any_found.NewOrder (Found.Home home)) }
    ensures { found ≡ any_found.NewOrder (Found.Home result) }
{
    match found {
        crate::Found::NewOrder(found) => home_of(found),
        _ => unreachable!(),
    }
}

fn home_of(found: Found) -> HomeFound
    requires { (home : AnyHomeFound) × (found ≡ Found.Home home) }
    ensures { found ≡ Found.Home result }
{
    match found {
        Found::Home(home) => home,
        Found::Orderer(_) | Found::Stock(_) | Found::Added => unreachable!(),
    }
}

fn orderer_of_found(found: crate::Found) -> OrdererFound
    requires { (orderer : AnyOrdererFound) × (found ≡ any_found.NewOrder (Found.Orderer orderer)) }
    ensures { found ≡ any_found.NewOrder (Found.Orderer result) }
{
    match found {
        crate::Found::NewOrder(found) => orderer_of(found),
        _ => unreachable!(),
    }
}

fn orderer_of(found: Found) -> OrdererFound
    requires { (orderer : AnyOrdererFound) × (found ≡ Found.Orderer orderer) }
    ensures { found ≡ Found.Orderer result }
{
    match found {
        Found::Orderer(orderer) => orderer,
        Found::Home(_) | Found::Stock(_) | Found::Added => unreachable!(),
    }
}

// What the groups of stock found, by place.
fn stocks_found(alloc: Global, found: Vec<crate::Found>) -> Result<Vec<StockTaken>, NoMemory>
    requires { (stocks : List AnyStockTaken) × AreStocksFound found.items stocks }
    ensures { IfOk result (λ stocks. AreStocksFound found.items stocks.items) }
{
    let mut stocks = Vec::with_capacity(alloc, found.len())?;
    for one in found {
        stocks.push(stock_of_found(one))?;
    }
    Ok(stocks)
}

fn stock_of_found(found: crate::Found) -> StockTaken
    requires { (stock : AnyStockTaken) × (found ≡ any_found.NewOrder (Found.Stock stock)) }
    ensures { found ≡ any_found.NewOrder (Found.Stock result) }
{
    match found {
        crate::Found::NewOrder(Found::Stock(stock)) => stock,
        _ => unreachable!(),
    }
}
