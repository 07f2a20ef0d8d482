//! A Stock-Level (clause 2.8): its actions and what they find, its phases, and its law. It reads its district's row, then the
//! lines of the district's last 20 orders, and then its warehouse's stock of their items (clause 2.8.2.2).
ghost use Rattle.std.specs.Prelude.{◌≡◌, ◌≤◌, ℕ, [], ◌∷◌, Vec as AnyVec, length, slice_get, IfOk, OnErr};
ghost use Rattle.partitions.specs.Parts.{shared_of};
ghost use Rattle.groups.specs.Groups.{group_of_district};
ghost use Rattle.slices.specs.SliceView.{SliceKeeps};
ghost use Rattle.transactions.specs.declared.work.Found.TheVariants as any_found;
ghost use Rattle.transactions.specs.declared.progress.Progress.TheVariants as any;
ghost use Rattle.transactions.specs.Granted.{AreGrantedFor, AreLeft, IsSharedOn, group_of_orders};
ghost use Rattle.transactions.specs.StockLevel.{AreItemsFound, AreItemsOf, AreSharedOn, CanDo, HasDone, IsLowFound, IsLowOf, IsNextFound, IsNextOf, home_of, reply_counted, stock_of, group_wants_of, work_of, works_of};
ghost use Rattle.transactions.specs.StockLevelLaws.{StockLevelsAreCarriedOut};
ghost use Rattle.transactions.specs.Progresses.{FollowsFrom, HasFound};

use crate::progress::Gathered;
use groups::GroupWant;
use machine::{low_stock, recent_items};
use requests::{Group, Reply, Shown, StockLevel, StockLevelReply};
use rows::STOCK_GROUPS;
use schema::{DistrictKey, NoMemory};
use slices::Slice;
use std::alloc::Global;
use std::marker::Model;
use tickets::{Claim, GroupNames};

// The number of wants of the phase that counts: one for each group of a warehouse's stock.
const STOCK_WANTS: usize = STOCK_GROUPS as usize;

/// The work of an action of a Stock-Level.
#[derive(Drop)]
pub enum Work {
    /// Reads the number of its district's next order.
    ReadNext(StockLevel),
    /// Reads the item of each line of the 20 orders before that number.
    ReadItems(StockLevel, u32),
    /// Counts those of these items whose stock is low.
    CountLow(StockLevel, Items),
}

/// What an action of a Stock-Level found.
#[derive(Drop)]
pub enum Found {
    Next(u32),
    Items(Items),
    Low(u32),
}

/// How far a Stock-Level has come: its phase, with the phase's input.
#[derive(Drop)]
pub enum Progress {
    /// Reads the district's row.
    ReadNext(StockLevel),
    /// Reads the lines of its last orders.
    ReadItems(StockLevel, u32),
    /// Reads the stock of their items.
    CountLow(StockLevel, Items),
}

/// The items of the lines of 20 orders, each as often as it is in a line: 600 at most. Contracts see them as a list.
#[derive(Drop)]
pub struct Items {
    ids: Vec<u32>,
}

impl Model for Items {
    ghost use Rattle.std.specs.Prelude.{◌≤◌, ℕ, List, length};
    ghost use Rattle.rows.specs.declared.limits.TheConstants.{RECENT_LINES};

    ghost Value = { List ℕ };

    ghost view = { λ i. i.ids.items };

    ghost invariant = { λ i. length i.ids.items ≤ RECENT_LINES };
}

impl Items {
    // A copy. Returns NoMemory if an allocation fails; nothing is left then.
    fn try_clone(&self) -> Result<Items, NoMemory>
        ensures { IfOk result (λ copy. copy ≡ self.now) }
    {
        let ids = self.ids.clone()?;
        Ok(Items { ids })
    }
}

impl Work {
    // The W_ID of the warehouse at which the work is done.
    pub(crate) fn home(&self) -> u32
        ensures { result ≡ home_of self.now }
    {
        self.asked().home.w_id
    }

    // Its request.
    fn asked(&self) -> StockLevel
        ensures { home_of self.now ≡ result.home.w_id }
    {
        match self {
            Work::ReadNext(asked) | Work::ReadItems(asked, _) | Work::CountLow(asked, _) => *asked,
        }
    }

    // The number of groups that the work wants.
    pub(crate) fn group_want_count(&self) -> usize
        ensures { result ≡ length (group_wants_of self.now) }
    {
        match self {
            Work::ReadNext(_) => 1,
            Work::ReadItems(_, _) => 1,
            Work::CountLow(_, _) => STOCK_WANTS,
        }
    }

    // The want of this number, from 0.
    pub(crate) fn group_want(&self, number: usize) -> Option<GroupWant>
        ensures { result ≡ slice_get (group_wants_of self.now) number }
    {
        match self {
            Work::ReadNext(asked) if number == 0 => {
                let DistrictKey { w_id, d_id } = asked.home;
                Some(GroupWant::shared(Group::District { w_id, d_id }))
            }
            Work::ReadItems(asked, _) if number == 0 => {
                let DistrictKey { w_id, d_id } = asked.home;
                Some(GroupWant::shared(Group::Orders { w_id, d_id }))
            }
            Work::CountLow(asked, _) if number < STOCK_WANTS => Some(GroupWant::shared(
                Group::Stock {
                    w_id: asked.home.w_id,
                    residue: number as u32,
                },
            )),
            _ => None,
        }
    }

    // Does the work in the slice of its warehouse, under the claims that were granted for it. Changes nothing.
    pub(crate) fn run<J: GroupNames>(
        self,
        alloc: Global,
        slice: &mut Slice<J>,
        claims: &mut [Claim<J>],
    ) -> Result<Found, NoMemory>
        requires can { CanDo (shared_of slice.old.tables) self }
        requires home { home_of self ≡ slice.old.home }
        requires granted { AreGrantedFor (group_wants_of self) claims.old }
        ensures kept { SliceKeeps claims.old slice.old claims.new slice.new }
        ensures done { IfOk result (λ found.
            HasDone (shared_of slice.old.tables) self found claims.new) }
        ensures left { AreLeft claims.old claims.new }
        ensures err { OnErr result ((slice.new ≡ slice.old) × (claims.new ≡ claims.old)) }
    {
        match self {
            Work::ReadNext(asked) => {
                Ok(Found::Next(read_next(slice, &mut claims[0], asked.home)))
            }
            Work::ReadItems(asked, next) => Ok(Found::Items(read_items(
                alloc,
                slice,
                &mut claims[0],
                asked.home,
                next,
            )?)),
            Work::CountLow(asked, items) => Ok(Found::Low(count_low(slice, claims, asked, items))),
        }
    }
}

/// Reads the number of the district's next order. Never allocates, and changes nothing.
pub fn read_next<J: GroupNames>(
    slice: &mut Slice<J>,
    district: &mut Claim<J>,
    home: DistrictKey,
) -> u32
    requires claim { IsSharedOn (group_of_district home) district.old }
    requires home { home.w_id ≡ slice.old.home }
    ensures read { IsNextFound home result district.new }
    ensures same { (slice.new ≡ slice.old) × (district.new ≡ district.old) }
{
    district.look_untouched();
    slice.look(district);
    match slice.partition().district(home) {
        Some(row) => row.next_o_id.get(),
        None => 0,
    }
}

/// Reads the item of each line of the district's 20 orders before this number: 600 at most. Changes nothing, and allocates only
/// for the items.
pub fn read_items<J: GroupNames>(
    alloc: Global,
    slice: &mut Slice<J>,
    orders: &mut Claim<J>,
    home: DistrictKey,
    next: u32,
) -> Result<Items, NoMemory>
    requires claim { IsSharedOn (group_of_orders home) orders.old }
    requires home { home.w_id ≡ slice.old.home }
    ensures read { IfOk result (λ items. AreItemsFound home next items orders.new) }
    ensures same { (slice.new ≡ slice.old) × (orders.new ≡ orders.old) }
{
    orders.look_untouched();
    slice.look(orders);
    let ids = recent_items(alloc, slice.partition(), home, next)?;
    Ok(Items { ids })
}

/// Counts those of these items whose stock is low, each once, however often it is in the list. Never allocates, and changes
/// nothing.
pub fn count_low<J: GroupNames>(
    slice: &mut Slice<J>,
    stock: &mut [Claim<J>],
    asked: StockLevel,
    items: Items,
) -> u32
    requires claims { AreSharedOn (stock_of asked.home.w_id) stock.old }
    requires home { asked.home.w_id ≡ slice.old.home }
    ensures counted { IsLowFound asked items result stock.new }
    ensures same { (slice.new ≡ slice.old) × (stock.new ≡ stock.old) }
{
    for claim in 0..stock.len() {
        stock[claim].look_untouched();
        slice.look(&mut stock[claim]);
    }
    low_stock(
        slice.partition(),
        asked.home.w_id,
        asked.threshold,
        items.ids,
    ) as u32
}

impl Progress {
    // The work of the phase's action. Returns NoMemory if an allocation fails; nothing is left then.
    pub(crate) fn works(&self, alloc: Global) -> Result<Vec<crate::Work>, NoMemory>
        ensures { IfOk result (λ works. works.items ≡ works_of self.now) }
    {
        let work = self.work()?;
        let mut works = Vec::with_capacity(alloc, 1)?;
        works.push(crate::Work::StockLevel(work))?;
        Ok(works)
    }

    fn work(&self) -> Result<Work, NoMemory>
        ensures { IfOk result (λ work. work ≡ work_of self.now) }
    {
        Ok(match self {
            Progress::ReadNext(asked) => Work::ReadNext(*asked),
            Progress::ReadItems(asked, next) => Work::ReadItems(*asked, *next),
            Progress::CountLow(asked, items) => Work::CountLow(*asked, items.try_clone()?),
        })
    }

    // The step after the phase, from what its action found. Never allocates.
    pub(crate) fn gather(
        self,
        _alloc: Global,
        found: Vec<crate::Found>,
    ) -> Result<Gathered, NoMemory>
        requires { HasFound (any.StockLevel self) found.items }
        ensures { IfOk result (λ gathered. FollowsFrom (any.StockLevel self) found.items gathered) }
    {
        match self {
            Progress::ReadNext(asked) => Ok(gather_next(asked, found)),
            Progress::ReadItems(asked, next) => Ok(gather_items(asked, next, found)),
            Progress::CountLow(asked, items) => Ok(gather_low(asked, items, found)),
        }
    }
}

// The step after the first phase: the lines of the last orders are to be read.
fn gather_next(asked: StockLevel, found: Vec<crate::Found>) -> Gathered
    requires { HasFound (any.StockLevel (Progress.ReadNext asked)) found.items }
    ensures { FollowsFrom (any.StockLevel (Progress.ReadNext asked)) found.items result }
{
    let next = next_found(found);
    Gathered::Next(crate::Progress::StockLevel(Progress::ReadItems(asked, next)))
}

// The step after the second phase: the stock is to be read.
fn gather_items(asked: StockLevel, next: u32, found: Vec<crate::Found>) -> Gathered
    requires { HasFound (any.StockLevel (Progress.ReadItems asked next)) found.items }
    ensures { FollowsFrom (any.StockLevel (Progress.ReadItems asked next)) found.items result }
{
    let items = items_found(found);
    Gathered::Next(crate::Progress::StockLevel(Progress::CountLow(asked, items)))
}

// The step after the third phase: the Stock-Level is carried out.
fn gather_low(asked: StockLevel, items: Items, found: Vec<crate::Found>) -> Gathered
    requires { HasFound (any.StockLevel (Progress.CountLow asked items)) found.items }
    ensures { FollowsFrom (any.StockLevel (Progress.CountLow asked items)) found.items result }
{
    drop(items);
    let count = low_found(found);
    Gathered::Finish(Reply::Done(Shown::StockLevel(StockLevelReply { count })))
}

// What the first phase found.
fn next_found(mut found: Vec<crate::Found>) -> u32
    requires { IsNextOf found.items }
    ensures { found.items ≡ any_found.StockLevel (Found.Next result) ∷ [] }
{
    match found.pop() {
        Some(crate::Found::StockLevel(Found::Next(next))) => next,
        _ => unreachable!(),
    }
}

// What the second phase found.
fn items_found(mut found: Vec<crate::Found>) -> Items
    requires { AreItemsOf found.items }
    ensures { found.items ≡ any_found.StockLevel (Found.Items result) ∷ [] }
{
    match found.pop() {
        Some(crate::Found::StockLevel(Found::Items(items))) => items,
        _ => unreachable!(),
    }
}

// What the third phase found.
fn low_found(mut found: Vec<crate::Found>) -> u32
    requires { IsLowOf found.items }
    ensures { found.items ≡ any_found.StockLevel (Found.Low result) ∷ [] }
{
    match found.pop() {
        Some(crate::Found::StockLevel(Found::Low(count))) => count,
        _ => unreachable!(),
    }
}

/// Law: if each action did its work, the Stock-Level is carried out as the machine does it: the reply is the machine's, and
/// nothing changes.
pub fn stock_levels_are_carried_out()
    ensures { StockLevelsAreCarriedOut }
{}
