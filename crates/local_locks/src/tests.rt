ghost use Rattle.std.specs.Prelude.{◌≡◌, ◌<◌, ◌≤◌, IfOk, vec_len};
ghost use Rattle.tickets.specs.Openings.{AreNamed};
ghost use Rattle.local_locks.specs.GroupWants.{AreApart, CanAsk, IsOwn};

mod contents;
mod entries;

use crate::*;
use agreement::Change;
use groups::{Content, Extent, Kind, Mode, Prefix, Want};
use requests::Group;
use schema::NoMemory;
use std::alloc::Global;
use std::marker::{Brand, Model};
use std::process::Abort;
use std::test::Fail;
use tickets::{Claim, GROUPS_PER_WAREHOUSE, GroupNames, GroupSeats, named_all};
use wait_die::{Age, Holder};

// Each group has no row.
struct NoRow;

impl Change<Content> for NoRow {
    ghost use Rattle.std.specs.Prelude.{None};
    ghost use Rattle.groups.specs.Content.Content.{OfWarehouse};

    ghost changed = { λ none before. OfWarehouse None };
}

// Claims that are out, and their holder.
#[derive(Drop)]
struct Grant<J: GroupNames> {
    by: Holder,
    claims: Vec<Claim<J>>,
}

impl<J: GroupNames> Model for Grant<J> {
    ghost use Rattle.std.specs.Prelude.{List};
    ghost use Rattle.std.specs.Coded.{codes};
    ghost use Rattle.groups.specs.contracts.content.Content as content;
    ghost use Rattle.tickets.specs.Claims.{ClaimView};
    ghost use Rattle.wait_die.specs.declared.deciding.Holder.{Holder as AnyHolder};

    ghost Value = { AnyHolder × List ClaimView };

    ghost coded = { Prim.hlevel (codes, content.the_row.coded) };

    ghost view = { λ g. (g.by, g.claims.items) };
}

// A table with all its claims that are out. In contracts: the number of grants.
#[derive(Drop)]
struct Trial<J: GroupNames> {
    table: LockTable<J>,
    out: Vec<Grant<J>>,
}

impl<J: GroupNames> Model for Trial<J> {
    ghost use Rattle.std.specs.Prelude.{◌≡◌, ℕ, vec_len};
    ghost use Rattle.local_locks.specs.Trials.{AreOut};

    ghost Value = { ℕ };

    ghost view = { λ t. vec_len t.out };

    ghost invariant = { λ t. AreOut t.table t.out.items };
}

// The answer to an action that asks, or whose turn it is: the number of claims granted, if any.
#[derive(Clone, Copy, Debug, PartialEq, Eq)]
enum Said {
    Granted(usize),
    Waits,
    Dies(Group, Age),
}

impl<J: GroupNames> Trial<J> {
    fn open(alloc: Global, openings: Vec<GroupSeats>) -> Result<Trial<J>, NoMemory>
        requires known { J.warehouses ≡ 1 }
        requires all { vec_len openings ≡ 105 }
        requires names { AreNamed 1 J.committed J.work openings.items }
    {
        let (boxes, _seats) = named_all::<J>(alloc.clone()?, 1, openings)?;
        Ok(Trial {
            table: LockTable::open(alloc.clone()?, 1, boxes)?,
            out: Vec::new(alloc),
        })
    }

    fn ask(&mut self, alloc: Global, by: Holder, wants: &[Want]) -> Result<Said, NoMemory>
        requires { CanAsk J.warehouses 1 wants.now }
    {
        self.out.reserve(1)?;
        match self.table.ask(alloc, by, wants)? {
            Asked::Granted(claims) => {
                let count = claims.len();
                self.out.push_reserved(Grant { by, claims });
                Ok(Said::Granted(count))
            }
            Asked::Waits => Ok(Said::Waits),
            Asked::Dies { group, holder } => Ok(Said::Dies(group, holder)),
        }
    }

    fn ask_for(&mut self, alloc: Global, by: Holder, want: Want) -> Result<Said, NoMemory>
        requires { IsOwn J.warehouses 1 want }
    {
        self.ask(alloc, by, &[want])
    }

    fn ask_for_both(
        &mut self,
        alloc: Global,
        by: Holder,
        first: Want,
        second: Want,
    ) -> Result<Said, NoMemory>
        requires first { IsOwn J.warehouses 1 first }
        requires second { IsOwn J.warehouses 1 second }
        requires apart { AreApart first second }
    {
        self.ask(alloc, by, &[first, second])
    }

    fn next_grant(&mut self) -> Result<Option<(Holder, Said)>, NoMemory> {
        self.out.reserve(1)?;
        let Some(turn) = self.table.next_grant() else {
            return Ok(None);
        };
        match turn {
            Turn::Granted { by, claims, .. } => {
                let count = claims.len();
                self.out.push_reserved(Grant { by, claims });
                Ok(Some((by, Said::Granted(count))))
            }
            Turn::Dies {
                by,
                group,
                holder,
                ..
            } => Ok(Some((by, Said::Dies(group, holder)))),
        }
    }

    // Gives the claims of one grant back. Returns their holder.
    fn give_back(&mut self, index: usize) -> Holder
        requires { index < self.old }
    {
        let Grant { by, claims } = self.out.swap_remove(index);
        // All claims that are out are on groups of the warehouse.
        self.table.agree();
        self.table.give_back(claims);
        by
    }

    fn count(&self) -> usize
        ensures { result ≡ self.now }
    {
        self.out.len()
    }
}

fn one(group: Group, mode: Mode) -> Want
    ensures { result ≡ record { extent = Extent.One group; mode = mode } }
{
    Want {
        extent: Extent::One(group),
        mode,
    }
}

fn every(kind: Kind, mode: Mode) -> Want
    ensures { result
        ≡ record { extent = Extent.Every (record { kind = kind; w_id = 1 }); mode = mode } }
{
    Want {
        extent: Extent::Every(Prefix { kind, w_id: 1 }),
        mode,
    }
}

// The openings of the groups of a warehouse.
fn one_warehouse(alloc: Global) -> Result<Vec<GroupSeats>, NoMemory>
    ensures { IfOk result (λ openings. vec_len openings ≡ 105) }
{
    let mut openings = Vec::new(alloc.clone()?);
    for _ in 0..GROUPS_PER_WAREHOUSE {
        openings.push(GroupSeats::open(alloc.clone()?, &NoRow)?)?;
    }
    Ok(openings)
}

// The ninth shared claim waits for the youngest holder, or dies of the oldest.
fn nine_share<J: GroupNames>(
    rt: &impl Abort,
    alloc: Global,
    openings: Vec<GroupSeats>,
) -> Result<(), NoMemory>
    requires known { J.warehouses ≡ 1 }
    requires all { vec_len openings ≡ 105 }
    requires names { AreNamed 1 J.committed J.work openings.items }
{
    let mut trial = Trial::<J>::open(alloc.clone()?, openings)?;
    let customers = Group::Customers { w_id: 1, d_id: 1 };
    let want = one(customers, Mode::Shared);
    for age in 1..=8 {
        let said = trial.ask_for(alloc.clone()?, Holder { age, place: 0 }, want)?;
        assert_eq!(rt; said, Said::Granted(1));
    }
    let ninth = trial.ask_for(alloc.clone()?, Holder { age: 9, place: 0 }, want)?;
    assert_eq!(rt; ninth, Said::Dies(customers, 1));
    let oldest = trial.ask_for(alloc, Holder { age: 0, place: 0 }, want)?;
    assert_eq!(rt; oldest, Said::Waits);
    assert_eq!(rt; trial.next_grant()?, None);
    assert_eq!(rt; trial.count(), 8);
    let third = trial.give_back(2);
    assert_eq!(rt; third, Holder { age: 3, place: 0 });
    let turn = (Holder { age: 0, place: 0 }, Said::Granted(1));
    assert_eq!(rt; trial.next_grant()?, Some(turn));
    assert_eq!(rt; trial.next_grant()?, None);
    Ok(())
}

#[test]
fn nine_ask_for_eight_tickets(rt: HostRuntime) -> Result<(), Fail> {
    let openings = one_warehouse(rt.alloc())?;
    nine_share::<Brand>(&rt, rt.alloc(), openings)?;
    Ok(())
}

// All claims that are out and all waiting actions, as two plain lists.
#[derive(Drop)]
struct Plain {
    holdings: Vec<(Holder, Group, Mode)>,
    waiters: Vec<(Holder, Vec<Want>)>,
}

impl Plain {
    // Returns the answer to an action with these wants, from all claims.
    fn said(&self, by: Holder, wants: &[Want]) -> Said {
        let mut said = Said::Granted(count_of(wants));
        for (holder, group, mode) in &self.holdings {
            if wants
                .iter()
                .any(|want| self.conflicts(*want, *group, *mode))
            {
                said = worse(said, by, *holder, *group);
            }
        }
        said
    }

    fn conflicts(&self, want: Want, group: Group, mode: Mode) -> bool {
        let shared = |held: &&(Holder, Group, Mode)| held.1 == group && held.2 == Mode::Shared;
        let is_full = self.holdings.iter().filter(shared).count() == 8;
        let is_exclusive = want.mode == Mode::Exclusive || mode == Mode::Exclusive;
        want.covers(group) && (is_exclusive || is_full)
    }

    // Returns the oldest of the actions that need not wait, of one age the one of the least place, and
    // the answer.
    fn next_grant(&mut self) -> Result<Option<(Holder, Said)>, NoMemory> {
        let mut next: Option<(usize, Holder, Said)> = None;
        for (index, (by, wants)) in self.waiters.iter().enumerate() {
            let said = self.said(*by, wants);
            let is_first = match next {
                Some((_, other, _)) => (by.age, by.place) < (other.age, other.place),
                None => true,
            };
            if is_first && said != Said::Waits {
                next = Some((index, *by, said));
            }
        }
        let Some((index, by, said)) = next else {
            return Ok(None);
        };
        if index < self.waiters.len() {
            let (_, wants) = self.waiters.remove(index);
            if let Said::Granted(_) = said {
                self.grant(by, &wants)?;
            }
        }
        Ok(Some((by, said)))
    }

    fn asked(
        &mut self,
        alloc: Global,
        by: Holder,
        wants: &[Want],
        said: Said,
    ) -> Result<(), NoMemory> {
        match said {
            Said::Granted(_) => self.grant(by, wants),
            Said::Waits => Ok(self.waiters.push((by, Vec::from_slice(alloc, wants)?))?),
            Said::Dies(..) => Ok(()),
        }
    }

    fn grant(&mut self, by: Holder, wants: &[Want]) -> Result<(), NoMemory> {
        for want in wants {
            match want.extent {
                Extent::One(group) => self.holdings.push((by, group, want.mode))?,
                Extent::Every(prefix) => {
                    for d_id in 1..=10 {
                        let group = group_of(prefix.kind, d_id);
                        self.holdings.push((by, group, want.mode))?;
                    }
                }
            }
        }
        Ok(())
    }
}

// The groups of a district that the random runs claim by prefixes.
fn group_of(kind: Kind, d_id: u32) -> Group {
    match kind {
        Kind::Orders => Group::Orders { w_id: 1, d_id },
        _ => Group::Customers { w_id: 1, d_id },
    }
}

fn count_of(wants: &[Want]) -> usize {
    let mut count = 0_usize;
    for want in wants {
        let more = match want.extent {
            Extent::One(_) => 1,
            Extent::Every(_) => 10,
        };
        count = count.saturating_add(more);
    }
    count
}

// Returns the answer with one more holder in conflict.
fn worse(said: Said, by: Holder, holder: Holder, group: Group) -> Said {
    if holder.age > by.age {
        return match said {
            Said::Granted(_) => Said::Waits,
            _ => said,
        };
    }
    match said {
        Said::Dies(first, oldest) if (first, oldest) <= (group, holder.age) => said,
        _ => Said::Dies(group, holder.age),
    }
}

#[derive(Drop)]
struct Random(u64);

impl Random {
    fn below(&mut self, count: u32) -> u32
        requires { 0 < count }
        ensures { result < count }
    {
        let next = self.0.wrapping_mul(6_364_136_223_846_793_005);
        self.0 = next.wrapping_add(1_442_695_040_888_963_407);
        (self.0 >> 33) as u32 % count
    }

    fn mode(&mut self) -> Mode {
        if self.below(8) == 0 {
            Mode::Exclusive
        } else {
            Mode::Shared
        }
    }
}

// Asks for one group, all of a prefix, or the two groups that a new order claims first.
fn ask_at_random<J: GroupNames>(
    rt: &impl Abort,
    alloc: Global,
    trial: &mut Trial<J>,
    plain: &mut Plain,
    random: &mut Random,
    by: Holder,
) -> Result<(), NoMemory>
    requires { J.warehouses ≡ 1 }
{
    let d_id = 1 + random.below(3);
    let mode = random.mode();
    let customers = Group::Customers { w_id: 1, d_id };
    let choice = random.below(8);
    if choice == 0 {
        let first = one(Group::Warehouse { w_id: 1 }, Mode::Shared);
        let second = one(Group::District { w_id: 1, d_id }, mode);
        let wants = [first, second];
        let expected = plain.said(by, &wants);
        let said = trial.ask_for_both(alloc.clone()?, by, first, second)?;
        assert_eq!(rt; said, expected, "{by:?} asked for {wants:?}");
        return plain.asked(alloc, by, &wants, said);
    }
    let want = match choice {
        1 => every(Kind::Customers, mode),
        2 => every(Kind::Orders, Mode::Shared),
        3 => one(Group::Orders { w_id: 1, d_id }, mode),
        _ => one(customers, mode),
    };
    let wants = [want];
    let expected = plain.said(by, &wants);
    let said = trial.ask_for(alloc.clone()?, by, want)?;
    assert_eq!(rt; said, expected, "{by:?} asked for {wants:?}");
    plain.asked(alloc, by, &wants, said)
}

// Grants turns until all waiting actions have to wait.
fn take_turns<J: GroupNames>(
    rt: &impl Abort,
    trial: &mut Trial<J>,
    plain: &mut Plain,
) -> Result<(), NoMemory> {
    let count = plain.waiters.len();
    for _ in 0..=count {
        let expected = plain.next_grant()?;
        assert_eq!(rt; trial.next_grant()?, expected);
        if expected.is_none() {
            break;
        }
    }
    Ok(())
}

fn run_at_random<J: GroupNames>(
    rt: &impl Abort,
    alloc: Global,
    openings: Vec<GroupSeats>,
    seed: u64,
) -> Result<(), NoMemory>
    requires known { J.warehouses ≡ 1 }
    requires all { vec_len openings ≡ 105 }
    requires names { AreNamed 1 J.committed J.work openings.items }
{
    let mut trial = Trial::<J>::open(alloc.clone()?, openings)?;
    let mut plain = Plain {
        holdings: Vec::new(alloc.clone()?),
        waiters: Vec::new(alloc.clone()?),
    };
    let mut random = Random(seed);
    for place in 0..2000_usize {
        let age = u64::from(random.below(20));
        let count = trial.count();
        if count > 0 && random.below(2) == 0 {
            let back = trial.give_back(age as usize % count);
            plain.holdings.retain(|held| held.0 != back);
        } else {
            let by = Holder { age, place };
            ask_at_random(rt, alloc.clone()?, &mut trial, &mut plain, &mut random, by)?;
        }
        take_turns(rt, &mut trial, &mut plain)?;
    }
    Ok(())
}

#[test]
fn random_runs_are_those_of_plain_lists(rt: HostRuntime) -> Result<(), Fail> {
    for seed in 1..=5 {
        let openings = one_warehouse(rt.alloc())?;
        run_at_random::<Brand>(&rt, rt.alloc(), openings, seed)?;
    }
    Ok(())
}
