ghost use Rattle.std.specs.Prelude.{◌≡◌, ◌<◌, ◌==◌, ◌++◌, ◌&&◌, [], IfOk, OnOk, map, count_by};
ghost use Rattle.std.specs.List.{zip};
ghost use Rattle.std.specs.Option.{option_map};
ghost use Rattle.tpcc.specs.Tally.{kind_number, is_name, chooses_by_name, rollback_number, end_number, entry_number, answer_number};

use commit_log::Entry;
use requests::{Choice, Fault, Part, Refusal, Reply, Request};
use schema::NoMemory;
use std::alloc::Global;

/// How many kinds of requests there are.
pub const KINDS: u8 = 5;

/// How many ends there are: done, rolled back, refused with each number from 1 to 14, and rolled back because no
/// customer has the last name.
pub const ENDS: u8 = 17;

/// The last end: rolled back because no customer has the last name.
pub const NOBODY: u8 = 16;

/// The kind and the end of each counted request.
#[derive(Debug, Drop)]
pub struct Tally {
    kinds: Vec<u8>,
    ends: Vec<u8>,
}

impl Tally {
    /// A tally of no requests.
    pub fn new(alloc: Global) -> Tally
        ensures { (result.kinds.items ≡ []) × (result.ends.items ≡ []) }
    {
        Tally {
            kinds: Vec::new(alloc),
            ends: Vec::new(alloc),
        }
    }

    /// A tally of the parts of a script and their answers, in the same order. An answer is the place of an entry in `log`, or a
    /// refusal. Returns NoMemory if an allocation fails.
    pub fn of_answers(
        alloc: Global,
        parts: &[Part],
        answers: &[Result<u32, Refusal>],
        log: &[Entry],
    ) -> Result<Tally, NoMemory>
        ensures kinds { IfOk result
            (λ tally. tally.kinds.items ≡ map (λ part. kind_number part.request) parts.now) }
        ensures ends { IfOk result
            (λ tally. tally.ends.items ≡ map (answer_number log.now) answers.now) }
    {
        Ok(Tally {
            kinds: kinds_of(alloc, parts)?,
            ends: ends_of(alloc, answers, log)?,
        })
    }

    /// A tally of the entries of a log, none of which was refused. Returns NoMemory if an allocation fails.
    pub fn of_entries(alloc: Global, entries: &[Entry]) -> Result<Tally, NoMemory>
        ensures kinds { IfOk result
            (λ tally. tally.kinds.items ≡ map (λ entry. kind_number entry.request) entries.now) }
        ensures ends { IfOk result (λ tally. tally.ends.items ≡ map end_number entries.now) }
    {
        Ok(Tally {
            kinds: entry_kinds_of(alloc, entries)?,
            ends: entry_ends_of(alloc, entries)?,
        })
    }

    /// Adds what another tally has counted. Returns NoMemory if an allocation fails; nothing is promised of the tally
    /// then.
    pub fn add(&mut self, other: &Tally) -> Result<(), NoMemory>
        ensures kinds { OnOk result
            (self.new.kinds.items ≡ self.old.kinds.items ++ other.now.kinds.items) }
        ensures ends { OnOk result
            (self.new.ends.items ≡ self.old.ends.items ++ other.now.ends.items) }
    {
        self.kinds.extend_from_slice(other.kinds.as_slice())?;
        self.ends.extend_from_slice(other.ends.as_slice())
    }

    /// How many requests were counted.
    pub fn len(&self) -> usize {
        self.ends.len()
    }

    /// How many requests of that kind, from 0, had that end: 0 done, 1 rolled back, one more than its number for a
    /// refusal, and `NOBODY` rolled back because no customer has the last name of the request.
    pub fn count(&self, kind: u8, end: u8) -> usize
        ensures { result ≡ count_by (λ it. (it.0 == kind) && (it.1 == end))
            (zip self.now.kinds.items self.now.ends.items) }
    {
        self.kinds
            .iter()
            .zip(self.ends.iter())
            .filter(|it| *it.0 == kind && *it.1 == end)
            .count()
    }
}

fn kinds_of(alloc: Global, parts: &[Part]) -> Result<Vec<u8>, NoMemory>
    ensures { IfOk result
        (λ kinds. kinds.items ≡ map (λ part. kind_number part.request) parts.now) }
{
    parts
        .iter()
        .map(|it| kind_number(&it.request))
        .collect(alloc)
}

fn ends_of(
    alloc: Global,
    answers: &[Result<u32, Refusal>],
    log: &[Entry],
) -> Result<Vec<u8>, NoMemory>
    ensures { IfOk result (λ ends. ends.items ≡ map (answer_number log.now) answers.now) }
{
    let mut ends = Vec::with_capacity(alloc, answers.len())?;
    for answer in answers {
        ends.push(answer_number(answer, log))?;
    }
    Ok(ends)
}

fn entry_kinds_of(alloc: Global, entries: &[Entry]) -> Result<Vec<u8>, NoMemory>
    ensures { IfOk result
        (λ kinds. kinds.items ≡ map (λ entry. kind_number entry.request) entries.now) }
{
    let mut kinds = Vec::with_capacity(alloc, entries.len())?;
    for entry in entries {
        kinds.push(kind_number(&entry.request))?;
    }
    Ok(kinds)
}

fn entry_ends_of(alloc: Global, entries: &[Entry]) -> Result<Vec<u8>, NoMemory>
    ensures { IfOk result (λ ends. ends.items ≡ map end_number entries.now) }
{
    let mut ends = Vec::with_capacity(alloc, entries.len())?;
    for entry in entries {
        ends.push(end_number(entry))?;
    }
    Ok(ends)
}

fn kind_number(request: &Request) -> u8
    ensures kind { result ≡ kind_number request.now }
    ensures few { result < KINDS }
{
    match request {
        Request::NewOrder(_) => 0,
        Request::Payment(_) => 1,
        Request::OrderStatus(_) => 2,
        Request::Delivery(_) => 3,
        Request::StockLevel(_) => 4,
    }
}

#[tactic(auto, unfolding(crate::specs::Tally::answer_number))]
fn answer_number(answer: &Result<u32, Refusal>, log: &[Entry]) -> u8
    ensures end { result ≡ answer_number log.now answer.now }
    ensures few { result < ENDS }
{
    match answer {
        Ok(place) => entry_number(log.get(*place as usize)),
        Err(refusal) => 1 + refusal.number(),
    }
}

#[tactic(auto, unfolding(crate::specs::Tally::entry_number))]
fn entry_number(entry: Option<&Entry>) -> u8
    ensures end { result ≡ entry_number (option_map (λ e. e.now) entry.entry) }
    ensures few { result < ENDS }
{
    match entry {
        Some(entry) => end_number(entry),
        None => 0,
    }
}

fn end_number(entry: &Entry) -> u8
    ensures end { result ≡ end_number entry.now }
    ensures few { result < ENDS }
{
    match &entry.reply {
        Reply::Done(_) => 0,
        Reply::RolledBack(fault) => rollback_number(chooses_by_name(&entry.request), fault),
    }
}

fn rollback_number(by_name: bool, fault: &Fault) -> u8
    ensures end { result ≡ rollback_number by_name fault.now }
    ensures few { result < ENDS }
{
    match fault {
        Fault::NoCustomer => { if by_name { NOBODY } else { 1 } }
        Fault::NoItem { .. } | Fault::Range => 1,
    }
}

// Whether the request chooses its customer by last name.
fn chooses_by_name(request: &Request) -> bool
    ensures { result ≡ chooses_by_name request.now }
{
    match request {
        Request::Payment(payment) => is_name(&payment.customer),
        Request::OrderStatus(asked) => is_name(&asked.customer),
        Request::NewOrder(_) | Request::Delivery(_) | Request::StockLevel(_) => false,
    }
}

fn is_name(choice: &Choice) -> bool
    ensures { result ≡ is_name choice.now }
{
    match choice {
        Choice::Number(_) => false,
        Choice::LastName(_) => true,
    }
}
