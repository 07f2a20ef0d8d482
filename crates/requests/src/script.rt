ghost use Rattle.std.specs.Prelude.{◌≡◌, ◌↔◌, ◌≤◌, [], ◌∷◌, ◌++◌, length, IsSome, IfOk, IfSome, OnOk};
ghost use Rattle.requests.specs.Script.{PartsOfRecordsDiffer, part, parts_from, parts_of};

use crate::{Request, TerminalRequest, WarehouseDelivery};
use schema::NoMemory;
use std::alloc::Global;
use std::marker::Model;

/// The maximum number of requests in a script, so that a `u32` numbers each record.
pub const MOST_REQUESTS: usize = 4_294_967_296;

/// One request of a script: a record of it, or one of the ten Deliveries of a record.
#[derive(Debug, PartialEq, Eq, Drop)]
pub struct Part {
    /// The number of its record in the script, from 0, which answers and log entries show.
    pub number: u32,
    pub request: Request,
}

/// The requests of one session, submitted in turn: the parts of its records. The ten Deliveries of a record share
/// its number.
#[derive(Drop)]
pub struct Script {
    parts: Vec<Part>,
}

impl Model for Script {
    ghost use Rattle.std.specs.Prelude.{List, length, ◌≤◌};
    ghost use Rattle.std.specs.Coded.{coded_list};
    ghost use Rattle.requests.specs.declared.script.Part.{Part};
    ghost use Rattle.requests.specs.contracts.script.Part as part;

    ghost Value = { List Part };

    ghost coded = { coded_list part.the_row.coded };

    ghost view = { λ s. s.parts.items };

    ghost invariant = { λ s. length s.parts.items ≤ 4294967296 };
}

impl Script {
    /// Makes a script of these parts; `None` exactly if there are more than `MOST_REQUESTS`. Never
    /// allocates.
    pub fn checked_new(parts: Vec<Part>) -> Option<Script>
        ensures value { IfSome result (λ script. script ≡ parts.items) }
        ensures fits { IsSome result ↔ (length parts.items ≤ MOST_REQUESTS) }
    {
        if parts.len() > MOST_REQUESTS {
            return None;
        }
        Some(Script { parts })
    }

    /// Makes a script of its records: the parts of each, in order. Returns NoMemory if an allocation fails, or
    /// if there are more than `MOST_REQUESTS` parts.
    pub fn of_records(alloc: Global, records: Vec<TerminalRequest>) -> Result<Script, NoMemory>
        ensures { IfOk result (λ script. script ≡ parts_from 0 records.items) }
    {
        if records.len() > MOST_REQUESTS {
            return Err(NoMemory);
        }
        let mut parts = Vec::new(alloc);
        for (number, asked) in records.into_iter().enumerate() {
            push_parts(&mut parts, number as u32, asked)?;
        }
        match Script::checked_new(parts) {
            Some(script) => Ok(script),
            None => Err(NoMemory),
        }
    }

    /// Returns the parts, in order.
    pub fn parts(&self) -> &[Part]
        ensures value { result.now ≡ self.now }
        ensures most { length self.now ≤ MOST_REQUESTS }
    {
        self.parts.as_slice()
    }
}

/// A law (proved, no effect at run time): the parts of a script made from records differ from each other, by their
/// numbers or by the districts of their Deliveries.
pub fn parts_of_records_differ()
    ensures { PartsOfRecordsDiffer }
{}

// Adds the parts of the record with this number.
fn push_parts(parts: &mut Vec<Part>, number: u32, asked: TerminalRequest) -> Result<(), NoMemory>
    ensures { OnOk result (parts.new.items ≡ parts.old.items ++ parts_of number asked) }
{
    match asked {
        TerminalRequest::NewOrder(asked) => push_part(parts, number, Request::NewOrder(asked)),
        TerminalRequest::Payment(asked) => push_part(parts, number, Request::Payment(asked)),
        TerminalRequest::OrderStatus(asked) => push_part(
            parts,
            number,
            Request::OrderStatus(asked),
        ),
        TerminalRequest::Delivery(asked) => push_deliveries(parts, number, &asked),
        TerminalRequest::StockLevel(asked) => push_part(parts, number, Request::StockLevel(asked)),
    }
}

fn push_part(parts: &mut Vec<Part>, number: u32, request: Request) -> Result<(), NoMemory>
    ensures { OnOk result (parts.new.items ≡ parts.old.items ++ (part number request ∷ [])) }
{
    parts.push(Part { number, request })?;
    Ok(())
}

// Adds the Deliveries of the warehouse's districts, in order.
fn push_deliveries(
    parts: &mut Vec<Part>,
    number: u32,
    asked: &WarehouseDelivery,
) -> Result<(), NoMemory>
    ensures { OnOk result
        (parts.new.items ≡ parts.old.items ++ parts_of number (TerminalRequest.Delivery asked.now)) }
{
    for d_id in 1..11 {
        let delivery = asked.of_district(d_id);
        push_part(parts, number, Request::Delivery(delivery))?;
    }
    Ok(())
}
