//! An action in flight, what it keeps while it waits, and its report.
ghost use Rattle.std.specs.Prelude.{◌≡◌};
ghost use Rattle.transactions.specs.Works.{home_of};

use crate::{Flow, PhasePlace};
use commit_log::Names;
use std::marker::Model;
use transactions::{Ran, Work};
use wait_die::Holder;

/// The message that carries an action to the executor that has its warehouse.
///
/// Contracts see the holder as which it asks for locks; its number in its phase, from 0; its work; the slot of its transaction;
/// its phase; and the transaction, if it carries it. Invariant: this is the work of its number in the phase, and the work can be
/// done; the first action of a phase carries the transaction, and no other does.
#[derive(Drop)]
pub struct Act<J: Names> {
    pub(crate) by: Holder,
    pub(crate) work: Work,
    pub(crate) place: PhasePlace<J>,
    pub(crate) flow: Option<Flow<J>>,
}

impl<J: Names> Model for Act<J> {
    ghost use Rattle.std.specs.Coded.{codes};
    ghost use Rattle.groups.specs.contracts.content.Content as content;
    ghost use Rattle.executor.specs.Carrying.{ActView};

    ghost Value = { ActView };

    ghost coded = { Prim.hlevel (codes, content.the_row.coded) };

    ghost use Rattle.partitions.specs.Parts.{shared_of};
    ghost use Rattle.executor.specs.Carrying.{CarriesAct, act_view};

    ghost view = { λ e. act_view e.by e.work e.place e.flow };

    ghost invariant = { λ e. CarriesAct (shared_of J.opening) (act_view e.by e.work e.place e.flow) };
}

impl<J: Names> Act<J> {
    /// The W_ID of the warehouse at which it does its work.
    pub fn home(&self) -> u32
        ensures { result ≡ home_of self.now.work }
    {
        self.work.home()
    }

    /// The holder as which it asks for locks: its transaction's age, and its place among all actions of the transaction.
    pub fn by(&self) -> Holder
        ensures { result ≡ self.now.by }
    {
        self.by
    }
}

/// What a waiting action keeps beside its work.
#[derive(Drop)]
pub struct Carried<J: Names> {
    pub(crate) place: PhasePlace<J>,
    pub(crate) flow: Option<Flow<J>>,
}

/// What an action reports to its phase.
///
/// Contracts see its number in its phase, its result, the slot of its transaction, the phase, and the transaction, if the report
/// carries it. Invariant: this is the result of the work of its number in the phase; the report of the first action carries the
/// transaction, and no other does.
#[derive(Drop)]
pub struct Report<J: Names> {
    pub(crate) ran: Ran<J>,
    pub(crate) place: PhasePlace<J>,
    pub(crate) flow: Option<Flow<J>>,
}

impl<J: Names> Model for Report<J> {
    ghost use Rattle.std.specs.Coded.{codes};
    ghost use Rattle.groups.specs.contracts.content.Content as content;
    ghost use Rattle.executor.specs.Carrying.{ReportView};

    ghost Value = { ReportView J };

    ghost coded = { Prim.hlevel (codes, content.the_row.coded) };

    ghost use Rattle.partitions.specs.Parts.{shared_of};
    ghost use Rattle.executor.specs.Carrying.{CarriesReport, report_view};

    ghost view = { λ r. report_view r.ran r.place r.flow };

    ghost invariant = { λ r. CarriesReport (shared_of J.opening) (report_view r.ran r.place r.flow) };
}

impl<J: Names> Report<J> {
    /// The slot of its transaction.
    pub fn slot(&self) -> usize
        ensures { result ≡ self.now.slot }
    {
        self.place.slot()
    }
}
