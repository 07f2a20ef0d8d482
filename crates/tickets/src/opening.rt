ghost use Rattle.std.specs.Prelude.{◌≡◌, ◌*◌, ◌≤◌, IfOk, vec_len, vec_capacity};
ghost use Rattle.tickets.specs.Boxes.{sharing, AreSpent};
ghost use Rattle.tickets.specs.LogSeats.{committed};
ghost use Rattle.tickets.specs.Openings.{AreNamed, boxes_beside, contents_committed, contents_opened};
ghost use Rattle.tickets.specs.Places.{AreInPlace, IsGroupOf};
ghost use Rattle.tickets.specs.Unset.{nothing};

use crate::work::{CommittedContent, Leaves, Work};
use crate::{GroupNames, LogSeat, LogSeats, TicketBox, group_at};
use agreement::{Change, Seat};
use groups::{Content, Mode};
use requests::Group;
use std::alloc::{AllocError, Global};
use std::marker::{Model, PhantomData};

/// The seats of a new group, before `GroupNames` names its agreements.
#[derive(Drop)]
pub struct GroupSeats {
    log: Seat<CommittedContent>,
    tickets: Seat<CommittedContent>,
    work: Seat<Work>,
    spare: Vec<(Seat<CommittedContent>, Seat<Work>)>,
}

impl Model for GroupSeats {
    ghost use Rattle.std.specs.Coded.{codes};
    ghost use Rattle.groups.specs.contracts.content.Content as content;
    ghost use Rattle.tickets.specs.Openings.{OpenedGroup};

    ghost Value = { OpenedGroup };

    ghost coded = { Prim.hlevel (codes, content.the_row.coded) };

    ghost use Rattle.std.specs.Prelude.{◌≤◌, vec_len, vec_capacity};
    ghost use Rattle.tickets.specs.Boxes.{AreSpent};
    ghost use Rattle.tickets.specs.Openings.{opened, AreOpened};

    ghost view = { λ s. opened s.log.agreement.table s.work.agreement.table s.log.value.content };

    ghost invariant = { λ s. AreOpened
        (opened s.log.agreement.table s.work.agreement.table s.log.value.content)
        s.log s.tickets s.work (vec_len s.spare)
        × ((8 ≤ vec_capacity s.spare) × AreSpent s.log.agreement.table s.work.agreement.table s.spare.items) };
}

impl GroupSeats {
    /// Opens the seats of a group. Its content is what `content` makes of a group without rows. Returns
    /// AllocError if an allocation fails.
    pub fn open<C: Change<Content>>(alloc: Global, content: &C) -> Result<GroupSeats, AllocError>
        ensures { IfOk result (λ seats. seats.content ≡ C.changed content.now nothing) }
    {
        let mut work = Seat::open(alloc.clone()?, 9)?;
        work.change(&Leaves { change: content });
        work.change(&Mode::Shared);
        let mut tickets = Seat::open(alloc.clone()?, 10)?;
        tickets.change(&work);
        let mut log = tickets.another()?;
        tickets.give::<1>(&mut log);
        let spare = spent_pairs(alloc, &mut tickets, &mut work)?;
        Ok(GroupSeats {
            log,
            tickets,
            work,
            spare,
        })
    }

    /// Returns the group's ticket box and the log's seat, with the names of their agreements.
    pub fn named<J: GroupNames>(self, group: Group) -> (TicketBox<J>, LogSeat<J>)
        requires known { IsGroupOf J.warehouses group }
        requires committed { J.committed group ≡ self.committed }
        requires work { J.work group ≡ self.work }
        ensures ticket_box { result.0 ≡ sharing group self.content 0 }
        ensures log { result.1 ≡ committed group self.content }
    {
        let GroupSeats {
            log,
            tickets,
            work,
            spare,
        } = self;
        let ticket_box = TicketBox {
            group,
            mode: Mode::Shared,
            shared: 0,
            tickets,
            work,
            spare,
            names: PhantomData,
        };
        let log_seat = LogSeat {
            group,
            seat: log,
            names: PhantomData,
        };
        (ticket_box, log_seat)
    }
}

/// Returns the ticket boxes and the log's seats of all groups, from the seats opened for each place.
/// Returns AllocError if an allocation fails; nothing stays allocated then.
pub fn named_all<J: GroupNames>(
    alloc: Global,
    warehouses: u32,
    openings: Vec<GroupSeats>,
) -> Result<(Vec<TicketBox<J>>, LogSeats<J>), AllocError>
    requires known { J.warehouses ≡ warehouses }
    requires all { vec_len openings ≡ 105 * warehouses }
    requires names { AreNamed warehouses J.committed J.work openings.items }
    ensures places { IfOk result (λ opened. AreInPlace warehouses opened.1) }
    ensures contents { IfOk result (λ opened.
        contents_committed opened.1 ≡ contents_opened openings.items) }
    ensures boxes { IfOk result (λ opened. opened.0.items ≡ boxes_beside opened.1) }
{
    let mut boxes = Vec::with_capacity(alloc.clone()?, openings.len())?;
    let mut seats = Vec::with_capacity(alloc, openings.len())?;
    for opening in openings {
        let group = group_at(warehouses, seats.len());
        let (ticket_box, log_seat) = opening.named::<J>(group);
        boxes.push(ticket_box)?;
        seats.push(log_seat)?;
    }
    Ok((boxes, LogSeats::new(seats)))
}

// Returns eight pairs of spent seats, one for each ticket.
fn spent_pairs(
    alloc: Global,
    tickets: &mut Seat<CommittedContent>,
    work: &mut Seat<Work>,
) -> Result<Vec<(Seat<CommittedContent>, Seat<Work>)>, AllocError>
    requires tickets { tickets.old.agreement.count ≡ 10 }
    requires work { work.old.agreement.count ≡ 9 }
    ensures same { (tickets.new ≡ tickets.old) × (work.new ≡ work.old) }
    ensures eight { IfOk result (λ pairs. vec_len pairs ≡ 8) }
    ensures room { IfOk result (λ pairs. 8 ≤ vec_capacity pairs) }
    ensures spent { IfOk result (λ pairs.
        AreSpent tickets.old.agreement.table work.old.agreement.table pairs.items) }
{
    let mut pairs = Vec::with_capacity(alloc, 8)?;
    for _ in 0..8_usize {
        let pair = (tickets.another()?, work.another()?);
        pairs.push_reserved(pair);
    }
    Ok(pairs)
}
