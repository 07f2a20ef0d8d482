//! Opens an engine over tables, for scripts.
ghost use Rattle.std.specs.Prelude.{◌≡◌, ◌≤◌, ◌<◌, All, IfOk, vec_len};
ghost use Rattle.partitions.specs.Parts.{shared_of};
ghost use Rattle.commit_log.specs.Limits.{AreLimits};
ghost use Rattle.slices.specs.Openings.{AreOpenedFor};
ghost use Rattle.engine.specs.Interactive.{HasAskedNothing};
ghost use Rattle.engine.specs.Opening.{IsNamedFor, IsToOpen};
ghost use Rattle.engine.specs.Sessions.{AreNewFrom};

use crate::asking::Ready;
use crate::belongings::Executor;
use crate::closed_engine::Closing;
use crate::engine::Engine;
use crate::message::Message;
use crate::moves::Moves;
use crate::opening_scale::OpeningScale;
use crate::parking::Parking;
use crate::place::Place;
use crate::{Gate, Idle, ServeNames, ServeOptions, Session};
use closing_word::{Closer, ClosingWord};
use commit_log::{Log, LogBook, LogLimit, Pass, SessionSeat, UnnamedLog};
use executor::{CompletionOwner, CountedShard, PhaseOwner};
use partitions::Catalog;
use queues::Sender;
use range_moves::MoveOrder;
use requests::Script;
use routing::{Routing, SharedRouting};
use rows::SESSIONS;
use schema::{NoMemory, Tables};
use slices::{Slice, cut, open_groups};
use std::alloc::Global;
use std::sync::Mutex;
use std::sync::atomic::{AtomicBool, AtomicU64, AtomicUsize};
use std::vec::IntoIter;
use tickets::{GroupSeats, named_all};
use transactions::home_of_request;

/// The opening tables, and the agreements of an engine before the type parameter identifies their tables.
#[derive(Drop)]
pub struct Opening {
    pub(crate) tables: Tables,
    /// The seats of all groups, by their places.
    pub(crate) groups: Vec<GroupSeats>,
    pub(crate) log: UnnamedLog,
    pub(crate) closing: ClosingWord,
    pub(crate) closer: Closer,
    /// The number of sessions.
    pub(crate) sessions: usize,
}

impl Opening {
    /// Opens the agreements of the tables' groups and of a log without entries, which may have at most `log_limit`, for this many
    /// sessions. Returns NoMemory if an allocation fails; nothing is left then.
    pub fn open(
        alloc: Global,
        tables: Tables,
        sessions: usize,
        log_limit: LogLimit,
    ) -> Result<Opening, NoMemory>
        ensures tables { IfOk result (λ opening. opening.tables ≡ tables) }
        ensures groups { IfOk result (λ opening. AreOpenedFor tables opening.groups.items) }
        ensures closer { IfOk result (λ opening. opening.closer ≡ opening.closing) }
        ensures sessions { IfOk result (λ opening. opening.sessions ≡ sessions) }
        ensures limit { IfOk result (λ opening. opening.log.most ≡ log_limit) }
    {
        let groups = open_groups(alloc, &tables)?;
        let log = UnnamedLog::with_limit(alloc, log_limit)?;
        let (closing, closer) = ClosingWord::open(alloc)?;
        Ok(Opening {
            tables,
            groups,
            log,
            closing,
            closer,
            sessions,
        })
    }
}

/// The senders into each inbox that are not given away yet.
type Senders<J> = Vec<IntoIter<Sender<Message<J>>>>;

/// An opened engine: the state that its threads share, the executors, the catalog that the tables' slices share, and the sessions
/// without a script.
#[derive(Drop)]
pub struct Opened<'a, J: ServeNames, G: Gate> {
    pub engine: Engine<'a, J, G>,
    pub executors: Vec<Executor<J>>,
    pub catalog: Catalog,
    /// The sessions that ask interactively, in the order of their numbers.
    pub sessions: Vec<Session<J>>,
    /// The sessions that are not used.
    pub idle: Idle<J>,
}

/// Opens an engine over the opening's tables, for the scripts of the options. Session s asks script s; the sessions after these, up
/// to the number of the opening, ask interactively. If there can't be one of the moves (`MoveOrder::is_within`), the executors may
/// never end.
/// Returns NoMemory if an allocation fails; nothing is left then.
pub fn open<'a, J: ServeNames, G: Gate + Drop>(
    alloc: Global,
    opening: Opening,
    options: &ServeOptions<'a>,
    gate: G,
) -> Result<Opened<'a, J, G>, NoMemory>
    requires limits { AreLimits options.now.limits }
    requires named { IsNamedFor J.LogNames J.GroupNames J.scripts J.closing
        options.now.scripts.now opening }
    requires some { 1 ≤ options.now.executors }
    requires most { opening.sessions ≤ SESSIONS }
    ensures catalog { IfOk result (λ opened. opened.catalog ≡ shared_of opening.tables) }
    ensures idle { IfOk result (λ opened. opened.idle.first ≡ opening.sessions) }
    ensures sessions { IfOk result (λ opened. All HasAskedNothing opened.sessions.items) }
{
    let Opening {
        tables,
        groups,
        log,
        closing,
        closer,
        sessions: count,
    } = opening;
    let scripts = options.scripts;
    let scale = tables.scale();
    let routing = Routing::opening(&scale, options.executors);
    let (boxes, seats) = named_all::<J>(alloc, scale.warehouses, groups)?;
    let (catalog, slices) = cut(alloc, tables, boxes)?;
    let interactive = count.saturating_sub(scripts.len());
    let (mut executors, mut senders) = open_idle(
        alloc,
        options.executors,
        scale.warehouses,
        options.limits.inbox as usize,
        interactive as u32,
    )?;
    open_shards(alloc, &mut executors, &routing, slices)?;
    begin_sessions(&mut executors, &routing, scripts)?;
    let moves = Moves::new(options.moves);
    if let Some(order) = moves.begin_next() {
        begin_move(&mut executors, order)?;
    }
    let parkings = parkings_for(alloc, executors.len())?;
    let (book, lanes) = LogBook::<J>::open(alloc, log)?;
    let mut log = Log::new(book, seats);
    log.reserve(requests_in(scripts))?;
    let Seated {
        places,
        sessions,
        idle,
    } = open_places(alloc, lanes, count, scripts, &mut senders, options.tries)?;
    let engine = Engine {
        scale: OpeningScale::new(scale),
        scripts,
        tries: options.tries,
        routing: SharedRouting::open(alloc, &routing)?,
        moves,
        gate,
        log: Mutex::new(log),
        unserved: AtomicUsize::new(places.len()),
        places,
        parkings,
        waiters: parkings_for(alloc, sessions.len())?,
        ages: AtomicU64::new(0),
        is_stopped: AtomicBool::new(false),
        closing: Closing::new(closing, closer),
    };
    Ok(Opened {
        engine,
        executors,
        catalog,
        sessions,
        idle,
    })
}

// The number of requests of all scripts.
fn requests_in(scripts: &[Script]) -> usize {
    let mut count: usize = 0;
    for script in scripts {
        count = count.saturating_add(script.parts().len());
    }
    count
}

// Gives each executor the shards of its warehouses.
fn open_shards<J: ServeNames>(
    alloc: Global,
    executors: &mut Vec<Executor<J>>,
    routing: &Routing,
    slices: Vec<Slice<J>>,
) -> Result<(), NoMemory>
    requires { All (IsToOpen J.opening) slices.items }
{
    for slice in slices {
        let shard = Box::new(alloc, CountedShard::new(alloc, slice))?;
        let to = routing.route(shard.home()) as usize;
        put_shard(executors, to, shard);
    }
    Ok(())
}

// Gives an executor this shard. `close` finds a shard that no executor has.
fn put_shard<J: ServeNames>(
    executors: &mut Vec<Executor<J>>,
    to: usize,
    shard: Box<CountedShard<J>>,
) {
    if let Some(executor) = executors.get_mut(to) {
        executor.shards.put(shard);
    }
}

// Queues each session at the executor of the warehouse whose terminal asks its first request.
fn begin_sessions<J: ServeNames>(
    executors: &mut Vec<Executor<J>>,
    routing: &Routing,
    scripts: &[Script],
) -> Result<(), NoMemory> {
    for (slot, script) in scripts.iter().enumerate() {
        let to = match script.parts().first() {
            Some(part) => routing.route(home_of_request(&part.request)),
            None => 0,
        };
        if let Some(executor) = executors.get_mut(to as usize) {
            executor.get_ready(slot, 0)?;
        }
    }
    Ok(())
}

// Begins the first move at the executor to which it goes.
fn begin_move<J: ServeNames>(
    executors: &mut Vec<Executor<J>>,
    order: MoveOrder,
) -> Result<(), NoMemory> {
    match executors.get_mut(order.to as usize) {
        Some(executor) => Ok(executor.lane.push_back(Message::Move(order))?),
        None => Ok(()),
    }
}

// Opens this many executors, each with its inbox and without shards; also returns further senders into each inbox, for this many
// sessions.
fn open_idle<J: ServeNames>(
    alloc: Global,
    count: u32,
    warehouses: u32,
    room: usize,
    sessions: u32,
) -> Result<(Vec<Executor<J>>, Senders<J>), NoMemory>
    requires { 0 < room }
{
    let mut inboxes = Vec::with_capacity(alloc, count as usize)?;
    let mut senders = Vec::with_capacity(alloc, count as usize)?;
    for _ in 0..count {
        let (into_one, inbox) = queues::open::<Message<J>>(
            alloc,
            room,
            count.saturating_add(sessions),
        )?;
        inboxes.push(inbox)?;
        senders.push(into_one.into_iter())?;
    }
    let mut executors = Vec::with_capacity(alloc, count as usize)?;
    for (number, inbox) in (0..count).zip(inboxes) {
        let outlets = next_of_each(alloc, &mut senders)?;
        executors.push(Executor::open(alloc, number, warehouses, inbox, outlets)?)?;
    }
    Ok((executors, senders))
}

// The next sender into each inbox.
fn next_of_each<T: Drop>(
    alloc: Global,
    senders: &mut Vec<IntoIter<Sender<T>>>,
) -> Result<Vec<Sender<T>>, NoMemory> {
    let mut next = Vec::with_capacity(alloc, senders.len())?;
    for into_one in senders.iter_mut() {
        if let Some(sender) = into_one.next() {
            next.push(sender)?;
        }
    }
    Ok(next)
}

// A parking place for each executor.
fn parkings_for(alloc: Global, executors: usize) -> Result<Vec<Parking>, NoMemory> {
    let mut parkings = Vec::with_capacity(alloc, executors)?;
    for _ in 0..executors {
        parkings.push(Parking::new())?;
    }
    Ok(parkings)
}

/// The sessions and their places.
#[derive(Drop)]
struct Seated<'a, J: ServeNames> {
    places: Vec<Mutex<Place<'a, J>>>,
    sessions: Vec<Session<J>>,
    idle: Idle<J>,
}

// Makes a place for each of so many sessions, with the meetings of its transactions: first for the sessions that have a script, then
// for those that ask interactively.
fn open_places<'a, J: ServeNames>(
    alloc: Global,
    lanes: Vec<(Pass<J>, SessionSeat<J>)>,
    count: usize,
    scripts: &'a [Script],
    senders: &mut Senders<J>,
    tries: u32,
) -> Result<Seated<'a, J>, NoMemory>
    requires scripts { J.scripts ≡ scripts.now }
    requires new { AreNewFrom 0 lanes.items }
    requires all { vec_len lanes ≡ SESSIONS }
    requires most { count ≤ SESSIONS }
    ensures idle { IfOk result (λ seated. seated.idle.first ≡ count) }
    ensures sessions { IfOk result (λ seated. All HasAskedNothing seated.sessions.items) }
{
    let mut lanes = lanes.into_iter();
    let mut places = Vec::with_capacity(alloc, count)?;
    let mut sessions = Vec::new(alloc);
    for slot in 0..count {
        let Some((pass, seat)) = lanes.next() else {
            unreachable!()
        };
        let phase_owner = PhaseOwner::open(alloc, slot)?;
        let completion = CompletionOwner::open(alloc, slot)?;
        let place = match scripts.get(slot) {
            Some(script) => {
                let ready = Ready::open(alloc, script, pass, seat, tries)?;
                Place::new(ready, phase_owner, completion)
            }
            None => {
                let outlets = next_of_each(alloc, senders)?;
                sessions.push(Session::new(alloc, pass, seat, outlets))?;
                Place::free(phase_owner, completion)
            }
        };
        places.push(Mutex::new(place))?;
    }
    let idle = Idle {
        first: count,
        lanes,
    };
    Ok(Seated {
        places,
        sessions,
        idle,
    })
}
