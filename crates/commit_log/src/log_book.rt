ghost use Rattle.std.specs.Prelude.{◌≡◌, ◌+◌, ◌-◌, ◌^◌, ◌<◌, ◌≤◌, ◌↔◌, ℕ, [], ◌∷◌, ◌++◌, length, All, Some, IfOk, OnOk, IfErr, slice_get, vec_len};
ghost use Rattle.length_word.specs.LengthView.{length_view};
ghost use Rattle.commit_log.specs.Items.{entry_of, item, items_of};
ghost use Rattle.commit_log.specs.PassView.{new_pass, new_seat, after_item, after_refusal};
ghost use Rattle.commit_log.specs.LogTables.{table_of};
ghost use Rattle.commit_log.specs.LogBookView.{log_book_view};

use crate::mine::{Logs, note};
use crate::{Entry, LogNames, Mine, Pass, SessionSeat, UnnamedLog};
use agreement::Seat;
use length_word::{Length, Mark};
use requests::{Reply, Request};
use rows::{MOST_ENTRIES, SESSIONS};
use schema::NoMemory;
use std::alloc::Global;
use std::marker::{Model, PhantomData};
use thiserror::Error;

/// Why a request was not logged.
#[derive(Clone, Copy, Debug, Drop, Error, PartialEq, Eq)]
pub enum AppendFault {
    #[error("no memory")]
    NoMemory,
    #[error("the log is full")]
    LogFull,
}

/// The entries of a log, their number, and what each session has logged. Independent of the engine that carries out the
/// requests.
#[derive(Drop)]
pub struct LogBook<J: LogNames> {
    /// The most entries.
    most: u32,
    entries: Vec<Entry>,
    length: Length,
    /// The items that each session has logged, by session number.
    mine: Vec<Seat<Mine>>,
    names: PhantomData<J>,
}

impl<J: LogNames> Model for LogBook<J> {
    ghost use Rattle.std.specs.Prelude.{◌-◌, vec_len, vec_capacity, refl};
    ghost use Rattle.std.specs.Coded.{code_by, coded×, coded_list, coded_ℕ};
    ghost use Rattle.commit_log.specs.contracts.entry.Entry as entry;
    ghost use Rattle.commit_log.specs.LogBookView.{LogBookView, log_book_view};
    ghost use Rattle.commit_log.specs.Kept.{IsBookOf, book_names};

    ghost Value = { LogBookView };

    ghost coded = { code_by _ (coded× (coded_list entry.the_row.coded) coded_ℕ) (λ b. (b.entries, b.spare)) (λ p. record { entries = p.0; spare = p.1 }) (λ _. refl) };

    ghost view = { λ b. log_book_view b.entries.items (vec_capacity b.entries - vec_len b.entries) };

    ghost invariant = { λ b. IsBookOf (book_names J.most J.length J.mine)
        b.most b.entries.items b.length b.mine.items };
}

impl<J: LogNames> LogBook<J> {
    /// Returns a book without entries, and the pass and seat of each session, by session number. Nothing is left after
    /// an error.
    pub fn open(
        alloc: Global,
        seats: UnnamedLog,
    ) -> Result<(LogBook<J>, Vec<(Pass<J>, SessionSeat<J>)>), NoMemory>
        requires most { J.most ≡ seats.most }
        requires length { J.length ≡ seats.length }
        requires mine { (session : ℕ) → session < SESSIONS
            → J.mine session ≡ table_of seats.mine session }
        requires asks { (session : ℕ) → session < SESSIONS
            → J.asks session ≡ table_of seats.asks session }
        ensures entries { IfOk result (λ opened. opened.0.entries ≡ []) }
        ensures count { IfOk result (λ opened. vec_len opened.1 ≡ SESSIONS) }
        ensures sessions { IfOk result (λ opened.
            (session : ℕ) → session < SESSIONS
            → slice_get opened.1.items session ≡ Some (new_pass session, new_seat session)) }
    {
        let UnnamedLog {
            most,
            length,
            mine,
            mut lanes,
        } = seats;
        let mut sessions = Vec::new(alloc);
        while let Some(lane) = lanes.pop_front() {
            let session = sessions.len() as u32;
            let pass = Pass {
                session,
                seen: 0,
                mark: lane.mark,
                mine: lane.mine,
                asks: lane.asks,
                names: PhantomData,
            };
            let seat = SessionSeat {
                session,
                asks: lane.asked,
                names: PhantomData,
            };
            sessions.push((pass, seat))?;
        }
        let book = LogBook {
            most: most.get(),
            entries: Vec::new(alloc),
            length,
            mine,
            names: PhantomData,
        };
        Ok((book, sessions))
    }

    /// Returns the entries, in log order.
    pub fn entries(&self) -> &[Entry]
        ensures entries { result.now ≡ self.now.entries }
        ensures few { length self.now.entries ≤ J.most }
        ensures most { J.most ≤ MOST_ENTRIES }
        ensures sessions { All (λ entry. entry.session < SESSIONS) self.now.entries }
    {
        self.entries.as_slice()
    }

    /// Returns the entries, in log order. Never allocates.
    pub fn into_entries(self) -> Vec<Entry>
        ensures entries { result.items ≡ self.entries }
        ensures few { length self.entries ≤ J.most }
        ensures most { J.most ≤ MOST_ENTRIES }
        ensures sessions { All (λ entry. entry.session < SESSIONS) self.entries }
    {
        self.entries
    }

    /// Reserves memory for one entry, and returns its place, from 0. Returns LogFull if the log has as many entries as its
    /// limit allows: the pass's mark has the log's length then, and its number of seen entries is unchanged. Returns
    /// NoMemory if an allocation fails; the pass is unchanged then. The entries are unchanged in any case.
    pub fn make_room(&mut self, pass: &mut Pass<J>) -> Result<u32, AppendFault>
        ensures entries { self.new.entries ≡ self.old.entries }
        ensures place { IfOk result (λ place. place ≡ length self.old.entries) }
        ensures below { OnOk result (length self.old.entries < J.most) }
        ensures spare { OnOk result (0 < self.new.spare) }
        ensures pass { OnOk result (pass.new ≡ pass.old) }
        ensures full { IfErr result (λ fault. (fault ≡ AppendFault.LogFull)
            ↔ (J.most ≤ length self.old.entries)) }
        ensures refused { IfErr result (λ fault.
            pass.new ≡ after_refusal fault (length self.old.entries) pass.old) }
        ensures further { pass.old.reached ≤ pass.new.reached }
    {
        if self.entries.len() >= self.most as usize {
            self.length.check(&mut pass.mark);
            self.length.show(&mut pass.mark);
            return Err(AppendFault::LogFull);
        }
        match self.entries.reserve(1) {
            Ok(()) => Ok(self.entries.len() as u32),
            Err(_) => Err(AppendFault::NoMemory),
        }
    }

    /// Reserves memory for `entries` more entries, as far as the log can have them. The entries are unchanged, also
    /// after an error.
    pub fn reserve(&mut self, entries: usize) -> Result<(), NoMemory>
        ensures { self.new.entries ≡ self.old.entries }
    {
        let left = (self.most as usize).saturating_sub(self.entries.len());
        Ok(self.entries.reserve(entries.min(left))?)
    }

    /// Logs the pass's request with its reply, in the reserved memory: the log has one entry more, and the pass has
    /// seen it.
    pub fn log(&mut self, pass: &mut Pass<J>, number: u32, request: Request, reply: Reply)
        requires below { length self.old.entries < J.most }
        requires spare { 0 < self.old.spare }
        requires number { pass.old.asks.number ≡ number }
        requires request { pass.old.asks.request ≡ request }
        ensures book { self.new ≡ log_book_view
            (self.old.entries ++ entry_of pass.old.session number request reply ∷ [])
            (self.old.spare - 1) }
        ensures later { pass.old.seen ≤ length self.old.entries }
        ensures further { pass.old.reached ≤ length self.old.entries }
        ensures pass { pass.new
            ≡ after_item pass.old (item (length self.old.entries) number request reply) }
    {
        let place = self.length.entries();
        reach_one_more(&mut self.length, &mut pass.mark);
        pass.seen = place + 1;
        let logs = Logs {
            place,
            number,
            request: &request,
            reply: &reply,
        };
        note(&mut self.mine[pass.session as usize], &mut pass.mine, &logs);
        self.entries.push_reserved(Entry {
            session: pass.session,
            number,
            request,
            reply,
        });
    }

    /// Establishes for contracts that the log has reached the pass's mark, and that the pass records exactly what its
    /// session has logged. Both are unchanged.
    pub fn audit(&mut self, pass: &mut Pass<J>)
        ensures seen { pass.old.seen ≤ pass.old.reached }
        ensures reached { pass.old.reached ≤ length self.old.entries }
        ensures mine { pass.old.mine ≡ items_of pass.old.session self.old.entries }
        ensures same { (self.new ≡ self.old) × (pass.new ≡ pass.old) }
    {
        self.length.check(&mut pass.mark);
        self.mine[pass.session as usize].look(&mut pass.mine);
    }
}

// Increases the log's length by one, and sets the mark to it. The mark was at most the length before.
fn reach_one_more(length: &mut Length, mark: &mut Mark)
    requires table { mark.old.table ≡ length.old.table }
    requires room { length.old.entries + 1 < 2 ^ 32 }
    ensures below { mark.old.entries ≤ length.old.entries }
    ensures length { length.new ≡ length_view length.old.table (length.old.entries + 1) }
    ensures mark { mark.new ≡ length.new }
{
    length.check(mark);
    length.grow();
    length.show(mark);
}
