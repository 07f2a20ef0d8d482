ghost use Rattle.std.specs.Prelude.{◌≡◌, ◌≤◌, ◌<◌, ◌↔◌, [], ◌∷◌, ◌++◌, length, map, All, IfOk, IfErr, IsErrAnd};
ghost use Rattle.requests.specs.Check.{IsAccepted};
ghost use Rattle.groups.specs.Content.{content};
ghost use Rattle.machine.specs.Machine.{replies, tables_after};
ghost use Rattle.tickets.specs.Claims.{all_claims};
ghost use Rattle.tickets.specs.Committed.{Records};
ghost use Rattle.tickets.specs.LogSeats.{IsRecordedIn, SeatsRecord};
ghost use Rattle.commit_log.specs.Claimed.{claims_logged, seats_logged, IsCarriedOut};
ghost use Rattle.commit_log.specs.Items.{item_of, items_of};
ghost use Rattle.commit_log.specs.Log.{replies_of, requests_of};
ghost use Rattle.commit_log.specs.PassView.{after_item, after_refusal};

use crate::{AppendFault, Entry, LogBook, Names, Pass};
use requests::Reply;
use rows::{MOST_ENTRIES, SESSIONS};
use schema::NoMemory;
use std::marker::Model;
use tickets::{Claims, LogSeats};

/// A log of transactions that were carried out under claims, by any executors. It has no tables; its seats record the
/// committed contents of each group.
#[derive(Drop)]
pub struct Log<J: Names> {
    book: LogBook<J>,
    seats: LogSeats<J>,
}

impl<J: Names> Model for Log<J> {
    ghost use Rattle.std.specs.Prelude.{List};
    ghost use Rattle.std.specs.Coded.{coded_list};
    ghost use Rattle.commit_log.specs.declared.entry.Entry.{Entry};
    ghost use Rattle.commit_log.specs.contracts.entry.Entry as entry;
    ghost use Rattle.commit_log.specs.Claimed.{IsKept};

    ghost Value = { List Entry };

    ghost coded = { coded_list entry.the_row.coded };

    ghost view = { λ l. l.book.entries };

    ghost invariant = { λ l. IsKept J.opening l.book.entries l.seats };
}

impl<J: Names> Log<J> {
    /// Returns a log without entries, whose seats record the contents of the groups in the tables of its opening.
    pub fn new(book: LogBook<J>, seats: LogSeats<J>) -> Log<J>
        requires empty { book.entries ≡ [] }
        requires opening { SeatsRecord (content J.opening) seats }
        ensures { result ≡ [] }
    {
        Log { book, seats }
    }

    /// Returns the entries, in log order. The replies are those of a machine that carries out their requests one at a
    /// time from the opening tables.
    pub fn entries(&self) -> &[Entry]
        ensures entries { result.now ≡ self.now }
        ensures legal { replies_of self.now ≡ replies J.opening (requests_of self.now) }
        ensures accepted { All (λ entry. IsAccepted J.opening.scale entry.request) self.now }
        ensures few { length self.now ≤ J.most }
        ensures most { J.most ≤ MOST_ENTRIES }
        ensures sessions { All (λ entry. entry.session < SESSIONS) self.now }
    {
        self.book.entries()
    }

    /// Returns the entries, in log order. Never allocates.
    pub fn into_entries(self) -> Vec<Entry>
        ensures { result.items ≡ self }
    {
        self.book.into_entries()
    }

    /// Logs a request that actions carried out under these claims; `held` has the claims of each action together.
    /// Returns the entry's place, from 0, which is after all entries that the pass has seen. From then on the contents
    /// left by the claims are committed, unless the transaction was rolled back. Returns NoMemory if an allocation
    /// fails, and LogFull exactly if the log has as many entries as its limit allows. After an error the log and the claims are
    /// unchanged; after LogFull the pass's mark has the log's length.
    pub fn append(
        &mut self,
        held: &mut [Claims<J>],
        mut pass: Pass<J>,
        entry: Entry,
    ) -> Result<(u32, Pass<J>), (AppendFault, Pass<J>)>
        requires session { entry.session ≡ pass.session }
        requires number { pass.asks.number ≡ entry.number }
        requires request { pass.asks.request ≡ entry.request }
        requires accepted { IsAccepted J.opening.scale entry.request }
        requires carried_out { IsCarriedOut
            J.opening entry.request (all_claims held.old) entry.reply }
        ensures entry { IfOk result (λ _. self.new ≡ self.old ++ entry ∷ []) }
        ensures place { IfOk result (λ done. done.0 ≡ length self.old) }
        ensures later { IfOk result (λ done. pass.seen ≤ done.0) }
        ensures pass { IfOk result (λ done. done.1 ≡ after_item pass (item_of done.0 entry)) }
        ensures claims { IfOk result (λ _. held.new ≡ map (claims_logged entry.reply) held.old) }
        ensures full { IsErrAnd result (λ refused. refused.0 ≡ AppendFault.LogFull)
            ↔ (J.most ≤ length self.old) }
        ensures err { IfErr result (λ refused. (self.new ≡ self.old) × (held.new ≡ held.old)) }
        ensures refused { IfErr result (λ refused.
            refused.1 ≡ after_refusal refused.0 (length self.old) pass) }
    {
        let place = match self.book.make_room(&mut pass) {
            Ok(place) => place,
            Err(fault) => return Err((fault, pass)),
        };
        commit(&mut self.seats, held, &entry.reply);
        let Entry {
            session: _,
            number,
            request,
            reply,
        } = entry;
        self.book.log(&mut pass, number, request, reply);
        Ok((place, pass))
    }

    /// Reserves memory for `entries` more entries, as far as the log can have them; appending them doesn't allocate
    /// then. The entries are unchanged, also after an error.
    pub fn reserve(&mut self, entries: usize) -> Result<(), NoMemory>
        ensures { self.new ≡ self.old }
    {
        self.book.reserve(entries)
    }

    /// Establishes for contracts that the log has reached the pass's mark, and that the pass records exactly what its
    /// session has logged. Both are unchanged.
    pub fn audit(&mut self, pass: &mut Pass<J>)
        ensures seen { pass.old.seen ≤ pass.old.reached }
        ensures reached { pass.old.reached ≤ length self.old }
        ensures mine { pass.old.mine ≡ items_of pass.old.session self.old }
        ensures same { (self.new ≡ self.old) × (pass.new ≡ pass.old) }
    {
        self.book.audit(pass);
    }

    /// Establishes for contracts that the claims, those of each action together, record the contents of the tables
    /// after the log's transactions. Both are unchanged.
    pub fn look(&mut self, claims: &mut [Claims<J>])
        ensures recorded { Records
            (content (tables_after J.opening (requests_of self.old))) (all_claims claims.old) }
        ensures same { (self.new ≡ self.old) × (claims.new ≡ claims.old) }
    {
        self.seats.look_each(claims);
    }
}

// Establishes that the claims record the committed contents. Commits the contents they leave, unless the transaction
// was rolled back.
fn commit<J: Names>(seats: &mut LogSeats<J>, held: &mut [Claims<J>], reply: &Reply)
    ensures recorded { All (IsRecordedIn seats.old) (all_claims held.old) }
    ensures seats { seats.new ≡ seats_logged reply.now (all_claims held.old) seats.old }
    ensures claims { held.new ≡ map (claims_logged reply.now) held.old }
{
    seats.look_each(held);
    match reply {
        Reply::Done(_) => seats.settle_each(held),
        Reply::RolledBack(_) => {}
    }
}
