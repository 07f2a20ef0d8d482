ghost use Rattle.std.specs.Prelude.{◌≡◌, ◌<◌, ℕ, IsTrue, vec_len};
ghost use Rattle.queues.specs.Audited.{GotInOrder, GotAll, PairInOrder, PairWhole};

use crate::{Desk, InboxNames};

/// Establishes for contracts that each desk got a beginning of what each desk has put into its inbox, in order. All
/// desks are unchanged. Returns whether every inbox was empty: then each desk got everything that was put into its
/// inbox.
pub fn audit_all<T: Drop, J: InboxNames>(desks: &mut Vec<Desk<T, J>>) -> bool
    ensures same { desks.new.items ≡ desks.old.items }
    ensures in_order { GotInOrder desks.old.items }
    ensures whole { IsTrue result → GotAll desks.old.items }
{
    let mut whole = true;
    for taker in 0..desks.len() {
        let got_all = audit_one(desks, taker);
        whole &= got_all;
    }
    whole
}

// The same for what desk `taker` got.
fn audit_one<T: Drop, J: InboxNames>(desks: &mut Vec<Desk<T, J>>, taker: usize) -> bool
    requires { taker < vec_len desks.old }
    ensures same { desks.new.items ≡ desks.old.items }
    ensures in_order { (sender : ℕ) → sender < vec_len desks.old
        → PairInOrder desks.old.items taker sender }
    ensures whole { IsTrue result → (sender : ℕ) → sender < vec_len desks.old
        → PairWhole desks.old.items taker sender }
{
    let mut whole = true;
    for sender in 0..desks.len() {
        let got_all = audit_pair(desks, taker, sender);
        whole &= got_all;
    }
    whole
}

// The same for what desk `taker` got from desk `sender`.
fn audit_pair<T: Drop, J: InboxNames>(
    desks: &mut Vec<Desk<T, J>>,
    taker: usize,
    sender: usize,
) -> bool
    requires { (taker < vec_len desks.old) × (sender < vec_len desks.old) }
    ensures same { desks.new.items ≡ desks.old.items }
    ensures in_order { PairInOrder desks.old.items taker sender }
    ensures whole { IsTrue result → PairWhole desks.old.items taker sender }
{
    if taker == sender {
        return desks[taker].audit_own();
    }
    if taker < sender {
        let (before, after) = desks.split_at_mut(sender);
        before[taker].audit(&mut after[0])
    } else {
        let (before, after) = desks.split_at_mut(taker);
        after[0].audit(&mut before[sender])
    }
}
