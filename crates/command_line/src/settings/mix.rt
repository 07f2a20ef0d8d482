ghost use Rattle.std.specs.Prelude.{◌≡◌, ◌≢◌, ◌<◌, ◌≤◌, ◌∷◌, [], ℕ, codes, option_copied, slice_index, IfOk, IfErr, IfSome, None, OnOk};
ghost use Rattle.std.specs.List.{Contains};
ghost use Rattle.command_line.specs.Mistakes.{IsMixFault, IsMixWord};
ghost use Rattle.command_line.specs.MixText.{cards_text, IsMixText};
ghost use Rattle.command_line.specs.Words.{IsMixOf};

use crate::usage::UsageFault;
use files::parse_whole;
use workload::Mix;

// The most cards of a kind in a deck.
const MOST_CARDS: u64 = 1_000;

/// The mix of an option, or that of the benchmark if the option is absent. Returns `UsageFault::Mix` if its word is the
/// text of no mix.
pub fn mix(words: Option<&str>) -> Result<Mix, UsageFault>
    ensures value { IfOk result (IsMixOf (option_copied words.entry)) }
    ensures fits { OnOk result (IsMixWord (option_copied words.entry)) }
    ensures mistake { IfErr result
        (λ fault. (fault ≡ UsageFault.Mix) × IsMixFault (option_copied words.entry)) }
{
    match words {
        None => Mix::checked_new(45, 43, 4, 4, 4).ok_or(UsageFault::Mix),
        Some(words) => match parsed(words) {
            Some(mix) => Ok(mix),
            None => Err(UsageFault::Mix),
        },
    }
}

// The mix of this text: letters with their numbers of cards, separated by commas.
fn parsed(words: &str) -> Option<Mix>
    ensures value { IfSome result (IsMixText words.now) }
    ensures none { result ≡ None → (mix : Mix) → IsMixText words.now mix → ⊥ }
{
    let mut counts: [Option<u32>; 5] = [None; 5];
    for word in words.split(',') {
        let (place, count) = cards(word)?;
        if counts[place].is_some() {
            return None;
        }
        counts[place] = Some(count);
    }
    let [orders, payments, statuses, deliveries, levels] = counts;
    Mix::checked_new(
        orders.unwrap_or(0),
        payments.unwrap_or(0),
        statuses.unwrap_or(0),
        deliveries.unwrap_or(0),
        levels.unwrap_or(0),
    )
}

// The kind's place, from 0, and how many cards it has.
fn cards(word: &str) -> Option<(usize, u32)>
    ensures some { IfSome result (λ one. (one.0 < 5) × (one.1 ≤ 1000)
        × (word.now ≡ cards_text (slice_index (codes "NPODL") one.0, one.1))) }
    ensures none { result ≡ None
        → (letter count : ℕ) → Contains (codes "NPODL") letter → count ≤ 1000
        → word.now ≢ cards_text (letter, count) }
{
    let (letter, count) = word.split_once('=')?;
    let place = place_of(letter)?;
    match parse_whole(count, 0, MOST_CARDS) {
        Ok(count) => Some((place, count as u32)),
        Err(_) => None,
    }
}

// The place, from 0, of the kind with that letter of requests.
fn place_of(letter: &str) -> Option<usize>
    ensures some { IfSome result
        (λ place. (place < 5) × (letter.now ≡ slice_index (codes "NPODL") place ∷ [])) }
    ensures none { result ≡ None
        → (known : ℕ) → Contains (codes "NPODL") known → letter.now ≢ known ∷ [] }
{
    match letter {
        "N" => Some(0),
        "P" => Some(1),
        "O" => Some(2),
        "D" => Some(3),
        "L" => Some(4),
        _ => None,
    }
}
