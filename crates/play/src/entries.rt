// Entries of the history: writing one, and going back over one that anybody may have written.
ghost use Rattle.std.specs.Prelude.{◌≡◌, ◌≤◌, ◌<◌};
ghost use Rattle.rules.specs.Bits.{same_list};
ghost use Rattle.rules.specs.History.{entry as entry_of, same_deck, same_in_deal};
ghost use Rattle.play.specs.Undone.{leads_to, undone};

use crate::{do_move, has_way, undo_move};
use rules::{Judged, Position};

// An entry of the history is byte·512 + kind·64 + card: the units of its parts, and how many kinds it has room for.
const BYTE: u16 = KIND * KINDS;

const KIND: u16 = moves::KIND;

const KINDS: u16 = 8;

// Two positions are of one deal.
#[tactic(auto, using(crate::proofs::Same::pointwise_same))]
pub fn same_deal(p: Position, q: Position) -> bool
    ensures { result ≡ same_list p.deal q.deal }
{
    p.deal == q.deal
}

// The cards left are the same. Spare slots don't count.
#[tactic(auto, using(crate::proofs::Same::pointwise_same), unfolding(rules::specs::History::same_deck))]
fn same_deck(p: Position, q: Position) -> bool
    requires { q.left ≤ 24 }
    ensures { result ≡ same_deck p q }
{
    let left = q.left as usize;
    p.left == q.left && p.deck[..left] == q.deck[..left]
}

// Two positions of one deal are the same.
#[tactic(auto, using(crate::proofs::Same::pointwise_same), unfolding(rules::specs::History::same_in_deal))]
fn same_in_deal(p: Position, q: Position) -> bool
    requires { q.left ≤ 24 }
    ensures { result ≡ same_in_deal p q }
{
    p.step == q.step
        && p.counts == q.counts
        && p.heights == q.heights
        && same_deck(p, q)
        && p.offset == q.offset
        && p.visible == q.visible
}

// From q, a proper position of p's deal, a legal move that writes the byte leads to p.
fn leads_to(q: Position, byte: u8, kind: u8, card: u8, p: Judged) -> bool
    requires { (kind < 5) × (card < 52) × (q.deal ≡ p.position.deal) }
    ensures { result ≡ leads_to q byte kind card p.position }
{
    let Ok(q) = proper::judge(q) else {
        return false;
    };
    if !legal::is_valid_move(q, kind, card) {
        return false;
    }
    let again = do_move(q, kind, card);
    if again.byte != byte {
        return false;
    }
    same_in_deal(again.position, p.position)
}

// The entry that a move writes into the history.
#[tactic(auto, unfolding(rules::specs::History::entry))]
pub fn entry(byte: u8, kind: u8, card: u8) -> u16
    requires { (byte < 128) × (kind < 8) × (card < 64) }
    ensures { result ≡ entry_of byte kind card }
{
    byte as u16 * BYTE + kind as u16 * KIND + card as u16
}

// Goes back over an entry, if that leads to a proper position from which the move leads here.
pub fn undo(p: Judged, entry: u16) -> Option<Position>
    ensures { result ≡ undone p.position entry }
{
    let byte = (entry / BYTE) as u8;
    let kind = (entry / KIND % KINDS) as u8;
    let card = (entry % KIND) as u8;
    if moves::admit(kind, card).is_err() || !has_way(p, byte, kind, card) {
        return None;
    }
    let q = undo_move(p, byte, kind, card);
    leads_to(q, byte, kind, card, p).then_some(q)
}
