// The face-up piles of a position.
#![tactic(auto)]

ghost use Rattle.std.specs.Prelude.{◌≡◌, ◌<◌, ◌≤◌, length, replicate};
ghost use Rattle.bits.specs.Bit.{bit};
ghost use Rattle.rules.specs.Piles.{rest, pile_lengths, piles_into};
ghost use Rattle.piles.specs.Run.{tried_of, run_of, kings_of, first_run_of, row};

use card::{Card, N_PILES, N_RANKS};
use rules::Judged;

// The cards of one rank: one of each suit.
const SUITS: u8 = card::N_SUITS as u8;

// The king of suit 0; the others follow it.
const KING: u8 = card::LAST_CARD + 1 - SUITS;

// A byte that shows no card.
const UNUSED: u8 = 255;

// Whether the card is in m.
#[tactic(auto, using(bits::proofs::Laws::has_shr), unfolding(bits::specs::Bit::bit))]
fn has(m: u64, card: u8) -> bool
    requires { card < 64 }
    ensures { result ≡ bit m card }
{
    (m >> card) & 1 == 1
}

// The card to try under a card that is no ace.
fn next_card(vis: u64, free: u64, card: u8) -> u8
    requires { (4 ≤ card) × (card < 52) }
    ensures { result ≡ tried_of vis free card }
{
    let has_both = has(vis, Card(card).swap_suit().0);
    let next = card - SUITS;
    if has_both || has(free, next) {
        next
    } else {
        Card(next).swap_suit().0
    }
}

// The run that starts at a card; its length comes back.
fn fill_run(part: &mut [u8], vis: u64, free: u64, start: u8) -> u8
    requires { (length part.old ≡ 13) × (start < 52) }
    ensures { (result ≡ length (run_of vis free 13 start)) × (part.new ≡ row (run_of vis free 13 start)) }
{
    let mut card = start;
    let mut n: usize = 0;
    part.fill(UNUSED);
    // Kept: each card follows from the one above it. A `for` over the places would need an answer after the last of them, where no run gets.
    loop {
        part[n] = card;
        n += 1;
        if card < SUITS {
            break;
        }
        card = next_card(vis, free, card);
        if !has(free, card) {
            break;
        }
    }
    n as u8
}

// Of a pile with no head: its length, and the suit from which the next search starts.
#[derive(Clone, Copy)]
pub struct Filled {
    pub len: u8,
    pub from: u8,
}

// A pile with no head takes the next free king from a suit on.
fn fill_empty(part: &mut [u8], vis: u64, free: u64, from: u8) -> Filled
    requires { length part.old ≡ 13 }
    ensures { (result.len ≡ length (first_run_of vis free (kings_of free from))) × (kings_of free result.from ≡ rest (kings_of free from)) × (part.new ≡ row (first_run_of vis free (kings_of free from))) }
{
    for s in from..SUITS {
        if has(free, KING + s) {
            return Filled {
                len: fill_run(part, vis, free, KING + s),
                from: s + 1,
            };
        }
    }
    part.fill(UNUSED);
    Filled {
        len: 0,
        from: SUITS,
    }
}

// "a pile with a head starts there, other piles take free kings by suit": pile i through its own 13 of the lent bytes.
pub fn compute_visible_piles(p: Judged, out: &mut [u8]) -> [u8; 7]
    requires { 91 ≤ length out.old }
    ensures { (result ≡ pile_lengths p.position) × (out.new ≡ piles_into p.position out.old) }
{
    let deal = p.position.deal;
    let counts = p.position.counts;
    let vis = p.position.visible;
    let heads = hidden::heads(p);
    let free = vis & !heads.all;
    let mut lens = [0u8; N_PILES];
    let mut from: u8 = 0;
    for i in 0..N_PILES {
        let a = N_RANKS * i;
        let n = counts[i] as usize;
        if 0 < n {
            let at = card::pile_start(i) as usize + n - 1;
            lens[i] = fill_run(&mut out[a..a + N_RANKS], vis, free, deal[at]);
        } else {
            let f = fill_empty(&mut out[a..a + N_RANKS], vis, free, from);
            from = f.from;
            lens[i] = f.len;
        }
    }
    lens
}
