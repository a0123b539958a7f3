// The deck's 24 slots, of which the first `left` hold the cards left. A card goes out at a place and in at one. Crate `deck` passes these names on.
// Kept: an array and a length side by side, since `rules::Position` holds them as two fields and crosses to C, and no heap is used.
#![tactic(auto)]

ghost use Rattle.std.specs.Prelude.{◌≡◌, ◌<◌, ◌≤◌, ◌+◌, eqb, length, get_or, take, drop};
ghost use Rattle.std.proofs.Math.Seq.{paste};
ghost use Rattle.rules.specs.Bits.{first_of};
ghost use Rattle.rules.specs.Play.{slots, draw_at, push_at};

// Copies n cards of the deck, from a place on, into the slots from another place on.
fn copy(deck: &[u8], from: usize, out: &mut [u8], to: usize, n: usize)
    requires { (from + n ≤ length deck.now) × (to + n ≤ length out.old) }
    ensures { out.new ≡ paste out.old to (drop from deck.now) n }
{
    out[to..to + n].copy_from_slice(&deck[from..from + n]);
}

// The cards left alone: spare slots are 0.
pub fn cards(deck: [u8; 24], left: u8) -> [u8; 24]
    requires { left ≤ 24 }
    ensures { result ≡ slots (take left deck) }
{
    let mut out = [0u8; 24];
    copy(&deck, 0, &mut out, 0, left as usize);
    out
}

// Kept: no Option, which would be no plainer: the one caller draws a card that is in the deck, and would have to unwrap it.
// The first of the cards left that is the card, and `left` where none is. A card that is still in the deck is found sooner than by its place in the deal.
pub fn place_of(deck: [u8; 24], left: u8, card: u8) -> u8
    requires { left ≤ 24 }
    ensures { result ≡ first_of left (λ k. eqb (get_or deck k 0) card) }
{
    let found = deck[..left as usize].iter().position(|c| *c == card);
    found.unwrap_or(left as usize) as u8
}

// The card at the place goes, and those after it move down. Spare slots are 0.
pub fn draw(deck: [u8; 24], left: u8, place: u8) -> [u8; 24]
    requires { (place < left) × (left ≤ 24) }
    ensures { result ≡ slots (draw_at deck left place) }
{
    let at = place as usize;
    let after = at + 1;
    let mut out = cards(deck, place);
    copy(&deck, after, &mut out, at, left as usize - after);
    out
}

// The card comes to stand at the place, and those from there on move up. Spare slots are 0.
pub fn push(deck: [u8; 24], left: u8, place: u8, card: u8) -> [u8; 24]
    requires { (place ≤ left) × (left < 24) }
    ensures { result ≡ slots (push_at deck left place card) }
{
    let at = place as usize;
    let mut out = cards(deck, place);
    out[at] = card;
    copy(&deck, at, &mut out, at + 1, left as usize - at);
    out
}
