// Where the engine's answers lie in a record.
ghost use Rattle.std.specs.Prelude.{◌<◌, ◌≤◌};

use card::N_PILES;
use panel::TurnedNumbers;
use replay_bytes::Answer;
use replay_bytes::record::Row;
use rules::Masks;

// What buffers are filled with before a call.
pub const FILL: u8 = 0xEE;

pub const FILL_SLOT: u16 = 0xEEEE;

// The slots that a record holds, and more bytes than the piles need.
pub const N_LIST: usize = 28;

pub const N_BYTES: usize = 128;

// The face-up piles: 7 of 13 bytes.
const ROW: usize = 13;

const PILE_BYTES: usize = N_PILES * ROW;

const UNUSED: u8 = 255;

// Tag 3: what a move alone answers: its byte, what it turned up, and the slot that it wrote.
pub fn put_move(out: Row, byte: u8, turned: TurnedNumbers, written: u16) -> Row {
    out.put_all(10, &[byte, turned.kind, turned.card])
        .put_short(14, written)
}

// Tag 5: the masks.
pub fn put_masks(out: Row, m: Masks) -> Row {
    out.put_long(8, m.reveal)
        .put_long(16, m.pile_stack)
        .put_long(24, m.deck_pile)
        .put_long(32, m.deck_stack)
        .put_long(40, m.stack_pile)
}

// Tag 6: writes the slots of the front. Those behind it must have stayed.
pub fn put_front(a: Answer, slots: [u16; N_LIST], count: usize) -> Answer {
    let mut after = a;
    for (i, slot) in slots.iter().enumerate() {
        after = if i < count {
            after.put_all(8 + 2 * i, &slot.to_le_bytes())
        } else {
            after.marked(*slot == FILL_SLOT)
        };
    }
    after
}

// Tag 7: writes the cards of the piles, one pile after the other. A pile's unused bytes must have become 255.
fn put_piles(a: Answer, bytes: &[u8], lengths: &[u8]) -> Answer {
    let mut after = a;
    let mut at: usize = 10;
    for (pile, length) in bytes.chunks_exact(ROW).zip(lengths) {
        let n = usize::from(*length);
        let Some((cards, unused)) = pile.split_at_checked(n) else {
            return after.marked(false);
        };
        after = after
            .put_all(at, cards)
            .marked(unused.iter().all(|b| *b == UNUSED));
        at = at.saturating_add(n);
    }
    after
}

// The lengths, and the whole buffer after the call. A refused call leaves the whole buffer, and an accepted one what is behind the piles.
pub fn put_shown(out: Row, refusal: u8, lengths: [u8; N_PILES], bytes: [u8; N_BYTES]) -> Answer {
    let a = Answer::new(out.put(1, refusal).put_all(3, &lengths));
    if refusal != 0 {
        return a.marked(are_filled(&bytes));
    }
    let (piles, behind) = bytes.split_at(PILE_BYTES);
    put_piles(a.marked(are_filled(behind)), piles, &lengths)
}

fn are_filled(bytes: &[u8]) -> bool {
    bytes.iter().all(|b| *b == FILL)
}

// Tag 8: what is left of the deck.
pub fn put_deck(out: Row, left: u8, offset: u8, cards: &[u8]) -> Row {
    out.put_all(6, &[left, offset]).put_all(8, cards)
}
