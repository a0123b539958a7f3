// The public calls for C and Rust: include/gravyhelm.h declares them, and `panel_c` exports them. Each is the engine's call of the same name, its Result told in plain numbers.
// Each contract cites the call's rows in the table of all calls, specs/Calls.antt: its answer, and what is lent to it at exit.
// Positions, cursors and answers go by value, as plain data of which nothing is trusted. A slice is a pointer and a length. A yes or no that is given is a byte: 0 is no.
// C cannot be handed a reference: `list`, which hands back the front of the buffer itself, is for Rattle alone. For C `gravyhelm_list_into` gives how many slots are
// that front.
#![tactic(auto)]

ghost use Rattle.std.specs.Prelude.{◌≡◌};
ghost use Rattle.rules.specs.Results.{refusal_of, given_or, told_of, listed_of};
ghost use Rattle.panel.specs.Crossing.{numbers_of};
ghost use Rattle.panel.specs.Calls.{deal, resume, save, masks, test, list_into, list, list_count, move, undo, win, sure_win, ladder, heights, deck, find, offset, face_up, deal_once, deal_once_lent, answer, lent};

use rules::{
    ACCEPTED, Compared, Cursor, DealtOnce, DeckLeft, DeckView, Found, Heights, Listed, Located,
    Masked, Masks, Offset, Piled, Position, Refusal, Saved, Started, Step, StepBack, Told,
    TurnedUp, Undone,
};

// A move's answer as it crosses: what was turned up is its case and its card.
// Kept: numbers for the case and the card, and for refusals, kinds and yes or no in every call below: the C interface (`list` has the parameters of the others).
#[repr(C)]
#[derive(Clone, Copy)]
pub struct TurnedNumbers {
    pub kind: u8,
    pub card: u8,
}

#[repr(C)]
#[derive(Clone, Copy)]
pub struct MovedNumbers {
    pub refusal: u8,
    pub position: Position,
    pub count: usize,
    pub byte: u8,
    pub turned: TurnedNumbers,
}

impl From<TurnedUp> for TurnedNumbers {
    ghost from_gives = { λ turned numbers. numbers ≡ numbers_of turned };

    fn from(turned: TurnedUp) -> TurnedNumbers {
        match turned {
            TurnedUp::Nothing => TurnedNumbers { kind: 0, card: 0 },
            TurnedUp::Emptied => TurnedNumbers { kind: 1, card: 0 },
            TurnedUp::Card(c) => TurnedNumbers { kind: 2, card: c.0 },
        }
    }
}

// A Result's number, 0 where the call is accepted, and what it gives, or else what stands in its place.
fn parted<T: Copy>(r: Result<T, Refusal>, other: T) -> (u8, T)
    ensures { result ≡ (refusal_of r, given_or other r) }
{
    match r {
        Ok(given) => (ACCEPTED, given),
        Err(refusal) => (u8::from(refusal), other),
    }
}

fn told(p: Position, r: Result<bool, Refusal>) -> Told
    ensures { result ≡ told_of p r }
{
    let (refusal, yes) = parted(r, false);
    Told {
        refusal,
        position: p,
        yes,
    }
}

fn listed(p: Position, r: Result<usize, Refusal>) -> Listed
    ensures { result ≡ listed_of p r }
{
    let (refusal, count) = parted(r, 0);
    Listed {
        refusal,
        position: p,
        count,
    }
}

pub fn gravyhelm_deal(step: u8, cards: &[u8]) -> Started
    ensures { (result ≡ answer (deal step cards.now)) × (cards.now ≡ lent (deal step cards.now)) }
{
    // Kept: no `parted`, by whose pair the position is copied once more: with that and a deal by value this call took half as long again.
    match engine::deal(step, cards) {
        Ok(position) => Started {
            refusal: ACCEPTED,
            position,
        },
        Err(refusal) => Started {
            refusal: u8::from(refusal),
            position: deal::blank(),
        },
    }
}

pub fn gravyhelm_resume(step: u8, cards: &[u8], code: u64) -> Started
    ensures { (result ≡ answer (resume step cards.now code)) × (cards.now ≡ lent (resume step cards.now code)) }
{
    let (refusal, position) = parted(engine::resume(step, cards, code), deal::blank());
    Started { refusal, position }
}

pub fn gravyhelm_save(p: Position) -> Saved
    ensures { result ≡ answer (save p) }
{
    let (refusal, code) = parted(engine::save(p), 0);
    Saved {
        refusal,
        position: p,
        code,
    }
}

pub fn gravyhelm_masks(p: Position, pruned: u8) -> Masked
    ensures { result ≡ answer (masks p pruned) }
{
    let (refusal, masks) = parted(engine::masks(p, pruned != 0), Masks::default());
    Masked {
        refusal,
        position: p,
        masks,
    }
}

pub fn gravyhelm_test(p: Position, kind: u8, card: u8) -> Told
    ensures { result ≡ answer (test p kind card) }
{
    told(p, engine::test(p, kind, card))
}

pub fn gravyhelm_list_into(p: Position, pruned: u8, out: &mut [u16]) -> Listed
    ensures { (result ≡ answer (list_into p pruned out.old)) × (out.new ≡ lent (list_into p pruned out.old)) }
{
    listed(p, engine::list_into(p, pruned != 0, out))
}

pub fn list<'a>(p: Position, pruned: u8, out: &'a mut [u16]) -> &'a mut [u16]
    ensures { (result.now, result.ref_ptr) ≡ answer (list p pruned out.old out.entry.ref_ptr) }
{
    engine::list(p, pruned != 0, out)
}

pub fn gravyhelm_list_count(p: Position, pruned: u8, room: usize) -> Listed
    ensures { result ≡ answer (list_count p pruned room) }
{
    listed(p, engine::list_count(p, pruned != 0, room))
}

pub fn gravyhelm_do_move(
    p: Position,
    history: &mut [u16],
    count: usize,
    kind: u8,
    card: u8,
) -> MovedNumbers
    ensures { (result ≡ answer (move p history.old count kind card)) × (history.new ≡ lent (move p history.old count kind card)) }
{
    let stays = Step {
        position: p,
        count,
        byte: 0,
        turned: TurnedUp::Nothing,
    };
    let (refusal, m) = parted(engine::do_move(p, history, count, kind, card), stays);
    MovedNumbers {
        refusal,
        position: m.position,
        count: m.count,
        byte: m.byte,
        turned: TurnedNumbers::from(m.turned),
    }
}

pub fn gravyhelm_undo_move(p: Position, history: &[u16], count: usize) -> Undone
    ensures { (result ≡ answer (undo p history.now count)) × (history.now ≡ lent (undo p history.now count)) }
{
    let stays = StepBack { position: p, count };
    let (refusal, back) = parted(engine::undo_move(p, history, count), stays);
    Undone {
        refusal,
        position: back.position,
        count: back.count,
    }
}

pub fn gravyhelm_is_win(p: Position) -> Told
    ensures { result ≡ answer (win p) }
{
    told(p, engine::is_win(p))
}

pub fn gravyhelm_is_sure_win(p: Position) -> Told
    ensures { result ≡ answer (sure_win p) }
{
    told(p, engine::is_sure_win(p))
}

pub fn gravyhelm_ladder(p: Position, q: Position) -> Compared
    ensures { result ≡ answer (ladder p q) }
{
    let (refusal, same) = parted(engine::ladder(p, q), false);
    Compared {
        refusal,
        first: p,
        second: q,
        same,
    }
}

pub fn gravyhelm_heights(p: Position) -> Heights
    ensures { result ≡ answer (heights p) }
{
    let (refusal, heights) = parted(engine::heights(p), [0; 4]);
    Heights {
        refusal,
        position: p,
        heights,
    }
}

pub fn gravyhelm_deck(p: Position) -> DeckView
    ensures { result ≡ answer (deck p) }
{
    let none = DeckLeft {
        cards: [0; 24],
        left: 0,
        offset: 0,
    };
    let (refusal, deck) = parted(engine::deck(p), none);
    let cards = deck.cards;
    DeckView {
        refusal,
        position: p,
        cards,
        left: deck.left,
        offset: deck.offset,
    }
}

pub fn gravyhelm_find(p: Position, card: u8) -> Located
    ensures { result ≡ answer (find p card) }
{
    let none = Found {
        found: false,
        place: 0,
    };
    let (refusal, at) = parted(engine::find(p, card), none);
    Located {
        refusal,
        position: p,
        found: at.found,
        place: at.place,
    }
}

pub fn gravyhelm_offset(p: Position, n: u8) -> Offset
    ensures { result ≡ answer (offset p n) }
{
    let (refusal, offset) = parted(engine::offset(p, n), 0);
    Offset {
        refusal,
        position: p,
        offset,
    }
}

pub fn gravyhelm_piles(p: Position, out: &mut [u8]) -> Piled
    ensures { (result ≡ answer (face_up p out.old)) × (out.new ≡ lent (face_up p out.old)) }
{
    let (refusal, lengths) = parted(engine::piles(p, out), [0; 7]);
    Piled {
        refusal,
        position: p,
        lengths,
    }
}

pub fn gravyhelm_deal_once(c: Cursor) -> DealtOnce
    ensures { result ≡ answer (deal_once c) }
{
    let (refusal, cursor) = parted(deck::deal_once(c), c);
    DealtOnce { refusal, cursor }
}

pub fn gravyhelm_deal_once_lent(c: &mut Cursor) -> u8
    ensures { (result ≡ answer (deal_once_lent c.old)) × (c.new ≡ lent (deal_once_lent c.old)) }
{
    parted(deck::deal_once_lent(c), ()).0
}
