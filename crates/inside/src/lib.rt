// The work behind the public calls, without their judging: a library for measuring alone. Nothing here is a public call.
// Each function says of its result what the function that it hands on says.
// Kept: plain positions with a clause that they are proper, kinds as bytes, numbers for refusals and for none: the C interface.
#![tactic(auto)]

ghost use Rattle.std.specs.Prelude.{cond, ◌≡◌, ◌<◌, ◌≤◌, T, length, get_or};
ghost use Rattle.rules.specs.Places.{in_deck};
ghost use Rattle.rules.specs.Proper.{proper as is_proper};
ghost use Rattle.rules.specs.Dealing.{deals};
ghost use Rattle.rules.specs.Legal.{legal as is_legal, unpruned};
ghost use Rattle.rules.specs.Pruned.{pruned};
ghost use Rattle.rules.specs.Moves.{CardMasks, fitting, listed_over};
ghost use Rattle.rules.specs.Piles.{pile_lengths, piles_into};
ghost use Rattle.rules.specs.Code.{code as code_of};
ghost use Rattle.rules.specs.Play.{after, undo_byte, before};
ghost use Rattle.rules.specs.Answers.{find_place, resume_answer};
ghost use Rattle.play.specs.Made.{has_way};

use rules::{ACCEPTED, Judged, Masks, Position, Started};

// A position is handed over, and nothing is done: what every call below pays for it.
#[unsafe(no_mangle)]
pub extern "C" fn inside_nothing(p: Position) -> u64
    ensures { result ≡ p.visible }
{
    p.visible
}

// The judgement alone.
#[unsafe(no_mangle)]
pub extern "C" fn inside_is_proper(p: Position) -> bool
    ensures { result ≡ is_proper p }
{
    proper::is_proper(p)
}

#[unsafe(no_mangle)]
pub extern "C" fn inside_masks(p: Position) -> Masks
    requires { T (is_proper p) }
    ensures { result ≡ unpruned p }
{
    legal::masks(Judged { position: p })
}

#[unsafe(no_mangle)]
pub extern "C" fn inside_pruned(p: Position) -> Masks
    requires { T (is_proper p) }
    ensures { result ≡ pruned p }
{
    prune::pruned(Judged { position: p })
}

#[unsafe(no_mangle)]
pub extern "C" fn inside_is_valid_move(p: Position, kind: u8, card: u8) -> bool
    requires { T (is_proper p) × (kind < 5) × (card < 52) }
    ensures { result ≡ is_legal p kind card }
{
    legal::is_valid_move(Judged { position: p }, kind, card)
}

#[unsafe(no_mangle)]
pub extern "C" fn inside_list(m: Masks, out: &mut [u16]) -> usize
    requires { CardMasks m }
    ensures { (result ≡ length (fitting m (length out.old))) × (out.new ≡ listed_over m out.old) }
{
    moves::list_into(m, out)
}

// The first pile's length, so that the lengths are made.
#[unsafe(no_mangle)]
pub extern "C" fn inside_piles(p: Position, out: &mut [u8]) -> u8
    requires { T (is_proper p) × (91 ≤ length out.old) }
    ensures { (result ≡ get_or (pile_lengths p) 0 0) × (out.new ≡ piles_into p out.old) }
{
    let lens = piles::compute_visible_piles(Judged { position: p }, out);
    lens[0]
}

#[unsafe(no_mangle)]
pub extern "C" fn inside_offset(p: Position, n: u8) -> u8
    requires { (p.left ≤ 24) × (0 < p.step) × (p.step ≤ 24) × (p.offset ≤ p.left) }
    ensures { result ≡ deals p.left p.step n p.offset }
{
    deck::offset(p.left, p.step, p.offset, n)
}

// The place, and 255 where the card is not in the deck.
#[unsafe(no_mangle)]
pub extern "C" fn inside_find(p: Position, card: u8) -> u8
    requires { T (is_proper p) }
    ensures { result ≡ cond (in_deck p card) (find_place p card) 255 }
{
    let f = deck::find_card(Judged { position: p }, card);
    if f.found { f.place } else { 255 }
}

#[unsafe(no_mangle)]
pub extern "C" fn inside_save(p: Position) -> u64
    requires { T (is_proper p) }
    ensures { result ≡ code_of p }
{
    code::encode(Judged { position: p })
}

// With all its judging.
#[unsafe(no_mangle)]
pub extern "C" fn inside_resume(step: u8, cards: &[u8], code: u64) -> Started
    ensures { result ≡ resume_answer cards.now step code }
{
    let (refusal, position) = match code::resume(step, cards, code) {
        Ok(position) => (ACCEPTED, position),
        Err(refusal) => (u8::from(refusal), deal::blank()),
    };
    Started { refusal, position }
}

// What a move leads to, and the byte that its undo needs.
#[repr(C)]
#[derive(Clone, Copy)]
pub struct Step {
    pub position: Position,
    pub byte: u8,
}

#[unsafe(no_mangle)]
pub extern "C" fn inside_do_move(p: Position, kind: u8, card: u8) -> Step
    requires { T (is_proper p) × T (is_legal p kind card) }
    ensures { result ≡ record { position = after p kind card; byte = undo_byte p kind card } }
{
    let made = play::do_move(Judged { position: p }, kind, card);
    Step {
        position: made.position,
        byte: made.byte,
    }
}

#[unsafe(no_mangle)]
pub extern "C" fn inside_undo_move(p: Position, byte: u8, kind: u8, card: u8) -> Position
    requires { T (is_proper p) × T (has_way p byte kind card) }
    ensures { result ≡ before p byte kind card }
{
    play::undo_move(Judged { position: p }, byte, kind, card)
}
