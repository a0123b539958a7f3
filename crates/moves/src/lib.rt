// The kinds of moves, the moves as five masks, one for each kind, and their listing: what is ported of moves.rs.
#![tactic(auto)]

ghost use Rattle.std.specs.Prelude.{◌≡◌, ◌<◌, length};
ghost use Rattle.rules.specs.declared.Refusal.TheVariants.{NoSuchMove};
ghost use Rattle.rules.specs.History.{is_kind_and_card};
ghost use Rattle.rules.specs.Results.{passes};
ghost use Rattle.rules.specs.Moves.{CardMasks, move_count, no_moves, filtered, combined, one_move, fitting, listed_over};
ghost use Rattle.moves.specs.Each.{EachMask};

mod kinds;

pub use kinds::{Kind, NoSuchKind};
use rules::{Masks, Refusal};

// Kept: the public functions here and in crates `legal` and `play` take a kind as a byte: `of_move`, `do_move`, `has_way` and `undo_move` answer for every byte,
// one above 4 as for a reveal, and the others are given the same byte. `Kind::of` tells them apart.

// The highest number of a kind.
pub const LAST_KIND: u8 = Kind::Reveal as u8;

// A listed move is its kind times this, and its card.
pub const KIND: u16 = 64;

// A kind and a card that are none name no move.
pub fn admit(kind: u8, card: u8) -> Result<(), Refusal>
    ensures { result ≡ passes (is_kind_and_card kind card) NoSuchMove }
{
    if kind > LAST_KIND || card > card::LAST_CARD {
        return Err(Refusal::NoSuchMove);
    }
    Ok(())
}

// How many moves there are.
#[tactic(auto, using(bits::proofs::Searches::count_le), unfolding(rules::specs::Moves::move_count, rules::specs::Pruned::size))]
pub fn len(m: Masks) -> u32
    ensures { result ≡ move_count m }
{
    bits::count(m.reveal)
        + bits::count(m.pile_stack)
        + bits::count(m.deck_pile)
        + bits::count(m.deck_stack)
        + bits::count(m.stack_pile)
}

// Is there no move? Ported, and called by nothing.
#[tactic(auto, using(crate::proofs::Sized::or_none), unfolding(rules::specs::Moves::no_moves))]
pub fn is_empty(m: Masks) -> bool
    ensures { result ≡ no_moves m }
{
    (m.reveal | m.pile_stack | m.deck_pile | m.deck_stack | m.stack_pile) == 0
}

// Two groups of masks, mask by mask.
fn mask_by_mask<F: Fn(u64, u64) -> u64>(m: Masks, n: Masks, f: F) -> Masks
    requires { F.IsAlwaysCallable f }
    ensures { EachMask (F.post f) m n result }
{
    Masks {
        reveal: f(m.reveal, n.reveal),
        pile_stack: f(m.pile_stack, n.pile_stack),
        deck_pile: f(m.deck_pile, n.deck_pile),
        deck_stack: f(m.deck_stack, n.deck_stack),
        stack_pile: f(m.stack_pile, n.stack_pile),
    }
}

// The moves of m that are none of those to remove. Ported, and called by nothing.
pub fn filter(m: Masks, remove: Masks) -> Masks
    ensures { result ≡ filtered m remove }
{
    mask_by_mask(m, remove, |a, b| a & !b)
}

// The moves of either. Ported, and called by nothing.
pub fn combine(m: Masks, other: Masks) -> Masks
    ensures { result ≡ combined m other }
{
    mask_by_mask(m, other, |a, b| a | b)
}

// One move alone. A kind above 4 is taken for Reveal, as in the definitions. Ported, and called by nothing.
#[tactic(auto, using(crate::proofs::Taken::one_is), unfolding(rules::specs::Moves::one_move))]
pub fn of_move(kind: u8, card: u8) -> Masks
    requires { card < 64 }
    ensures { result ≡ one_move kind card }
{
    let one = bits::card_mask(card as u32);
    let none = Masks::default();
    match Kind::of(kind) {
        Kind::DeckStack => Masks {
            deck_stack: one,
            ..none
        },
        Kind::PileStack => Masks {
            pile_stack: one,
            ..none
        },
        Kind::DeckPile => Masks {
            deck_pile: one,
            ..none
        },
        Kind::StackPile => Masks {
            stack_pile: one,
            ..none
        },
        Kind::Reveal => Masks {
            reveal: one,
            ..none
        },
    }
}

// Lists the moves into the front of out, and returns how many. Where out has fewer slots than there are moves, it is left as it was.
#[tactic(auto, unfolding(rules::specs::Moves::move_count, rules::specs::Pruned::size))]
pub fn list_into(m: Masks, out: &mut [u16]) -> usize
    requires { CardMasks m }
    ensures { (result ≡ length (fitting m (length out.old))) × (out.new ≡ listed_over m out.old) }
{
    if out.len() < len(m) as usize {
        return 0;
    }
    let a = bits::fill(m.reveal, Kind::Reveal as u16 * KIND, out, 0);
    let b = bits::fill(m.pile_stack, Kind::PileStack as u16 * KIND, out, a);
    let c = bits::fill(m.deck_pile, Kind::DeckPile as u16 * KIND, out, b);
    let d = bits::fill(m.deck_stack, Kind::DeckStack as u16 * KIND, out, c);
    bits::fill(m.stack_pile, Kind::StackPile as u16 * KIND, out, d)
}
