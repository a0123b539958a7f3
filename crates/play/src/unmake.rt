// Going back over a move, and the test that there is a way back.
ghost use Rattle.std.specs.Prelude.{◌≡◌, T};
ghost use Rattle.rules.specs.Play.{before};
ghost use Rattle.play.specs.Made.{has_way};

use crate::parts::{cover, lay, lift, lower, put_back, raise};
use moves::Kind;
use rules::{Judged, Position};

// There is a place for the card to go back to. Whoever asks for an undo may have written the entry, so nothing in it is trusted.
#[tactic(auto, using(crate::proofs::EachKind::ways))]
pub fn has_way(p: Judged, byte: u8, kind: u8, card: u8) -> bool
    ensures { result ≡ has_way p.position byte kind card }
{
    match Kind::of(kind) {
        Kind::DeckStack | Kind::DeckPile => p.position.left < card::FULL_DECK,
        Kind::PileStack => {
            byte == 0 || hidden::find_bare(&p.position.deal, &p.position.counts, card).is_some()
        }
        Kind::StackPile => true,
        Kind::Reveal => { hidden::find_bare(&p.position.deal, &p.position.counts, card).is_some() }
    }
}

// Goes back over a move that wrote this byte, if there is a way. What comes out may be no proper position.
// A byte that is not 0 says of a card that went up from a pile that it was a head.
#[tactic(auto, using(crate::proofs::EachKind::going), unfolding(rules::specs::Play::lowered, rules::specs::Play::laid, rules::specs::Play::lifted))]
pub fn undo_move(p: Judged, byte: u8, kind: u8, card: u8) -> Position
    requires { T (has_way p.position byte kind card) }
    ensures { result ≡ before p.position byte kind card }
{
    let mut q = p.position;
    match Kind::of(kind) {
        Kind::DeckStack => {
            lower(&mut q, card);
            put_back(&mut q, card, byte);
        }
        Kind::PileStack => {
            lower(&mut q, card);
            lay(&mut q, card);
            if byte != 0 {
                if let Some(pile) = hidden::find_bare(&q.deal, &q.counts, card) {
                    cover(&mut q, pile);
                }
            }
        }
        Kind::DeckPile => {
            lift(&mut q, card);
            put_back(&mut q, card, byte);
        }
        Kind::StackPile => {
            lift(&mut q, card);
            raise(&mut q, card);
        }
        Kind::Reveal => {
            if let Some(pile) = hidden::find_bare(&q.deal, &q.counts, card) {
                cover(&mut q, pile);
            }
        }
    }
    q
}
