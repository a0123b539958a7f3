// Making a move.
ghost use Rattle.std.specs.Prelude.{◌≡◌, T};
ghost use Rattle.rules.specs.Legal.{legal};
ghost use Rattle.play.specs.Made.{made};

use crate::Made;
use crate::parts::{draw, lay, lift, lower, raise, uncover};
use moves::Kind;
use rules::{Judged, TurnedUp};

// Makes a legal move. The position is copied once and changed there: what is read once it has changed is read of the copy, so that no second one is kept.
#[tactic(auto, using(crate::proofs::EachKind::making), unfolding(rules::specs::Play::raised, rules::specs::Play::lifted, rules::specs::Play::drawn))]
pub fn do_move(p: Judged, kind: u8, card: u8) -> Made
    requires { T (legal p.position kind card) }
    ensures { result ≡ made p.position kind card }
{
    let mut q = p.position;
    let (byte, turned) = match Kind::of(kind) {
        Kind::DeckStack => {
            let byte = q.offset;
            draw(&mut q, card);
            raise(&mut q, card);
            (byte, TurnedUp::Nothing)
        }
        Kind::PileStack => {
            raise(&mut q, card);
            lift(&mut q, card);
            match hidden::find_head(&q.deal, &q.counts, card) {
                Some(pile) => (1, uncover(&mut q, pile)),
                None => (0, TurnedUp::Nothing),
            }
        }
        Kind::DeckPile => {
            let byte = q.offset;
            draw(&mut q, card);
            lay(&mut q, card);
            (byte, TurnedUp::Nothing)
        }
        Kind::StackPile => {
            lower(&mut q, card);
            lay(&mut q, card);
            (0, TurnedUp::Nothing)
        }
        Kind::Reveal => match hidden::find_head(&q.deal, &q.counts, card) {
            Some(pile) => (0, uncover(&mut q, pile)),
            None => (0, TurnedUp::Nothing),
        },
    };
    Made {
        position: q,
        byte,
        turned,
    }
}
