// The public calls that tell of the deck: its cards, where one lies, the offset after deals. Crate `engine` passes these names on.
#![tactic(auto)]

ghost use Rattle.std.specs.Prelude.{◌≡◌};
ghost use Rattle.rules.specs.Answers.{deck_answer, find_answer, offset_answer};
ghost use Rattle.rules.specs.Results.{view_of, located_of, offset_of};

use rules::{DeckLeft, Found, Position, Refusal};

// The deck cards left, and the offset.
pub fn deck(p: Position) -> Result<DeckLeft, Refusal>
    ensures { view_of p result ≡ deck_answer p }
{
    proper::judge(p)?;
    let cards = deck::cards(p.deck, p.left);
    Ok(DeckLeft {
        cards,
        left: p.left,
        offset: p.offset,
    })
}

// Whether a card is in the deck, and where.
pub fn find(p: Position, card: u8) -> Result<Found, Refusal>
    ensures { located_of p result ≡ find_answer p card }
{
    let judged = proper::judge(p)?;
    if card > card::LAST_CARD {
        return Err(Refusal::NoSuchMove);
    }
    Ok(deck::find_card(judged, card))
}

// The offset after n deals in a row.
pub fn offset(p: Position, n: u8) -> Result<u8, Refusal>
    ensures { offset_of p result ≡ offset_answer p n }
{
    proper::judge(p)?;
    Ok(deck::offset(p.left, p.step, p.offset, n))
}
