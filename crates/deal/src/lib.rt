// A fresh deal: the refusals of what is dealt, the position, and the blank one that a refused call returns.
#![tactic(auto)]

ghost use Rattle.std.specs.Prelude.{◌≡◌, take, drop, IfOk};
ghost use Rattle.rules.specs.Hidden.{CardsFit};
ghost use Rattle.rules.specs.Fields.{blank as blank_one};
ghost use Rattle.rules.specs.Code.{fresh as fresh_of};
ghost use Rattle.rules.specs.Answers.{deal_refusal, deal_answer};
ghost use Rattle.rules.specs.Results.{refusal_of, started_of};

use card::{N_CARDS, N_DECK_CARDS, N_PILE_CARDS, N_PILES, N_SUITS};
use rules::{Position, Refusal};

// The position that stands in the plain answer of a refused deal or resume: all numbers 0.
pub fn blank() -> Position
    ensures { result ≡ blank_one }
{
    Position {
        deal: [0u8; N_CARDS],
        step: 0,
        counts: [0u8; N_PILES],
        heights: [0u8; N_SUITS],
        deck: [0u8; N_DECK_CARDS],
        left: 0,
        offset: 0,
        visible: 0,
    }
}

// The deal's cards where they lie, or refusals 1 to 4. A byte of 64 or more shows in the OR of all bytes, one of 52 to 63 above the mask's 52 bits;
// then a card is there twice where another is missing.
fn admitted(step: u8, cards: &[u8]) -> Result<&[u8; 52], Refusal>
    ensures refusal { refusal_of result ≡ deal_refusal cards.now step }
    ensures cards { IfOk result (λ dealt. dealt.now ≡ cards.now) }
{
    if !deck::is_step(step) {
        return Err(Refusal::WrongStep);
    }
    let Ok(deal) = <&[u8; N_CARDS]>::try_from(cards) else {
        return Err(Refusal::WrongLength);
    };
    if !proper::all_small(deal) {
        return Err(Refusal::NoCard);
    }
    let seen = card::cards_from(deal, 0, N_CARDS);
    if seen > card::FULL_MASK {
        return Err(Refusal::NoCard);
    }
    if seen != card::FULL_MASK {
        return Err(Refusal::SameCard);
    }
    Ok(deal)
}

// The deal's cards, or refusals 1 to 4.
pub fn judge(step: u8, cards: &[u8]) -> Result<[u8; 52], Refusal>
    ensures refusal { refusal_of result ≡ deal_refusal cards.now step }
    ensures cards { IfOk result (λ dealt. dealt ≡ cards.now) }
{
    Ok(*admitted(step, cards)?)
}

// The last 24 cards of a deal.
fn stock(cards: &[u8; 52]) -> [u8; 24]
    ensures { result ≡ take 24 (drop 28 cards.now) }
{
    let mut deck = [0u8; N_DECK_CARDS];
    deck.copy_from_slice(&cards[N_PILE_CARDS..]);
    deck
}

// A fresh deal: every pile whole, nothing on the foundations, the whole deck; visible are the heads.
pub fn fresh(step: u8, deal: [u8; 52]) -> Position
    requires { CardsFit deal }
    ensures { result ≡ fresh_of deal step }
{
    let counts = [1u8, 2, 3, 4, 5, 6, 7];
    Position {
        deal,
        step,
        counts,
        heights: [0u8; N_SUITS],
        deck: stock(&deal),
        left: card::FULL_DECK,
        offset: 0,
        visible: hidden::head_mask(&deal, &counts),
    }
}

// The public deal: a fresh position.
pub fn deal(step: u8, cards: &[u8]) -> Result<Position, Refusal>
    ensures { started_of result ≡ deal_answer cards.now step }
{
    Ok(fresh(step, *admitted(step, cards)?))
}
