// The single changes that moves are made of, each where the position lies.
ghost use Rattle.std.specs.Prelude.{◌≡◌, ◌<◌, ◌≤◌, T, get_or};
ghost use Rattle.rules.specs.Cards.{suit};
ghost use Rattle.rules.specs.Hidden.{CountsFit};
ghost use Rattle.rules.specs.Places.{in_deck};
ghost use Rattle.rules.specs.Play.{raised, lowered, laid, lifted, drawn, put_back, uncovered, covered, under};

use card::Card;
use rules::{Position, TurnedUp};

// The foundation of the card's suit is one higher.
#[tactic(auto, using(rules::proofs::Suits::suit_low), unfolding(rules::specs::Play::raised, rules::specs::Foundations::raised_on))]
pub fn raise(p: &mut Position, card: u8)
    requires { get_or p.old.heights (suit card) 0 < 255 }
    ensures { p.new ≡ raised p.old card }
{
    let suit = Card(card).suit() as usize;
    p.heights[suit] += 1;
}

// The foundation of the card's suit is one lower. An empty one stays.
#[tactic(auto, using(rules::proofs::Suits::suit_low), unfolding(rules::specs::Play::lowered, rules::specs::Foundations::lowered_on))]
pub fn lower(p: &mut Position, card: u8)
    ensures { p.new ≡ lowered p.old card }
{
    let suit = Card(card).suit() as usize;
    p.heights[suit] = p.heights[suit].saturating_sub(1);
}

// The card is visible.
pub fn lay(p: &mut Position, card: u8)
    ensures { p.new ≡ laid p.old card }
{
    p.visible |= Card(card).mask();
}

// The card is visible no more.
pub fn lift(p: &mut Position, card: u8)
    ensures { p.new ≡ lifted p.old card }
{
    p.visible &= !Card(card).mask();
}

// The card leaves the deck, and the offset is the place where it was.
#[tactic(auto, using(crate::proofs::Known::drawn_low), unfolding(rules::specs::Play::drawn, rules::specs::Play::deck_place))]
pub fn draw(p: &mut Position, card: u8)
    requires few { p.old.left ≤ 24 }
    requires there { T (in_deck p.old card) }
    ensures { p.new ≡ drawn p.old card }
{
    let place = deck::place_of(p.deck, p.left, card);
    p.deck = deck::draw(p.deck, p.left, place);
    p.left -= 1;
    p.offset = place;
}

// The card goes back into the deck, to where the offset stands, and the offset is this one again.
#[tactic(auto, unfolding(rules::specs::Play::put_back))]
pub fn put_back(p: &mut Position, card: u8, offset: u8)
    requires offset_fits { p.old.offset ≤ p.old.left }
    requires room { p.old.left < 24 }
    ensures { p.new ≡ put_back p.old card offset }
{
    p.deck = deck::push(p.deck, p.left, p.offset, card);
    p.left += 1;
    p.offset = offset;
}

// The pile's head leaves it, and the card under it is turned up.
#[tactic(auto, using(crate::proofs::Known::pile_fits), unfolding(rules::specs::Play::uncovered, rules::specs::Hidden::under_in))]
pub fn uncover(p: &mut Position, pile: usize) -> TurnedUp
    requires pile_bound { pile < 7 }
    requires counts_fit { CountsFit p.old.counts }
    ensures { (p.new ≡ uncovered p.old pile) × (result ≡ under p.old pile) }
{
    let n = p.counts[pile];
    p.counts[pile] = n.saturating_sub(1);
    if n <= 1 {
        return TurnedUp::Emptied;
    }
    let at = card::pile_start(pile) as usize + n as usize - 2;
    let up = p.deal[at];
    lay(p, up);
    TurnedUp::Card(Card(up))
}

// The pile's head comes back to it, and covers the card under it again.
#[tactic(auto, using(crate::proofs::Known::pile_fits), unfolding(rules::specs::Play::covered))]
pub fn cover(p: &mut Position, pile: usize)
    requires pile_bound { pile < 7 }
    requires counts_fit { CountsFit p.old.counts }
    ensures { p.new ≡ covered p.old pile }
{
    let n = p.counts[pile];
    p.counts[pile] = n + 1;
    if n > 0 {
        let at = card::pile_start(pile) as usize + n as usize - 1;
        let under = p.deal[at];
        lift(p, under);
    }
}
