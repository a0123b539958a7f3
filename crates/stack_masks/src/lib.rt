// The masks that the four heights give: the next cards, those that may go up at once, those that lie there. Crate `stack` passes these names on.
#![tactic(auto)]

ghost use Rattle.std.specs.Prelude.{◌≡◌, ◌&&◌, ℕ, ◌<◌, ◌≤◌, eqb, ltb, get_or};
ghost use Rattle.bits.specs.Bit.{mask_of};
ghost use Rattle.rules.specs.Cards.{suit as suit_of, rank};
ghost use Rattle.rules.specs.Foundations.{stacked_on};
ghost use Rattle.rules.specs.Legal.{next_on};
ghost use Rattle.rules.specs.Pruned.{dominant_on};

use bits::min;

// The card of a suit that is next on a foundation of this height.
fn next(suit: usize, height: u8) -> u64
    requires { (suit < 4) × (height ≤ 13) }
    ensures { result ≡ mask_of 56 (λ c. eqb (suit_of c) suit && eqb (rank c) height) }
{
    let shift = (height as u32) * 4;
    card::suit_mask(suit) & (0b1111u64 << shift)
}

// The card of each suit that is next on its foundation. Each height moves a bit by its rank, so heights above 13 would leave the cards,
// and from 16 on the word. A full foundation's is one of the numbers 52 to 55, past the kings: it is not cut,
// since `stack_pile` shifts it down to the king.
pub fn mask(heights: [u8; 4]) -> u64
    requires { (s : ℕ) → s < 4 → get_or heights s 0 ≤ 13 }
    ensures { result ≡ mask_of 56 (next_on heights) }
{
    next(0, heights[0]) | next(1, heights[1]) | next(2, heights[2]) | next(3, heights[3])
}

// The lowest n bits.
fn full_mask(n: u32) -> u64
    requires { n < 64 }
    ensures { result ≡ mask_of 64 (λ k. ltb k n) }
{
    (1u64 << n) - 1
}

// The cards that may go up at once. The bound on the heights keeps the shifts within the word.
pub fn dominance_mask(heights: [u8; 4]) -> u64
    requires { (s : ℕ) → s < 4 → get_or heights s 0 ≤ 13 }
    ensures { result ≡ mask_of 64 (dominant_on heights) }
{
    let d0 = min(heights[0], heights[1]);
    let d1 = min(heights[2], heights[3]);
    let a = min(d0 + 1, d1) + 2;
    let b = min(d0, d1 + 1) + 2;
    (card::colour_mask(0) & full_mask((a as u32) * 4))
        | (card::colour_mask(1) & full_mask((b as u32) * 4))
}

// The cards on the foundations.
pub fn foundation_mask(heights: &[u8; 4]) -> u64
    requires { (s : ℕ) → s < 4 → get_or heights.now s 0 ≤ 13 }
    ensures { result ≡ mask_of 52 (stacked_on heights.now) }
{
    let mut mask: u64 = 0;
    for (suit, height) in heights.iter().enumerate() {
        mask |= card::suit_mask(suit) & full_mask(4 * (*height as u32));
    }
    mask
}
