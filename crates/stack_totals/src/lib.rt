// What speaks of all four foundations: tests of every height, their sum, and the heights' field of the save code.
// Crate `stack` passes these names on.
#![tactic(auto)]

ghost use Rattle.std.specs.Prelude.{◌&&◌, ◌≡◌, ◌+◌, ◌*◌, ◌≤◌, leb, get_or};
ghost use Rattle.rules.specs.Bits.{all_of};
ghost use Rattle.rules.specs.Foundations.{valid_on, full_on, empty_on, cards_on, field_on};
ghost use Rattle.rules.specs.Code.{table, code_height};

use card::FULL_HEIGHT;

// A height takes four bits of the save code: the values that they have, and the lowest four bits.
const FIELD: u32 = 16;

const LOW: u16 = 15;

// Does each height lie from low to high? No branch is taken: the tests are few, and mostly all hold.
fn all_within(heights: [u8; 4], low: u8, high: u8) -> bool
    ensures { result ≡ all_of 4 (λ s. leb low (get_or heights s 0) && leb (get_or heights s 0) high) }
{
    let mut all = true;
    for height in &heights {
        all &= (low <= *height) & (*height <= high);
    }
    all
}

// Is each height one that a foundation can have?
#[tactic(auto, using(crate::proofs::Within::from_zero), unfolding(rules::specs::Foundations::valid_on))]
pub fn is_valid(heights: [u8; 4]) -> bool
    ensures { result ≡ valid_on heights }
{
    all_within(heights, 0, FULL_HEIGHT)
}

// Is every foundation full?
#[tactic(auto, using(crate::proofs::Within::just), unfolding(rules::specs::Foundations::full_on))]
pub fn is_full(heights: [u8; 4]) -> bool
    ensures { result ≡ full_on heights }
{
    all_within(heights, FULL_HEIGHT, FULL_HEIGHT)
}

// Is every foundation empty? Ported, and called by nothing.
#[tactic(auto, using(crate::proofs::Within::just), unfolding(rules::specs::Foundations::empty_on))]
pub fn is_empty(heights: [u8; 4]) -> bool
    ensures { result ≡ empty_on heights }
{
    all_within(heights, 0, 0)
}

// The heights as the digits of a number, suit 0 lowest. They are summed, and not joined by `|`: so it is exact for every byte, also
// for those that are no digits of the radix.
fn weighed(heights: [u8; 4], radix: u32) -> u32
    requires { radix ≤ 16 }
    ensures { result ≡ get_or heights 0 0 + radix * (get_or heights 1 0 + radix * (get_or heights 2 0 + radix * get_or heights 3 0)) }
{
    heights[0] as u32
        + radix * (heights[1] as u32 + radix * (heights[2] as u32 + radix * heights[3] as u32))
}

// How many cards are on the foundations. Ported, and called by nothing.
#[tactic(auto, unfolding(rules::specs::Foundations::cards_on))]
pub fn len(heights: [u8; 4]) -> u32
    ensures { result ≡ cards_on heights }
{
    weighed(heights, 1)
}

// The heights' field of the save code.
#[tactic(auto, unfolding(rules::specs::Foundations::field_on))]
pub fn encode(heights: [u8; 4]) -> u32
    ensures { result ≡ field_on heights }
{
    weighed(heights, FIELD)
}

// The four heights that a field holds.
pub fn decode(field: u16) -> [u8; 4]
    ensures { result ≡ table 4 (code_height field) }
{
    [
        (field & LOW) as u8,
        ((field >> 4) & LOW) as u8,
        ((field >> 8) & LOW) as u8,
        ((field >> 12) & LOW) as u8,
    ]
}
