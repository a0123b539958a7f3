// The masks of the locked cards of the seven piles: the heads, the buried cards, the first cards of the piles.
// A function takes what it reads, the deal and the counts, and requires no more than their ranges. Crate `hidden` passes these names on.
// Kept: the two are no struct with a ghost field. They are two fields of Position, which crosses to C, and a caller would first build the
// struct of them: `head_mask(&deal, &counts)` is shorter.
#![tactic(auto)]

ghost use Rattle.std.specs.Prelude.{◌≡◌};
ghost use Rattle.bits.specs.Bit.{mask_of};
ghost use Rattle.rules.specs.Places.{is_head, alone};
ghost use Rattle.rules.specs.Hidden.{CardsFit, CountsFit, head_in, buried_in, locked_in, base_in};

use rules::Judged;

// The heads.
pub fn head_mask(deal: &[u8; 52], counts: &[u8; 7]) -> u64
    requires cards_fit { CardsFit deal.now }
    requires counts_fit { CountsFit counts.now }
    ensures { result ≡ mask_of 52 (head_in deal.now counts.now) }
{
    let mut mask: u64 = 0;
    for (i, n) in counts.iter().enumerate() {
        let n = *n as usize;
        let some = (0 < n) as usize;
        let at = card::pile_start(i) as usize + n - some;
        mask |= (some as u64) << deal[at];
    }
    mask
}

// The first card of each pile: the head, where one card of each is locked.
pub fn base_mask(deal: &[u8; 52]) -> u64
    requires { CardsFit deal.now }
    ensures { result ≡ mask_of 52 (base_in deal.now) }
{
    let ones = [1u8; 7];
    head_mask(deal, &ones)
}

// The buried cards.
pub fn buried_mask(deal: &[u8; 52], counts: &[u8; 7]) -> u64
    requires cards_fit { CardsFit deal.now }
    requires counts_fit { CountsFit counts.now }
    ensures { result ≡ mask_of 52 (buried_in deal.now counts.now) }
{
    let mut mask: u64 = 0;
    for (i, n) in counts.iter().enumerate() {
        let buried = (*n as usize).saturating_sub(1);
        mask |= card::cards_from(deal, card::pile_start(i) as usize, buried);
    }
    mask
}

// The buried cards and the heads. Ported, and called by nothing.
pub fn locked_mask(deal: &[u8; 52], counts: &[u8; 7]) -> u64
    requires cards_fit { CardsFit deal.now }
    requires counts_fit { CountsFit counts.now }
    ensures { result ≡ mask_of 52 (locked_in deal.now counts.now) }
{
    buried_mask(deal, counts) | head_mask(deal, counts)
}

// The heads, and those of them that are alone: a head stands at the base of its pile just where its count is 1.
#[derive(Clone, Copy)]
pub struct HeadMasks {
    pub all: u64,
    pub alone: u64,
}

pub fn heads(p: Judged) -> HeadMasks
    ensures { (result.all ≡ mask_of 52 (is_head p.position)) × (result.alone ≡ mask_of 52 (alone p.position)) }
{
    // Kept: copies of the two fields. A borrow into `p` copies the whole position first, and the pruned masks took a quarter longer by it.
    let deal = p.position.deal;
    let counts = p.position.counts;
    let all = head_mask(&deal, &counts);
    HeadMasks {
        all,
        alone: all & base_mask(&deal),
    }
}
