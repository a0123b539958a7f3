// What reads the seven counts alone: whether no card is buried, how many are, and the pile field of a save code.
// Crate `hidden` passes these names on.
#![tactic(auto)]

ghost use Rattle.std.specs.Prelude.{cond, ◌≡◌, ltb, Some, None};
ghost use Rattle.rules.specs.Code.{counts_field, field_count, pile_codes, table};
ghost use Rattle.rules.specs.Hidden.{CountsFit, all_up, down_cards};

use card::N_PILES;

// Pile fields are below this number.
const N_CODES: u16 = 40320;

// No card is buried.
pub fn is_all_up(counts: &[u8; 7]) -> bool
    ensures { result ≡ all_up counts.now }
{
    counts.iter().all(|n| *n <= 1)
}

// How many cards are buried. Ported, and called by nothing.
pub fn total_down_cards(counts: &[u8; 7]) -> u8
    requires { CountsFit counts.now }
    ensures { result ≡ down_cards counts.now }
{
    counts.iter().map(|n| n.saturating_sub(1)).sum()
}

// The pile field of a save code: the radix of pile i is i + 2.
pub fn encode(counts: &[u8; 7]) -> u16
    requires { CountsFit counts.now }
    ensures { result ≡ counts_field counts.now }
{
    let mut res: u16 = 0;
    for i in (0..N_PILES).rev() {
        res = res * (i as u16 + 2) + counts[i] as u16;
    }
    res
}

// The counts that a pile field stands for, where it stands for any: a field is never taken modulo a radix.
pub fn decode(field: u16) -> Option<[u8; 7]>
    ensures { result ≡ cond (ltb field pile_codes) (Some (table 7 (λ i. field_count field i))) None }
{
    if field >= N_CODES {
        return None;
    }
    let mut counts = [0u8; 7];
    let mut rest = field;
    for (i, count) in counts.iter_mut().enumerate() {
        let n_options = i as u16 + 2;
        *count = (rest % n_options) as u8;
        rest /= n_options;
    }
    Some(counts)
}
