// Cards, and the constant tables that follow from the card-number rule.
#![tactic(auto)]

ghost use Rattle.std.specs.Prelude.{◌≡◌, ◌+◌, ◌/◌, ◌%◌, ◌<◌, ◌≤◌, length, nat_eq};
ghost use Rattle.bits.specs.Bit.{mask_of};
ghost use Rattle.card.specs.Cards.{card_of, rank as rank_of, suit as suit_of, partner, suit_mask, colour_mask, pile_start, cards_from};
ghost use Rattle.card.specs.Methods.{number_of, twin, above, below, king_or_fake, goes_after, split_of, first_card};
ghost use Rattle.card.specs.Constants.{constants_are};

// How many there are of suits, ranks, cards and piles; of places in the piles and in the deck. Pile k has k + 1 places: the piles' places are the
// deal's first, the deck's the others.
pub const N_SUITS: usize = 4;

pub const N_RANKS: usize = 13;

pub const N_CARDS: usize = N_SUITS * N_RANKS;

pub const N_PILES: usize = 7;

pub const N_PILE_CARDS: usize = N_PILES * (N_PILES + 1) / 2;

pub const N_DECK_CARDS: usize = N_CARDS - N_PILE_CARDS;

// As bytes: the highest card, the height of a full foundation, the cards of a full deck.
pub const LAST_CARD: u8 = N_CARDS as u8 - 1;

pub const FULL_HEIGHT: u8 = N_RANKS as u8;

pub const FULL_DECK: u8 = N_DECK_CARDS as u8;

// As many columns as piles.
pub const N_COLUMNS: u32 = N_PILES as u32;

// Every card.
pub const FULL_MASK: u64 = 0xF_FFFF_FFFF_FFFF;

// The cards of each suit.
pub const SUIT_MASK: [u64; N_SUITS] = [
    0x4141_4141_4141_4141,
    0x8282_8282_8282_8282,
    0x1414_1414_1414_1414,
    0x2828_2828_2828_2828,
];

// The cards of each colour.
pub const COLOR_MASK: [u64; 2] = [SUIT_MASK[0] | SUIT_MASK[1], SUIT_MASK[2] | SUIT_MASK[3]];

// Where each pile starts in the deal.
pub const PILE_START: [u8; N_PILES] = [0, 1, 3, 6, 10, 15, 21];

// The four kings.
pub const KING_MASK: u64 = 0xF << (N_SUITS * (N_RANKS - 1));

// Of the two pairs of each rank the first.
pub const HALF_MASK: u64 = 0x3333_3333_3333_3333;

// Of the two cards of each pair the first.
pub const ALT_MASK: u64 = 0x5555_5555_5555_5555;

// Of the four cards of each rank the first.
pub const RANK_MASK: u64 = 0x1111_1111_1111_1111;

// Four cards to a rank, and the highest rank.
const SUITS: u8 = N_SUITS as u8;

const KING_RANK: u8 = N_RANKS as u8 - 1;

// A card number. The cards are 0 to 51; every method answers on every byte.
#[derive(Clone, Copy, Debug, PartialEq, Eq)]
pub struct Card(pub u8);

// A rank and a suit.
#[derive(Clone, Copy, Debug, PartialEq, Eq)]
pub struct Split {
    pub rank: u8,
    pub suit: u8,
}

// 2 of the suit is flipped on odd ranks: once to make a number, once more to undo it.
#[tactic(auto, using(crate::proofs::Bytes::flip_is))]
fn suit_xor_color(v: u8) -> u8
    ensures { result ≡ card_of (v / 4) (v % 4) }
{
    v ^ ((v >> 1) & 2)
}

impl Card {
    pub const DEFAULT: Card = Card(0);

    pub const INVALID: Card = Card(54);

    // A suit above 3 carries into the rank, and the number wraps at 256.
    #[tactic(auto, unfolding(crate::specs::Methods::number_of))]
    pub fn new(rank: u8, suit: u8) -> Self
        ensures { result.0 ≡ number_of rank suit }
    {
        let value = ((rank % 64) * SUITS).wrapping_add(suit);
        Card(suit_xor_color(value))
    }

    #[tactic(auto, unfolding(crate::specs::Cards::rank))]
    pub fn rank(self) -> u8
        ensures { result ≡ rank_of self.0 }
    {
        self.0 / SUITS
    }

    // A king or a fake card: also of each number above the cards.
    #[tactic(auto, unfolding(crate::specs::Methods::king_or_fake))]
    pub fn is_king(self) -> bool
        ensures { result ≡ king_or_fake self.0 }
    {
        self.rank() >= KING_RANK
    }

    #[tactic(auto, using(crate::proofs::Suits::suit_low), unfolding(crate::specs::Cards::card_of, crate::specs::Cards::suit, crate::specs::Cards::rank))]
    pub fn suit(self) -> u8
        ensures { result ≡ suit_of self.0 }
    {
        suit_xor_color(self.0) % SUITS
    }

    #[tactic(auto, unfolding(crate::specs::Methods::split_of))]
    pub fn split(self) -> Split
        ensures { result ≡ split_of self.0 }
    {
        Split {
            rank: self.rank(),
            suit: self.suit(),
        }
    }

    // The other card of the pair.
    #[tactic(auto, using(crate::proofs::Bytes::partner_is))]
    pub fn swap_suit(self) -> Self
        ensures { result.0 ≡ partner self.0 }
    {
        Card(self.0 ^ 1)
    }

    // The card of the same rank in the other pair.
    #[tactic(auto, using(crate::proofs::Bytes::twin_is))]
    pub fn swap_color(self) -> Self
        ensures { result.0 ≡ twin self.0 }
    {
        Card(self.0 ^ 2)
    }

    // Stops at 255.
    #[tactic(auto, unfolding(crate::specs::Methods::above))]
    pub fn increase_rank_swap_color(self) -> Self
        ensures { result.0 ≡ above self.0 }
    {
        Card(self.0.saturating_add(SUITS))
    }

    // Stops at 0.
    #[tactic(auto, unfolding(crate::specs::Methods::below))]
    pub fn reduce_rank_swap_color(self) -> Self
        ensures { result.0 ≡ below self.0 }
    {
        Card(self.0.saturating_sub(SUITS))
    }

    // The card lies on the other: the sum is taken in 16 bits, so that it never wraps. On an empty pile goes a king.
    #[tactic(auto, using(crate::proofs::Bytes::lies_is), unfolding(crate::specs::Methods::goes_after))]
    pub fn go_after(self, other: Option<Card>) -> bool
        ensures { result ≡ goes_after self.0 other }
    {
        match other {
            Some(under) => ((self.0 as u16 + SUITS as u16) ^ under.0 as u16) < 2,
            None => self.is_king(),
        }
    }

    pub fn mask_index(self) -> u8
        ensures { result ≡ self.0 }
    {
        self.0
    }

    pub fn from_mask_index(idx: u8) -> Self
        ensures { result.0 ≡ idx }
    {
        Card(idx)
    }

    // The card alone; of a number of 64 or more, none.
    pub fn mask(self) -> u64
        ensures { result ≡ mask_of 64 (λ k. nat_eq k self.0) }
    {
        if self.0 < 64 {
            bits::card_mask(self.0 as u32)
        } else {
            0
        }
    }

    // The lowest card of a mask, if that is one of the 52.
    #[tactic(auto, unfolding(crate::specs::Methods::first_card))]
    pub fn from_mask(v: u64) -> Option<Card>
        ensures { result ≡ first_card v }
    {
        let lowest = bits::lowest_card(v);
        if lowest < N_CARDS as u32 {
            Some(Card(lowest as u8))
        } else {
            None
        }
    }
}

// The single constants, together.
#[derive(Clone, Copy)]
pub struct Tied {
    pub king: u64,
    pub half: u64,
    pub alt: u64,
    pub rank: u64,
    pub default: Card,
    pub invalid: Card,
}

// One contract ties each of them to the card-number rule.
pub fn constants() -> Tied
    ensures { result ≡ constants_are }
{
    Tied {
        king: KING_MASK,
        half: HALF_MASK,
        alt: ALT_MASK,
        rank: RANK_MASK,
        default: Card::DEFAULT,
        invalid: Card::INVALID,
    }
}

// The cards of a suit; of a number above 3, none.
pub fn suit_mask(suit: usize) -> u64
    ensures { result ≡ suit_mask suit }
{
    SUIT_MASK.get(suit).copied().unwrap_or(0)
}

// The cards of a colour; of a number above 1, none.
pub fn colour_mask(colour: usize) -> u64
    ensures { result ≡ colour_mask colour }
{
    COLOR_MASK.get(colour).copied().unwrap_or(0)
}

// The place in the deal where a pile starts.
pub fn pile_start(pile: usize) -> u8
    requires { pile < 7 }
    ensures { result ≡ pile_start pile }
{
    PILE_START[pile]
}

// The cards at the n places from start on, each byte modulo 64.
// Kept: start and n stand beside the slice, as the definition `cards_from` and each caller's contract count the places of the whole deal.
pub fn cards_from(cards: &[u8], start: usize, n: usize) -> u64
    requires { start + n ≤ length cards.now }
    ensures { result ≡ cards_from cards.now start n }
{
    let mut mask: u64 = 0;
    for card in &cards[start..start + n] {
        mask |= 1u64 << (*card & 63);
    }
    mask
}
