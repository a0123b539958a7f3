// The kinds of moves.
ghost use Rattle.std.specs.Prelude.{◌≡◌};
ghost use Rattle.moves.specs.Kind.{Decodes, kind_of};

use std::error::Error;
use std::fmt;

// From where a move takes its card, and to where: the deck, a foundation (`Stack`) or a pile; `Reveal` moves a pile's head to another pile.
// `kind as u8` is the number that the history has for it.
#[derive(Clone, Copy, Debug, PartialEq, Eq)]
pub enum Kind {
    DeckStack,
    PileStack,
    DeckPile,
    StackPile,
    Reveal,
}

// A number that no kind has.
#[derive(Clone, Copy, Debug, PartialEq, Eq)]
pub struct NoSuchKind(pub u8);

impl Kind {
    // The kind that a number is taken for. One above 4 is taken for Reveal, as in the definitions.
    pub fn of(number: u8) -> Kind
        ensures { result ≡ kind_of number }
    {
        Kind::try_from(number).unwrap_or(Kind::Reveal)
    }
}

impl TryFrom<u8> for Kind {
    type Error = NoSuchKind;

    ghost try_from_gives = { Decodes };

    fn try_from(number: u8) -> Result<Self, NoSuchKind> {
        match number {
            0 => Ok(Kind::DeckStack),
            1 => Ok(Kind::PileStack),
            2 => Ok(Kind::DeckPile),
            3 => Ok(Kind::StackPile),
            4 => Ok(Kind::Reveal),
            _ => Err(NoSuchKind(number)),
        }
    }
}

impl fmt::Display for NoSuchKind {
    fn fmt<W: fmt::Write>(&self, f: &mut fmt::Formatter<W>) -> fmt::Result {
        write!(f, "no kind of move has number {}", self.0)
    }
}

impl Error for NoSuchKind {}
