// What a record is of: its first byte.
ghost use Rattle.replay_bytes.specs.Tags.{IsTagOf};

use std::error::Error;
use std::fmt;

pub const N_TAGS: usize = 14;

#[derive(Clone, Copy, Debug, PartialEq, Eq)]
pub enum Tag {
    Deal,
    Resume,
    Move,
    Undo,
    Masks,
    Listing,
    Piles,
    View,
    Tests,
    Finds,
    Offsets,
    Ladder,
    Cursors,
    Set,
}

impl Tag {
    // In the order of their numbers, and of the enum.
    pub const ALL: [Tag; N_TAGS] = [
        Tag::Deal,
        Tag::Resume,
        Tag::Move,
        Tag::Undo,
        Tag::Masks,
        Tag::Listing,
        Tag::Piles,
        Tag::View,
        Tag::Tests,
        Tag::Finds,
        Tag::Offsets,
        Tag::Ladder,
        Tag::Cursors,
        Tag::Set,
    ];
}

// A byte that is no tag.
#[derive(Clone, Copy, Debug, PartialEq, Eq)]
pub struct NoTag;

impl TryFrom<u8> for Tag {
    type Error = NoTag;

    ghost try_from_gives = { IsTagOf };

    fn try_from(byte: u8) -> Result<Tag, NoTag> {
        match byte {
            1 => Ok(Tag::Deal),
            2 => Ok(Tag::Resume),
            3 => Ok(Tag::Move),
            4 => Ok(Tag::Undo),
            5 => Ok(Tag::Masks),
            6 => Ok(Tag::Listing),
            7 => Ok(Tag::Piles),
            8 => Ok(Tag::View),
            9 => Ok(Tag::Tests),
            10 => Ok(Tag::Finds),
            11 => Ok(Tag::Offsets),
            12 => Ok(Tag::Ladder),
            13 => Ok(Tag::Cursors),
            14 => Ok(Tag::Set),
            _ => Err(NoTag),
        }
    }
}

impl fmt::Display for Tag {
    fn fmt<W: fmt::Write>(&self, f: &mut fmt::Formatter<W>) -> fmt::Result {
        f.write_str(match self {
            Tag::Deal => "deal",
            Tag::Resume => "resume",
            Tag::Move => "move",
            Tag::Undo => "undo",
            Tag::Masks => "masks",
            Tag::Listing => "listing",
            Tag::Piles => "piles",
            Tag::View => "view",
            Tag::Tests => "tests",
            Tag::Finds => "finds",
            Tag::Offsets => "offsets",
            Tag::Ladder => "ladder",
            Tag::Cursors => "cursors",
            Tag::Set => "set",
        })
    }
}

impl fmt::Display for NoTag {
    fn fmt<W: fmt::Write>(&self, f: &mut fmt::Formatter<W>) -> fmt::Result {
        f.write_str("no tag")
    }
}

impl Error for NoTag {}
