// Tag 14: a number of the position is set, so that positions come up that are not proper.
ghost use Rattle.std.specs.Prelude.{◌≡◌, min};
ghost use Rattle.replay_rows.specs.Fields.{number};

use crate::table::Table;
use replay_bytes::Answer;
use replay_bytes::record::Row;
use rules::Position;

#[derive(Clone, Copy, PartialEq, Eq)]
pub enum Field {
    Deal,
    Step,
    Counts,
    Heights,
    Deck,
    Left,
    Offset,
    Visible,
}

// The fields by their numbers in a record. The last one has all numbers that are left.
impl From<u8> for Field {
    ghost from_gives = { λ n field. number field ≡ min n 7 };

    fn from(n: u8) -> Field {
        match n {
            0 => Field::Deal,
            1 => Field::Step,
            2 => Field::Counts,
            3 => Field::Heights,
            4 => Field::Deck,
            5 => Field::Left,
            6 => Field::Offset,
            _ => Field::Visible,
        }
    }
}

// The card's bit becomes the value, 0 or 1.
fn with_bit(visible: u64, index: usize, value: u8) -> u64 {
    if 64 <= index {
        return visible;
    }
    let bit = 1u64 << index;
    if value == 0 {
        return visible & !bit;
    }
    visible | bit
}

fn put(numbers: &mut [u8], index: usize, value: u8) {
    if let Some(number) = numbers.get_mut(index) {
        *number = value;
    }
}

// A position with another number in a field. An index that the field does not have changes nothing.
pub fn with(mut p: Position, field: Field, index: usize, value: u8) -> Position {
    match field {
        Field::Deal => put(&mut p.deal, index, value),
        Field::Step => p.step = value,
        Field::Counts => put(&mut p.counts, index, value),
        Field::Heights => put(&mut p.heights, index, value),
        Field::Deck => put(&mut p.deck, index, value),
        Field::Left => p.left = value,
        Field::Offset => p.offset = value,
        Field::Visible => p.visible = with_bit(p.visible, index, value),
    }
    p
}

pub fn set(mut t: Table, row: Row, out: Row) -> Table {
    let field = Field::from(row.byte(2));
    let p = with(t.position, field, usize::from(row.byte(3)), row.byte(4));
    t.position = p;
    t.with(Answer::new(out))
}
