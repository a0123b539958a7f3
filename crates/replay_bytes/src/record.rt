// A record's bytes; numbers of 2 and 8 bytes are little-endian. Past the end a byte reads 0 and a write does nothing,
// so that no reader has to know a length.
ghost use Rattle.std.specs.Prelude.{◌≡◌, ◌<◌, true, false, length, IfSome, IfNone, IfOk, slice_index_or, slice_set};
ghost use Rattle.std.specs.Io.KnownBytes.{Consumes, IsAtEnd};

use crate::tag::{NoTag, Tag};
use reading::read_full;
use std::io::Read;
use std::{array, io};

pub const SIZE: usize = 64;

#[derive(Clone, Copy, Default, PartialEq, Eq)]
pub struct Row(pub [u8; SIZE]);

// The next record, or None where the input has not so many bytes, and then none is left.
pub fn read<R: Read>(input: &mut R) -> io::Result<Option<Row>>
    ensures bytes { IfOk result (λ r. IfSome r (λ row. Consumes (R.remaining input.old) (R.remaining input.new) row.0)) }
    ensures short { IfOk result (λ r. IfNone r (IfSome (R.remaining input.old) (λ xs. length xs < 64))) }
    ensures end { IfOk result (λ r. IfNone r (IsAtEnd (R.remaining input.new))) }
{
    let mut bytes = [0u8; SIZE];
    if read_full(input, &mut bytes)? < SIZE {
        return Ok(None);
    }
    Ok(Some(Row(bytes)))
}

// Whether nothing is left to read.
pub fn at_end<R: Read>(input: &mut R) -> io::Result<bool>
    ensures end { IfOk result (λ e. e ≡ true → IsAtEnd (R.remaining input.old)) }
    ensures more { IfOk result (λ e. e ≡ false → IfSome (R.remaining input.old) (λ xs. 0 < length xs)) }
{
    let mut r = [0u8; 1];
    let n = read_full(input, &mut r)?;
    Ok(n == 0)
}

impl Row {
    pub fn byte(self, at: usize) -> u8
        ensures { result ≡ slice_index_or self.0 at 0 }
    {
        self.0.get(at).copied().unwrap_or(0)
    }

    // The N bytes from a place on.
    pub fn bytes<const N: usize>(self, at: usize) -> [u8; N] {
        array::from_fn(|i| self.byte(at.saturating_add(i)))
    }

    // Kept: one for each size, here and in `put_short` and `put_long`, since no trait of the library has `from_le_bytes`.
    pub fn short(self, at: usize) -> u16 {
        u16::from_le_bytes(self.bytes(at))
    }

    pub fn long(self, at: usize) -> u64 {
        u64::from_le_bytes(self.bytes(at))
    }

    // The n bytes from a place on, and none where there are not so many.
    pub fn part(&self, at: usize, n: usize) -> &[u8] {
        self.0.get(at..at.saturating_add(n)).unwrap_or(&[])
    }

    pub fn tag(self) -> Result<Tag, NoTag> {
        Tag::try_from(self.byte(0))
    }

    pub fn put(mut self, at: usize, b: u8) -> Row
        ensures { result.0 ≡ slice_set self.0 at b }
    {
        if at < SIZE {
            self.0[at] = b;
        }
        self
    }

    // Bytes one after the other.
    pub fn put_all(mut self, at: usize, bytes: &[u8]) -> Row {
        for (place, b) in self.0.iter_mut().skip(at).zip(bytes) {
            *place = *b;
        }
        self
    }

    pub fn put_short(self, at: usize, x: u16) -> Row {
        self.put_all(at, &x.to_le_bytes())
    }

    // The low two bytes of a number.
    pub fn put_size(self, at: usize, n: usize) -> Row {
        self.put_all(at, &n.to_le_bytes()[..2])
    }

    pub fn put_long(self, at: usize, x: u64) -> Row {
        self.put_all(at, &x.to_le_bytes())
    }

    // The record's tag and inputs, and 0 in the other bytes.
    pub fn inputs(self) -> Row {
        let (at, n) = inputs(self.tag());
        Row::default()
            .put(0, self.byte(0))
            .put_all(at, self.part(at, n))
    }

    // The first byte in which the record and the answer differ.
    pub fn difference(self, other: Row) -> Option<usize> {
        self.0.iter().zip(&other.0).position(|(a, b)| a != b)
    }
}

// The first input's place, after the tag and the refusal, and how many bytes of inputs there are from there on.
// A resume's other card and the entries of a record are copied with their answers.
fn inputs(tag: Result<Tag, NoTag>) -> (usize, usize) {
    match tag {
        Ok(Tag::Deal) => (2, 54),
        Ok(Tag::Resume) => (2, 10),
        Ok(Tag::Move | Tag::Undo) => (2, 6),
        Ok(Tag::Listing) => (2, 2),
        Ok(Tag::View) => (2, 0),
        Ok(Tag::Ladder) => (3, 9),
        Ok(Tag::Set) => (2, 3),
        Ok(Tag::Masks | Tag::Piles | Tag::Tests | Tag::Finds | Tag::Offsets | Tag::Cursors)
        | Err(NoTag) => (2, 1),
    }
}
