// The history that moves write and undos read: 64 slots, of which a record lends the first.
ghost use Rattle.std.specs.Prelude.{◌≡◌, ◌-◌, ◌==◌, ◌||◌, nat_lt, if◌then◌else◌, slice_index_or, slice_set};

pub const N_SLOTS: usize = 64;

// The slot of those that are lent, and 0 past them.
pub fn slot(lent: &[u16], at: usize) -> u16
    ensures { result ≡ slice_index_or lent.now at 0 }
{
    lent.get(at).copied().unwrap_or(0)
}

// Whether a move wrote the slot at the count alone, and a refused one none.
pub fn kept(before: [u16; N_SLOTS], after: [u16; N_SLOTS], count: usize, refusal: u8) -> bool {
    before.iter().zip(&after).enumerate().all(|(i, (old, new))| old == new
        || (refusal == 0 && i == count))
}

// An undo's record has an entry, which is put last first.
pub fn with_entry(
    mut history: [u16; N_SLOTS],
    room: usize,
    count: usize,
    entry: u16,
) -> [u16; N_SLOTS]
    ensures { result ≡ (if count == 0 || nat_lt room count || nat_lt 64 count then history else slice_set history (count - 1) entry) }
{
    if count == 0 || room < count || N_SLOTS < count {
        return history;
    }
    history[count - 1] = entry;
    history
}
