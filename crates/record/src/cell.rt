// What a slot holds: a number that is missing, or one that waits (document 01, 'The channel table').
ghost use Rattle.std.specs.Prelude.{◌≡◌};
ghost use Rattle.slots.specs.Slots.{slot_of};
ghost use Rattle.record.specs.Place.{cell_at};
ghost use Rattle.record.specs.Cell.{cell_of};

use ring::Seq;
use slots::{handle_of, is_missing, time_of};

#[derive(Clone, Copy)]
pub enum Cell {
    // Since this time.
    Missing(u64),
    // With this handle.
    Waits(u32),
}

impl Cell {
    // The cell of number n.
    pub fn of(words: &[u64], handles: &[u32], marks: &[u8], n: Seq) -> Self
        ensures { cell_of result ≡ cell_at words.now handles.now marks.now (slot_of n.0) }
    {
        if is_missing(marks, n) {
            Cell::Missing(time_of(words, n))
        } else {
            Cell::Waits(handle_of(handles, n))
        }
    }
}
