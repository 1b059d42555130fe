// A close on the table: what waits comes back, and the place is free again, its key too (document 01, 'Close' and 'The channel table').
ghost use Rattle.std.specs.Prelude.{◌≡◌, ◌<◌, length};
ghost use Rattle.larq.specs.Events.{close};
ghost use Rattle.table.specs.First.{places};
ghost use Rattle.place.specs.Call.{buffers, told};
ghost use Rattle.table.specs.Words.{key_in};
ghost use Rattle.table.specs.Table.{slices, table_keys};
ghost use Rattle.table_calls.specs.Event.{Call};
ghost use Rattle.table_calls.specs.Writes.{keyed};

use larq::Refused;
use place::Answer;
use record::Lengths;
use table::{KEY_WORDS, Key, SLOTS, WORDS, way_of};

// The key of place i is zeros.
fn free_key(keys: &mut [u64], i: usize)
    requires { (length keys.old ≡ table_keys) × (i < places) }
    ensures { keys.new ≡ keyed keys.old i 0 0 }
{
    keys[KEY_WORDS * i] = 0;
    keys[KEY_WORDS * i + 1] = 0;
}

// The channel ends: what waits comes back, and its place is free.
// The slices stay apart, as a C host lends them: in a struct that holds them as `&mut`, every contract would have to say that it still lends the same ones.
pub fn close(
    keys: &mut [u64],
    words: &mut [u64],
    handles: &mut [u32],
    marks: &mut [u8],
    up: &mut [u32],
    returned: &mut [u32],
    nack: &mut [u16],
    key: Key<'_>,
    time: u64,
) -> Result<Answer, Refused>
    ensures { Call (key_in key.entry) time close
        (slices keys.old words.old handles.old marks.old)
        (slices keys.new words.new handles.new marks.new)
        (buffers up.old returned.old nack.old)
        (buffers up.new returned.new nack.new) (told result) }
{
    let lent = Lengths::of(words, handles, marks, up, returned, nack);
    let i = way_of(keys, lent, 0, key.stored())?;
    let from = WORDS * i;
    let slot = SLOTS * i;
    let answer = place_upkeep::close(
        &mut words[from..from + WORDS],
        &mut handles[slot..slot + SLOTS],
        &mut marks[slot..slot + SLOTS],
        up,
        returned,
        nack,
        time,
    )?;
    free_key(keys, i);
    Ok(answer)
}
