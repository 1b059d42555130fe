// A tick on the table (document 01, 'Tick').
ghost use Rattle.larq.specs.Events.{tick};
ghost use Rattle.place.specs.Call.{buffers, told};
ghost use Rattle.table.specs.Words.{key_in};
ghost use Rattle.table.specs.Table.{slices};
ghost use Rattle.table_calls.specs.Event.{Call};

use larq::Refused;
use place::Answer;
use record::Lengths;
use table::{Key, SLOTS, WORDS, way_of};

// Time has passed: numbers that are missing for 150 ticks or more are given up.
pub fn tick(
    keys: &[u64],
    words: &mut [u64],
    handles: &mut [u32],
    marks: &mut [u8],
    up: &mut [u32],
    returned: &mut [u32],
    nack: &mut [u16],
    key: Key<'_>,
    time: u64,
) -> Result<Answer, Refused>
    ensures { Call (key_in key.entry) time tick
        (slices keys.now words.old handles.old marks.old)
        (slices keys.now words.new handles.new marks.new)
        (buffers up.old returned.old nack.old)
        (buffers up.new returned.new nack.new) (told result) }
{
    let lent = Lengths::of(words, handles, marks, up, returned, nack);
    let i = way_of(keys, lent, 0, key.stored())?;
    let from = WORDS * i;
    let slot = SLOTS * i;
    place_upkeep::tick(
        &mut words[from..from + WORDS],
        &mut handles[slot..slot + SLOTS],
        &mut marks[slot..slot + SLOTS],
        up,
        returned,
        nack,
        time,
    )
}
