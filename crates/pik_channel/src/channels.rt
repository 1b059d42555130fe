// The channel events on the table that the host lends, the empty table, and a look at a channel's record (document 01, 'The channel table'
// and 'The four channel events'). Slices and addresses are passed on as they come, each apart, since the header declares them so.
ghost use Rattle.larq.specs.Events.{frame, reminder, tick, close};
ghost use Rattle.place.specs.Call.{buffers};
ghost use Rattle.table_calls.specs.Emptied.{Emptied};
ghost use Rattle.table.specs.Key.{key_of};
ghost use Rattle.table_calls.specs.Look.{shown_of, lent_for, Looked};
ghost use Rattle.table.specs.Table.{slices, table_of};
ghost use Rattle.table_calls.specs.Event.{Call};
ghost use Rattle.pik_channel.specs.Answers.{told_of, seen_of};

use crate::answers::Answer;
use crate::views::View;
use table::Key;

#[unsafe(no_mangle)]
pub extern "C" fn pik_empty(
    keys: &mut [u64],
    words: &mut [u64],
    handles: &mut [u32],
    marks: &mut [u8],
) -> u8
    ensures { Emptied
        (slices keys.old words.old handles.old marks.old)
        (slices keys.new words.new handles.new marks.new) result }
{
    match table_calls::empty(keys, words, handles, marks) {
        Ok(()) => 0,
        Err(refused) => refused.into(),
    }
}

#[unsafe(no_mangle)]
pub extern "C" fn pik_data(
    keys: &mut [u64],
    words: &mut [u64],
    handles: &mut [u32],
    marks: &mut [u8],
    up: &mut [u32],
    returned: &mut [u32],
    nack: &mut [u16],
    destination: &[u8; 6],
    source: &[u8; 6],
    priority: u8,
    time: u64,
    number: u16,
    handle: u32,
) -> Answer
    ensures { Call (key_of destination.now source.now priority) time (frame number handle)
        (slices keys.old words.old handles.old marks.old)
        (slices keys.new words.new handles.new marks.new)
        (buffers up.old returned.old nack.old)
        (buffers up.new returned.new nack.new) (told_of result) }
{
    table_frame::data(
        keys,
        words,
        handles,
        marks,
        up,
        returned,
        nack,
        Key {
            destination,
            source,
            priority,
        },
        time,
        number,
        handle,
    )
    .into()
}

#[unsafe(no_mangle)]
pub extern "C" fn pik_reminder(
    keys: &[u64],
    words: &mut [u64],
    handles: &mut [u32],
    marks: &mut [u8],
    up: &mut [u32],
    returned: &mut [u32],
    nack: &mut [u16],
    destination: &[u8; 6],
    source: &[u8; 6],
    priority: u8,
    time: u64,
    number: u16,
) -> Answer
    ensures { Call (key_of destination.now source.now priority) time (reminder number)
        (slices keys.now words.old handles.old marks.old)
        (slices keys.now words.new handles.new marks.new)
        (buffers up.old returned.old nack.old)
        (buffers up.new returned.new nack.new) (told_of result) }
{
    table_upkeep::reminder(
        keys,
        words,
        handles,
        marks,
        up,
        returned,
        nack,
        Key {
            destination,
            source,
            priority,
        },
        time,
        number,
    )
    .into()
}

#[unsafe(no_mangle)]
pub extern "C" fn pik_tick(
    keys: &[u64],
    words: &mut [u64],
    handles: &mut [u32],
    marks: &mut [u8],
    up: &mut [u32],
    returned: &mut [u32],
    nack: &mut [u16],
    destination: &[u8; 6],
    source: &[u8; 6],
    priority: u8,
    time: u64,
) -> Answer
    ensures { Call (key_of destination.now source.now priority) time tick
        (slices keys.now words.old handles.old marks.old)
        (slices keys.now words.new handles.new marks.new)
        (buffers up.old returned.old nack.old)
        (buffers up.new returned.new nack.new) (told_of result) }
{
    table_upkeep::tick(
        keys,
        words,
        handles,
        marks,
        up,
        returned,
        nack,
        Key {
            destination,
            source,
            priority,
        },
        time,
    )
    .into()
}

#[unsafe(no_mangle)]
pub extern "C" fn pik_close(
    keys: &mut [u64],
    words: &mut [u64],
    handles: &mut [u32],
    marks: &mut [u8],
    up: &mut [u32],
    returned: &mut [u32],
    nack: &mut [u16],
    destination: &[u8; 6],
    source: &[u8; 6],
    priority: u8,
    time: u64,
) -> Answer
    ensures { Call (key_of destination.now source.now priority) time close
        (slices keys.old words.old handles.old marks.old)
        (slices keys.new words.new handles.new marks.new)
        (buffers up.old returned.old nack.old)
        (buffers up.new returned.new nack.new) (told_of result) }
{
    table_upkeep::close(
        keys,
        words,
        handles,
        marks,
        up,
        returned,
        nack,
        Key {
            destination,
            source,
            priority,
        },
        time,
    )
    .into()
}

#[unsafe(no_mangle)]
pub extern "C" fn pik_look(
    keys: &[u64],
    words: &[u64],
    handles: &[u32],
    marks: &[u8],
    destination: &[u8; 6],
    source: &[u8; 6],
    priority: u8,
    waits: &mut [u8],
    values: &mut [u64],
) -> View
    ensures { Looked
        (shown_of (lent_for (slices keys.now words.now handles.now marks.now) waits.old values.old)
        (key_of destination.now source.now priority)
        (table_of (slices keys.now words.now handles.now marks.now)))
        waits.old waits.new values.old values.new (seen_of result) }
{
    table_calls::look(
        keys,
        words,
        handles,
        marks,
        Key {
            destination,
            source,
            priority,
        },
        waits,
        values,
    )
    .into()
}
