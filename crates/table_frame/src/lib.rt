#![tactic(auto)]
// A data frame on the table of 64 places that the host lends (document 01, 'Data'; 001, 6.6.4). The call decides on what is lent where it goes, and
// then changes one place: its channel's, or the free one that it opens. The events that bring no frame are table_upkeep's.

mod opening;

ghost use Rattle.larq.specs.Events.{frame};
ghost use Rattle.place.specs.Call.{buffers, told};
ghost use Rattle.table.specs.Words.{key_in};
ghost use Rattle.table.specs.Table.{slices};
ghost use Rattle.table_calls.specs.Event.{Call};

use larq::Refused;
use opening::open_at;
use place::Answer;
use record::Lengths;
use table::{DataPlace, Key, SLOTS, WORDS, data_way_of};

// A data frame: its number, and the handle by which the host knows it.
// The slices stay apart, as a C host lends them: in a struct that holds them as `&mut`, every contract would have to say that it still lends the same ones.
pub fn data(
    keys: &mut [u64],
    words: &mut [u64],
    handles: &mut [u32],
    marks: &mut [u8],
    up: &mut [u32],
    returned: &mut [u32],
    nack: &mut [u16],
    key: Key<'_>,
    time: u64,
    number: u16,
    handle: u32,
) -> Result<Answer, Refused>
    ensures { Call (key_in key.entry) time (frame number handle)
        (slices keys.old words.old handles.old marks.old)
        (slices keys.new words.new handles.new marks.new)
        (buffers up.old returned.old nack.old)
        (buffers up.new returned.new nack.new) (told result) }
{
    let key = key.stored();
    let lent = Lengths::of(words, handles, marks, up, returned, nack);
    match data_way_of(keys, lent, number, key)? {
        DataPlace::Known(i) => {
            // Ranges: of `as_chunks_mut` and `chunks_exact_mut` std does not say what the slice holds afterwards.
            let from = WORDS * i;
            let slot = SLOTS * i;
            place_frame::data(
                &mut words[from..from + WORDS],
                &mut handles[slot..slot + SLOTS],
                &mut marks[slot..slot + SLOTS],
                up,
                returned,
                nack,
                number,
                handle,
                time,
            )
        }
        DataPlace::Free(i) => Ok(open_at(keys, words, up, i, key, number, handle, time)),
    }
}
