#![tactic(auto)]
// One place of the table: a data frame comes to one open channel, in place. The events that bring no frame are place_upkeep's.
ghost use Rattle.std.specs.Prelude.{◌≤◌, ◌<◌, length, Ok};
ghost use Rattle.larq.specs.Events.{frame};
ghost use Rattle.larq.specs.Channel.{window};
ghost use Rattle.ring.specs.Ring.{size};
ghost use Rattle.place.specs.Call.{DidAt, Called, parts, buffers, told};
ghost use Rattle.record.specs.Moving.{record_in};
ghost use Rattle.place.specs.Steps.{Ready, data_at};

mod act;

use crate::act::{ahead, filled, restarted, sent_back};
use judging::{Spot, judge, spot_of};
use larq::{ROOM, Refused};
use place::{Answer, begun};
use record::{Lengths, Record};
use ring::Seq;

// A data frame comes to the open place: it waits, goes up, comes back or restarts the channel. It is lent no more of a buffer than an answer may
// need: with a length that is known, the compiler keeps none at hand.
// The parts of a place and the buffers come one by one, here and below: of a borrowed struct whose fields are `&mut` slices the check does not cover
// a call that lends one and reads another, as of `settle`, and every contract would have to say that the fields still lend the same slices.
pub fn data(
    words: &mut [u64],
    handles: &mut [u32],
    marks: &mut [u8],
    up: &mut [u32],
    returned: &mut [u32],
    nack: &mut [u16],
    number: u16,
    handle: u32,
    time: u64,
) -> Result<Answer, Refused>
    ensures { Called (frame number handle) time
        (parts words.old handles.old marks.old)
        (parts words.new handles.new marks.new)
        (buffers up.old returned.old nack.old)
        (buffers up.new returned.new nack.new) (told result) }
{
    let lent = Lengths::of(words, handles, marks, up, returned, nack);
    let r = judge(words, marks, lent, number, time)?;
    Ok(arrive(
        r,
        words,
        handles,
        marks,
        &mut up[0..ROOM],
        &mut returned[0..ROOM],
        nack,
        Seq(number),
        handle,
        time,
    ))
}

// A frame that no number refuses comes to the record.
fn arrive(
    r: Record,
    words: &mut [u64],
    handles: &mut [u32],
    marks: &mut [u8],
    up: &mut [u32],
    returned: &mut [u32],
    nack: &mut [u16],
    s: Seq,
    handle: u32,
    time: u64,
) -> Answer
    requires ready { Ready r words.old handles.old marks.old × (s.0 < size) }
    requires window_in_bounds { (window ≤ length up.old) × (window ≤ length returned.old) × (window ≤ length nack.old) }
    ensures { DidAt (data_at (record_in r words.old handles.old marks.old) time s.0 handle)
        (parts words.old handles.old marks.old)
        (parts words.new handles.new marks.new)
        (buffers up.old returned.old nack.old)
        (buffers up.new returned.new nack.new) (told (Ok result)) }
{
    match spot_of(r, marks, s) {
        Spot::Ahead(d) => Answer::from(ahead(
            r,
            words,
            handles,
            marks,
            up,
            nack,
            s,
            d - 1,
            handle,
            time,
        )),
        Spot::Next => begun(words, up, s, handle, time),
        Spot::Missing => Answer::from(filled(r, words, handles, marks, up, s, handle, time)),
        Spot::Unwanted => sent_back(words, returned, handle, time),
        Spot::Far => restarted(r, words, handles, marks, up, returned, s, handle, time),
    }
}
