#![tactic(auto)]
// One place of the table: the events that bring no frame to one open channel, a reminder, a tick and a close, in place. Frames are place_frame's.
ghost use Rattle.std.specs.Prelude.{◌≤◌, ◌<◌, [], length};
ghost use Rattle.larq.specs.Events.{reminder, tick, close};
ghost use Rattle.larq.specs.Channel.{window};
ghost use Rattle.ring.specs.Ring.{size};
ghost use Rattle.record.specs.Moving.{record_in};
ghost use Rattle.place.specs.Call.{DidAt, Called, parts, buffers, told};
ghost use Rattle.place.specs.Steps.{Ready, reminder_at};

mod act;

use crate::act::{closed, noted, reminded, ticked};
use judging::judge;
use larq::Refused;
use place::Answer;
use record::{Lengths, Record};
use ring::Seq;

// A reminder that no common number refuses: it tells of numbers ahead, changes only the latest time, or is from far.
fn remind(
    r: Record,
    words: &mut [u64],
    handles: &mut [u32],
    marks: &mut [u8],
    up: &mut [u32],
    nack: &mut [u16],
    s: Seq,
    time: u64,
) -> Result<Answer, Refused>
    requires ready { Ready r words.old handles.old marks.old × (s.0 < size) }
    requires window_in_bounds { (window ≤ length up.old) × (window ≤ length nack.old) }
    ensures { DidAt (reminder_at (record_in r words.old handles.old marks.old) time s.0)
        (parts words.old handles.old marks.old)
        (parts words.new handles.new marks.new)
        (buffers up.old [] nack.old)
        (buffers up.new [] nack.new) (told result) }
{
    let c = r.current;
    let d = c.distance(s);
    if d.is_far() {
        return Err(Refused::Far);
    }
    if !d.is_ahead() {
        return Ok(noted(words, time));
    }
    Ok(reminded(r, words, handles, marks, up, nack, s, c.steps(s), time).into())
}

// A reminder comes to the open place. Each of the three events judges and goes on by itself: a helper that takes what follows as a closure needs a
// contract of that closure beside each event's own, and is no plainer.
pub fn reminder(
    words: &mut [u64],
    handles: &mut [u32],
    marks: &mut [u8],
    up: &mut [u32],
    returned: &mut [u32],
    nack: &mut [u16],
    number: u16,
    time: u64,
) -> Result<Answer, Refused>
    ensures { Called (reminder number) time
        (parts words.old handles.old marks.old)
        (parts words.new handles.new marks.new)
        (buffers up.old returned.old nack.old)
        (buffers up.new returned.new nack.new) (told result) }
{
    let lent = Lengths::of(words, handles, marks, up, returned, nack);
    let r = judge(words, marks, lent, number, time)?;
    remind(r, words, handles, marks, up, nack, Seq(number), time)
}

// A tick comes to the open place.
pub fn tick(
    words: &mut [u64],
    handles: &mut [u32],
    marks: &mut [u8],
    up: &mut [u32],
    returned: &mut [u32],
    nack: &mut [u16],
    time: u64,
) -> Result<Answer, Refused>
    ensures { Called tick time
        (parts words.old handles.old marks.old)
        (parts words.new handles.new marks.new)
        (buffers up.old returned.old nack.old)
        (buffers up.new returned.new nack.new) (told result) }
{
    let lent = Lengths::of(words, handles, marks, up, returned, nack);
    let r = judge(words, marks, lent, 0, time)?;
    Ok(ticked(r, words, handles, marks, up, time))
}

// A close comes to the open place, which is then free.
pub fn close(
    words: &mut [u64],
    handles: &mut [u32],
    marks: &mut [u8],
    up: &mut [u32],
    returned: &mut [u32],
    nack: &mut [u16],
    time: u64,
) -> Result<Answer, Refused>
    ensures { Called close time
        (parts words.old handles.old marks.old)
        (parts words.new handles.new marks.new)
        (buffers up.old returned.old nack.old)
        (buffers up.new returned.new nack.new) (told result) }
{
    let lent = Lengths::of(words, handles, marks, up, returned, nack);
    let r = judge(words, marks, lent, 0, time)?;
    Ok(closed(r, words, handles, marks, returned))
}
