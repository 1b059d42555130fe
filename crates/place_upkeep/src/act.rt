// What an accepted reminder, tick or close does to a place and the buffers: nothing is decided here (document 01, 'Reminder', 'Tick' and
// 'Close').
ghost use Rattle.std.specs.Prelude.{◌≡◌, [], ◌+◌, ◌-◌, ◌≤◌, ◌<◌, length, Ok};
ghost use Rattle.larq.specs.Channel.{window};
ghost use Rattle.larq.specs.Events.{ahead, tick_on, close_on};
ghost use Rattle.larq.specs.Settling.{hold};
ghost use Rattle.ring.specs.Ring.{size};
ghost use Rattle.slots.specs.Slots.{with_latest};
ghost use Rattle.record.specs.Moving.{record_in};
ghost use Rattle.place.specs.Call.{DidAt, Says, parts, buffers, told};
ghost use Rattle.place.specs.Steps.{Ready, answer_of, Missing, IsAhead};

use larq::HOLD;
use place::Answer;
use record::{NEVER, Record, hand};
use ring::Seq;
use slots::set_latest;
use stepping::{Counts, widened};
use zeros::zero;

// A reminder's number s lies ahead: it and those before it, `made` in all, become missing, and M settles. It gives nothing up by its time.
// M settles as in place_frame's `brought`: one function for both crates would be a public one that asks for room, and no public function asks.
pub(crate) fn reminded(
    r: Record,
    words: &mut [u64],
    handles: &[u32],
    marks: &mut [u8],
    up: &mut [u32],
    nack: &mut [u16],
    s: Seq,
    made: u16,
    time: u64,
) -> Counts
    requires ready { Ready r words.old handles.now marks.old × (s.0 < size) }
    requires window_in_bounds { (window ≤ length up.old) × (window ≤ length nack.old) }
    requires ahead { IsAhead r.current.0 s.0 made Missing }
    ensures { DidAt (ahead window (record_in r words.old handles.now marks.old) time s.0 made [])
        (parts words.old handles.now marks.old)
        (parts words.new handles.now marks.new)
        (buffers up.old [] nack.old)
        (buffers up.new [] nack.new) (told (Ok (answer_of result))) }
{
    let p = widened(r, words, handles, marks, up, nack, s, made, time);
    let g = p.grown;
    let had = p.had;
    let kept = g.kept;
    let done = kept.settle(words, handles, marks, up, had.up, NEVER);
    Counts {
        up: had.up + done.up,
        nack: had.nack,
        lost: had.lost,
    }
}

// Nothing but the latest time changes.
pub(crate) fn noted(words: &mut [u64], time: u64) -> Answer
    ensures { (words.new ≡ with_latest words.old time) × Says 0 0 0 0 result }
{
    set_latest(words, time);
    Answer::NONE
}

// What is missing since before this is, at `time`, missing for 150 ticks or more.
fn stale_before(time: u64) -> u64
    ensures { result ≡ time + 1 - hold }
{
    time.saturating_sub(HOLD - 1)
}

// A tick: M moves on, and gives up what is missing for 150 ticks or more.
pub(crate) fn ticked(
    r: Record,
    words: &mut [u64],
    handles: &[u32],
    marks: &[u8],
    up: &mut [u32],
    time: u64,
) -> Answer
    requires { Ready r words.old handles.now marks.now × (window ≤ length up.old) }
    ensures { DidAt (tick_on (record_in r words.old handles.now marks.now) time)
        (parts words.old handles.now marks.now)
        (parts words.new handles.now marks.now)
        (buffers up.old [] [])
        (buffers up.new [] []) (told (Ok result)) }
{
    let kept = r.arrived(r.current, time);
    let done = kept.settle(words, handles, marks, up, 0, stale_before(time));
    Answer {
        up: done.up,
        lost: done.lost,
        ..Answer::NONE
    }
}

// A close: every waiting handle comes back, and the place is zeros.
pub(crate) fn closed(
    r: Record,
    words: &mut [u64],
    handles: &mut [u32],
    marks: &mut [u8],
    returned: &mut [u32],
) -> Answer
    requires { Ready r words.old handles.old marks.old × (window ≤ length returned.old) }
    ensures { DidAt (close_on (record_in r words.old handles.old marks.old))
        (parts words.old handles.old marks.old)
        (parts words.new handles.new marks.new)
        (buffers [] returned.old [])
        (buffers [] returned.new []) (told (Ok result)) }
{
    let count = hand(handles, marks, r.oldest, r.span(), returned);
    zero(words);
    zero(handles);
    zero(marks);
    Answer {
        returned: count,
        ..Answer::NONE
    }
}
