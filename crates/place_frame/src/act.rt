// What an accepted frame does to a place and the buffers: nothing is decided here (document 01, 'Data').
ghost use Rattle.std.specs.Prelude.{◌≡◌, [], ◌∷◌, ◌≤◌, ◌<◌, length, set, Ok};
ghost use Rattle.larq.specs.Channel.{window, waits};
ghost use Rattle.larq.specs.Events.{ahead, restarted};
ghost use Rattle.ring.specs.Ring.{size};
ghost use Rattle.slots.specs.Slots.{slot_of, with_latest, with_handle, with_waiting};
ghost use Rattle.place.specs.Call.{DidAt, Says, parts, buffers, told};
ghost use Rattle.record.specs.Moving.{record_in};
ghost use Rattle.place.specs.Steps.{Sized, Ready, Roomy, Finished, answer_of, Waits, IsAhead, filled_at};
ghost use Rattle.judging.specs.Judge.{MissingAt};

use place::{Answer, begun};
use record::{NEVER, Record, hand};
use ring::Seq;
use slots::{set_latest, set_waiting};
use stepping::{Counts, widened};

// A frame's number waits at its slot with its handle, and M settles. It gives nothing up by its time, so no more are lost than before.
fn brought(
    r: Record,
    words: &mut [u64],
    handles: &mut [u32],
    marks: &mut [u8],
    up: &mut [u32],
    had: Counts,
    s: Seq,
    handle: u32,
) -> Counts
    requires sized { Sized words.old handles.old marks.old }
    requires roomy { Roomy r had words.old (with_handle handles.old (slot_of s.0) handle) (with_waiting marks.old (slot_of s.0)) up.old }
    ensures { (handles.new ≡ with_handle handles.old (slot_of s.0) handle) × (marks.new ≡ with_waiting marks.old (slot_of s.0))
        × Finished r (parts words.old handles.new marks.new) had up.old words.new up.new result }
{
    set_waiting(handles, marks, s, handle);
    let done = r.settle(words, handles, marks, up, had.up, NEVER);
    Counts {
        up: had.up + done.up,
        nack: had.nack,
        lost: had.lost,
    }
}

// A frame's number s lies ahead: `made` numbers before it become missing, it waits, and M settles.
pub(crate) fn ahead(
    r: Record,
    words: &mut [u64],
    handles: &mut [u32],
    marks: &mut [u8],
    up: &mut [u32],
    nack: &mut [u16],
    s: Seq,
    made: u16,
    handle: u32,
    time: u64,
) -> Counts
    requires ready { Ready r words.old handles.old marks.old × (s.0 < size) }
    requires window_in_bounds { (window ≤ length up.old) × (window ≤ length nack.old) }
    requires ahead { IsAhead r.current.0 s.0 made (Waits handle) }
    ensures { DidAt (ahead window (record_in r words.old handles.old marks.old) time s.0 made (waits handle ∷ []))
        (parts words.old handles.old marks.old)
        (parts words.new handles.new marks.new)
        (buffers up.old [] nack.old)
        (buffers up.new [] nack.new) (told (Ok (answer_of result))) }
{
    let p = widened(r, words, handles, marks, up, nack, s, made, time);
    let g = p.grown;
    brought(g.kept, words, handles, marks, up, p.had, s, handle)
}

// Number s is in the window and missing: it waits, and M settles.
pub(crate) fn filled(
    r: Record,
    words: &mut [u64],
    handles: &mut [u32],
    marks: &mut [u8],
    up: &mut [u32],
    s: Seq,
    handle: u32,
    time: u64,
) -> Counts
    requires ready { Ready r words.old handles.old marks.old × MissingAt r marks.old s.0 }
    requires window_in_bounds { window ≤ length up.old }
    ensures { DidAt (filled_at (record_in r words.old handles.old marks.old) time s.0 handle)
        (parts words.old handles.old marks.old)
        (parts words.new handles.new marks.new)
        (buffers up.old [] [])
        (buffers up.new [] []) (told (Ok (answer_of result))) }
{
    let kept = r.arrived(r.current, time);
    brought(kept, words, handles, marks, up, Counts::NONE, s, handle)
}

// Number s waits already or lies before M: its handle comes back, and only the latest time changes.
pub(crate) fn sent_back(words: &mut [u64], returned: &mut [u32], handle: u32, time: u64) -> Answer
    requires { 0 < length returned.old }
    ensures { (words.new ≡ with_latest words.old time) × (returned.new ≡ set returned.old 0 handle) × Says 0 1 0 0 result }
{
    set_latest(words, time);
    returned[0] = handle;
    Answer {
        returned: 1,
        ..Answer::NONE
    }
}

// Number s is far: every waiting handle comes back, and the channel is as one that s has just opened.
pub(crate) fn restarted(
    r: Record,
    words: &mut [u64],
    handles: &[u32],
    marks: &[u8],
    up: &mut [u32],
    returned: &mut [u32],
    s: Seq,
    handle: u32,
    time: u64,
) -> Answer
    requires ready { Ready r words.old handles.now marks.now × (s.0 < size) }
    requires window_in_bounds { (window ≤ length up.old) × (window ≤ length returned.old) }
    ensures { DidAt (restarted (record_in r words.old handles.now marks.now) time s.0 handle)
        (parts words.old handles.now marks.now)
        (parts words.new handles.now marks.now)
        (buffers up.old returned.old [])
        (buffers up.new returned.new []) (told (Ok result)) }
{
    let back = hand(handles, marks, r.oldest, r.span(), returned);
    Answer {
        returned: back,
        ..begun(words, up, s, handle, time)
    }
}
