// A look at a channel's record, for a host or a test: nothing changes by it.
ghost use Rattle.std.specs.Prelude.{◌≡◌, ◌≤◌, map, length};
ghost use Rattle.std.proofs.lemmas.List.Edits.{sets};
ghost use Rattle.larq.specs.Channel.{window};
ghost use Rattle.slots.specs.Slots.{slots, place_words};
ghost use Rattle.record.specs.Place.{cells_from, cell_at, record_of};
ghost use Rattle.record.specs.Cell.{cell_of};
ghost use Rattle.table.specs.Words.{key_in};
ghost use Rattle.table.specs.Table.{slices, table_of};
ghost use Rattle.table_calls.specs.Look.{shown_at, shown_of, lent_for, cell_mark, cell_value, Looked, seen, seen_as};

use larq::Refused;
use record::{Cell, Lengths};
use ring::Seq;
use table::{Key, SLOTS, WORDS, way_of};

// What a look tells: C, M, the latest time, and how many numbers there are from M to C.
#[derive(Clone, Copy)]
pub struct View {
    pub current: u16,
    pub oldest: u16,
    pub latest: u64,
    pub span: usize,
}

impl View {
    // What a refusal shows.
    const NONE: View = View {
        current: 0,
        oldest: 0,
        latest: 0,
        span: 0,
    };
}

// What a host is told of a look's result: 0 and the view, or the refusal's number and zeros.
pub fn told(looked: Result<View, Refused>) -> (u8, View)
    ensures { seen_as result.0 result.1 ≡ seen looked }
{
    match looked {
        Ok(view) => (0, view),
        Err(refused) => (refused.into(), View::NONE),
    }
}

// A cell as two numbers: 1 and the handle where it waits, 0 and the time where it is missing.
fn as_numbers(cell: Cell) -> (u8, u64)
    ensures { (result.0 ≡ cell_mark (cell_of cell)) × (result.1 ≡ cell_value (cell_of cell)) }
{
    match cell {
        Cell::Waits(handle) => (1, handle as u64),
        Cell::Missing(since) => (0, since),
    }
}

// Tells the cells of n numbers from `from` on, one entry of each buffer for a number: 1 and the handle, or 0 and the time.
#[tactic(auto, using(crate::proofs::Telling::telling))]
fn tell(
    words: &[u64],
    handles: &[u32],
    marks: &[u8],
    from: Seq,
    n: u16,
    waits: &mut [u8],
    values: &mut [u64],
)
    requires { (n ≤ length waits.old) × (n ≤ length values.old) }
    ensures waits_after { waits.new
        ≡ sets waits.old 0 (map cell_mark (cells_from (cell_at words.now handles.now marks.now) from.0 n)) }
    ensures values_after { values.new
        ≡ sets values.old 0 (map cell_value (cells_from (cell_at words.now handles.now marks.now) from.0 n)) }
{
    for k in 0..n {
        let (mark, value) = as_numbers(Cell::of(words, handles, marks, from.forward(k)));
        waits[k as usize] = mark;
        values[k as usize] = value;
    }
}

// A look at one place's record: number 6 where it is broken.
fn look_at(
    words: &[u64],
    handles: &[u32],
    marks: &[u8],
    waits: &mut [u8],
    values: &mut [u64],
) -> Result<View, Refused>
    requires sized { (length words.now ≡ place_words) × (length marks.now ≡ slots) }
    requires room { (window ≤ length waits.old) × (window ≤ length values.old) }
    ensures { Looked (shown_at (record_of words.now handles.now marks.now))
        waits.old waits.new values.old values.new (seen result) }
{
    if !judging::is_sound(words, marks) {
        return Err(Refused::Broken);
    }
    let current = slots::current(words) as u16;
    let oldest = slots::oldest(words) as u16;
    let span = Seq(oldest).steps(Seq(current).forward(1));
    tell(words, handles, marks, Seq(oldest), span, waits, values);
    Ok(View {
        current,
        oldest,
        latest: slots::latest(words),
        span: span as usize,
    })
}

// A look at the channel of a key. The buffers take a mark and a value for each number from M to C, and need 32 entries each: two beside each other,
// as the C interface lends them. To `way_of` they stand for the three answer buffers, whose room it asks for.
pub fn look(
    keys: &[u64],
    words: &[u64],
    handles: &[u32],
    marks: &[u8],
    key: Key<'_>,
    waits: &mut [u8],
    values: &mut [u64],
) -> Result<View, Refused>
    ensures { Looked
        (shown_of (lent_for (slices keys.now words.now handles.now marks.now) waits.old values.old)
        (key_in key.entry)
        (table_of (slices keys.now words.now handles.now marks.now)))
        waits.old waits.new values.old values.new (seen result) }
{
    let lent = Lengths {
        words: words.len(),
        handles: handles.len(),
        marks: marks.len(),
        up: waits.len(),
        returned: values.len(),
        nack: values.len(),
    };
    let i = way_of(keys, lent, 0, key.stored())?;
    let from = WORDS * i;
    let slot = SLOTS * i;
    look_at(
        &words[from..from + WORDS],
        &handles[slot..slot + SLOTS],
        &marks[slot..slot + SLOTS],
        waits,
        values,
    )
}
