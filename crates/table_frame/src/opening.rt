// What a data frame itself writes on the table: the key and the record of a channel just opened (document 01, 'The channel table').
ghost use Rattle.std.specs.Prelude.{◌≡◌, ◌≤◌, ◌<◌, length};
ghost use Rattle.larq.specs.Channel.{window};
ghost use Rattle.table.specs.Table.{table_keys, table_words};
ghost use Rattle.table.specs.First.{places};
ghost use Rattle.table_calls.specs.Writes.{Opens};

use place::{Answer, begun};
use ring::Seq;
use table::{KEY_WORDS, StoredKey, WORDS};

// Opens a channel at the free place i, with C = number and M the next: nothing is missing, so what the slots hold does not count.
pub(crate) fn open_at(
    keys: &mut [u64],
    words: &mut [u64],
    up: &mut [u32],
    i: usize,
    key: StoredKey,
    number: u16,
    handle: u32,
    time: u64,
) -> Answer
    requires { (length keys.old ≡ table_keys) × (length words.old ≡ table_words) × (window ≤ length up.old) × (i < places) }
    ensures { Opens i key.first key.second number handle time
        keys.old words.old up.old
        keys.new words.new up.new result }
{
    let from = WORDS * i;
    keys[KEY_WORDS * i] = key.first;
    keys[KEY_WORDS * i + 1] = key.second;
    begun(
        &mut words[from..from + WORDS],
        up,
        Seq(number),
        handle,
        time,
    )
}
