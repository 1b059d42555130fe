// Where an event goes, decided before anything is written: numbers 1 to 5 of document 01, 'Numbers the box may answer with', in its order.
ghost use Rattle.std.specs.Prelude.{◌≡◌, length};
ghost use Rattle.wire.specs.Answers.{number_in};
ghost use Rattle.larq.specs.Refused.{number_of};
ghost use Rattle.table.specs.First.{first_place, stores, stores_none};
ghost use Rattle.table.specs.Table.{whole};
ghost use Rattle.table.specs.Way.{table_lent_by, early_number, way_says, way_for, data_way_says, data_way_for};

use crate::lookup::{find, find_free};
use crate::{KEYS_IN_ALL, SLOTS_IN_ALL, StoredKey, WORDS_IN_ALL};
use larq::{Refused, has_room};
use record::Lengths;
use ring::Seq;

// Where data goes: to the place of its channel, or to a free one, where it opens a channel.
#[derive(Clone, Copy)]
pub enum DataPlace {
    Known(usize),
    Free(usize),
}

// Whether the slices are those of a table of 64 places.
pub fn is_whole(keys: usize, words: usize, handles: usize, marks: usize) -> bool
    ensures { result ≡ whole keys words handles marks }
{
    (keys == KEYS_IN_ALL)
        & ((words == WORDS_IN_ALL) & ((handles == SLOTS_IN_ALL) & (marks == SLOTS_IN_ALL)))
}

// The numbers 1 to 3.
#[tactic(auto, unfolding(crate::specs::Way::early_number))]
fn early_refusal(keys: usize, lent: Lengths, number: u16, priority: u8) -> Result<(), Refused>
    ensures { number_in number_of result ≡ early_number (table_lent_by keys lent) number priority }
{
    if !(has_room(lent.up, lent.returned, lent.nack)
        & is_whole(keys, lent.words, lent.handles, lent.marks))
    {
        return Err(Refused::Lent);
    }
    if Seq::SIZE <= number {
        return Err(Refused::Number);
    }
    if priority > 7 {
        return Err(Refused::Priority);
    }
    Ok(())
}

// The place to which a reminder, a tick, a close and a look go. What has no number is judged as if it had number 0.
#[tactic(auto, unfolding(crate::specs::Way::early_number))]
pub fn way_of(keys: &[u64], lent: Lengths, number: u16, key: StoredKey) -> Result<usize, Refused>
    ensures { way_says result
        ≡ way_for (table_lent_by (length keys.now) lent) number key.priority
        (first_place (stores keys.now key.first key.second)) }
{
    early_refusal(keys.len(), lent, number, key.priority)?;
    find(keys, key.first, key.second).ok_or(Refused::Unknown)
}

// Where data goes: where another event would be refused by number 4, data opens a channel.
pub fn data_way_of(
    keys: &[u64],
    lent: Lengths,
    number: u16,
    key: StoredKey,
) -> Result<DataPlace, Refused>
    ensures { data_way_says result
        ≡ data_way_for (table_lent_by (length keys.now) lent) number key.priority
        (first_place (stores keys.now key.first key.second)) (first_place (stores_none keys.now)) }
{
    match way_of(keys, lent, number, key) {
        Err(Refused::Unknown) => find_free(keys).map(DataPlace::Free).ok_or(Refused::Full),
        way => way.map(DataPlace::Known),
    }
}
