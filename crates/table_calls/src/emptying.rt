// A table as it is at the start: 64 free places, zeros everywhere (document 01, 'The channel table').
ghost use Rattle.wire.specs.Answers.{number_in};
ghost use Rattle.larq.specs.Refused.{number_of};
ghost use Rattle.table.specs.Table.{slices};
ghost use Rattle.table_calls.specs.Emptied.{Emptied};

use larq::Refused;
use table::is_whole;
use zeros::zero;

// Empties a table, whatever it held. Slices of another length are refused by number 1 and stay as they are.
pub fn empty(
    keys: &mut [u64],
    words: &mut [u64],
    handles: &mut [u32],
    marks: &mut [u8],
) -> Result<(), Refused>
    ensures { Emptied
        (slices keys.old words.old handles.old marks.old)
        (slices keys.new words.new handles.new marks.new) (number_in number_of result) }
{
    if !is_whole(keys.len(), words.len(), handles.len(), marks.len()) {
        return Err(Refused::Lent);
    }
    zero(keys);
    zero(words);
    zero(handles);
    zero(marks);
    Ok(())
}
