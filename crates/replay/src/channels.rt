// The four channel events and the look at a channel's record: each goes to the table, and its line tells the answer.
use crate::text::{Line, List};
use larq::{ROOM, Refused};
use place::Answer;
use ring::Seq;
use session::{Body, Key};
use std::fmt;
use std::fmt::Write;
use table::{KEYS_IN_ALL, SLOTS_IN_ALL, WORDS_IN_ALL};

// The lent table (docs/LAYOUT.md, 'The channel table').
#[derive(Clone, Copy)]
pub(crate) struct Table {
    keys: [u64; KEYS_IN_ALL],
    words: [u64; WORDS_IN_ALL],
    handles: [u32; SLOTS_IN_ALL],
    marks: [u8; SLOTS_IN_ALL],
}

// The three lists of an answer, in buffers that hold any.
#[derive(Clone, Copy)]
struct Lists {
    up: [u32; ROOM],
    returned: [u32; ROOM],
    nack: [u16; ROOM],
}

impl Lists {
    const EMPTY: Lists = Lists {
        up: [0; ROOM],
        returned: [0; ROOM],
        nack: [0; ROOM],
    };
}

// What a line tells of an answer: its number, its lists, and the lost count.
#[derive(Clone, Copy)]
struct Told {
    answer: Result<Answer, Refused>,
    lists: Lists,
}

impl fmt::Display for Told {
    fn fmt<W: fmt::Write>(&self, f: &mut fmt::Formatter<W>) -> fmt::Result {
        let (number, answer) = place::told(self.answer);
        let up = List(&self.lists.up[..answer.up.min(ROOM)]);
        let returned = List(&self.lists.returned[..answer.returned.min(ROOM)]);
        let nack = List(&self.lists.nack[..answer.nack.min(ROOM)]);
        let lost = answer.lost;
        write!(
            f,
            "{number} up={up} returned={returned} nack={nack} lost={lost}"
        )
    }
}

impl Table {
    pub(crate) const EMPTY: Table = Table {
        keys: [0; KEYS_IN_ALL],
        words: [0; WORDS_IN_ALL],
        handles: [0; SLOTS_IN_ALL],
        marks: [0; SLOTS_IN_ALL],
    };

    pub(crate) fn answer(&mut self, line: &mut Line, event: Body) -> fmt::Result {
        match event {
            Body::Data {
                key,
                time,
                number,
                handle,
            } => write!(line, " data {}", self.data(key, time, number, handle)),
            Body::Reminder { key, time, number } => {
                write!(line, " reminder {}", self.reminder(key, time, number))
            }
            Body::Tick { key, time } => write!(line, " tick {}", self.tick(key, time)),
            Body::Close { key, time } => write!(line, " close {}", self.close(key, time)),
            Body::Look { key } => self.look(line, key),
            _ => Ok(()),
        }
    }

    fn data(&mut self, key: Key, time: u64, number: u16, handle: u32) -> Told {
        self.at_channel(key, |table, lists, key| {
            table_frame::data(
                &mut table.keys,
                &mut table.words,
                &mut table.handles,
                &mut table.marks,
                &mut lists.up,
                &mut lists.returned,
                &mut lists.nack,
                key,
                time,
                number,
                handle,
            )
        })
    }

    fn reminder(&mut self, key: Key, time: u64, number: u16) -> Told {
        self.at_channel(key, |table, lists, key| {
            table_upkeep::reminder(
                &table.keys,
                &mut table.words,
                &mut table.handles,
                &mut table.marks,
                &mut lists.up,
                &mut lists.returned,
                &mut lists.nack,
                key,
                time,
                number,
            )
        })
    }

    fn tick(&mut self, key: Key, time: u64) -> Told {
        self.at_channel(key, |table, lists, key| {
            table_upkeep::tick(
                &table.keys,
                &mut table.words,
                &mut table.handles,
                &mut table.marks,
                &mut lists.up,
                &mut lists.returned,
                &mut lists.nack,
                key,
                time,
            )
        })
    }

    fn close(&mut self, key: Key, time: u64) -> Told {
        self.at_channel(key, |table, lists, key| {
            table_upkeep::close(
                &mut table.keys,
                &mut table.words,
                &mut table.handles,
                &mut table.marks,
                &mut lists.up,
                &mut lists.returned,
                &mut lists.nack,
                key,
                time,
            )
        })
    }

    // What an event is answered at the channel of a key, with lists of its own.
    fn at_channel<F: FnOnce(&mut Table, &mut Lists, table::Key<'_>) -> Result<Answer, Refused>>(
        &mut self,
        key: Key,
        event: F,
    ) -> Told
        requires { F.IsAlwaysCallable event }
    {
        let mut lists = Lists::EMPTY;
        let destination = session::octets(key.destination);
        let source = session::octets(key.source);
        let key = table::Key {
            destination: &destination,
            source: &source,
            priority: key.priority,
        };
        let answer = event(self, &mut lists, key);
        Told { answer, lists }
    }

    // A look at a channel's record changes nothing.
    fn look(&self, line: &mut Line, key: Key) -> fmt::Result {
        let mut waits = [0u8; ROOM];
        let mut values = [0u64; ROOM];
        let destination = session::octets(key.destination);
        let source = session::octets(key.source);
        let result = table_calls::look(
            &self.keys,
            &self.words,
            &self.handles,
            &self.marks,
            table::Key {
                destination: &destination,
                source: &source,
                priority: key.priority,
            },
            &mut waits,
            &mut values,
        );
        let (number, view) = table_calls::told(result);
        let current = view.current;
        let oldest = view.oldest;
        let latest = view.latest;
        let span = view.span;
        write!(
            line,
            " look {number} current={current} oldest={oldest} latest={latest} span={span}"
        )?;
        let shown = span.min(ROOM);
        let cells = Cells {
            oldest: Seq(oldest),
            waits: &waits[..shown],
            values: &values[..shown],
        };
        write!(line, " cells={cells}")
    }
}

// A cell for each number from the oldest on, with commas between; `-` where there is none. A number has its handle where it waits, and since when
// where it is missing.
#[derive(Clone, Copy)]
struct Cells<'a> {
    oldest: Seq,
    waits: &'a [u8],
    values: &'a [u64],
}

impl<'a> fmt::Display for Cells<'a> {
    fn fmt<W: fmt::Write>(&self, f: &mut fmt::Formatter<W>) -> fmt::Result {
        if self.waits.is_empty() {
            return f.write_str("-");
        }
        let mut number = self.oldest;
        for (i, (waits, value)) in self.waits.iter().zip(self.values).enumerate() {
            if i != 0 {
                f.write_str(",")?;
            }
            let sign = if *waits == 0 { '?' } else { ':' };
            write!(f, "{}{sign}{value}", number.0)?;
            number = number.forward(1);
        }
        Ok(())
    }
}
