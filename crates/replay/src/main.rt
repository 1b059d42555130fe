#![tactic(auto)]
// Answers the recorded session on standard input, a line for each event (docs/LAYOUT.md, 'Sessions').
mod channels;
mod rates;
mod stations;
mod stream;
mod text;

use capability::Station;
use channels::Table;
use std::fmt::Write;
use std::io::{ErrorKind, Read};
use std::process::ExitCode;
use std::{fmt, io};
use stream::Stopped;
use text::Line;

// Why the run ends, well or not: nothing is read behind it.
#[derive(Drop)]
enum End {
    // Every event is answered.
    Answered,
    // The session can be followed no further. The last line says why, by this word.
    Broken(&'static str),
    // A line could not be written.
    Unwritten(io::Error),
}

impl From<Stopped> for End {
    fn from(stopped: Stopped) -> End {
        match stopped {
            Stopped::Cut => End::Broken("cut"),
            Stopped::Failed => End::Broken("failed"),
        }
    }
}

// A line that has no room, which no answer is too long for, is one that cannot be written.
impl From<fmt::Error> for End {
    fn from(_error: fmt::Error) -> End {
        End::Unwritten(ErrorKind::WriteZero.into())
    }
}

impl From<io::Error> for End {
    fn from(error: io::Error) -> End {
        End::Unwritten(error)
    }
}

// What the session has led to: the table and the station.
#[derive(Drop)]
struct Replay {
    table: Table,
    station: Station,
}

impl Replay {
    // Reads an entry and answers it. Each part answers its own events, and passes the others over.
    fn turn<R: Print, I: Read>(
        &mut self,
        rt: &R,
        input: &mut I,
        buffer: &mut [u8; BUFFER],
        line: &mut Line,
        index: u64,
    ) -> Result<(), End> {
        let Some(count) = stream::next(input, buffer)? else {
            return Err(End::Answered);
        };
        let body = &buffer[..count as usize];
        let Some(event) = session::read(body) else {
            return Err(End::Broken("unreadable"));
        };
        line.begin();
        write!(line, "{index}")?;
        self.table.answer(line, event)?;
        rates::answer(line, event, session::rest(body))?;
        self.station = stations::answer(line, event, self.station)?;
        line.write_str("\n")?;
        rt.write_all(line.octets())?;
        Ok(())
    }
}

// An entry's body, of at most 65,535 octets, has room in it.
const BUFFER: usize = 65536;

fn main(rt: HostRuntime) -> ExitCode {
    let mut input = rt.stdin();
    let mut buffer = [0u8; BUFFER];
    let mut line = Line::EMPTY;
    let mut replay = Replay {
        table: Table::EMPTY,
        station: Station::fresh(0),
    };
    // A proved loop has to end, and nothing says that a stream does: no run uses so many entries up.
    for index in 0..u64::MAX {
        if let Err(end) = replay.turn(&rt, &mut input, &mut buffer, &mut line, index) {
            return ended(&rt, &mut line, index, end);
        }
    }
    ExitCode::SUCCESS
}

// Says why the run ends, on standard error too where the session is not answered to its end: the program's status is the same, but where nobody reads any
// more.
fn ended(rt: &(impl Print + Eprint), line: &mut Line, index: u64, end: End) -> ExitCode {
    match end {
        End::Answered => ExitCode::SUCCESS,
        End::Broken(why) => match last(rt, line, index, why) {
            Ok(()) => tell(
                rt,
                "replay: the session was not answered to its end; the last line says why\n",
            ),
            Err(end) => unanswered(rt, end),
        },
        end => unanswered(rt, end),
    }
}

// The last line says why the run ends before the session does.
fn last(rt: &impl Print, line: &mut Line, index: u64, why: &str) -> Result<(), End> {
    line.begin();
    write!(line, "{index} {why}\n")?;
    rt.write_all(line.octets())?;
    Ok(())
}

// An answer could not be given.
fn unanswered(rt: &impl Eprint, end: End) -> ExitCode {
    match end {
        End::Unwritten(e) if e.kind() == ErrorKind::BrokenPipe => unread(),
        End::Unwritten(_) => tell(rt, "replay: the answers could not be written\n"),
        End::Answered | End::Broken(_) => ExitCode::SUCCESS,
    }
}

// Where standard error takes nothing nobody is left to be told, and where it has no reader any more the run ends by that.
fn tell(rt: &impl Eprint, what: &str) -> ExitCode {
    match rt.eprint(what) {
        Err(e) if e.kind() == ErrorKind::BrokenPipe => unread(),
        _ => ExitCode::SUCCESS,
    }
}

// Where the reader of a pipe is gone, the system ends a program that knows nothing of it, by a signal that a shell tells as 141. This one is told by an error,
// and ends with that status.
fn unread() -> ExitCode {
    ExitCode::from(141)
}
