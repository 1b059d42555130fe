// The station's events: each goes to `capability`, and its line tells what the station is to do and the sets as they then are.
use crate::text::Line;
use capability::{Answer, Frame, Station, Timer};
use session::Body;
use std::fmt;
use std::fmt::Write;

// The order for the timer, as a line names it.
#[derive(Clone, Copy)]
struct Ordered(Timer);

impl fmt::Display for Ordered {
    fn fmt<W: fmt::Write>(&self, f: &mut fmt::Formatter<W>) -> fmt::Result {
        f.write_str(match self.0 {
            Timer::Kept => "kept",
            Timer::Started => "started",
            Timer::Cancelled => "cancelled",
        })
    }
}

// The station as the event leaves it.
pub(crate) fn answer(
    line: &mut Line,
    event: Body,
    station: Station,
) -> Result<Station, fmt::Error> {
    match event {
        Body::Fresh { default } => tell(line, "fresh", Station::ACCEPTED, fresh(default)),
        Body::Use { flags } => tell(line, "use", Station::ACCEPTED, station.use_flags(flags)),
        Body::Period => tell(line, "period", Station::ACCEPTED, station.end_period()),
        Body::Received {
            opcode,
            oldest,
            current,
            heard,
        } => {
            let frame = Frame {
                oldest,
                current,
                heard,
            };
            let (number, answer) = station.told(station.receive(opcode, frame));
            tell(line, "received", number, answer)
        }
        _ => Ok(station),
    }
}

// A station that has just begun has nothing to do.
fn fresh(default: u32) -> Answer {
    let station = Station::fresh(default);
    Answer {
        station,
        sends: false,
        frame: station.frame(),
        reported: 0,
        timer: Timer::Kept,
    }
}

fn tell(line: &mut Line, event: &str, number: u8, answer: Answer) -> Result<Station, fmt::Error> {
    let sent = if answer.sends { "yes" } else { "no" };
    let timer = Ordered(answer.timer);
    let reported = answer.reported;
    let frame = answer.frame;
    write!(
        line,
        " {event} {number} sent={sent} timer={timer} really_new={reported:08x}"
    )?;
    write!(
        line,
        " oldest_tx={:08x} current_tx={:08x} current_rx={:08x}",
        frame.oldest, frame.current, frame.heard
    )?;
    Ok(answer.station)
}
