// A station's capability sets for a host: structs of plain words, by value (document 01, 'Capability sets').
ghost use Rattle.std.specs.Prelude.{◌≡◌};
ghost use Rattle.capability.specs.Answers.{outcome_of};
ghost use Rattle.capability.specs.Sets.{carried};
ghost use Rattle.capability.specs.Events.{fresh, used, ended, received};
ghost use Rattle.pik_station.specs.Stations.{station_of, station_for, frame_of, frame_for, answer_for};

use capability::Timer;

// The six sets of a station, in document 01's order.
#[repr(C)]
#[derive(Clone, Copy)]
pub struct Station {
    pub default_set: u32,
    pub new_tx: u32,
    pub previous_tx: u32,
    pub oldest_tx: u32,
    pub new_rx: u32,
    pub previous_rx: u32,
}

// The three sets that a capability frame carries.
#[repr(C)]
#[derive(Clone, Copy)]
pub struct Frame {
    pub oldest_tx: u32,
    pub current_tx: u32,
    pub current_rx: u32,
}

// The answer to an event. For C a refusal is a number beside the rest, and `timer` is 0 kept, 1 started, 2 cancelled.
#[repr(C)]
#[derive(Clone, Copy)]
pub struct StationAnswer {
    pub number: u8,
    pub sends: bool,
    pub timer: u8,
    pub reported: u32,
    pub station: Station,
    pub frame: Frame,
}

// The station that six words are.
impl From<Station> for capability::Station {
    ghost from_gives = { λ words station. station ≡ station_of words };

    fn from(station: Station) -> capability::Station {
        capability::Station {
            default: station.default_set,
            tx: capability::Tx {
                new: station.new_tx,
                previous: station.previous_tx,
                oldest: station.oldest_tx,
            },
            rx: capability::Rx {
                new: station.new_rx,
                previous: station.previous_rx,
            },
        }
    }
}

impl From<capability::Station> for Station {
    ghost from_gives = { λ station words. words ≡ station_for station };

    fn from(station: capability::Station) -> Station {
        Station {
            default_set: station.default,
            new_tx: station.tx.new,
            previous_tx: station.tx.previous,
            oldest_tx: station.tx.oldest,
            new_rx: station.rx.new,
            previous_rx: station.rx.previous,
        }
    }
}

// The frame that three words are.
impl From<Frame> for capability::Frame {
    ghost from_gives = { λ words frame. frame ≡ frame_of words };

    fn from(frame: Frame) -> capability::Frame {
        capability::Frame {
            oldest: frame.oldest_tx,
            current: frame.current_tx,
            heard: frame.current_rx,
        }
    }
}

impl From<capability::Frame> for Frame {
    ghost from_gives = { λ frame words. words ≡ frame_for frame };

    fn from(frame: capability::Frame) -> Frame {
        Frame {
            oldest_tx: frame.oldest,
            current_tx: frame.current,
            current_rx: frame.heard,
        }
    }
}

// An answer has number 0.
impl From<capability::Answer> for StationAnswer {
    ghost from_gives = { λ answer told. told ≡ answer_for (outcome_of answer) };

    fn from(answer: capability::Answer) -> StationAnswer {
        StationAnswer {
            number: 0,
            sends: answer.sends,
            timer: answer.timer.into(),
            reported: answer.reported,
            station: answer.station.into(),
            frame: answer.frame.into(),
        }
    }
}

#[unsafe(no_mangle)]
pub extern "C" fn pik_station_fresh(default_set: u32) -> Station
    ensures { result ≡ station_for (fresh default_set) }
{
    capability::Station::fresh(default_set).into()
}

#[unsafe(no_mangle)]
pub extern "C" fn pik_station_use(station: Station, flags: u32) -> StationAnswer
    ensures { result ≡ answer_for (used (station_of station) flags) }
{
    let answer = capability::Station::from(station).use_flags(flags);
    answer.into()
}

#[unsafe(no_mangle)]
pub extern "C" fn pik_station_period(station: Station) -> StationAnswer
    ensures { result ≡ answer_for (ended (station_of station)) }
{
    let answer = capability::Station::from(station).end_period();
    answer.into()
}

#[unsafe(no_mangle)]
pub extern "C" fn pik_station_receive(station: Station, opcode: u8, frame: Frame) -> StationAnswer
    ensures { result ≡ answer_for (received (station_of station) opcode (frame_of frame)) }
{
    let inner = capability::Station::from(station);
    match inner.receive(opcode, frame.into()) {
        Ok(answer) => answer.into(),
        Err(refused) => StationAnswer {
            number: refused.into(),
            sends: false,
            timer: Timer::Kept.into(),
            reported: 0,
            station,
            frame: inner.frame().into(),
        },
    }
}

#[unsafe(no_mangle)]
pub extern "C" fn pik_station_frame(station: Station) -> Frame
    ensures { result ≡ frame_for (carried (station_of station)) }
{
    capability::Station::from(station).frame().into()
}
