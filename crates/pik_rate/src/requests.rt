// Rate requests for a host (document 01, 'Rate requests, in this order' and 'The rate request on the wire'). The structs are those of the C interface, with
// numbers and 0 for none.
ghost use Rattle.std.specs.Prelude.{◌≡◌, unwrap_or};
ghost use Rattle.rate.specs.Rates.{rate_of, chosen_of};
ghost use Rattle.rate_reader.specs.Reading.{read, read_of};
ghost use Rattle.rate.specs.Writing.{written, Wrote};
ghost use Rattle.pik_rate.specs.Requests.{octets_of, request_of, reading_of, written_of};

use rate::Refused;

// The six octets of an address. In C it is an array of six octets; the C interface passes it by value, so that it is a struct of six fields here.
#[repr(C)]
#[derive(Clone, Copy, Default)]
pub struct Address {
    pub first: u8,
    pub second: u8,
    pub third: u8,
    pub fourth: u8,
    pub fifth: u8,
    pub sixth: u8,
}

// The fixed fields of a request.
#[repr(C)]
#[derive(Clone, Copy, Default)]
pub struct Request {
    pub destination: Address,
    pub source: Address,
    pub opcode: u8,
    pub bands: u8,
    pub pe1: u8,
    pub rank1: u8,
    pub pe2: u8,
    pub rank2: u8,
}

// What the reader answers: the addresses are the caller's own octets, `extent` of them from `start` on. Refused, all is 0 but the number.
#[repr(C)]
#[derive(Clone, Copy, Default)]
pub struct Reading {
    pub number: u8,
    pub addresses: u8,
    pub request: Request,
    pub start: usize,
    pub extent: usize,
}

// What the writer answers.
#[repr(C)]
#[derive(Clone, Copy)]
pub struct Written {
    pub number: u8,
    pub count: usize,
}

impl From<Address> for [u8; 6] {
    ghost from_gives = { λ address octets. octets ≡ octets_of address };

    fn from(a: Address) -> [u8; 6] {
        [a.first, a.second, a.third, a.fourth, a.fifth, a.sixth]
    }
}

impl From<[u8; 6]> for Address {
    ghost from_gives = { λ octets address. octets_of address ≡ octets };

    fn from([first, second, third, fourth, fifth, sixth]: [u8; 6]) -> Address {
        Address {
            first,
            second,
            third,
            fourth,
            fifth,
            sixth,
        }
    }
}

impl From<Request> for rate::Request {
    ghost from_gives = { λ lent request. request ≡ request_of lent };

    fn from(lent: Request) -> rate::Request {
        rate::Request {
            destination: lent.destination.into(),
            source: lent.source.into(),
            opcode: lent.opcode,
            bands: lent.bands,
            pe1: lent.pe1,
            rank1: lent.rank1,
            pe2: lent.pe2,
            rank2: lent.rank2,
        }
    }
}

impl From<rate::Request> for Request {
    ghost from_gives = { λ request given. request_of given ≡ request };

    fn from(request: rate::Request) -> Request {
        Request {
            destination: request.destination.into(),
            source: request.source.into(),
            opcode: request.opcode,
            bands: request.bands,
            pe1: request.pe1,
            rank1: request.rank1,
            pe2: request.pe2,
            rank2: request.rank2,
        }
    }
}

impl From<Result<rate_reader::Reading, Refused>> for Reading {
    ghost from_gives = { λ answer reading. reading_of reading ≡ read answer };

    fn from(answer: Result<rate_reader::Reading, Refused>) -> Reading {
        match answer {
            Ok(reading) => Reading {
                number: 0,
                addresses: reading.addresses,
                request: reading.request.into(),
                start: reading.start,
                extent: reading.extent,
            },
            Err(refused) => Reading {
                number: refused.into(),
                ..Reading::default()
            },
        }
    }
}

impl From<Result<usize, Refused>> for Written {
    ghost from_gives = { λ answer count. written_of count ≡ written answer };

    fn from(answer: Result<usize, Refused>) -> Written {
        let (number, count) = match answer {
            Ok(count) => (0, count),
            Err(refused) => (refused.into(), 0),
        };
        Written { number, count }
    }
}

#[unsafe(no_mangle)]
pub extern "C" fn pik_rate_read(frame: &[u8]) -> Reading
    ensures { reading_of result ≡ read_of frame.now }
{
    rate_reader::read(frame).into()
}

#[unsafe(no_mangle)]
pub extern "C" fn pik_rate_write(out: &mut [u8], request: Request, addresses: &[u8]) -> Written
    ensures { Wrote (request_of request) addresses.now out.old out.new (written_of result) }
{
    rate::write(out, request.into(), addresses).into()
}

// The rate of a PE in Mbit/s, or 0 where it has none.
#[unsafe(no_mangle)]
pub extern "C" fn pik_rate_of(pe: u8) -> u8
    ensures { result ≡ unwrap_or (rate_of pe) 0 }
{
    rate::rate_of(pe).unwrap_or(0)
}

// The number of the chosen band, or 0 where there is none.
#[unsafe(no_mangle)]
pub extern "C" fn pik_rate_chosen(request: Request) -> u8
    ensures { result ≡ unwrap_or (chosen_of (request_of request)) 0 }
{
    rate::chosen_band(request.into()).map_or(0, u8::from)
}
