// A line of the answers, and how lists and octets are written in it (docs/LAYOUT.md, 'Answers').
ghost use Rattle.std.specs.Prelude.{◌≡◌, ◌<◌, false, [], ◌∷◌};
ghost use Rattle.std.specs.Fmt.{digit_glyph};

use std::fmt;

// More than the longest line has, which tells an output of 1,600 octets in hexadecimal.
const LINE: usize = 4096;

// A line is put together in a buffer of its own, so that a run needs no memory beside its stack. What would not fit is an error.
#[derive(Clone, Copy)]
pub(crate) struct Line {
    octets: [u8; LINE],
    count: usize,
}

impl Line {
    pub(crate) const EMPTY: Line = Line {
        octets: [0; LINE],
        count: 0,
    };

    // The next line is begun, over what the last one left.
    pub(crate) fn begin(&mut self) {
        self.count = 0;
    }

    pub(crate) fn octets(&self) -> &[u8] {
        wire::part(&self.octets, 0, self.count)
    }
}

impl fmt::Write for Line {
    fn write_str(&mut self, text: &str) -> fmt::Result {
        let end = wire::lay(&mut self.octets, self.count, text.as_bytes());
        let fits = end - self.count == text.len();
        self.count = end;
        if fits { Ok(()) } else { Err(fmt::Error) }
    }
}

// A list with commas between its values; `-` where it is empty.
#[derive(Clone, Copy)]
pub(crate) struct List<'a, T>(pub &'a [T]);

impl<'a, T: fmt::Display> fmt::Display for List<'a, T> {
    fn fmt<W: fmt::Write>(&self, f: &mut fmt::Formatter<W>) -> fmt::Result {
        let List(values) = self;
        if values.is_empty() {
            return f.write_str("-");
        }
        for (i, value) in values.iter().enumerate() {
            if i != 0 {
                f.write_str(",")?;
            }
            write!(f, "{value}")?;
        }
        Ok(())
    }
}

// Octets, two hexadecimal digits each and nothing between; `-` where there are none.
#[derive(Clone, Copy)]
pub(crate) struct Octets<'a>(pub &'a [u8]);

impl<'a> fmt::Display for Octets<'a> {
    fn fmt<W: fmt::Write>(&self, f: &mut fmt::Formatter<W>) -> fmt::Result {
        let Octets(octets) = self;
        if octets.is_empty() {
            return f.write_str("-");
        }
        for octet in octets.iter() {
            f.write_str(digit(octet / 16))?;
            f.write_str(digit(octet % 16))?;
        }
        Ok(())
    }
}

// A hexadecimal digit. Two of them cost a sixth of what `{:02x}` costs for an octet, and a line may tell 1,600.
fn digit(value: u8) -> &'static str
    requires { value < 16 }
    ensures { result.now ≡ digit_glyph false value ∷ [] }
{
    match value {
        0 => "0",
        1 => "1",
        2 => "2",
        3 => "3",
        4 => "4",
        5 => "5",
        6 => "6",
        7 => "7",
        8 => "8",
        9 => "9",
        10 => "a",
        11 => "b",
        12 => "c",
        13 => "d",
        14 => "e",
        _ => "f",
    }
}
