// The stream of entries, read one by one through a buffer of the caller's (docs/LAYOUT.md, 'Sessions').
ghost use Rattle.std.specs.Prelude.{◌≤◌, length, IfOk};

use std::io;
use std::io::{ErrorKind, Read};

// Why no entry is read where one should stand.
#[derive(Clone, Copy)]
pub(crate) enum Stopped {
    // The stream ends inside it.
    Cut,
    // The stream could not be read further.
    Failed,
}

impl From<io::Error> for Stopped {
    fn from(_error: io::Error) -> Stopped {
        Stopped::Failed
    }
}

// Reads an entry: how many octets its body has, which then stands at the start of the buffer, or none where the stream ends before it.
pub(crate) fn next<I: Read>(input: &mut I, buffer: &mut [u8]) -> Result<Option<u16>, Stopped>
    requires { 65535 ≤ length buffer.old }
{
    let mut prefix = [0u8; 2];
    let spelled = fill(input, &mut prefix)?;
    if spelled == 0 {
        return Ok(None);
    }
    let count = session::length(&prefix);
    let end = count as usize;
    if spelled < 2 || fill(input, &mut buffer[..end])? < end {
        return Err(Stopped::Cut);
    }
    Ok(Some(count))
}

// Reads until the buffer is full or the stream ends: how many octets came. std's `read_exact` tells no stream that ends inside an entry from one that
// ends before it. A read brings as many octets as it likes, so this goes by what came and not octet by octet.
fn fill<I: Read>(input: &mut I, buffer: &mut [u8]) -> io::Result<usize> {
    let mut done = 0;
    while done < buffer.len() {
        let count = read_on(input, &mut buffer[done..])?;
        if count == 0 {
            break;
        }
        done += count;
    }
    Ok(done)
}

// Reads once. A read that a signal interrupts before it brings anything is made again.
fn read_on<I: Read>(input: &mut I, buffer: &mut [u8]) -> io::Result<usize>
    ensures { IfOk result (λ count. count ≤ length buffer.old) }
{
    // A proved loop has to end: no read is interrupted so often.
    for _ in 0..u64::MAX {
        match input.read(buffer) {
            Err(e) if e.kind() == ErrorKind::Interrupted => {}
            brought => return brought,
        }
    }
    Err(ErrorKind::Interrupted.into())
}
