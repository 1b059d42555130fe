#![tactic(auto)]
// The reader of the rate request control frame, on any octets (document 01, 'Rate requests, in this order' and 'The rate request on the wire'; 001, clause 6.3.1).
mod fields;
mod reader;

use rate::Request;
pub use reader::{Received, read, receive, told};

// What is read of an accepted frame: the request, the number of addresses, and where the frame holds them.
#[derive(Clone, Copy, Debug, PartialEq, Eq, Default)]
pub struct Reading {
    pub request: Request,
    pub addresses: u8,
    pub start: usize,
    pub extent: usize,
}
