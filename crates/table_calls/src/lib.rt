#![tactic(auto)]
// Calls on the table of 64 places: what an event's call promises (specs/Event.antt), a chain of calls (specs/Calls.antt), and the two calls that are no
// events, the empty table and a look at a channel's record (document 01, 'The channel table'). The events themselves stand above, in table_frame and table_upkeep.
mod emptying;
mod looking;

pub use emptying::empty;
pub use looking::{View, look, told};
