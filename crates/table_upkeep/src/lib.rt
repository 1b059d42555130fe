#![tactic(auto)]
// The events that bring no frame, on the table of 64 places that the host lends: a reminder, a tick and a close (document 01, 'The four channel
// events'; 001, 6.6.4). Each call decides on what is lent where it goes, and then changes one place. Frames are table_frame's.
// The lines that lend a place's parts stand in each event: of a closure that is not called, after a refusal, no proof knows what its buffers hold.
// The parts are ranges, as in table_frame: of `as_chunks_mut` and `chunks_exact_mut` std does not say what the slice holds afterwards.
mod closes;
mod reminders;
mod ticks;

pub use closes::close;
pub use reminders::reminder;
pub use ticks::tick;
