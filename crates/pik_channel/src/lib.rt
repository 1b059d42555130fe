#![tactic(auto)]
// The channel events that C and Rust call, under the names of include/pikurandal.h: arguments passed on, and the result as a struct of C. Each promises
// what the function promises that it passes its arguments on to. Beside them stands the version of the archive, of which this is a part:
// host/archive joins it with pik_rate and pik_station.
mod answers;
mod channels;
mod version;
mod views;
