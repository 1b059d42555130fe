#![tactic(auto)]
// The functions of a station that C and Rust call, under the names of include/pikurandal.h: arguments passed on, and the result as a struct of C. Each promises
// what the function promises that it passes its arguments on to. host/archive joins this part of the archive with pik_channel and pik_rate.
mod stations;
