//! A weekday of passengers, read from standard input.
#![tactic(auto)]

use std::io;

// Kept: a program is run on the day that lies beside it, so that each day has one.
fn main(rt: HostRuntime) -> io::Result<()> {
    program::run(&rt)
}
