//! Reads a day from standard input, a line at a time, and prints what each line is answered.
#![tactic(auto)]

use console::{Desk, Reply, Tally, read_command};
use std::io;
use std::io::{BufRead, BufReader};

fn main(rt: HostRuntime) -> io::Result<()> {
    let heap = rt.alloc();
    let mut desk = Desk::new();
    // Kept: shared with the program of a dispatcher's day, these few lines would bring all its crates along.
    for line in BufReader::new(heap, rt.stdin())?.split(heap, b'\n') {
        match desk.obey(read_command(heap, &line?)?) {
            Reply::Nothing => {}
            reply => println!(rt; "{reply}")?,
        }
    }
    println!(rt; "{}", Tally::new())
}
