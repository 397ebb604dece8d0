//! Reads lines from input that comes in pieces, and prints each line with the number of the piece
//! that ended it.
//!
//! A line ends with CR LF, as in the head of an HTTP message. A piece may end anywhere, inside a
//! line or between CR and LF.
#![tactic(auto)]

mod lines;
mod program;

use std::io;
use winnow::stream::BStr;

const PIECES: [&[u8]; 3] = [
    b"HTTP/1.1 200 OK\r",
    b"\nContent-Type: text/plain\r\nContent-Le",
    b"ngth: 5\r\n\r\nhello",
];

fn main(rt: HostRuntime) -> io::Result<()> {
    let (_, rest) = program::print_lines(&rt, &PIECES)?;
    println!(rt; "end: {}", BStr::new(&rest))
}
