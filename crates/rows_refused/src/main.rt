//! Calls that grow. Each is checked for its answer and for the state that a refusal leaves.
//!
//! `refusals/run` runs the program with the Nth allocation refused, for each N in turn. It must
//! print the same lines each time, except the last: a call that is refused says so, leaves what its
//! contract says, and answers rightly when it is made again on that. The last line says how many
//! cases met a refusal.
//!
//! With a word and two numbers, such as `text 1024 2`, it feeds 2 pieces of 1,024 bytes, of `text`
//! or of `bytes`, and does nothing else, so that its requests for memory can be counted.
#![tactic(auto)]

mod accumulators;
mod alternatives;
mod cases;
mod errors;
mod feed;
mod feeding_pieces;
mod items;
mod kinds;
mod parsers;
mod printing;
mod recovery;
mod scripts;
mod trees;
mod waiting;
mod words;

use cases::{Case, Cases, all, subjects};
use std::alloc::{AllocError, Global};
use std::{env, io};

fn main(rt: HostRuntime) -> io::Result<()> {
    let alloc: Global = rt.alloc();
    // The arguments take memory too.
    let given = env::args(&rt);
    let without = usize::from(given.is_err());
    let mut words = given.or_else(|_| env::args(&rt))?;
    if let (Some(kind), Some(length), Some(pieces)) = (words.nth(1), words.next(), words.next()) {
        let (length, pieces) = (length.parse().unwrap_or(0), pieces.parse().unwrap_or(0));
        let drained = match kind.as_str() {
            "text" => feeding_pieces::drain_text(alloc, length, pieces),
            _ => feeding_pieces::drain(alloc, length, pieces),
        };
        return println!(rt; "drain: {}", outcome(drained, Err(AllocError)));
    }
    let refused = report_all(&rt, alloc)?;
    println!(rt; "refused: {}", refused.saturating_add(without))
}

// Prints how each case went, and returns how many were refused memory. Then each is made again.
fn report_all(rt: &impl Print, alloc: Global) -> io::Result<usize> {
    let first = all(alloc);
    let refused = count_refused(&first);
    let again = if refused == 0 { first } else { all(alloc) };
    for (first, again) in subjects(&first).iter().zip(&subjects(&again)) {
        report(rt, first, again)?;
    }
    Ok(refused)
}

// Returns how many cases were refused memory.
fn count_refused(all: &Cases) -> usize {
    let mut refused: usize = 0;
    for cases in subjects(all) {
        refused = refused.saturating_add(cases.iter().filter(|case| case.1.is_err()).count());
    }
    refused
}

// Prints how each case went, and how it went the second time if it was refused memory.
fn report(rt: &impl Print, first: &[Case], again: &[Case]) -> io::Result<()> {
    for ((name, first), (_, again)) in first.iter().zip(again) {
        println!(rt; "{name}: {}", outcome(*first, *again))?;
    }
    Ok(())
}

// Returns the word for a case. The second result counts where the first was refused memory and the
// rest went right.
fn outcome(first: Result<bool, AllocError>, again: Result<bool, AllocError>) -> &'static str {
    match first.or(again) {
        Ok(true) => "ok",
        Ok(false) => "wrong",
        Err(_) => "refused twice",
    }
}
