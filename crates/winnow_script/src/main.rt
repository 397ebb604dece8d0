//! Runs a script of stream calls, given as lines on standard input, and prints the answers as
//! lines.
//!
//! The first line names the kind of the input. Each line after it is a step, up to the lines of the
//! input: one line, or one for each piece if the input is in pieces.
//!
//! ```text
//! bytes
//! next
//! at 5
//! input 616263
//! ```
//!
//! prints `token 97` and `at needs 3`. Over pieces, a line begins with the number of the piece that
//! made the answer definite, or with `end`.
//!
//! The whole script is read and run before anything is printed. The exit status is 0, or 2 if a
//! line is faulty, 3 if memory was refused, and 4 if reading or writing failed.
#![tactic(auto)]

use std::process::ExitCode;
use winnow_script_lines::{Failure, execute, read_script};

fn main(rt: HostRuntime) -> ExitCode {
    match answer(&rt) {
        Ok(()) => ExitCode::SUCCESS,
        Err(failure) => {
            let status = failure.status();
            // If standard error cannot be written either, only the status reports the failure.
            let _ = rt.eprintln(failure);
            ExitCode::from(status)
        }
    }
}

// Runs the script on standard input, and writes its answers to standard output after it has all of
// them.
fn answer(rt: &(impl Input + Print + AllocGlobal)) -> Result<(), Failure> {
    let input = read_script(rt.alloc(), rt.reader())?;
    let answers = execute(rt.alloc(), &input)?;
    rt.write_all(&answers)?;
    Ok(())
}
