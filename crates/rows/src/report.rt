//! Makes the calls of rows and reports those that are answered otherwise.
use crate::{Answers, Fault, Words};
use std::alloc::{AllocError, Global};
use std::process::ExitCode;
use std::rt::{Env, Files};
use std::{env, fs, io};

// How many rows were answered as wanted, and how many not.
#[derive(Clone, Copy)]
struct Count {
    passed: u64,
    failed: u64,
}

// Returns the three fields of a row; a line with fewer has empty ones.
fn fields(line: &str) -> (&str, &str, &str) {
    let (call, rest) = line.split_once(" | ").unwrap_or((line, ""));
    let (input, wanted) = rest.split_once(" | ").unwrap_or((rest, ""));
    (call.trim(), input.trim(), wanted.trim())
}

// Returns the answer of a row, or why there is none.
fn answer<A: Answers>(
    alloc: Global,
    answers: &A,
    call: &str,
    input: &str,
) -> Result<String, AllocError> {
    let answer = match Words::read(alloc, input) {
        Ok(words) => answers.answer(alloc, call, &words),
        Err(fault) => Err(fault),
    };
    match answer {
        Ok(text) => Ok(text),
        Err(Fault::NoSuchCall) => format!(in alloc; "no such call, or not on such an input"),
        Err(Fault::OutOfMemory) => format!(in alloc; "memory was refused"),
    }
}

// Prints what a row is answered in place of what is wanted.
fn print_other(
    rt: &impl Print,
    place: (&str, usize),
    (call, input, wanted): (&str, &str, &str),
    said: &str,
) -> io::Result<()> {
    let (name, number) = place;
    println!(rt; "{name}:{number}: {call} | {input} | {said}")?;
    println!(rt; "    wanted: {wanted}")
}

// Makes the call of a line, and returns whether it was answered as wanted. Prints it if not.
fn try_line<A: Answers, R: Print + AllocGlobal>(
    rt: &R,
    answers: &A,
    place: (&str, usize),
    line: &str,
) -> io::Result<bool> {
    let (call, input, wanted) = fields(line);
    let said = answer(rt.alloc(), answers, call, input)?;
    let passed = said.as_str() == wanted;
    if !passed {
        print_other(rt, place, (call, input, wanted), said.as_str())?;
    }
    Ok(passed)
}

// Makes the calls of the rows of a file, and prints each row that is answered otherwise.
fn try_file<A: Answers, R: Files + Print + AllocGlobal>(
    rt: &R,
    answers: &A,
    name: &str,
) -> io::Result<Count> {
    let text = fs::read_to_string(rt, name)?;
    let mut count = Count {
        passed: 0,
        failed: 0,
    };
    let mut number = 0usize;
    for line in text.as_str().lines() {
        number = number.saturating_add(1);
        if line.is_empty() || line.starts_with('#') {
            continue;
        }
        if try_line(rt, answers, (name, number), line)? {
            count.passed = count.passed.saturating_add(1);
        } else {
            count.failed = count.failed.saturating_add(1);
        }
    }
    Ok(count)
}

// Tries the rows of each file that an argument names.
fn try_files<A: Answers, R: Files + Env + Print + Eprint + AllocGlobal>(
    rt: &R,
    answers: &A,
) -> io::Result<Count> {
    let mut all = Count {
        passed: 0,
        failed: 0,
    };
    for name in env::args(rt)?.skip(1) {
        let count = try_file(rt, answers, name.as_str())?;
        let Count { passed, failed } = count;
        eprintln!(rt; "{name}: {passed} passed, {failed} failed")?;
        all.passed = all.passed.saturating_add(passed);
        all.failed = all.failed.saturating_add(failed);
    }
    Ok(all)
}

/// Makes the calls of all rows of the files that the arguments name. Each row that is answered
/// otherwise comes on standard output, and the number of rows of each file on standard error. The
/// status is 0 where there is a row and each is answered as wanted.
pub fn run<A: Answers, R: Files + Env + Print + Eprint + AllocGlobal>(
    rt: &R,
    answers: &A,
) -> ExitCode {
    match try_files(rt, answers) {
        Ok(Count { passed, failed: 0 }) if passed > 0 => ExitCode::SUCCESS,
        Ok(_) => ExitCode::FAILURE,
        Err(error) => {
            let _ = eprintln!(rt; "{error}");
            ExitCode::from(2)
        }
    }
}
