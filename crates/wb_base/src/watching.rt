//! `Watched`: a reader that shows how far it has come.

ghost use Rattle.std.specs.Prelude.{◌≡◌, ◌≤◌, true};
ghost use Rattle.wb_base.specs.Watching.{IsDue, percent_of};

use std::fmt;
use std::io::{self, Eprint, Read};
use std::time::{Clock, Duration, Instant};

/// A reader of the bytes of another one that shows on standard error how far it has come: a line
/// that is written after a second, and at most ten times a second from then on, and wiped at the
/// end.
///
/// It is the reader inside: its bytes are the same, and only the line depends on the clock.
#[derive(Drop)]
pub struct Watched<'a, R, H> {
    inner: R,
    rt: &'a H,
    bar: Option<Bar>,
}

// What is known of a line of progress.
#[derive(Debug, Drop)]
struct Bar {
    start: Instant,
    drawn: Option<Duration>,
    progress: Progress,
}

// How many bytes were read, and of how many.
#[derive(Clone, Copy, Debug, Drop)]
struct Progress {
    done: u64,
    whole: Option<u64>,
}

impl<'a, R, H: Clock + Eprint> Watched<'a, R, H> {
    /// Returns this reader, of so many bytes if that is known, with a line of progress if it is
    /// wanted: where standard error can be redrawn, and no other output stands between.
    pub fn new(rt: &'a H, inner: R, whole: Option<u64>, is_wanted: bool) -> Watched<'a, R, H>
        ensures { result.inner ≡ inner }
    {
        Watched {
            inner,
            rt,
            bar: if is_wanted { bar_of(rt, whole) } else { None },
        }
    }

    /// Wipes the line, if there is one. It is wiped at the end of the input too.
    pub fn wipe(&mut self) {
        wipe(self.rt, &mut self.bar);
    }
}

impl<R: Read, H: Clock + Eprint> Read for Watched<'_, R, H> {
    ghost remaining = { λ reader. R.remaining reader.inner };

    fn read(&mut self, buf: &mut [u8]) -> io::Result<usize> {
        let answer = self.inner.read(buf);
        if let Ok(count) = &answer {
            show(self.rt, &mut self.bar, *count);
        }
        answer
    }
}

// Returns a line that begins now.
fn bar_of<H: Clock>(rt: &H, whole: Option<u64>) -> Option<Bar> {
    let Ok(start) = Instant::now(rt) else {
        return None;
    };
    Some(Bar {
        start,
        drawn: None,
        progress: Progress { done: 0, whole },
    })
}

// Counts the bytes of a read, and draws the line if it is due. A read of none is the end.
fn show<H: Clock + Eprint>(rt: &H, bar: &mut Option<Bar>, count: usize) {
    if count == 0 {
        return wipe(rt, bar);
    }
    let Some(bar) = bar else {
        return;
    };
    bar.progress.done = bar.progress.done.saturating_add(count as u64);
    let Ok(now) = bar.start.elapsed(rt) else {
        return;
    };
    if is_due(bar.drawn, now) {
        bar.drawn = Some(now);
        // If standard error cannot be written, the line is not seen, and nothing else is lost.
        let _ = rt.eprint(bar.progress);
    }
}

// Wipes the line, if it was drawn.
fn wipe<H: Eprint>(rt: &H, bar: &mut Option<Bar>) {
    let Some(bar) = bar else {
        return;
    };
    if bar.drawn.take().is_some() {
        let _ = rt.eprint("\r\u{1b}[K");
    }
}

// Returns whether the line is drawn this long after the start.
fn is_due(drawn: Option<Duration>, now: Duration) -> bool
    ensures { result ≡ true → IsDue drawn now }
{
    if now < Duration::from_secs(1) {
        return false;
    }
    match drawn {
        Some(before) => before <= now && Duration::from_millis(100) <= now - before,
        None => true,
    }
}

// Returns how many of a hundred parts were read.
fn percent(done: u64, whole: u64) -> u64
    ensures { result ≡ percent_of done whole }
{
    let parts = 100 * (done as u128) / (whole.max(1) as u128);
    parts.min(100) as u64
}

impl fmt::Display for Progress {
    fn fmt<W: fmt::Write>(&self, f: &mut fmt::Formatter<W>) -> fmt::Result {
        let done = self.done / 1_000_000;
        let Some(whole) = self.whole else {
            return write!(f, "\r{done} MB");
        };
        let percent = percent(self.done, whole);
        let megabytes = whole / 1_000_000;
        f.write_str("\r[")?;
        for part in 0..25 {
            f.write_str(if part * 4 < percent { "#" } else { " " })?;
        }
        write!(f, "] {percent:>3}% of {megabytes} MB")
    }
}
