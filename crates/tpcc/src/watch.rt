use crate::latencies::Latencies;
use crate::stopwatch::Stopwatch;
use engine::Gate;
use requests::{Request, Script};
use schema::NoMemory;
use std::alloc::Global;
use std::io::{Stderr, Write};
use std::rt::Clock;
use std::sync::atomic::{AtomicU64, Ordering};

// The least time between two reports of the serving, in nanoseconds.
const STRIDE: u64 = 1_000_000_000;

/// Observes the serving of scripts: how many requests were answered, and how long each record took from when its first request
/// was asked for the first time. It never blocks an executor, and reads no clock if neither times nor reports are wanted.
#[derive(Drop)]
pub struct Watch<'a, R> {
    // Where the serving is reported, if anywhere.
    terminal: Option<Stderr>,
    // Whether the time of each record is recorded.
    is_timed: bool,
    // Measures all moments, in nanoseconds, if a clock is read.
    stopwatch: Option<Stopwatch<'a, R>>,
    // The moments when the first request was asked and when the last one was answered; 0 before.
    first: AtomicU64,
    last: AtomicU64,
    answered: AtomicU64,
    reported: AtomicU64,
    latencies: Latencies,
}

impl<'a, R: Clock> Watch<'a, R> {
    /// A watch that reports on `terminal`, if there is one, and records the time of each record if `is_timed`.
    pub fn new(rt: &'a R, alloc: Global, terminal: Option<Stderr>, is_timed: bool) -> Self {
        let stopwatch = if is_timed || terminal.is_some() {
            Some(Stopwatch::start(rt))
        } else {
            None
        };
        Watch {
            terminal,
            is_timed,
            stopwatch,
            first: AtomicU64::new(0),
            last: AtomicU64::new(0),
            answered: AtomicU64::new(0),
            reported: AtomicU64::new(0),
            latencies: Latencies::new(alloc),
        }
    }

    /// Allocates room for the times of all records, if times are recorded. Returns NoMemory if an allocation fails; no
    /// times are recorded then.
    pub fn prepare(&mut self, alloc: Global, scripts: &[Script]) -> Result<(), NoMemory> {
        if self.is_timed {
            self.latencies = Latencies::of_scripts(alloc, scripts)?;
        }
        Ok(())
    }

    /// The nanoseconds from when the first request was asked to when the last was answered.
    pub fn served_for(&self) -> u64 {
        let last = self.last.load(Ordering::SeqCst);
        last.saturating_sub(self.first.load(Ordering::SeqCst))
    }

    /// The times of the records of which a request was answered, in nanoseconds, ascending. Returns NoMemory if an allocation fails.
    pub fn sorted_times(&self, alloc: Global) -> Result<Vec<u64>, NoMemory> {
        self.latencies.sorted(alloc)
    }

    /// Ends the line of the reports, if one was printed.
    pub fn end(&self) {
        if self.reported.load(Ordering::SeqCst) > 0 {
            self.print("\n");
        }
    }

    // The moment, if a clock is wanted and can be read. It is not 0.
    fn now(&self) -> Option<u64> {
        let Some(stopwatch) = &self.stopwatch else {
            return None;
        };
        Some(stopwatch.nanoseconds()?.max(1))
    }

    // Reports the serving at most once a second, from whichever thread calls it.
    fn report_in_time(&self, now: u64) {
        let reported = self.reported.load(Ordering::SeqCst);
        if now.saturating_sub(reported) < STRIDE {
            return;
        }
        let mine = self
            .reported
            .compare_exchange(reported, now, Ordering::SeqCst, Ordering::SeqCst);
        if mine.is_ok() {
            self.print("");
        }
    }

    fn print(&self, end: &str) {
        let Some(mut terminal) = self.terminal else {
            return;
        };
        let answered = self.answered.load(Ordering::SeqCst);
        let nanoseconds = u128::from(self.served_for().max(1));
        let each_second = u128::from(answered) * 1_000_000_000 / nanoseconds;
        let _ = write!(
            terminal,
            "\rtpcc: {answered} requests answered, {each_second} a second{end}"
        );
    }
}

impl<R: Clock> Gate for Watch<'_, R> {
    fn asked(&self, session: u32, number: u32, _request: &Request) {
        if let Some(now) = self.now() {
            if self.first.load(Ordering::SeqCst) == 0 {
                let _ = self
                    .first
                    .compare_exchange(0, now, Ordering::SeqCst, Ordering::SeqCst);
            }
            self.latencies.begin(session, number, now);
        }
    }

    fn commit(&self, _session: u32, _number: u32, _request: &Request) {}

    fn answered(&self, session: u32, number: u32, _request: &Request) {
        if let Some(now) = self.now() {
            self.latencies.end(session, number, now);
            self.last.store(now, Ordering::SeqCst);
            self.answered.fetch_add(1, Ordering::SeqCst);
            self.report_in_time(now);
        }
    }
}
