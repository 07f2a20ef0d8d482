use std::rt::Clock;
use std::time::Instant;

/// Measures a time.
#[derive(Clone, Copy, Drop)]
pub struct Stopwatch<'a, R> {
    rt: &'a R,
    // None if the clock can't be read.
    start: Option<Instant>,
}

impl<'a, R: Clock> Stopwatch<'a, R> {
    /// A stopwatch that starts now.
    pub fn start(rt: &'a R) -> Self {
        Stopwatch {
            rt,
            start: Instant::now(rt).ok(),
        }
    }

    /// The nanoseconds since the start, `u64::MAX` at most; `None` if the clock can't be read.
    pub fn nanoseconds(&self) -> Option<u64> {
        let start = self.start?;
        let passed = start.elapsed(self.rt).ok()?;
        Some(u64::try_from(passed.as_nanos()).unwrap_or(u64::MAX))
    }
}
