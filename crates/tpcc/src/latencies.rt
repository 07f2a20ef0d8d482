use requests::Script;
use schema::NoMemory;
use std::alloc::Global;
use std::sync::atomic::{AtomicU64, Ordering};

/// How long each record of the scripts of a run took, in nanoseconds: from when its first request began to when the last one
/// ended.
#[derive(Drop)]
pub struct Latencies {
    // The index in `times` of each session's first record.
    firsts: Vec<usize>,
    times: Vec<Times>,
}

// When a record began and when its last request so far ended; 0 before.
#[derive(Drop)]
struct Times {
    began: AtomicU64,
    ended: AtomicU64,
}

impl Latencies {
    /// The latencies of no records.
    pub fn new(alloc: Global) -> Latencies {
        Latencies {
            firsts: Vec::new(alloc),
            times: Vec::new(alloc),
        }
    }

    /// The latencies of the records of these scripts, none of which has begun. Returns NoMemory if an allocation fails.
    pub fn of_scripts(alloc: Global, scripts: &[Script]) -> Result<Latencies, NoMemory> {
        let mut latencies = Latencies::new(alloc);
        for script in scripts {
            latencies.firsts.push(latencies.times.len())?;
            for _ in 0..record_count(script) {
                latencies.times.push(Times {
                    began: AtomicU64::new(0),
                    ended: AtomicU64::new(0),
                })?;
            }
        }
        Ok(latencies)
    }

    /// Records the moment when a request of the record with this number began, in nanoseconds; it is not 0. The record began
    /// with its first request.
    pub fn begin(&self, session: u32, number: u32, moment: u64) {
        if let Some(times) = self.times(session, number) {
            let _ = times
                .began
                .compare_exchange(0, moment, Ordering::SeqCst, Ordering::SeqCst);
        }
    }

    /// Records the moment when a request of the record with this number ended, in nanoseconds; it is not 0.
    pub fn end(&self, session: u32, number: u32, moment: u64) {
        if let Some(times) = self.times(session, number) {
            times.ended.store(moment, Ordering::SeqCst);
        }
    }

    /// How long the records took of which a request has ended, at least 1 nanosecond each, ascending.
    pub fn sorted(&self, alloc: Global) -> Result<Vec<u64>, NoMemory> {
        let mut sorted = Vec::with_capacity(alloc, self.times.len())?;
        for times in &self.times {
            let ended = times.ended.load(Ordering::SeqCst);
            if ended > 0 {
                let began = times.began.load(Ordering::SeqCst);
                sorted.push(ended.saturating_sub(began).max(1))?;
            }
        }
        sorted.as_mut_slice().sort_unstable();
        Ok(sorted)
    }

    fn times(&self, session: u32, number: u32) -> Option<&Times> {
        let first = *self.firsts.get(session as usize)?;
        self.times.get(first.saturating_add(number as usize))
    }
}

/// How many records a script has: its last part is of its last record.
pub fn record_count(script: &Script) -> usize {
    match script.parts().last() {
        Some(last) => (last.number as usize).saturating_add(1),
        None => 0,
    }
}

/// The time that `share` in 100 of the `times` don't exceed; 0 if there are none. The times ascend.
pub fn within(times: &[u64], share: u8) -> u64 {
    let count = times.len() as u128 * u128::from(share);
    let place = count.div_ceil(100).saturating_sub(1);
    match usize::try_from(place) {
        Ok(place) => times.get(place).copied().unwrap_or(0),
        Err(_) => 0,
    }
}
