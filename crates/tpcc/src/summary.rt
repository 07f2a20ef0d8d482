//! The summary of a run or a replay, in lines on the standard error.

use crate::latencies::within;
use crate::tally::{KINDS, NOBODY, Tally};
use std::fmt;
use std::io::Write;

/// The contents of a summary.
#[derive(Clone, Copy, Debug)]
pub struct Summary<'a> {
    pub tally: &'a Tally,
    /// How many records the scripts have whose requests were counted; `None` if that is not known.
    pub records: Option<usize>,
    /// How long the serving or the replay took, in nanoseconds.
    pub served_for: u64,
    /// How long each record took, in nanoseconds, ascending; empty if that is not known.
    pub times: &'a [u64],
}

/// Prints the summary. An error in printing is ignored.
pub fn report_summary<W: Write>(sink: &mut W, summary: &Summary) {
    let tally = summary.tally;
    let count = tally.len();
    let _ = match summary.records {
        Some(records) => writeln!(
            sink,
            "tpcc: summary: {count} requests, of {records} records"
        ),
        None => writeln!(sink, "tpcc: summary: {count} requests"),
    };
    for kind in 0..KINDS {
        let _ = writeln!(sink, "tpcc: summary: {}", OfKind { tally, kind });
    }
    let of_nobody = tally
        .count(1, NOBODY)
        .saturating_add(tally.count(2, NOBODY));
    if of_nobody > 0 {
        let _ = writeln!(
            sink,
            "tpcc: summary: {of_nobody} rolled back as nobody has the last name: a customer's number is written with #, as #1"
        );
    }
    let time = Seconds(summary.served_for);
    let all = a_minute(count, summary.served_for);
    let orders = a_minute(tally.count(0, 0), summary.served_for);
    let _ = writeln!(
        sink,
        "tpcc: time: {time} s without reading and writing: {all} requests a minute, {orders} New-Orders done a minute"
    );
    if !summary.times.is_empty() {
        let half = Microseconds(within(summary.times, 50));
        let most = Microseconds(within(summary.times, 90));
        let nearly = Microseconds(within(summary.times, 99));
        let longest = Microseconds(within(summary.times, 100));
        let _ = writeln!(
            sink,
            "tpcc: time: records answered within {half} us 50 in 100, {most} us 90 in 100, {nearly} us 99 in 100, {longest} us all"
        );
    }
    let _ = writeln!(
        sink,
        "tpcc: summary: no audited tpmC: nobody keys or thinks, no terminals are between, and nothing is durable (TPC-C 5.11, clauses 5.2.5, 4.2 and 3.5)"
    );
}

// The rate in a minute of so many in so many nanoseconds.
fn a_minute(count: usize, nanoseconds: u64) -> u128 {
    count as u128 * 60_000_000_000 / u128::from(nanoseconds.max(1))
}

// How the requests of a kind ended.
#[derive(Clone, Copy, Debug)]
struct OfKind<'a> {
    tally: &'a Tally,
    kind: u8,
}

impl fmt::Display for OfKind<'_> {
    fn fmt<W: fmt::Write>(&self, f: &mut fmt::Formatter<W>) -> fmt::Result {
        let word = match self.kind {
            0 => "New-Order",
            1 => "Payment",
            2 => "Order-Status",
            3 => "Delivery",
            _ => "Stock-Level",
        };
        let done = self.tally.count(self.kind, 0);
        let of_nobody = self.tally.count(self.kind, NOBODY);
        let rolled_back = self.tally.count(self.kind, 1).saturating_add(of_nobody);
        write!(f, "{word}: {done} done, {rolled_back} rolled back")?;
        for end in 2..NOBODY {
            let refused = self.tally.count(self.kind, end);
            if refused > 0 {
                let number = end - 1;
                write!(f, ", {refused} refused with {number}")?;
            }
        }
        Ok(())
    }
}

// Nanoseconds, shown in seconds.
#[derive(Clone, Copy, Debug)]
struct Seconds(u64);

impl fmt::Display for Seconds {
    fn fmt<W: fmt::Write>(&self, f: &mut fmt::Formatter<W>) -> fmt::Result {
        let seconds = self.0 / 1_000_000_000;
        let rest = self.0 / 1_000 % 1_000_000;
        write!(f, "{seconds}.{rest:06}")
    }
}

// Nanoseconds, shown in microseconds.
#[derive(Clone, Copy, Debug)]
struct Microseconds(u64);

impl fmt::Display for Microseconds {
    fn fmt<W: fmt::Write>(&self, f: &mut fmt::Formatter<W>) -> fmt::Result {
        let microseconds = self.0 / 1_000;
        let rest = self.0 % 1_000 / 100;
        write!(f, "{microseconds}.{rest}")
    }
}
