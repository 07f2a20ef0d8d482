ghost use Rattle.std.specs.Prelude.{◌≡◌, ◌↔◌, ℕ, ◌<◌, [], ◌∷◌, IfOk, IfErr, IfSome, IsTrue, None, pos};
ghost use Rattle.jiff.specs.Names.{iso_datetime_text};
ghost use Rattle.jiff_fmt.specs.Text.{pad2, date_text, time_text};
ghost use Rattle.jiff_core.specs.DateTime.{civil_seconds};
ghost use Rattle.jiff_core.specs.declared.civil.datetime.DateTime.{DateTime as Civil};
ghost use Rattle.files.specs.MomentText.{Spells, IsMoment, IsMomentText};
ghost use Rattle.files.specs.KindsRead.{moment_at, moment_read, optional_read};

use crate::FaultKind;
use crate::numbers::digit_of;
use arrayvec::ArrayString;
use jiff::civil::DateTime;
use jiff::fmt::temporal::DateTimePrinter;
use jiff_core::civil::{Date, Time};
use rows::Moment;
use std::str::from_utf8;

/// The moment that the field spells as `YYYY-MM-DDTHH:MM:SS`: an existing date and time in the years
/// 1970 to 9999, with seconds from 00 to 59. Returns `NotOfKind` for any other spelling.
pub fn parse_moment(field: &str) -> Result<Moment, FaultKind>
    ensures exact { result ≡ moment_read field.now }
    ensures spelt { IfOk result (λ seconds. (moment : Civil) × Spells moment field.now seconds) }
    ensures reads { (moment : Civil) (seconds : ℕ) → Spells moment field.now seconds
        → IsMoment seconds → result ≡ Ok seconds }
    ensures faults { IfErr result (λ kind. kind ≡ FaultKind.NotOfKind) }
{
    read_moment(field.as_bytes())
}

/// As `parse_moment`, from the bytes of a field.
pub(crate) fn read_moment(field: &[u8]) -> Result<Moment, FaultKind>
    ensures exact { result ≡ moment_read field.now }
    ensures faults { IfErr result (λ kind. kind ≡ FaultKind.NotOfKind) }
{
    if let Some(moment) = plain_moment(field) {
        return Ok(moment);
    }
    match from_utf8(field) {
        Ok(word) => any_moment(word),
        Err(_) => Err(FaultKind::NotOfKind),
    }
}

// The moment that a field of any length spells.
fn any_moment(field: &str) -> Result<Moment, FaultKind>
    ensures exact { result ≡ moment_read field.now }
    ensures faults { IfErr result (λ kind. kind ≡ FaultKind.NotOfKind) }
{
    let Ok(moment) = field.parse::<DateTime>() else {
        return Err(FaultKind::NotOfKind);
    };
    if !is_spelt(field, moment) {
        return Err(FaultKind::NotOfKind);
    }
    seconds_of(moment)
}

/// The moment of a column that may be empty, or `None` if the field is empty.
pub(crate) fn read_optional_moment(field: &[u8]) -> Result<Option<Moment>, FaultKind>
    ensures { result ≡ optional_read moment_read field.now }
{
    if field.is_empty() {
        return Ok(None);
    }
    match read_moment(field) {
        Ok(moment) => Ok(Some(moment)),
        Err(kind) => Err(kind),
    }
}

// The moment of a field of 19 bytes. Nearly all fields have this length. Each byte is read once, and no
// text is written. `None` implies nothing about the field.
fn plain_moment(field: &[u8]) -> Option<Moment>
    ensures spelt { IfSome result (λ seconds. IsMomentText field.now seconds) }
    ensures high { IfSome result (λ seconds. IsMoment seconds) }
{
    if field.len() != 19 || field[10] != b'T' {
        return None;
    }
    let date = plain_date(&field[..10])?;
    let time = plain_time(&field[11..])?;
    let moment = jiff_core::civil::DateTime { date, time };
    seconds_of(DateTime::from_plain(moment)).ok()
}

// The date that `YYYY-MM-DD` spells.
fn plain_date(bytes: &[u8]) -> Option<Date>
    ensures { IfSome result (λ date. date_text date ≡ bytes.now) }
{
    let [y0, y1, y2, y3, b'-', m0, m1, b'-', d0, d1] = bytes else {
        return None;
    };
    let century = two_digits(*y0, *y1)?;
    let of_century = two_digits(*y2, *y3)?;
    let year = (century * 100 + of_century) as i16;
    let month = two_digits(*m0, *m1)?;
    let day = two_digits(*d0, *d1)?;
    Date::new(year, month as i8, day as i8).ok()
}

// The time that `HH:MM:SS` spells.
fn plain_time(bytes: &[u8]) -> Option<Time>
    ensures spelt { IfSome result (λ time. time_text None time ≡ bytes.now) }
    ensures whole { IfSome result (λ time. time.subsec_nanosecond ≡ 0) }
{
    let [h0, h1, b':', m0, m1, b':', s0, s1] = bytes else {
        return None;
    };
    let hour = two_digits(*h0, *h1)?;
    let minute = two_digits(*m0, *m1)?;
    let second = two_digits(*s0, *s1)?;
    Time::new(hour as i8, minute as i8, second as i8, 0).ok()
}

// The number that two decimal digits spell.
fn two_digits(tens: u8, ones: u8) -> Option<u64>
    ensures value { IfSome result (λ number. pad2 number ≡ tens ∷ ones ∷ []) }
    ensures high { IfSome result (λ number. number < 100) }
{
    let tens = digit_of(tens)?;
    let ones = digit_of(ones)?;
    Some(tens * 10 + ones)
}

// Whether the field is the text that is written for the moment, and the moment has no fraction of a
// second.
fn is_spelt(field: &str, moment: DateTime) -> bool
    ensures { IsTrue result
        ↔ ((iso_datetime_text moment ≡ field.now) × (moment.time.subsec_nanosecond ≡ 0)) }
{
    let spelling = DateTimePrinter::new().datetime_text(moment.to_plain());
    spelling.as_str() == field && moment.subsec_nanosecond() == 0
}

// The moment of a date and time, which is before the year 10000. Returns `NotOfKind` before 1970.
fn seconds_of(moment: DateTime) -> Result<Moment, FaultKind>
    ensures exact { result ≡ moment_at (civil_seconds moment) }
    ensures reads { (seconds : ℕ) → (result ≡ Ok seconds)
        ↔ ((civil_seconds moment ≡ pos seconds) × IsMoment seconds) }
    ensures faults { IfErr result (λ kind. kind ≡ FaultKind.NotOfKind) }
{
    match u64::try_from(moment.to_plain().to_second()) {
        Ok(seconds) => Moment::checked_new(seconds).ok_or(FaultKind::NotOfKind),
        Err(_) => Err(FaultKind::NotOfKind),
    }
}

/// The text that spells the moment. `parse_moment` reads it as the same moment.
pub fn moment_text(moment: Moment) -> ArrayString<32>
    ensures { IsMomentText result.bytes moment }
{
    DateTimePrinter::new().datetime_text(date_time_of(moment))
}

// The date and time of the moment.
fn date_time_of(moment: Moment) -> jiff_core::civil::DateTime
    ensures second { civil_seconds result ≡ pos moment }
    ensures whole { result.time.subsec_nanosecond ≡ 0 }
{
    let nanoseconds = i128::from(moment.seconds()) * 1_000_000_000;
    jiff_core::civil::DateTime::from_nanosecond_in_range(nanoseconds)
}
