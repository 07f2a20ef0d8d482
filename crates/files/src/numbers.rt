ghost use Rattle.std.specs.Prelude.{◌≡◌, ◌↔◌, ℕ, ℤ, ◌≤◌, ◌<◌, ◌+◌, ◌^◌, false, IfOk, IfErr, IfSome};
ghost use Rattle.std.specs.Char.{is_ascii_digit};
ghost use Rattle.std.specs.Fmt.{decimal, signed_decimal};
ghost use Rattle.std.specs.List.{list_all};
ghost use Rattle.amounts.specs.Money.{IsMoney};
ghost use Rattle.files.specs.Number.{is_positive, is_number, ReadsWhole};
ghost use Rattle.files.specs.Failure.{IsOfField};
ghost use Rattle.files.specs.FieldRead.{whole_read};
ghost use Rattle.files.specs.KindsRead.{money_read, count_read, optional_read};

use crate::FaultKind;
use amounts::{Cents, Rate};
use rows::Ranged;
use std::str::from_utf8;

/// The number from `low` to `high` that the field spells, in decimal digits without leading zeros.
/// Returns `NotOfKind` if the field spells no whole number, otherwise `OutOfRange` if the number is out
/// of range.
pub fn parse_whole(field: &str, low: u64, high: u64) -> Result<u64, FaultKind>
    ensures value { IfOk result (λ number. decimal number ≡ field.now) }
    ensures range { IfOk result (λ number. (low ≤ number) × (number ≤ high)) }
    ensures reads { ReadsWhole low high field.now result }
    ensures not_of_kind { (result ≡ Err FaultKind.NotOfKind) ↔ (is_number field.now ≡ false) }
    ensures faults { IfErr result IsOfField }
{
    read_whole(field.as_bytes(), low, high)
}

/// As `parse_whole`, from the bytes of a field.
pub(crate) fn read_whole(field: &[u8], low: u64, high: u64) -> Result<u64, FaultKind>
    ensures value { IfOk result (λ number. decimal number ≡ field.now) }
    ensures range { IfOk result (λ number. (low ≤ number) × (number ≤ high)) }
    ensures reads { ReadsWhole low high field.now result }
    ensures not_of_kind { (result ≡ Err FaultKind.NotOfKind) ↔ (is_number field.now ≡ false) }
    ensures faults { IfErr result IsOfField }
{
    match short_number(field) {
        Some(number) => within(number, low, high),
        None => read_any(field, low, high),
    }
}

// The number, or `OutOfRange` if it is not from `low` to `high`.
fn within(number: u64, low: u64, high: u64) -> Result<u64, FaultKind>
    ensures range { IfOk result (λ same. (same ≡ number) × (low ≤ number) × (number ≤ high)) }
    ensures reads { low ≤ number → number ≤ high → result ≡ Ok number }
    ensures faults { IfErr result (λ kind. kind ≡ FaultKind.OutOfRange) }
{
    if (low..=high).contains(&number) {
        Ok(number)
    } else {
        Err(FaultKind::OutOfRange)
    }
}

// The number that the digits spell. Each digit is read once. `None` if they spell no number, or if
// there are more digits than are certain to fit in a `u64`.
fn short_number(field: &[u8]) -> Option<u64>
    ensures { IfSome result (λ number. (decimal number ≡ field.now) × (number < 2 ^ 64)) }
{
    let [first, rest @ ..] = field else {
        return None;
    };
    let mut number = digit_of(*first)?;
    for &byte in rest {
        if number == 0 || number >= 1_000_000_000_000_000_000 {
            return None;
        }
        number = number * 10 + digit_of(byte)?;
    }
    Some(number)
}

/// The value of a decimal digit, or `None` if the byte is not a digit.
pub(crate) fn digit_of(byte: u8) -> Option<u64>
    ensures { IfSome result (λ digit. (digit < 10) × (byte ≡ 48 + digit)) }
{
    if byte >= b'0' && byte <= b'9' {
        Some(u64::from(byte - b'0'))
    } else {
        None
    }
}

// The number that a field of any length spells. It is a separate function, so that short numbers, which
// are nearly all, are read without the costs of this one.
#[cold]
#[inline(never)]
fn read_any(field: &[u8], low: u64, high: u64) -> Result<u64, FaultKind>
    ensures value { IfOk result (λ number. decimal number ≡ field.now) }
    ensures range { IfOk result (λ number. (low ≤ number) × (number ≤ high)) }
    ensures reads { ReadsWhole low high field.now result }
    ensures not_of_kind { (result ≡ Err FaultKind.NotOfKind) ↔ (is_number field.now ≡ false) }
    ensures faults { IfErr result IsOfField }
{
    if !is_number(field) {
        return Err(FaultKind::NotOfKind);
    }
    let Ok(word) = from_utf8(field) else {
        return Err(FaultKind::NotOfKind);
    };
    match word.parse::<u64>() {
        Ok(number) => within(number, low, high),
        Err(_) => Err(FaultKind::OutOfRange),
    }
}

/// The number that the field spells, within the column's range. Its faults are those of `parse_whole`.
pub(crate) fn read_ranged<const LOW: u32, const HIGH: u32>(
    field: &[u8],
) -> Result<Ranged<LOW, HIGH>, FaultKind>
    ensures value { IfOk result (λ number. decimal number ≡ field.now) }
    ensures range { IfOk result (λ number. (LOW ≤ number) × (number ≤ HIGH)) }
    ensures reads { ReadsWhole LOW HIGH field.now result }
    ensures not_of_kind { (result ≡ Err FaultKind.NotOfKind) ↔ (is_number field.now ≡ false) }
    ensures faults { IfErr result IsOfField }
{
    match read_whole(field, u64::from(LOW), u64::from(HIGH)) {
        Ok(number) => Ok(Ranged::new(number as u32)),
        Err(kind) => Err(kind),
    }
}

/// The rate in ten-thousandths, from 0 to 9,999. Its faults are those of `parse_whole`.
pub(crate) fn read_rate(field: &[u8]) -> Result<Rate, FaultKind>
    ensures value { IfOk result (λ number. decimal number ≡ field.now) }
    ensures range { IfOk result (λ number. (0 ≤ number) × (number ≤ 9999)) }
    ensures reads { (number : ℕ) → decimal number ≡ field.now → number < 10000
        → result ≡ Ok number }
    ensures not_of_kind { (result ≡ Err FaultKind.NotOfKind) ↔ (is_number field.now ≡ false) }
    ensures faults { IfErr result IsOfField }
{
    match read_whole(field, 0, 9_999) {
        Ok(number) => Ok(Rate::new(number as u16)),
        Err(kind) => Err(kind),
    }
}

/// The number of a column that may be empty: `None` if the field is empty, otherwise as `read_ranged`.
pub(crate) fn read_optional<const LOW: u32, const HIGH: u32>(
    field: &[u8],
) -> Result<Option<Ranged<LOW, HIGH>>, FaultKind>
    ensures { result ≡ optional_read (whole_read LOW HIGH) field.now }
{
    if field.is_empty() {
        return Ok(None);
    }
    match read_ranged(field) {
        Ok(number) => Ok(Some(number)),
        Err(kind) => Err(kind),
    }
}

/// The expected number. Returns `WrongCount` if the field spells another number, and `NotOfKind` if it
/// spells none.
pub(crate) fn read_count(field: &[u8], count: u64) -> Result<u64, FaultKind>
    ensures { result ≡ count_read count field.now }
{
    match read_whole(field, count, count) {
        Ok(number) => Ok(number),
        Err(FaultKind::OutOfRange) => Err(FaultKind::WrongCount),
        Err(kind) => Err(kind),
    }
}

/// The amount of money in whole cents, from -10^15 to 10^15. A negative amount begins with `-`. Its
/// faults are those of `parse_whole`.
pub fn parse_cents(field: &str) -> Result<Cents, FaultKind>
    ensures exact { result ≡ money_read field.now }
    ensures value { IfOk result (λ cents. signed_decimal cents ≡ field.now) }
    ensures reads { (cents : ℤ) → signed_decimal cents ≡ field.now → IsMoney cents
        → result ≡ Ok cents }
    ensures not_of_kind { (result ≡ Err FaultKind.NotOfKind) ↔ (is_number field.now ≡ false) }
    ensures faults { IfErr result IsOfField }
{
    read_cents(field.as_bytes())
}

/// As `parse_cents`, from the bytes of a field.
pub(crate) fn read_cents(field: &[u8]) -> Result<Cents, FaultKind>
    ensures exact { result ≡ money_read field.now }
    ensures not_of_kind { (result ≡ Err FaultKind.NotOfKind) ↔ (is_number field.now ≡ false) }
    ensures faults { IfErr result IsOfField }
{
    match from_utf8(field) {
        Ok(word) => cents_of(word),
        Err(_) => Err(FaultKind::NotOfKind),
    }
}

// As `read_cents`, from a field that is text.
fn cents_of(field: &str) -> Result<Cents, FaultKind>
    ensures exact { result ≡ money_read field.now }
    ensures not_of_kind { (result ≡ Err FaultKind.NotOfKind) ↔ (is_number field.now ≡ false) }
    ensures faults { IfErr result IsOfField }
{
    if !is_number(field.as_bytes()) {
        return Err(FaultKind::NotOfKind);
    }
    match field.parse::<i64>() {
        Ok(number) => match Cents::checked_new(number) {
            Some(cents) => Ok(cents),
            None => Err(FaultKind::OutOfRange),
        },
        Err(_) => Err(FaultKind::OutOfRange),
    }
}

// Whether the bytes spell a whole number: `0`, a positive number, or `-` and a positive number.
fn is_number(bytes: &[u8]) -> bool
    ensures { result ≡ is_number bytes.now }
{
    match bytes {
        [] => false,
        [b'-', digits @ ..] => is_positive(digits),
        [b'0', rest @ ..] => rest.is_empty(),
        digits => is_positive(digits),
    }
}

// Whether the bytes are decimal digits and the first is not 0.
fn is_positive(digits: &[u8]) -> bool
    ensures { result ≡ is_positive digits.now }
{
    match digits {
        [] | [b'0', ..] => false,
        digits => are_digits(digits),
    }
}

fn are_digits(bytes: &[u8]) -> bool
    ensures { result ≡ list_all is_ascii_digit bytes.now }
{
    bytes.iter().all(|byte| byte.is_ascii_digit())
}
