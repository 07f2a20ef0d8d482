ghost use Rattle.std.specs.Prelude.{◌≡◌, ◌≢◌, ◌↔◌, ◌≤◌, ℕ, List, [], ◌∷◌, length, drop, IsTrue, None, MatchOption, IfNone, IfSome, IfOk, IfErr, pos};
ghost use Rattle.std.specs.Fmt.{decimal, signed_decimal};
ghost use Rattle.files.specs.Span.{parts};
ghost use Rattle.files.specs.Word.{credit_text, text_read};

use crate::FaultKind;
use crate::moment::{read_moment, read_optional_moment};
use crate::numbers::{read_cents, read_count, read_optional, read_ranged, read_rate, read_whole};
use crate::span::{Span, part};
use crate::words::{read_credit, read_text};
use amounts::{Cents, Rate};
use rows::{Credit, Moment, Ranged, Text};
use std::str::from_utf8;

/// The fields of one record, taken from left to right. A faulty field yields a stand-in value of its
/// column, and the least fault so far is kept. So all fields of a record are taken first, and its fault
/// is checked afterwards.
#[derive(Drop)]
pub struct Fields<'r> {
    bytes: &'r [u8],
    // The span of each field in the bytes.
    spans: &'r [Span],
    // The index of the next field.
    place: usize,
    fault: Option<FaultKind>,
}

impl<'r> Fields<'r> {
    ghost use Rattle.files.specs.FieldRead.{field_read, fields_view, whole_read, ReadsField};
    ghost use Rattle.files.specs.KindsRead.{count_read, credit_read, moment_read, money_read, optional_read, word_read};
    ghost use Rattle.files.specs.Taken.{fields_left, fault_of, Notes, TakesMoment, TakesWell};

    /// All fields of the record. None is taken yet, and there is no fault.
    pub(crate) fn new(bytes: &'r [u8], spans: &'r [Span]) -> Self
        ensures left { fields_left result ≡ parts bytes.now spans.now }
        ensures fault { fault_of result ≡ None }
    {
        Fields {
            bytes,
            spans,
            place: 0,
            fault: None,
        }
    }

    /// The number of fields of the record.
    pub fn count(&self) -> usize {
        self.spans.len()
    }

    /// The number of fields that are left.
    pub fn left(&self) -> usize
        ensures { result ≡ length (fields_left self.now) }
    {
        self.spans.len().saturating_sub(self.place)
    }

    /// Whether there is a next field and it is empty.
    pub fn next_is_empty(&self) -> bool
        ensures { IsTrue result ↔ ((rest : List (List ℕ)) × (fields_left self.now ≡ [] ∷ rest)) }
    {
        match self.peek() {
            Some(bytes) => bytes.is_empty(),
            None => false,
        }
    }

    /// The least fault so far.
    pub fn fault(&self) -> Option<FaultKind>
        ensures { result ≡ fault_of self.now }
    {
        self.fault
    }

    /// Notes the fault, unless a lesser one is noted already.
    pub fn note(&mut self, kind: FaultKind)
        ensures fault { Notes self.old self.new kind }
        ensures left { fields_left self.new ≡ fields_left self.old }
    {
        self.fault = match self.fault {
            Some(fault) => Some(fault.least(kind)),
            None => Some(kind),
        };
    }

    /// The least fault of the record. All its fields should be taken before; if some are left,
    /// `WrongShape` is noted.
    pub fn finish(&mut self) -> Option<FaultKind>
        ensures well { result ≡ None → (fields_left self.old ≡ []) × (fault_of self.old ≡ None) }
        ensures fault { result ≡ fault_of self.new }
        ensures none_left { fields_left self.old ≡ [] → fault_of self.new ≡ fault_of self.old }
        ensures some_left { fields_left self.old ≢ []
            → Notes self.old self.new FaultKind.WrongShape }
    {
        if self.place < self.spans.len() {
            self.note(FaultKind::WrongShape);
        }
        self.fault
    }

    // The next field, without taking it, or `None` if there is none.
    fn peek(&self) -> Option<&'r [u8]>
        ensures some { IfSome result (λ bytes.
            fields_left self.now ≡ bytes.now ∷ drop 1 (fields_left self.now)) }
        ensures none { IfNone result (fields_left self.now ≡ []) }
    {
        match self.spans.get(self.place) {
            Some(&span) => Some(part(self.bytes, span)),
            None => None,
        }
    }

    /// Takes the next field and returns its bytes. If there is no field, returns no bytes and notes
    /// `WrongShape`.
    pub fn bytes(&mut self) -> &'r [u8]
        ensures left { fields_left self.new ≡ drop 1 (fields_left self.old) }
        ensures none { fields_left self.old ≡ []
            → (result.now ≡ []) × Notes self.old self.new FaultKind.WrongShape }
        ensures some { (field : List ℕ) (rest : List (List ℕ)) → fields_left self.old ≡ field ∷ rest
            → (result.now ≡ field) × (fault_of self.new ≡ fault_of self.old) }
        ensures taken { TakesWell self.old self.new result.now }
    {
        match self.peek() {
            Some(bytes) => {
                self.place += 1;
                bytes
            }
            None => {
                self.note(FaultKind::WrongShape);
                &[]
            }
        }
    }

    /// Takes the next field as text. Returns `""` if there is no field, which is noted as `WrongShape`,
    /// or if its bytes are not UTF-8, which is noted as `NotOfKind`.
    pub fn word(&mut self) -> &'r str
        ensures field { ReadsField word_read [] result.now self.old self.new }
        ensures taken { TakesWell self.old self.new result.now }
    {
        let bytes = self.bytes();
        match from_utf8(bytes) {
            Ok(word) => word,
            Err(_) => {
                self.note(FaultKind::NotOfKind);
                ""
            }
        }
    }

    /// Takes the next field as a number from `low` to `high`. Returns `low` after a fault.
    #[inline(always)]
    pub fn whole(&mut self, low: u32, high: u32) -> u32
        ensures range { low ≤ high → (low ≤ result) × (result ≤ high) }
        ensures field { ReadsField (whole_read low high) low result self.old self.new }
        ensures taken { TakesWell self.old self.new (decimal result) }
    {
        match read_whole(self.bytes(), u64::from(low), u64::from(high)) {
            Ok(number) => number as u32,
            Err(kind) => {
                self.note(kind);
                low
            }
        }
    }

    /// Takes the next field as a number in its column's range. Returns `LOW` after a fault.
    pub fn ranged<const LOW: u32, const HIGH: u32>(&mut self) -> Ranged<LOW, HIGH>
        requires { LOW ≤ HIGH }
        ensures field { ReadsField (whole_read LOW HIGH) LOW result self.old self.new }
        ensures taken { TakesWell self.old self.new (decimal result) }
    {
        let number = read_ranged(self.bytes());
        self.or_note(number, Ranged::new(LOW))
    }

    /// As `ranged`, but returns `None` if the field is empty or after a fault.
    pub fn optional_ranged<const LOW: u32, const HIGH: u32>(&mut self) -> Option<Ranged<LOW, HIGH>>
        ensures field { ReadsField (optional_read (whole_read LOW HIGH)) None result
            self.old self.new }
        ensures taken { MatchOption result (TakesWell self.old self.new [])
            (λ number. TakesWell self.old self.new (decimal number)) }
    {
        let number = read_optional(self.bytes());
        self.or_note(number, None)
    }

    /// Takes the next field as a text. Returns the empty text after a fault.
    #[inline(always)]
    pub fn text<const WIDTH: usize>(&mut self) -> Text<WIDTH>
        ensures field { ReadsField (text_read WIDTH) [] result self.old self.new }
        ensures taken { TakesWell self.old self.new result }
    {
        let text = read_text(self.bytes());
        self.or_note(text, Text::new())
    }

    /// Takes the next field as money. Returns 0 after a fault.
    pub fn cents(&mut self) -> Cents
        ensures field { ReadsField money_read (pos 0) result self.old self.new }
        ensures taken { TakesWell self.old self.new (signed_decimal result) }
    {
        let cents = read_cents(self.bytes());
        self.or_note(cents, Cents::ZERO)
    }

    /// Takes the next field as a rate. Returns 0 after a fault.
    pub fn rate(&mut self) -> Rate
        ensures field { ReadsField (whole_read 0 9999) 0 result self.old self.new }
        ensures taken { TakesWell self.old self.new (decimal result) }
    {
        let rate = read_rate(self.bytes());
        self.or_note(rate, Rate::new(0))
    }

    /// Takes the next field as C_CREDIT. Returns `Good` after a fault.
    pub fn credit(&mut self) -> Credit
        ensures field { ReadsField credit_read Credit.Good result self.old self.new }
        ensures taken { TakesWell self.old self.new (credit_text result) }
    {
        let credit = read_credit(self.bytes());
        self.or_note(credit, Credit::Good)
    }

    /// Takes the next field as a moment. Returns the first moment, 1970-01-01T00:00:00, after a fault.
    pub fn moment(&mut self) -> Moment
        ensures field { ReadsField moment_read 0 result self.old self.new }
        ensures taken { TakesMoment self.old self.new result }
    {
        let moment = read_moment(self.bytes());
        self.or_note(moment, Moment::new(0))
    }

    /// As `moment`, but returns `None` if the field is empty or after a fault.
    pub fn optional_moment(&mut self) -> Option<Moment>
        ensures field { ReadsField (optional_read moment_read) None result self.old self.new }
        ensures null { IfNone result (TakesWell self.old self.new []) }
        ensures moment { IfSome result (λ seconds. TakesMoment self.old self.new seconds) }
    {
        let moment = read_optional_moment(self.bytes());
        self.or_note(moment, None)
    }

    /// Takes the next field as a number. Notes `WrongCount` if it is a number other than `count`.
    pub fn expect_count(&mut self, count: u64)
        ensures field { fields_view self.new
            ≡ (field_read (count_read count) count (fields_view self.old)).1 }
        ensures taken { TakesWell self.old self.new (decimal count) }
    {
        let counted = read_count(self.bytes(), count);
        let _ = self.or_note(counted, count);
    }

    // The parsed value. If parsing failed, notes the fault and returns `other`.
    fn or_note<T: Drop>(&mut self, parsed: Result<T, FaultKind>, other: T) -> T
        ensures left { fields_left self.new ≡ fields_left self.old }
        ensures ok { IfOk parsed (λ value.
            (result ≡ value) × (fault_of self.new ≡ fault_of self.old)) }
        ensures err { IfErr parsed (λ kind. Notes self.old self.new kind) }
        ensures stands_in { IfErr parsed (λ kind. result ≡ other) }
    {
        match parsed {
            Ok(value) => value,
            Err(kind) => {
                self.note(kind);
                other
            }
        }
    }
}
