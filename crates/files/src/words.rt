ghost use Rattle.std.specs.Prelude.{◌≡◌, ◌↔◌, codes, IfErr};
ghost use Rattle.files.specs.Failure.{IsOfField};
ghost use Rattle.files.specs.Word.{credit_text, text_read};
ghost use Rattle.files.specs.KindsRead.{credit_read};

use crate::FaultKind;
use rows::{Credit, Text, TextFault, is_printable};
use std::str::from_utf8;

/// The field as a text of at most `WIDTH` bytes. Returns `NotOfKind` if a byte is not printable ASCII
/// (32 to 126), otherwise `OutOfRange` if the field is too long.
pub fn parse_text<const WIDTH: usize>(field: &str) -> Result<Text<WIDTH>, FaultKind>
    ensures { result ≡ text_read WIDTH field.now }
{
    read_text(field.as_bytes())
}

/// As `parse_text`, from the bytes of a field.
pub(crate) fn read_text<const WIDTH: usize>(field: &[u8]) -> Result<Text<WIDTH>, FaultKind>
    ensures { result ≡ text_read WIDTH field.now }
{
    match Text::from_bytes(field) {
        Ok(text) => Ok(text),
        Err(TextFault::Byte) => Err(FaultKind::NotOfKind),
        Err(TextFault::Width) => Err(FaultKind::OutOfRange),
    }
}

/// `Good` for `GC` and `Bad` for `BC`. Of other fields, returns `NotOfKind` if a byte is not printable
/// ASCII, otherwise `OutOfRange`.
pub fn parse_credit(field: &str) -> Result<Credit, FaultKind>
    ensures exact { result ≡ credit_read field.now }
    ensures good { (result ≡ Ok Credit.Good) ↔ (field.now ≡ codes "GC") }
    ensures bad { (result ≡ Ok Credit.Bad) ↔ (field.now ≡ codes "BC") }
    ensures faults { IfErr result IsOfField }
{
    match field {
        "GC" => Ok(Credit::Good),
        "BC" => Ok(Credit::Bad),
        _ => {
            if is_printable(field.as_bytes()) {
                Err(FaultKind::OutOfRange)
            } else {
                Err(FaultKind::NotOfKind)
            }
        }
    }
}

/// As `parse_credit`, from the bytes of a field.
pub(crate) fn read_credit(field: &[u8]) -> Result<Credit, FaultKind>
    ensures { result ≡ credit_read field.now }
{
    match from_utf8(field) {
        Ok(word) => parse_credit(word),
        Err(_) => Err(FaultKind::NotOfKind),
    }
}

/// The spelling of a credit: `GC` if it is good, `BC` if it is bad.
pub fn credit_word(credit: Credit) -> &'static str
    ensures { result.now ≡ credit_text credit }
{
    match credit {
        Credit::Good => "GC",
        Credit::Bad => "BC",
    }
}
