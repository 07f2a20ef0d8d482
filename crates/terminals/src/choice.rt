ghost use Rattle.std.specs.Prelude.{◌≡◌, ◌++◌, ◌∷◌, [], drop, false, OnOk, IfOk};
ghost use Rattle.files.specs.Taken.{fields_left, TakesWell};
ghost use Rattle.files.specs.Word.{text_read};
ghost use Rattle.files.specs.Columns.{TakesColumn};
ghost use Rattle.requests.specs.LastName.{begins_with_hash};
ghost use Rattle.terminals.specs.ChoiceText.{choice_text};
ghost use Rattle.terminals.specs.RequestColumns.{choice, choice_fault, fault_in};

use arrayvec::ArrayString;
use files::{FaultKind, Fields, NewRecord, parse_text, parse_whole};
use itoa::Buffer;
use requests::{Choice, LastName};
use schema::NoMemory;

/// Takes the field that identifies the customer: `#` and a C_ID, 0 to 4,294,967,295, or a C_LAST of at most 16 bytes. The fault
/// is `NotOfKind` if no number follows `#` or the name has a byte outside 32 to 126, and `OutOfRange` if the number is greater
/// or the name longer.
pub fn take(fields: &mut Fields) -> Choice
    ensures left { fields_left fields.new ≡ drop 1 (fields_left fields.old) }
    ensures taken { TakesWell fields.old fields.new (choice_text result) }
    ensures column { TakesColumn choice fields.old fields.new }
{
    match parse(fields.word()) {
        Ok(choice) => choice,
        Err(kind) => {
            fields.note(kind);
            Choice::Number(0)
        }
    }
}

/// Adds the field that identifies the customer.
pub fn put(row: &mut NewRecord, choice: &Choice) -> Result<(), NoMemory>
    ensures { OnOk result (row.new ≡ row.old ++ (choice_text choice.now ∷ [])) }
{
    match choice {
        Choice::Number(number) => {
            let mut buffer = Buffer::new();
            let mut words = ArrayString::<11>::new();
            words.push_str("#");
            words.push_str(buffer.format(*number));
            row.push(words.as_str())
        }
        Choice::LastName(name) => row.push(name.as_str()),
    }
}

fn parse(field: &str) -> Result<Choice, FaultKind>
    ensures value { IfOk result (λ choice. choice_text choice ≡ field.now) }
    ensures fault { fault_in result ≡ choice_fault field.now }
{
    let Some(digits) = field.strip_prefix("#") else {
        return parse_name(field);
    };
    match parse_whole(digits, 0, u64::from(u32::MAX)) {
        Ok(number) => Ok(Choice::Number(number as u32)),
        Err(kind) => Err(kind),
    }
}

fn parse_name(field: &str) -> Result<Choice, FaultKind>
    ensures value { IfOk result (λ choice. choice_text choice ≡ field.now) }
    ensures fault { begins_with_hash field.now ≡ false
        → fault_in result ≡ fault_in (text_read 16 field.now) }
{
    match LastName::checked_new(parse_text(field)?) {
        Some(name) => Ok(Choice::LastName(name)),
        None => Err(FaultKind::NotOfKind),
    }
}
