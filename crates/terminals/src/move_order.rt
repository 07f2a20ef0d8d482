//! The fields of a move order.
ghost use Rattle.std.specs.Prelude.{◌≡◌, ◌∷◌, None};
ghost use Rattle.std.specs.Fmt.{decimal};
ghost use Rattle.files.specs.Columns.{found};
ghost use Rattle.files.specs.FieldRead.{fields_view, whole_read};
ghost use Rattle.files.specs.Taken.{fields_left, fault_of, Takes};
ghost use Rattle.terminals.specs.FirstFault.{after_move};
ghost use Rattle.terminals.specs.MoveOrders.{order_fields};
ghost use Rattle.terminals.specs.RequestColumns.{fault_in};

use files::{Fields, parse_whole};
use range_moves::MoveOrder;

/// Takes the fields of a move order after its first one, `lo`. Each is a number from 0 to 4,294,967,295. Whether there are such
/// warehouses and such an executor is not checked.
pub fn take_order(lo: &str, fields: &mut Fields) -> MoveOrder
    ensures taken { Takes fields.old fields.new (λ said. lo.now ∷ said ≡ order_fields result) }
    ensures columns { fields_view fields.new ≡ after_move lo.now (fields_view fields.old) }
{
    MoveOrder {
        lo: read_number(lo, fields),
        hi: fields.whole(0, u32::MAX),
        to: fields.whole(0, u32::MAX),
    }
}

// The number in a field that was taken. After a fault, which is recorded, 0.
fn read_number(field: &str, fields: &mut Fields) -> u32
    ensures read { fault_of fields.new ≡ None
        → (fault_of fields.old ≡ None) × (field.now ≡ decimal result) }
    ensures left { fields_left fields.new ≡ fields_left fields.old }
    ensures fault { fields_view fields.new
        ≡ found (fault_in (whole_read 0 4294967295 field.now)) (fields_view fields.old) }
{
    match parse_whole(field, 0, u64::from(u32::MAX)) {
        Ok(number) => number as u32,
        Err(kind) => {
            fields.note(kind);
            0
        }
    }
}
