ghost use Rattle.std.specs.Prelude.{◌≡◌, ◌++◌, take};
ghost use Rattle.std.specs.Fmt.{decimal};
ghost use Rattle.rows.specs.PaymentNote.{payment_note};

use crate::{CustomerKey, DistrictKey, Text};
use itoa::Buffer;

/// C_DATA of a customer with bad credit after a payment of `amount` cents at `district`: a note of the
/// payment is inserted at the left, and the result is cut to 500 bytes at the right (clause 2.5.2.2).
pub fn prepend_data(
    old_data: &Text<500>,
    customer: CustomerKey,
    district: DistrictKey,
    amount: u32,
) -> Text<500>
    ensures { result ≡ take 500 (payment_note customer district amount ++ old_data.now) }
{
    let mut data = Text::new();
    push_number(&mut data, customer.c_id);
    data.push_fitting(" ");
    push_number(&mut data, customer.d_id);
    data.push_fitting(" ");
    push_number(&mut data, customer.w_id);
    data.push_fitting(" ");
    push_number(&mut data, district.d_id);
    data.push_fitting(" ");
    push_number(&mut data, district.w_id);
    data.push_fitting(" ");
    push_number(&mut data, amount);
    data.push_fitting("|");
    data.push_fitting(old_data.as_str());
    data
}

fn push_number(text: &mut Text<500>, number: u32)
    ensures { text.new ≡ take 500 (text.old ++ decimal number) }
{
    let mut buffer = Buffer::new();
    text.push_fitting(buffer.format(number));
}
