ghost use Rattle.std.specs.Prelude.{◌≡◌, None, MatchOption};
ghost use Rattle.std.specs.Option.{option_map};
ghost use Rattle.schema.specs.Scale.{customer_key};
ghost use Rattle.indexes.specs.NameOrder.{FitsNamesBy};
ghost use Rattle.machine.specs.Chosen as spec;

use indexes::NameIndex;
use partitions::Rows;
use requests::Choice;
use schema::{Customer, CustomerKey, DistrictKey};

/// Returns the chosen customer of a district and the row; `None` exactly if these tables have no such customer. A
/// customer number is looked up in constant time, a last name by two binary searches. Never allocates.
pub fn chosen<'a, T: Rows>(
    tables: &'a T,
    names: &NameIndex,
    home: DistrictKey,
    choice: &Choice,
) -> Option<(CustomerKey, &'a Customer)>
    requires { FitsNamesBy (T.slot tables.now) names.now (T.tables tables.now) }
    ensures { option_map (λ c. (c.0, c.1.now)) result
        ≡ spec.chosen (T.tables tables.now).customers home choice.now }
{
    let number = chosen_number(tables, names, home, choice)?;
    let key = CustomerKey {
        w_id: home.w_id,
        d_id: home.d_id,
        c_id: number,
    };
    Some((key, tables.customer(key)?))
}

// Returns the C_ID of the chosen customer. If nobody is chosen, returns `None` or a number at which there is no row.
fn chosen_number<T: Rows>(
    tables: &T,
    names: &NameIndex,
    home: DistrictKey,
    choice: &Choice,
) -> Option<u32>
    requires { FitsNamesBy (T.slot tables.now) names.now (T.tables tables.now) }
    ensures { MatchOption result
        (spec.chosen (T.tables tables.now).customers home choice.now ≡ None)
        (λ number. spec.keyed_at (T.tables tables.now).customers (customer_key home number)
        ≡ spec.chosen (T.tables tables.now).customers home choice.now) }
{
    match choice {
        Choice::Number(number) => Some(*number),
        Choice::LastName(last) => names.middle_of(tables, home, last.as_str()),
    }
}
