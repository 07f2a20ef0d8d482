ghost use Rattle.std.specs.Prelude.{◌≡◌};
ghost use Rattle.groups.specs.Groups as spec;

use requests::Group;
use rows::STOCK_GROUPS;
use schema::StockKey;

/// The group of a stock row.
pub fn group_of_stock(key: StockKey) -> Group
    ensures { result ≡ spec.group_of_stock key }
{
    Group::Stock {
        w_id: key.w_id,
        residue: key.i_id % STOCK_GROUPS,
    }
}
