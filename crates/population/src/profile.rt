ghost use Rattle.std.specs.Prelude.{◌≡◌, nat_lt};
ghost use Rattle.population.specs.Profile.{delivered_orders};

use schema::Scale;

/// Returns whether the order of this number is new, that is, not delivered: the last 3 in 10 of each district's orders
/// are.
pub(crate) fn is_new(scale: Scale, order: u32) -> bool
    ensures { result ≡ nat_lt (delivered_orders scale) order }
{
    let customers = scale.customers;
    customers - customers * 3 / 10 < order
}
