ghost use Rattle.std.specs.Prelude.{◌≡◌};
ghost use Rattle.number_draws.specs.Words.{beyond};
ghost use Rattle.workload.specs.Customers.{customer_id, choice_of};

use number_draws::NumberDraws;
use requests::{Choice, LastName};
use schema::{Scale, last_name};

// The constants C of clause 2.1.6 for C_ID and for C_LAST. The one for C_LAST has to differ from that of the
// population, which is 0, by 65 to 119, but not by 96 or 112 (clause 2.1.6.1).
const ID_CONSTANT: u32 = 500;

const NAME_CONSTANT: u32 = 100;

/// Returns the C_ID of a customer, a non-uniform random number.
pub(crate) fn customer_number(draws: &mut NumberDraws, scale: Scale) -> u32
    ensures value { result ≡ customer_id scale draws.old }
    ensures generator { draws.new ≡ beyond 2 draws.old }
{
    draws.nu_rand(1_023, ID_CONSTANT, 1, scale.customers)
}

/// Draws how a request chooses its customer: by C_LAST if a number from 1 to 100 is at most 60, else by C_ID.
#[tactic(auto, using(number_draws::proofs::Generators::beyond_twice), unfolding(crate::specs::Customers::choice_of))]
pub(crate) fn choice(draws: &mut NumberDraws, scale: Scale) -> Choice
    ensures value { result ≡ choice_of scale draws.old }
    ensures generator { draws.new ≡ beyond 3 draws.old }
{
    if draws.random(1, 100) > 60 {
        return Choice::Number(customer_number(draws, scale));
    }
    let names = scale.customers.min(1_000);
    let number = draws.nu_rand(255, NAME_CONSTANT, 0, names - 1);
    match LastName::checked_new(last_name(number)) {
        Some(name) => Choice::LastName(name),
        None => unreachable!(),
    }
}
