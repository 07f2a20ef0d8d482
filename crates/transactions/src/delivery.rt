//! A Delivery (clause 2.7): its actions and what they find, its phases, and its law. The first phase delivers the district's
//! oldest new order; the second credits the customer who ordered it, and is left out if the district has no new order (clause
//! 2.7.4.2).
ghost use Rattle.transactions.specs.DeliveryLaws.{DeliveriesAreCarriedOut, RolledBackDeliveriesAreCarriedOut, SkippedDeliveriesAreCarriedOut};

mod customers;
mod orders;
mod phases;
mod work;

pub use customers::credit_customer;
pub use orders::deliver_order;
pub use phases::Progress;
pub use work::{Found, Work};

/// An order that was delivered.
#[derive(Clone, Copy, Debug, PartialEq, Eq)]
pub struct OrderDelivered {
    /// O_ID: 1 to 9,999,999.
    pub o_id: u32,
    /// O_C_ID: the customer of its district who ordered it.
    pub c_id: u32,
    /// The sum of its lines' amounts, in cents.
    pub amount: u32,
}

/// What a Delivery finds of the customer whose order is delivered.
#[derive(Clone, Copy, Debug, PartialEq, Eq)]
pub enum CustomerCredited {
    /// The customer has no row, or C_BALANCE or C_DELIVERY_CNT would leave its range.
    OutOfRange,
    /// The customer is credited.
    Credited,
}

/// Law: if both actions did their work, the Delivery is carried out as the machine does it: the reply is the machine's, and the
/// claims leave what the machine leaves.
pub fn deliveries_are_carried_out()
    ensures { DeliveriesAreCarriedOut }
{}

/// Law: if the district has no new order, the Delivery is carried out without the second phase.
pub fn skipped_deliveries_are_carried_out()
    ensures { SkippedDeliveriesAreCarriedOut }
{}

/// Law: if the customer can't be credited, the machine rolls the Delivery back, with the same fault.
pub fn rolled_back_deliveries_are_carried_out()
    ensures { RolledBackDeliveriesAreCarriedOut }
{}
