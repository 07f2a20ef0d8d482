//! A New-Order (clause 2.4): its actions and what they find, its phases, and its law. In the first phase its district gives it a
//! number and its customer is shown; in the second each group of stock that supplies its lines sells them, all at the same time;
//! in the third it is added (clause 2.4.2.2).
ghost use Rattle.transactions.specs.NewOrderLaws.{NewOrdersAreCarriedOut, NewOrdersOfNobodyAreCarriedOut, PlacedOrdersAreKnown, RolledBackNewOrdersAreCarriedOut};

mod deciding;
mod home_rows;
mod phases;
mod stock;
mod work;

use crate::listed::Listed;
use amounts::Rate;
pub use home_rows::{add_order, show_orderer, take_number};
pub use phases::Progress;
use requests::{Group, NewOrder, NewOrderLine, NewOrderReply};
use schema::{Credit, Order, OrderKey, OrderLine, Text};
pub use stock::take_stock;
pub use work::{Found, Work};

/// What a New-Order finds of its home warehouse and district.
#[derive(Clone, Debug, PartialEq, Eq, Drop)]
pub enum HomeFound {
    /// There is no row of one of the two.
    Missing,
    /// Both rows are there. If the district has a next number, it has it now.
    Shown(HomeShown),
}

/// What New-Order shows of its home warehouse and district (clause 2.4.3.3).
#[derive(Clone, Copy, Debug, PartialEq, Eq)]
pub struct HomeShown {
    pub warehouse_tax: Rate,
    pub district_tax: Rate,
    /// The number of the order: 1 to 10,000,000.
    pub o_id: u32,
    /// Whether D_NEXT_O_ID can grow. If not, no order can have the number.
    pub has_next: bool,
}

/// What a New-Order finds of its customer.
#[derive(Clone, Debug, PartialEq, Eq, Drop)]
pub enum OrdererFound {
    /// The district has no such customer.
    Missing,
    Shown(Orderer),
}

/// What New-Order shows of its customer (clause 2.4.3.3).
#[derive(Clone, Debug, PartialEq, Eq, Drop)]
pub struct Orderer {
    pub last: Text<16>,
    pub credit: Credit,
    pub discount: Rate,
}

/// What a New-Order finds of the lines that one group of stock supplies.
#[derive(Drop)]
pub enum StockTaken {
    /// There is no item of one of them; nothing is done.
    NoItem,
    /// A counter of a row of STOCK would leave its range; nothing is done.
    OutOfRange,
    /// They are taken from the stock.
    Taken(Listed<LineSold>),
}

/// A line of an order that was taken from the stock.
#[derive(Drop)]
pub struct LineSold {
    /// OL_NUMBER: 1 to `LAST_LINE`.
    pub number: usize,
    /// The row of ORDER-LINE that is to be added.
    pub row: OrderLine,
    /// What the reply shows of it.
    pub shown: NewOrderLine,
}

/// An order that has its number and whose customer was shown.
#[derive(Drop)]
pub struct OrderBegun {
    pub order: NewOrder,
    pub home: HomeShown,
    pub orderer: Orderer,
    /// The groups that supply its lines, each once, in the order of their first lines: the first group, and the others.
    pub first: Group,
    pub others: Listed<Group>,
}

/// The rows of an order that is to be added.
#[derive(Clone, Debug, Drop)]
pub struct OrderRows {
    pub key: OrderKey,
    pub row: Order,
    /// By OL_NUMBER.
    pub lines: Listed<OrderLine>,
}

/// An order that has its number and whose lines were sold.
#[derive(Drop)]
pub struct OrderPlaced {
    /// The rows that are to be added.
    pub rows: OrderRows,
    /// Its reply.
    pub reply: NewOrderReply,
}

/// Law: if each action did its work, the New-Order is carried out as the machine does it: the reply is the machine's, and the
/// claims leave what the machine leaves.
pub fn new_orders_are_carried_out()
    ensures { NewOrdersAreCarriedOut }
{}

/// Law: if there is no row of its home warehouse, its district or its customer, the machine rolls the New-Order back, with that
/// fault.
pub fn new_orders_of_nobody_are_carried_out()
    ensures { NewOrdersOfNobodyAreCarriedOut }
{}

/// Law: if what was found of the stock requires it, the machine rolls the New-Order back, with the same fault.
pub fn rolled_back_new_orders_are_carried_out()
    ensures { RolledBackNewOrdersAreCarriedOut }
{}

/// Law: the tables can have the order that is added: its number, its customer and its lines are of the scale.
pub fn placed_orders_are_known()
    ensures { PlacedOrdersAreKnown }
{}
