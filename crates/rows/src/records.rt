use crate::{
    CarrierId, Counter, CustomerKey, ImageId, LineAmount, LineCount, LineQuantity, Moment,
    NextOrderId, Price, StockQuantity, Text,
};
use amounts::{Cents, Rate};

/// The five address columns of a warehouse, a district or a customer (clause 1.3.1).
#[derive(Clone, Debug, PartialEq, Eq, Drop)]
pub struct Address {
    pub street_1: Text<20>,
    pub street_2: Text<20>,
    pub city: Text<20>,
    pub state: Text<2>,
    pub zip: Text<9>,
}

/// A row of ITEM (clause 1.3.1), without its key I_ID.
#[derive(Clone, Debug, PartialEq, Eq, Drop)]
pub struct Item {
    pub im_id: ImageId,
    pub name: Text<24>,
    pub price: Price,
    pub data: Text<50>,
}

/// A row of WAREHOUSE (clause 1.3.1), without its key W_ID.
#[derive(Clone, Debug, PartialEq, Eq, Drop)]
pub struct Warehouse {
    pub name: Text<10>,
    pub address: Address,
    pub tax: Rate,
    pub ytd: Cents,
}

/// A row of DISTRICT (clause 1.3.1), without its key (D_W_ID, D_ID).
#[derive(Clone, Debug, PartialEq, Eq, Drop)]
pub struct District {
    pub name: Text<10>,
    pub address: Address,
    pub tax: Rate,
    pub ytd: Cents,
    pub next_o_id: NextOrderId,
}

/// A row of STOCK (clause 1.3.1), without its key (S_W_ID, S_I_ID).
#[derive(Clone, Debug, PartialEq, Eq, Drop)]
pub struct Stock {
    pub quantity: StockQuantity,
    /// S_DIST_01 to S_DIST_10; the text of district d is at index d - 1.
    pub dist: [Text<24>; 10],
    pub ytd: Counter,
    pub order_cnt: Counter,
    pub remote_cnt: Counter,
    pub data: Text<50>,
}

/// C_CREDIT: whether a customer's credit is good (`GC`) or bad (`BC`).
#[derive(Clone, Copy, Debug, PartialEq, Eq)]
pub enum Credit {
    Good,
    Bad,
}

/// A row of CUSTOMER (clause 1.3.1), without its key (C_W_ID, C_D_ID, C_ID).
#[derive(Clone, Debug, PartialEq, Eq, Drop)]
pub struct Customer {
    pub first: Text<16>,
    pub middle: Text<2>,
    pub last: Text<16>,
    pub address: Address,
    pub phone: Text<16>,
    pub since: Moment,
    pub credit: Credit,
    pub credit_lim: Cents,
    pub discount: Rate,
    pub balance: Cents,
    pub ytd_payment: Cents,
    pub payment_cnt: Counter,
    pub delivery_cnt: Counter,
    pub data: Text<500>,
}

/// A row of HISTORY (clause 1.3.1), without the district (H_W_ID, H_D_ID), which is the key of the list
/// that contains the row.
#[derive(Clone, Debug, PartialEq, Eq, Drop)]
pub struct History {
    /// H_C_W_ID, H_C_D_ID and H_C_ID: the customer who paid.
    pub customer: CustomerKey,
    pub date: Moment,
    pub amount: Cents,
    pub data: Text<24>,
}

/// A row of ORDER (clause 1.3.1), without its key (O_W_ID, O_D_ID, O_ID).
#[derive(Clone, Debug, PartialEq, Eq, Drop)]
pub struct Order {
    pub c_id: u32,
    pub entry_d: Moment,
    /// `None` until the order is delivered.
    pub carrier_id: Option<CarrierId>,
    pub ol_cnt: LineCount,
    pub all_local: bool,
}

/// A row of NEW-ORDER (clause 1.3.1): it consists of its key (NO_W_ID, NO_D_ID, NO_O_ID) only.
#[derive(Clone, Copy, Debug, PartialEq, Eq)]
pub struct NewOrder;

/// A row of ORDER-LINE (clause 1.3.1), without its key (OL_W_ID, OL_D_ID, OL_O_ID, OL_NUMBER).
#[derive(Clone, Debug, PartialEq, Eq, Drop)]
pub struct OrderLine {
    pub i_id: u32,
    pub supply_w_id: u32,
    /// `None` until the order is delivered.
    pub delivery_d: Option<Moment>,
    pub quantity: LineQuantity,
    pub amount: LineAmount,
    pub dist_info: Text<24>,
}
