//! The ranges of the columns, which the types of rows guarantee. The functions read each column and
//! change nothing; their contracts state the ranges.
ghost use Rattle.std.specs.Prelude.{List, IfSome};
ghost use Rattle.std.specs.Iterator.{IsFinite};
ghost use Rattle.std.specs.List.{AllByRecursion};
ghost use Rattle.std.specs.Map.{values_of};
ghost use Rattle.rows.specs.Text.{IsText};
ghost use Rattle.files.specs.MomentText.{IsMoment};
ghost use Rattle.dataset.specs.Entries.{GivesEntries};
ghost use Rattle.dataset.specs.Ranges.{AddressInRange, CustomerInRange, DistrictInRange, HistoryInRange, InRange, IsFrom, ItemInRange, LineInRange, OrderInRange, StockInRange, WarehouseInRange};

use rows::{
    Address, CarrierId, Customer, District, History, Item, Moment, Order, OrderLine, Stock, Text,
    Warehouse,
};
use schema::{HistoryList, Tables};

/// A row, or a list of rows, whose columns have ranges.
trait Columns {
    ghost in_range: { Self → Type 0 };

    /// Reads each column.
    fn read(&self)
        ensures { in_range self.now };
}

/// The columns of all rows are in their ranges. Changes nothing.
pub fn columns_are_in_range(tables: &Tables)
    ensures { InRange tables.now }
{
    let rows = tables.rows();
    read_each(&rows.items);
    read_each(&rows.warehouses);
    read_each(&rows.districts);
    read_each(&rows.stocks);
    read_each(&rows.customers);
    read_each(&rows.histories);
    read_values(tables.orders());
    read_values(tables.lines());
}

fn read_each<T: Columns>(rows: &[T])
    ensures { AllByRecursion T.in_range rows.now }
{
    for row in rows {
        row.read();
    }
}

fn read_values<'a, K: Drop, T: Columns + 'a, I: Iterator<Item = (K, &'a T)> + Drop>(rows: I)
    requires can { I.can_next rows }
    requires ends { IsFinite (I.remaining rows) }
    ensures { (left : I → List (K × T)) → GivesEntries I.next_gives left
        → AllByRecursion T.in_range (values_of (left rows)) }
{
    for (_, row) in rows {
        row.read();
    }
}

fn read_address(address: &Address)
    ensures { AddressInRange address.now }
{
    let _ = address.street_1.as_str();
    let _ = address.street_2.as_str();
    let _ = address.city.as_str();
    let _ = address.state.as_str();
    let _ = address.zip.as_str();
}

fn read_texts(texts: &[Text<24>])
    ensures { AllByRecursion (IsText 24) texts.now }
{
    for text in texts {
        let _ = text.as_str();
    }
}

fn read_carrier(carrier: Option<CarrierId>)
    ensures { IfSome carrier (IsFrom 1 10) }
{
    if let Some(carrier) = carrier {
        let _ = carrier.get();
    }
}

fn read_delivery(delivery: Option<Moment>)
    ensures { IfSome delivery IsMoment }
{
    if let Some(moment) = delivery {
        let _ = moment.seconds();
    }
}

impl Columns for Item {
    ghost in_range = { ItemInRange };

    fn read(&self) {
        let _ = self.im_id.get();
        let _ = self.name.as_str();
        let _ = self.price.get();
        let _ = self.data.as_str();
    }
}

impl Columns for Warehouse {
    ghost in_range = { WarehouseInRange };

    fn read(&self) {
        let _ = self.name.as_str();
        read_address(&self.address);
        let _ = self.tax.get();
        let _ = self.ytd.get();
    }
}

impl Columns for District {
    ghost in_range = { DistrictInRange };

    fn read(&self) {
        let _ = self.name.as_str();
        read_address(&self.address);
        let _ = self.tax.get();
        let _ = self.ytd.get();
        let _ = self.next_o_id.get();
    }
}

impl Columns for Stock {
    ghost in_range = { StockInRange };

    fn read(&self) {
        let _ = self.quantity.get();
        read_texts(&self.dist);
        let _ = self.ytd.get();
        let _ = self.order_cnt.get();
        let _ = self.remote_cnt.get();
        let _ = self.data.as_str();
    }
}

impl Columns for Customer {
    ghost in_range = { CustomerInRange };

    fn read(&self) {
        let _ = self.first.as_str();
        let _ = self.middle.as_str();
        let _ = self.last.as_str();
        read_address(&self.address);
        let _ = self.phone.as_str();
        let _ = self.since.seconds();
        let _ = self.credit_lim.get();
        let _ = self.discount.get();
        let _ = self.balance.get();
        let _ = self.ytd_payment.get();
        let _ = self.payment_cnt.get();
        let _ = self.delivery_cnt.get();
        let _ = self.data.as_str();
    }
}

impl Columns for History {
    ghost in_range = { HistoryInRange };

    fn read(&self) {
        let _ = self.date.seconds();
        let _ = self.amount.get();
        let _ = self.data.as_str();
    }
}

impl Columns for HistoryList {
    ghost in_range = { AllByRecursion HistoryInRange };

    fn read(&self) {
        read_each(self.rows());
    }
}

impl Columns for Order {
    ghost in_range = { OrderInRange };

    fn read(&self) {
        let _ = self.entry_d.seconds();
        read_carrier(self.carrier_id);
        let _ = self.ol_cnt.get();
    }
}

impl Columns for OrderLine {
    ghost in_range = { LineInRange };

    fn read(&self) {
        read_delivery(self.delivery_d);
        let _ = self.quantity.get();
        let _ = self.amount.get();
        let _ = self.dist_info.as_str();
    }
}
