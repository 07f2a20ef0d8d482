use requests::Group;
use schema::Tables;
use std::marker::Model;

/// The content of a group, for contracts only: no value of this type is ever made.
///
/// Its model is the sum type `Content` of `specs/Content.antt`. An enum can't replace it, since its
/// finite maps are not types of the program. So the struct is a group of some tables, and its model is
/// the content of that group. Its `coded` lets contracts use it where they need the value of a type
/// parameter.
pub struct Content {
    tables: Tables,
    group: Group,
}

impl Model for Content {
    ghost use Rattle.std.specs.Coded.{codes};
    ghost use Rattle.std.specs.FinMap as map;
    ghost use Rattle.rows.specs.contracts.keys.StockKey as stock_key;
    ghost use Rattle.rows.specs.contracts.keys.CustomerKey as customer_key;
    ghost use Rattle.rows.specs.contracts.keys.OrderKey as order_key;
    ghost use Rattle.rows.specs.contracts.keys.OrderLineKey as line_key;
    ghost use Rattle.rows.specs.contracts.records.Warehouse as warehouse;
    ghost use Rattle.rows.specs.contracts.records.District as district;
    ghost use Rattle.rows.specs.contracts.records.Stock as stock;
    ghost use Rattle.rows.specs.contracts.records.Customer as customer;
    ghost use Rattle.rows.specs.contracts.records.History as history;
    ghost use Rattle.rows.specs.contracts.records.Order as order;
    ghost use Rattle.rows.specs.contracts.records.NewOrder as new_order;
    ghost use Rattle.rows.specs.contracts.records.OrderLine as line;
    ghost use Rattle.groups.specs.Content.{Content, content};

    ghost Value = { Content };

    ghost coded = { Prim.hlevel (
      codes,
      map.code,
      stock_key.the_row.coded,
      customer_key.the_row.coded,
      order_key.the_row.coded,
      line_key.the_row.coded,
      warehouse.the_row.coded,
      district.the_row.coded,
      stock.the_row.coded,
      customer.the_row.coded,
      history.the_row.coded,
      order.the_row.coded,
      new_order.the_row.coded,
      line.the_row.coded,
    ) };

    ghost view = { λ c. content c.tables c.group };
}
