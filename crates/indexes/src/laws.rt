//! Proved laws of the look-ups, as functions with empty bodies.
ghost use Rattle.indexes.specs.NameLaws.{MiddleIsOne, MiddleIsThere, SameNamesFit, PutKeepsNames};
ghost use Rattle.indexes.specs.LatestLaws.{PutOrderFits, RaisedOrderFits, RemovedOrderFits, ReplacedOrderFits};

/// At most one customer of a district is the middle one of those with a given last name.
pub fn middle_is_one()
    ensures { MiddleIsOne }
{}

/// The middle one is a customer of the tables, and has the last name that was asked for.
pub fn middle_is_there()
    ensures { MiddleIsThere }
{}

/// An index by last name that fits tables fits all tables of the same scale and the same customers'
/// names, whatever else differs, and for any places of the districts.
pub fn same_names_fit()
    ensures { SameNamesFit }
{}

/// Replacing a customer's row by one with the same first and last name leaves all names unchanged.
pub fn put_keeps_names()
    ensures { PutKeepsNames }
{}

/// In any tables: an index of latest orders that fits them fits them with an order inserted, once it is
/// raised to the order's number. At the order's key there must have been no order, or one of the same
/// customer.
pub fn raised_order_fits()
    ensures { RaisedOrderFits }
{}

/// In any tables: if the order replaces another customer's, that customer's orders are searched too.
pub fn replaced_order_fits()
    ensures { ReplacedOrderFits }
{}

/// In any tables: if an order is deleted, its customer's orders are searched.
pub fn removed_order_fits()
    ensures { RemovedOrderFits }
{}

/// Replacing an order's row by one with the same customer, as a delivery does, leaves an index of latest
/// orders fitting.
pub fn put_order_fits()
    ensures { PutOrderFits }
{}
