//! Laws of the definitions of the transactions, as functions with empty bodies: their contracts are proved.
ghost use Rattle.machine.specs.PaymentLaws.{PaymentIsLocal, PaymentKeepsConsistency, PaymentKeepsOtherGroups, PaymentKeepsScale, PaymentKeepsSums, PaymentReadsItsGroups};
ghost use Rattle.machine.specs.NewOrderLaws.{NewOrderKeepsConsistency, NewOrderKeepsOtherGroups, NewOrderReadsItsGroups};
ghost use Rattle.machine.specs.DeliveryLaws.{DeliveryKeepsConsistency, DeliveryKeepsOtherGroups, DeliveryReadsItsGroups};
ghost use Rattle.machine.specs.StockLevelLaws.{StockLevelReadsItsGroups};
ghost use Rattle.machine.specs.MachineLaws.{RequestsKeepConsistency, TransactionKeepsConsistency, TransactionKeepsOtherGroups, TransactionReadsItsGroups};

/// A payment changes only these rows: those of the home warehouse and district, the district's list of payments, and
/// the customer (clause 2.5.2.2).
pub fn payment_is_local()
    ensures { PaymentIsLocal }
{}

/// The reply to a payment, and the contents of its claimed groups after it, depend only on the contents of these groups
/// before it.
pub fn payment_reads_its_groups()
    ensures { PaymentReadsItsGroups }
{}

/// A payment changes no group that it doesn't claim.
pub fn payment_keeps_other_groups()
    ensures { PaymentKeepsOtherGroups }
{}

/// A payment keeps the tables within the scale.
pub fn payment_keeps_scale()
    ensures { PaymentKeepsScale }
{}

/// A payment keeps the sum of all W_YTD less the sum of all H_AMOUNT.
pub fn payment_keeps_sums()
    ensures { PaymentKeepsSums }
{}

/// A payment keeps consistent tables consistent, whatever the reply (clause 3.3).
pub fn payment_keeps_consistency()
    ensures { PaymentKeepsConsistency }
{}

/// A New-Order keeps consistent tables consistent, whatever the reply (clause 3.3).
pub fn new_order_keeps_consistency()
    ensures { NewOrderKeepsConsistency }
{}

/// The reply to a New-Order, and the contents of its claimed groups after it, depend only on the items and on the
/// contents of these groups before it.
pub fn new_order_reads_its_groups()
    ensures { NewOrderReadsItsGroups }
{}

/// A New-Order changes no group that it doesn't claim.
pub fn new_order_keeps_other_groups()
    ensures { NewOrderKeepsOtherGroups }
{}

/// A Delivery keeps consistent tables consistent, whatever the reply (clause 3.3).
pub fn delivery_keeps_consistency()
    ensures { DeliveryKeepsConsistency }
{}

/// The reply to a Delivery, and the contents of its claimed groups after it, depend only on the contents of these
/// groups before it.
pub fn delivery_reads_its_groups()
    ensures { DeliveryReadsItsGroups }
{}

/// A Delivery changes no group that it doesn't claim.
pub fn delivery_keeps_other_groups()
    ensures { DeliveryKeepsOtherGroups }
{}

/// The result of a Stock-Level depends only on the contents of its claimed groups.
pub fn stock_level_reads_its_groups()
    ensures { StockLevelReadsItsGroups }
{}

/// Any one request keeps consistent tables consistent, whatever the reply (clause 3.3).
pub fn transaction_keeps_consistency()
    ensures { TransactionKeepsConsistency }
{}

/// Every list of requests, carried out one after another, keeps consistent tables consistent (clause 3.3).
pub fn requests_keep_consistency()
    ensures { RequestsKeepConsistency }
{}

/// The reply to any one request, and the contents of its claimed groups after it, depend only on the items and on the
/// contents of these groups before it.
pub fn transaction_reads_its_groups()
    ensures { TransactionReadsItsGroups }
{}

/// A request changes no group that it doesn't claim.
pub fn transaction_keeps_other_groups()
    ensures { TransactionKeepsOtherGroups }
{}
