use rows::LAST_LINE;
use thiserror::Error;

/// The rule of the scale that rows break.
#[derive(Clone, Copy, Debug, Drop, Error, PartialEq, Eq)]
pub enum ScaleFault {
    #[error("ITEM has a row missing or too many")]
    ItemCount,
    #[error("WAREHOUSE has a row missing or too many")]
    WarehouseCount,
    #[error("DISTRICT has a row missing or too many")]
    DistrictCount,
    #[error("STOCK has a row missing or too many")]
    StockCount,
    #[error("CUSTOMER has a row missing or too many")]
    CustomerCount,
    #[error("HISTORY has a list missing or too many")]
    HistoryCount,
    #[error("H_C_W_ID, H_C_D_ID and H_C_ID name no customer")]
    HistoryCustomer,
    #[error("O_ID is not 1 to 9,999,999")]
    OrderNumber,
    #[error("O_W_ID, O_D_ID and O_C_ID name no customer")]
    OrderCustomer,
    #[error("NO_W_ID, NO_D_ID and NO_O_ID name no order")]
    NewOrderOrder,
    #[error("OL_W_ID, OL_D_ID and OL_O_ID name no order")]
    LineOrder,
    #[error("OL_NUMBER is not 1 to {last}", last = LAST_LINE)]
    LineNumber,
    #[error("OL_I_ID names no item")]
    LineItem,
    #[error("OL_SUPPLY_W_ID names no warehouse")]
    LineSupplier,
}
