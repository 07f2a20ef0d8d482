use schema::{DistrictKey, Scale};

/// The terminal at which a session's requests are made.
#[derive(Clone, Copy, Debug, PartialEq, Eq)]
pub struct Terminal {
    pub scale: Scale,
    /// Its warehouse and district. A Stock-Level is for this district; New-Order, Payment and Order-Status draw a
    /// district of the warehouse.
    pub home: DistrictKey,
    /// Whether other warehouses supply lines and other warehouses' customers pay.
    pub remote: bool,
}
