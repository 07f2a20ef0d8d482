ghost use Rattle.std.specs.Prelude.{◌≡◌};
ghost use Rattle.rows.specs.Keys.{district_of_customer, district_of_order, order_of_line};

/// The key (D_W_ID, D_ID) of a district's row, and of its list of payments.
#[derive(Clone, Copy, Debug, PartialEq, Eq, Hash, PartialOrd, Ord)]
pub struct DistrictKey {
    pub w_id: u32,
    pub d_id: u32,
}

/// The key (S_W_ID, S_I_ID) of a stock row.
#[derive(Clone, Copy, Debug, PartialEq, Eq, Hash, PartialOrd, Ord)]
pub struct StockKey {
    pub w_id: u32,
    pub i_id: u32,
}

/// The key (C_W_ID, C_D_ID, C_ID) of a customer's row.
#[derive(Clone, Copy, Debug, PartialEq, Eq, Hash, PartialOrd, Ord)]
pub struct CustomerKey {
    pub w_id: u32,
    pub d_id: u32,
    pub c_id: u32,
}

/// The key (O_W_ID, O_D_ID, O_ID) of an order's row, and of its row in NEW-ORDER.
#[derive(Clone, Copy, Debug, PartialEq, Eq, Hash, PartialOrd, Ord)]
pub struct OrderKey {
    pub w_id: u32,
    pub d_id: u32,
    pub o_id: u32,
}

/// The key (OL_W_ID, OL_D_ID, OL_O_ID, OL_NUMBER) of an order line's row.
#[derive(Clone, Copy, Debug, PartialEq, Eq, Hash, PartialOrd, Ord)]
pub struct OrderLineKey {
    pub w_id: u32,
    pub d_id: u32,
    pub o_id: u32,
    pub number: u32,
}

impl CustomerKey {
    /// The key of the customer's district.
    pub fn district(self) -> DistrictKey
        ensures { result ≡ district_of_customer self }
    {
        DistrictKey {
            w_id: self.w_id,
            d_id: self.d_id,
        }
    }
}

impl OrderKey {
    /// The key of the order's district.
    pub fn district(self) -> DistrictKey
        ensures { result ≡ district_of_order self }
    {
        DistrictKey {
            w_id: self.w_id,
            d_id: self.d_id,
        }
    }
}

impl OrderLineKey {
    /// The key of the line's order.
    pub fn order(self) -> OrderKey
        ensures { result ≡ order_of_line self }
    {
        OrderKey {
            w_id: self.w_id,
            d_id: self.d_id,
            o_id: self.o_id,
        }
    }
}
