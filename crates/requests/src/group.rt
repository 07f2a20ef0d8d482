use std::fmt;

/// Rows that are locked together. Groups are ordered by kind, then by warehouse, then by number.
#[derive(Clone, Copy, Debug, PartialEq, Eq, PartialOrd, Ord, Hash)]
pub enum Group {
    /// The warehouse's row.
    Warehouse { w_id: u32 },
    /// The district's row.
    District { w_id: u32, d_id: u32 },
    /// The rows of the district's customers.
    Customers { w_id: u32, d_id: u32 },
    /// The rows of ORDER, NEW-ORDER and ORDER-LINE of the district.
    Orders { w_id: u32, d_id: u32 },
    /// The payments taken at the district.
    History { w_id: u32, d_id: u32 },
    /// The warehouse's stock of the items whose number modulo `STOCK_GROUPS` is `residue`.
    Stock { w_id: u32, residue: u32 },
}

/// Two letters for the kind, and then the numbers, such as `WH.1` and `OR.1.10`.
impl fmt::Display for Group {
    ghost use Rattle.std.specs.Prelude.{Some};
    ghost use Rattle.requests.specs.Group.{group_text};

    ghost output = { λ group. Some (group_text group) };

    fn fmt<W: fmt::Write>(&self, f: &mut fmt::Formatter<W>) -> fmt::Result {
        match *self {
            Group::Warehouse { w_id } => write!(f, "WH.{w_id}"),
            Group::District { w_id, d_id } => write!(f, "DI.{w_id}.{d_id}"),
            Group::Customers { w_id, d_id } => write!(f, "CU.{w_id}.{d_id}"),
            Group::Orders { w_id, d_id } => write!(f, "OR.{w_id}.{d_id}"),
            Group::History { w_id, d_id } => write!(f, "HI.{w_id}.{d_id}"),
            Group::Stock { w_id, residue } => write!(f, "ST.{w_id}.{residue}"),
        }
    }
}
