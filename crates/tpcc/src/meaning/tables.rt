//! The fields of a dataset's records, by name.

ghost use Rattle.std.specs.Prelude.{◌<◌, IfSome};

use crate::meaning::search::Search;
use crate::meaning::spelling::Spelling;
use dataset::Format;
use files::{FaultKind, Fields, parse_whole};

/// What the check of a record of a dataset needs of the records before it.
#[derive(Clone, Copy, Debug)]
pub struct Tables {
    // How many rows there are of each table, in the order of a dataset.
    rows: [u64; 9],
    // The format and the scale in the header.
    format: Format,
    warehouses: u32,
    items: u32,
    customers: u32,
}

// The number of the format in a header.
const FORMATS: Spelling = Spelling::Said("1 or 2");

// The number of a line that does not ascend.
const ABOVE: Spelling = Spelling::Said("above that of the line before");

// How many fields the record of an order has behind its letter and before its lines.
const ORDER_FIELDS: usize = 8;

/// Searches the fields of a header.
pub fn header(search: &mut Search<'_>) {
    search.field("the word of a dataset", Spelling::Header("TPCC"));
    let name = "the format";
    let format = Format::named(search.word(name, FORMATS));
    if format.is_none() {
        search.refuse(FaultKind::NoHeader, 2, name, FORMATS);
    }
    let most = format.unwrap_or(Format::Two).most_warehouses();
    search.field("how many warehouses", Spelling::Whole(1, most));
    search.field("how many items", Spelling::Whole(1, 100_000));
    search.field(
        "how many customers of a district",
        Spelling::Whole(1, 3_000),
    );
}

/// The names of the key fields of a row whose record begins with that word, if it is a table's letter.
pub fn key_names(first: &str) -> Option<&'static str> {
    match first {
        "I" => Some("I_ID"),
        "W" => Some("W_ID"),
        "D" => Some("D_W_ID, D_ID"),
        "S" => Some("S_W_ID, S_I_ID"),
        "C" => Some("C_W_ID, C_D_ID, C_ID"),
        "H" => Some("H_W_ID, H_D_ID"),
        "O" => Some("O_W_ID, O_D_ID, O_ID"),
        "N" => Some("NO_W_ID, NO_D_ID, NO_O_ID"),
        "L" => Some("OL_W_ID, OL_D_ID, OL_O_ID, OL_NUMBER"),
        _ => None,
    }
}

// The place, from 0, of the table whose records begin with that letter, in the order of a dataset.
fn table_of(letter: &str) -> Option<usize>
    ensures { IfSome result (λ table. table < 9) }
{
    match letter {
        "I" => Some(0),
        "W" => Some(1),
        "D" => Some(2),
        "S" => Some(3),
        "C" => Some(4),
        "H" => Some(5),
        "O" => Some(6),
        "N" => Some(7),
        "L" => Some(8),
        _ => None,
    }
}

impl Tables {
    /// The state before all records.
    pub fn new() -> Tables {
        Tables {
            rows: [0; 9],
            format: Format::Two,
            warehouses: Format::Two.most_warehouses(),
            items: 100_000,
            customers: 3_000,
        }
    }

    /// Takes the next record, which has no fault.
    pub fn pass(&mut self, mut fields: Fields<'_>) {
        let first = fields.word();
        if first == "TPCC" {
            self.format = Format::named(fields.word()).unwrap_or(Format::Two);
            self.warehouses = fields.whole(1, self.format.most_warehouses());
            self.items = fields.whole(1, 100_000);
            self.customers = fields.whole(1, 3_000);
        }
        if first == "O" {
            let left = fields.left().saturating_sub(ORDER_FIELDS);
            let lines = self.format.line_count(left);
            self.rows[8] = self.rows[8].saturating_add(lines as u64);
        }
        if let Some(table) = table_of(first) {
            self.rows[table] = self.rows[table].saturating_add(1);
        }
    }

    /// Searches the fields of a record behind the header, whose first field is that word.
    pub fn search(&self, search: &mut Search<'_>, first: &str) {
        let name = "the letter";
        let letters = self.letters();
        search.field(name, letters);
        match first {
            "I" => self.item(search),
            "W" => self.warehouse(search),
            "D" => self.district(search),
            "S" => self.stock(search),
            "C" => self.customer(search),
            "H" => self.history(search),
            "O" => self.order(search),
            "N" => self.order_key(search, "NO_W_ID", "NO_D_ID", "NO_O_ID"),
            "L" if self.format == Format::One => self.line(search),
            "END" => self.end(search),
            _ => search.refuse(FaultKind::WrongShape, 1, name, letters),
        }
    }

    // The first words of the records behind the header.
    fn letters(&self) -> Spelling {
        match self.format {
            Format::One => Spelling::Said("one of I, W, D, S, C, H, O, N and L, or END"),
            Format::Two => Spelling::Said("one of I, W, D, S, C, H, O and N, or END"),
        }
    }

    fn item(&self, search: &mut Search<'_>) {
        search.field("I_ID", Spelling::Whole(1, self.items));
        search.field("I_IM_ID", Spelling::Whole(1, 10_000));
        search.field("I_NAME", Spelling::Text(24));
        search.field("I_PRICE", Spelling::Whole(1, 99_999));
        search.field("I_DATA", Spelling::Text(50));
    }

    fn warehouse(&self, search: &mut Search<'_>) {
        search.field("W_ID", self.of_warehouses());
        search.field("W_NAME", Spelling::Text(10));
        search.field("W_STREET_1", Spelling::Text(20));
        search.field("W_STREET_2", Spelling::Text(20));
        search.field("W_CITY", Spelling::Text(20));
        search.field("W_STATE", Spelling::Text(2));
        search.field("W_ZIP", Spelling::Text(9));
        search.field("W_TAX", Spelling::RATE);
        search.field("W_YTD", Spelling::Money);
    }

    fn district(&self, search: &mut Search<'_>) {
        search.field("D_W_ID", self.of_warehouses());
        search.field("D_ID", Spelling::Whole(1, 10));
        search.field("D_NAME", Spelling::Text(10));
        search.field("D_STREET_1", Spelling::Text(20));
        search.field("D_STREET_2", Spelling::Text(20));
        search.field("D_CITY", Spelling::Text(20));
        search.field("D_STATE", Spelling::Text(2));
        search.field("D_ZIP", Spelling::Text(9));
        search.field("D_TAX", Spelling::RATE);
        search.field("D_YTD", Spelling::Money);
        search.field("D_NEXT_O_ID", Spelling::Whole(1, 10_000_000));
    }

    fn stock(&self, search: &mut Search<'_>) {
        search.field("S_W_ID", self.of_warehouses());
        search.field("S_I_ID", Spelling::Whole(1, self.items));
        search.field("S_QUANTITY", Spelling::Whole(10, 100));
        let infos = [
            "S_DIST_01",
            "S_DIST_02",
            "S_DIST_03",
            "S_DIST_04",
            "S_DIST_05",
            "S_DIST_06",
            "S_DIST_07",
            "S_DIST_08",
            "S_DIST_09",
            "S_DIST_10",
        ];
        for name in infos {
            search.field(name, Spelling::Text(24));
        }
        search.field("S_YTD", Spelling::COUNTER);
        search.field("S_ORDER_CNT", Spelling::COUNTER);
        search.field("S_REMOTE_CNT", Spelling::COUNTER);
        search.field("S_DATA", Spelling::Text(50));
    }

    fn customer(&self, search: &mut Search<'_>) {
        search.field("C_W_ID", self.of_warehouses());
        search.field("C_D_ID", Spelling::Whole(1, 10));
        search.field("C_ID", Spelling::Whole(1, self.customers));
        search.field("C_FIRST", Spelling::Text(16));
        search.field("C_MIDDLE", Spelling::Text(2));
        search.field("C_LAST", Spelling::Text(16));
        search.field("C_STREET_1", Spelling::Text(20));
        search.field("C_STREET_2", Spelling::Text(20));
        search.field("C_CITY", Spelling::Text(20));
        search.field("C_STATE", Spelling::Text(2));
        search.field("C_ZIP", Spelling::Text(9));
        search.field("C_PHONE", Spelling::Text(16));
        search.field("C_SINCE", Spelling::Moment);
        search.field("C_CREDIT", Spelling::Credit);
        search.field("C_CREDIT_LIM", Spelling::Money);
        search.field("C_DISCOUNT", Spelling::RATE);
        search.field("C_BALANCE", Spelling::Money);
        search.field("C_YTD_PAYMENT", Spelling::Money);
        search.field("C_PAYMENT_CNT", Spelling::COUNTER);
        search.field("C_DELIVERY_CNT", Spelling::COUNTER);
        search.field("C_DATA", Spelling::Text(500));
    }

    fn history(&self, search: &mut Search<'_>) {
        search.field("H_W_ID", self.of_warehouses());
        search.field("H_D_ID", Spelling::Whole(1, 10));
        search.field("H_C_W_ID", self.of_warehouses());
        search.field("H_C_D_ID", Spelling::Whole(1, 10));
        search.field("H_C_ID", Spelling::Whole(1, self.customers));
        search.field("H_DATE", Spelling::Moment);
        search.field("H_AMOUNT", Spelling::Money);
        search.field("H_DATA", Spelling::Text(24));
    }

    fn order(&self, search: &mut Search<'_>) {
        self.order_key(search, "O_W_ID", "O_D_ID", "O_ID");
        search.field("O_C_ID", Spelling::Whole(1, self.customers));
        search.field("O_ENTRY_D", Spelling::Moment);
        search.field("O_CARRIER_ID", Spelling::MaybeWhole(1, 10));
        search.field("O_OL_CNT", self.of_lines());
        search.field("O_ALL_LOCAL", Spelling::Whole(0, 1));
        let mut last = 0;
        for _ in 0..self.format.line_count(search.left()) {
            last = self.line_number(search, last);
            self.line_columns(search);
        }
    }

    // Searches the number of a line in the record of an order, which is above `last`, and returns it; `last` if it has
    // a fault.
    fn line_number(&self, search: &mut Search<'_>, last: u64) -> u64 {
        let name = "OL_NUMBER";
        let word = search.word(name, self.of_lines());
        let place = search.taken();
        match parse_whole(word, 1, u64::from(self.format.most_lines())) {
            Ok(number) if number > last => number,
            Ok(_) => {
                search.refuse(FaultKind::OutOfOrder, place, name, ABOVE);
                last
            }
            Err(kind) => {
                search.refuse(kind, place, name, self.of_lines());
                last
            }
        }
    }

    // Searches the record of a line, as format 1 has it.
    fn line(&self, search: &mut Search<'_>) {
        self.order_key(search, "OL_W_ID", "OL_D_ID", "OL_O_ID");
        search.field("OL_NUMBER", self.of_lines());
        self.line_columns(search);
    }

    // Searches the fields of a line behind its number.
    fn line_columns(&self, search: &mut Search<'_>) {
        search.field("OL_I_ID", Spelling::Whole(1, self.items));
        search.field("OL_SUPPLY_W_ID", self.of_warehouses());
        search.field("OL_DELIVERY_D", Spelling::MaybeMoment);
        search.field("OL_QUANTITY", Spelling::Whole(1, 10));
        search.field("OL_AMOUNT", Spelling::Whole(0, 999_999));
        search.field("OL_DIST_INFO", Spelling::Text(24));
    }

    fn order_key(
        &self,
        search: &mut Search<'_>,
        warehouse: &'static str,
        district: &'static str,
        order: &'static str,
    ) {
        search.field(warehouse, self.of_warehouses());
        search.field(district, Spelling::Whole(1, 10));
        search.field(order, Spelling::Whole(1, 9_999_999));
    }

    // How many lines an order has, or the number of one.
    fn of_lines(&self) -> Spelling {
        Spelling::Whole(1, self.format.most_lines())
    }

    // The number of a warehouse in the header's scale.
    fn of_warehouses(&self) -> Spelling {
        Spelling::Whole(1, self.warehouses)
    }

    fn end(&self, search: &mut Search<'_>) {
        let names = [
            "how many items",
            "how many warehouses",
            "how many districts",
            "how many rows of STOCK",
            "how many customers",
            "how many payments",
            "how many orders",
            "how many new orders",
            "how many order lines",
        ];
        for (name, count) in names.iter().zip(self.rows.iter()) {
            search.field(*name, Spelling::Count(*count));
        }
    }
}
