//! How many there may be of what orders, transactions, a database and a run of it are made of, each
//! limit once for all crates.

/// The fewest lines of an order.
pub const FEWEST_LINES: usize = 5;

/// The most lines of an order.
pub const MOST_LINES: usize = 30;

/// The number of the last of that many lines, which are numbered from 1.
pub const LAST_LINE: u32 = 30;

/// The most lines of an order that an initial population or a script draws.
pub const MOST_DRAWN_LINES: u32 = 15;

/// The most lines of a district's 20 latest orders.
pub const RECENT_LINES: usize = 20 * MOST_LINES;

/// The most warehouses of a database.
pub const MOST_WAREHOUSES: u32 = 256;

/// The groups into which a warehouse's stock is divided, by item number.
pub const STOCK_GROUPS: u32 = 64;

/// The sessions of an engine or of a world, numbered from 0.
pub const SESSIONS: usize = 64;

/// The most entries of a log.
pub const MOST_ENTRIES: usize = 16_777_216;

/// The same number, as the limit of a log.
pub const LONGEST_LOG: u32 = MOST_ENTRIES as u32;

/// The messages that the inbox of an executor has room for.
pub const INBOX: usize = 1024;

/// The same number, as the limit of an inbox.
pub const LARGEST_INBOX: u32 = INBOX as u32;
