// The date of the newest changes, and the toolchain. A build does not contain its commit.
pub const VERSION: &str = "2026-12-02, made by rattle-kit-13f logic dac8208d650f15bf";

// The text of `tpcc --help` after the list of commands.
pub const PROGRAM: &str = "\
`tpcc COMMAND --help` tells what a command reads, prints and writes, and its limits. `tpcc help` and
`tpcc help COMMAND` print such a text on the standard output, with status 0.

Files are CSV without a header row, as docs/FORMATS.md tells. Units and ranges:
  money      whole cents, -10^15 to 10^15; the amount of a payment 100 to 500,000
  rates      ten-thousandths, 0 to 9,999
  moments    YYYY-MM-DDTHH:MM:SS, years 1970 to 9999, without a zone
  scale      1 to 256 warehouses of ten districts, 1 to 100,000 items, 1 to 3,000 customers a district
  sessions   0 to 63; one log has at most 16,777,216 entries

Exit statuses, with what is told on the standard error:
  0  all went well
  1  `tpcc: PATH: row R: fault N`: a file has a fault, or can't be opened, made, read or written
     `tpcc: bad move: N`, `tpcc: no thread`, `tpcc: unsettled`, `tpcc: not idle`
  2  the words of the command line are wrong, or --help asks for help
     `tpcc: no warehouse: W`: `script --home` names one that the dataset has not
  3  `tpcc: not consistent: N`: the dataset breaks condition N
     without a word there: `check` found a condition broken, or `replay` a log that differs
  4  `tpcc: no memory`

Faults of a file, of which R is the record, counted from 1 (0: it can't be opened or made, brought to
the disk or given its name; or help or the version can't be printed):
  1  the header is missing or of no known format
  2  an unknown letter, or a wrong number of fields
  3  a field is no number, moment or text of its kind
  4  a value out of its range
  5  a record out of order, a key twice, or lines of an order out of order
  6  a row missing or too many, or a reference to no row
  7  the end record is missing
  8  a count in the end record is wrong
  9  a record after the end record
 10  reading or writing failed";
