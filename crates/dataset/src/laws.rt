//! Laws about a dataset's records: proved functions that change nothing.
ghost use Rattle.dataset.specs.RecordLaws.{EqualIfSameRecords, RecordsReportTables};

use crate::columns_are_in_range;
use schema::Tables;

/// Different tables have different records, if they are within their scale and their columns are within
/// their ranges.
pub fn different_tables_have_different_records()
    ensures { RecordsReportTables }
{}

/// Any tables with the same records are equal.
pub fn records_report_tables(one: &Tables, other: &Tables)
    ensures { EqualIfSameRecords one.now other.now }
{
    columns_are_in_range(one);
    columns_are_in_range(other);
    let _ = one.scale();
    let _ = other.scale();
}
