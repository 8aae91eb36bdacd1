//! A property of the report's definition. No caller needs to run this function.

ghost use Rattle.mls_vectors.specs.CheckReport.{ReportsUnreadable};

/// The report of a file is the line `vectors unreadable` exactly if no vectors are read from it: it is too long or too heavy,
/// or no array of vectors.
pub fn unreadable_is_reported()
    ensures { ReportsUnreadable }
{}
