//! Reports that are made whole before they are written.

ghost use Rattle.std.specs.Prelude.{◌≡◌, ◌++◌, codes, IfOk, string_bytes};
ghost use Rattle.mls_show.specs.InputReports.{IsUnreadableReport};
ghost use Rattle.mls_show.specs.ValueTexts.{IsOneLine};

use crate::verdict::Verdict;
use std::alloc::{AllocError, Global};

/// A report that is not written yet.
#[derive(Drop)]
pub struct Report {
    /// The bytes of its lines.
    pub bytes: Vec<u8>,
    /// The verdict.
    pub verdict: Verdict,
}

impl Report {
    /// Creates a report of a text.
    pub fn of_text(text: String, verdict: Verdict) -> Report
        ensures bytes { result.bytes.items ≡ string_bytes text }
        ensures verdict { result.verdict ≡ verdict }
    {
        Report {
            bytes: text.into_bytes(),
            verdict,
        }
    }
}

/// Returns the line of an input that is not decodable.
fn unreadable_line(alloc: Global, fault: &str) -> Result<String, AllocError>
    ensures { IfOk result
        (λ text. string_bytes text ≡ codes "unreadable " ++ (fault.now ++ codes "\n")) }
{
    format!(in alloc; "unreadable {fault}\n")
}

/// Returns the report of an input that is not decodable.
pub(crate) fn unreadable_report(alloc: Global, fault: &str) -> Result<Report, AllocError>
    requires { IsOneLine fault.now }
    ensures { IfOk result (λ r. IsUnreadableReport r.bytes.items r.verdict) }
{
    let line = unreadable_line(alloc, fault)?;
    Ok(Report::of_text(line, Verdict::No))
}
