//! The cipher suite of a vector.

ghost use Rattle.std.specs.Prelude.{◌≡◌, IfSome, IfNone};
ghost use Rattle.serde_json.specs.View.{view};
ghost use Rattle.mls_hash.specs.Suites.{IsSupported};
ghost use Rattle.mls_vectors.specs.CheckModel.{SaysSuite};

use crate::json_members::number_under;
use mls_hash::Suite;
use serde_json::Value;

/// The cipher suite that a vector names.
#[derive(Clone, Copy, Debug, PartialEq, Eq)]
pub(crate) enum SuiteMember {
    /// A supported suite.
    Followed(Suite),
    /// A whole number that is not of a supported suite.
    Other,
    /// No whole number.
    Missing,
}

/// Returns the suite with this number.
fn suite_by(number: u64) -> Option<Suite>
    ensures some { IfSome result (λ s. (s ≡ number) × IsSupported number) }
    ensures none { IfNone result (¬ IsSupported number) }
{
    let number = u16::try_from(number).ok()?;
    Suite::from_u16(number).ok()
}

/// Returns the cipher suite that a vector names.
pub(crate) fn suite_of(vector: &Value) -> SuiteMember
    ensures { SaysSuite (view vector.now) result }
{
    let Some(number) = number_under(vector, "cipher_suite") else {
        return SuiteMember::Missing;
    };
    match number.as_u64() {
        Some(whole) => match suite_by(whole) {
            Some(suite) => SuiteMember::Followed(suite),
            None => SuiteMember::Other,
        },
        None => {
            if number.as_i64().is_some() {
                SuiteMember::Other
            } else {
                SuiteMember::Missing
            }
        }
    }
}
