//! Whether a group requires the same after a commit as before it (RFC 9420, 11.1).

ghost use Rattle.std.specs.Prelude.{◌≡◌, ◌↔◌, IsTrue};

use mls_nodes::RequiredCapabilities;

/// Returns whether two lists of codes are equal.
fn same_codes(one: &[u16], other: &[u16]) -> bool
    ensures { IsTrue result ↔ (one.now ≡ other.now) }
{
    one == other
}

/// Returns whether two required capabilities are equal.
fn are_equal(one: &RequiredCapabilities, other: &RequiredCapabilities) -> bool
    ensures { IsTrue result ↔ (one.now ≡ other.now) }
{
    same_codes(one.extensions.as_slice(), other.extensions.as_slice())
        && same_codes(one.proposals.as_slice(), other.proposals.as_slice())
        && same_codes(one.credentials.as_slice(), other.credentials.as_slice())
}

/// Returns whether two required capabilities are equal. They are not compared if `unchanged` says that they are.
pub(crate) fn same_requirements(
    one: &RequiredCapabilities,
    other: &RequiredCapabilities,
    unchanged: bool,
) -> bool
    requires { IsTrue unchanged → one.now ≡ other.now }
    ensures { IsTrue result ↔ (one.now ≡ other.now) }
{
    unchanged || are_equal(one, other)
}
