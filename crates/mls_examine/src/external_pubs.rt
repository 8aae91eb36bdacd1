//! The external_pub of a GroupInfo (RFC 9420, 12.4.3.2).

ghost use Rattle.std.specs.Prelude.{◌≡◌};
ghost use Rattle.mls_follow.specs.FollowerModel.{state_of};
ghost use Rattle.mls_examine.specs.GroupInfos.{has_usable_external_pub, is_external_pub, is_kem_key};

use mls_check::SignatureCheck;
use mls_follow::Follower;
use mls_hash::Suite;
use mls_msgs::{GroupInfo, Rules};
use mls_nodes::find_extension;
use mls_strict::{is_hpke_key, is_suite_point};
use mls_wire::{OpaqueRef, Reader};

/// The extension type of an external_pub (RFC 9420, 12.4.3.2).
const EXTERNAL_PUB: u16 = 4;

/// Returns whether bytes have the length of a public key of the suite's KEM, and if the set has the strict rules 44 and 52, its
/// form, and are a point of its curve.
fn is_kem_key(rules: Rules, suite: Suite, key: &[u8]) -> bool
    ensures { result ≡ is_kem_key rules suite key.now }
{
    key.len() == suite.hpke_key_length()
        && (!rules.has(44) || is_hpke_key(suite, key))
        && (!rules.has(52) || is_suite_point(suite, key))
}

/// Returns whether the data of an external_pub are one vector with such a key.
fn is_external_pub(rules: Rules, suite: Suite, data: &[u8]) -> bool
    ensures { result ≡ is_external_pub rules suite data.now }
{
    let mut reader = Reader::new(data);
    match OpaqueRef::parse(&mut reader) {
        Ok(key) => reader.at_end() && is_kem_key(rules, suite, key.as_slice()),
        Err(_) => false,
    }
}

/// Returns whether the first external_pub of a GroupInfo, if there is one, is one of the cipher suite and of the strict rules of a
/// follower. Allocates nothing.
#[tactic(auto, unfolding(crate::specs::GroupInfos::has_usable_external_pub))]
pub(crate) fn has_usable_external_pub<C: SignatureCheck>(
    follower: &Follower<C>,
    info: &GroupInfo,
) -> bool
    ensures { result ≡ has_usable_external_pub (state_of follower.now) info.now }
{
    match find_extension(&info.extensions, EXTERNAL_PUB) {
        Some(data) => is_external_pub(follower.rules(), follower.suite(), data),
        None => true,
    }
}
