//! The fingerprints of PreSharedKeyIDs (RFC 9420, 8.4), by which they are compared first.

ghost use Rattle.std.specs.Prelude.{◌≡◌, ◌++◌};
ghost use Rattle.sha2.specs.Sha256.{sha256};
ghost use Rattle.mls_apply.specs.PskKeys.{kind_bytes};
ghost use Rattle.mls_apply.specs.PskFingerprints.{id_fingerprint, psk_fingerprint};

use mls_msgs::{PreSharedKeyId, Proposal, PskKind};
use mls_nodes::key_prefix;
use sha2::{Digest, Sha256};

/// Returns the id of an external PSK, or the group id of a resumption PSK.
pub(crate) fn kind_bytes(kind: &PskKind) -> &[u8]
    ensures { result.now ≡ kind_bytes kind.now }
{
    match kind {
        PskKind::External(id) => id.as_slice(),
        PskKind::Resumption { group_id, .. } => group_id.as_slice(),
    }
}

/// Returns the SHA-256 digest of two parts joined.
fn digest(first: &[u8], second: &[u8]) -> [u8; 32]
    ensures { result ≡ sha256 (first.now ++ second.now) }
{
    let mut hasher = Sha256::new();
    hasher.update(first);
    hasher.update(second);
    hasher.finalize()
}

/// Returns the fingerprint of a PreSharedKeyID. PreSharedKeyIDs with equal fingerprints have to be compared themselves.
#[tactic(auto, unfolding(mls_nodes::specs::Fingerprints::fingerprint))]
fn id_fingerprint(id: &PreSharedKeyId) -> u64
    ensures { result ≡ id_fingerprint id.now }
{
    key_prefix(&digest(kind_bytes(&id.kind), id.nonce.as_slice()))
}

/// Returns the fingerprint of the PreSharedKeyID of a proposal, and 0 if the proposal is no PreSharedKey.
pub(crate) fn psk_fingerprint(proposal: &Proposal) -> u64
    ensures { result ≡ psk_fingerprint proposal.now }
{
    match proposal {
        Proposal::PreSharedKey(id) => id_fingerprint(id),
        Proposal::Add(_) => 0,
        Proposal::Update(_) => 0,
        Proposal::Remove(_) => 0,
        Proposal::ContextExtensions(_) => 0,
        Proposal::ReInit(_) => 0,
        Proposal::ExternalInit(_) => 0,
    }
}
