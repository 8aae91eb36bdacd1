//! PreSharedKey proposals (RFC 9420, 12.1.4), alone and in a proposal list (12.2).

ghost use Rattle.std.specs.Prelude.{◌≡◌, IfOk, option_map};
ghost use Rattle.mls_hash.specs.SuiteHash.{hash_length};
ghost use Rattle.mls_apply.specs.PskKeys.{usage_number, kind_number, kind_epoch};
ghost use Rattle.mls_apply.specs.PskProposals.{is_usable, is_usable_kind, is_valid_psk, psk_of, have_distinct_psks};

use crate::list_item::ListItem;
use crate::psk_fingerprint::kind_bytes;
use crate::senders::is_member;
use mls_msgs::{PreSharedKeyId, Proposal, PskKind, PskUsage, Sender};
use mls_nodes::GroupContext;
use std::alloc::{AllocError, Global};
use std::collections::BTreeSet;

/// The length of a hash of a cipher suite, by its number (RFC 9420, 17.1). Greater numbers count as 7.
#[tactic(auto, unfolding(mls_hash::specs::SuiteHash::hash_length))]
fn hash_length(suite: u16) -> usize
    ensures { result ≡ hash_length suite }
{
    match suite {
        0..=3 => 32,
        4..=6 => 64,
        _ => 48,
    }
}

/// Whether a resumption PSK may be used so.
fn is_usable(epoch: u64, sender: Sender, usage: PskUsage) -> bool
    ensures { result ≡ is_usable epoch sender usage }
{
    match usage {
        PskUsage::Application => true,
        PskUsage::ReInit => epoch == 0 && is_member(sender),
        PskUsage::Branch => epoch == 0 && is_member(sender),
    }
}

/// Whether a PSK is an external one, or a resumption PSK that may be used so.
fn is_usable_kind(epoch: u64, sender: Sender, kind: &PskKind) -> bool
    ensures { result ≡ is_usable_kind epoch sender kind.now }
{
    match kind {
        PskKind::External(_) => true,
        PskKind::Resumption { usage, .. } => is_usable(epoch, sender, *usage),
    }
}

/// Returns whether the PreSharedKeyID of a proposal is valid (RFC 9420, 12.1.4).
#[tactic(auto, unfolding(crate::specs::PskProposals::is_valid_psk))]
pub(crate) fn is_valid_psk(context: &GroupContext, sender: Sender, id: &PreSharedKeyId) -> bool
    ensures { result ≡ is_valid_psk context.now sender id.now }
{
    id.nonce.as_slice().len() == hash_length(context.cipher_suite)
        && is_usable_kind(context.epoch, sender, &id.kind)
}

/// The number of a usage.
fn usage_number(usage: PskUsage) -> u8
    ensures { result ≡ usage_number usage }
{
    match usage {
        PskUsage::Application => 1,
        PskUsage::ReInit => 2,
        PskUsage::Branch => 3,
    }
}

/// The number of the usage of a resumption PSK, and 0 of an external one.
fn kind_number(kind: &PskKind) -> u8
    ensures { result ≡ kind_number kind.now }
{
    match kind {
        PskKind::External(_) => 0,
        PskKind::Resumption { usage, .. } => usage_number(*usage),
    }
}

/// The epoch of a resumption PSK, and 0 of an external one.
fn kind_epoch(kind: &PskKind) -> u64
    ensures { result ≡ kind_epoch kind.now }
{
    match kind {
        PskKind::External(_) => 0,
        PskKind::Resumption { epoch, .. } => *epoch,
    }
}

/// The PreSharedKeyID of an item, if it is a PreSharedKey.
fn psk_of<'a>(item: &ListItem<'a>) -> Option<&'a PreSharedKeyId>
    ensures { option_map (λ id. id.now) result ≡ psk_of item.now }
{
    match item.proposal {
        Proposal::PreSharedKey(id) => Some(id),
        Proposal::Add(_) => None,
        Proposal::Update(_) => None,
        Proposal::Remove(_) => None,
        Proposal::ContextExtensions(_) => None,
        Proposal::ReInit(_) => None,
        Proposal::ExternalInit(_) => None,
    }
}

/// Returns whether no two PreSharedKey proposals of a list have the same PreSharedKeyID (RFC 9420, 12.2). Compares the
/// bytes of two PreSharedKeyIDs only if their fingerprints and epochs are equal.
pub(crate) fn have_distinct_psks(alloc: Global, items: &[ListItem<'_>]) -> Result<bool, AllocError>
    ensures { IfOk result (λ distinct. distinct ≡ have_distinct_psks items.now) }
{
    let mut met: BTreeSet<(u64, u8, u64, &[u8], &[u8])> = BTreeSet::new(alloc);
    for item in items {
        if let Some(id) = psk_of(item) {
            let fingerprint = item.psk_fingerprint();
            let number = kind_number(&id.kind);
            let bytes = kind_bytes(&id.kind);
            let epoch = kind_epoch(&id.kind);
            let nonce = id.nonce.as_slice();
            if !met.insert((fingerprint, number, epoch, bytes, nonce))? {
                return Ok(false);
            }
        }
    }
    Ok(true)
}
