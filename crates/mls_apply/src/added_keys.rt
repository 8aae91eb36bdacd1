//! The encryption keys of the Adds of a proposal list (RFC 9420, 12.1.1).

ghost use Rattle.std.specs.Prelude.{◌≡◌, IfOk, option_map};
ghost use Rattle.mls_apply.specs.AddedKeys.{added_encryption_key, have_distinct_added_keys};

use crate::list_item::ListItem;
use mls_msgs::Proposal;
use mls_nodes::EncodedLeaf;
use std::alloc::{AllocError, Global};
use std::collections::BTreeSet;

/// Returns the leaf node of an item, if it is an Add.
fn added_leaf<'a>(item: &ListItem<'a>) -> Option<&'a EncodedLeaf>
    ensures { option_map (λ leaf. leaf.now.encryption_key) result ≡ added_encryption_key item.now }
{
    match item.proposal {
        Proposal::Add(key_package) => Some(&*key_package.leaf_node),
        Proposal::Update(_) => None,
        Proposal::Remove(_) => None,
        Proposal::ContextExtensions(_) => None,
        Proposal::PreSharedKey(_) => None,
        Proposal::ReInit(_) => None,
        Proposal::ExternalInit(_) => None,
    }
}

/// Returns whether no two Adds of a list have one encryption key. No key is copied, and only keys with equal fingerprints
/// are compared.
pub fn have_distinct_added_keys(alloc: Global, items: &[ListItem<'_>]) -> Result<bool, AllocError>
    ensures { IfOk result (λ distinct. distinct ≡ have_distinct_added_keys items.now) }
{
    let mut met: BTreeSet<(u64, &[u8])> = BTreeSet::new(alloc);
    for item in items {
        if let Some(leaf) = added_leaf(item) {
            let number = leaf.encryption_fingerprint();
            let key = leaf.encryption_key();
            if !met.insert((number, key))? {
                return Ok(false);
            }
        }
    }
    Ok(true)
}
