//! The credential types of the members (RFC 9420, 5.3).

ghost use Rattle.std.specs.Prelude.{◌≡◌, ℕ, IsTrue, ◌↔◌, not, ◌&&◌, ◌||◌};
ghost use Rattle.mls_check.specs.LeafValidation.{FindsFailing, supports_credential, supports_used_credentials};
ghost use Rattle.mls_check.specs.LeafValidationInternal.{IsCredentialUsed};

use crate::capability_support::supports_credential;
use mls_nodes::{CredentialBody, EncodedLeaf};
use mls_tree::PublicTree;

/// The code of basic credentials.
pub(crate) const BASIC: u16 = 1;

/// The code of x509 credentials.
pub(crate) const X509: u16 = 2;

/// Which credential types the non-blank leaves of a tree have.
#[derive(Clone, Copy, Debug)]
struct CredentialTypes {
    basic: bool,
    x509: bool,
}

fn credential_types(tree: &PublicTree) -> CredentialTypes
    ensures basic { IsTrue result.basic ↔ IsCredentialUsed tree.now.tree 1 }
    ensures x509 { IsTrue result.x509 ↔ IsCredentialUsed tree.now.tree 2 }
{
    let mut types = CredentialTypes {
        basic: false,
        x509: false,
    };
    for index in 0..tree.leaf_count() {
        if let Some(leaf) = tree.leaf(index) {
            match leaf.credential().body() {
                CredentialBody::Basic(_) => types.basic = true,
                CredentialBody::X509(_) => types.x509 = true,
            }
        }
    }
    types
}

/// Returns whether a leaf supports these types.
fn supports_types(leaf: &EncodedLeaf, types: &CredentialTypes) -> bool
    ensures { result ≡ ((not types.now.basic || supports_credential leaf.now 1) &&
        (not types.now.x509 || supports_credential leaf.now 2)) }
{
    (!types.basic || supports_credential(leaf, BASIC))
        && (!types.x509 || supports_credential(leaf, X509))
}

/// Returns the smallest leaf index of a leaf that does not support the credential type of some leaf (RFC 9420, 7.3).
pub fn first_unsupported_credential(tree: &PublicTree) -> Option<u32>
    ensures { FindsFailing (λ _ x. supports_used_credentials tree.now.tree x) tree.now.tree result }
{
    let types = credential_types(tree);
    for index in 0..tree.leaf_count() {
        if let Some(leaf) = tree.leaf(index) {
            if !supports_types(leaf, &types) {
                return Some(index);
            }
        }
    }
    None
}
