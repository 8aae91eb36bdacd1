//! A signature that has to be verified, without the group id in what is signed.

ghost use Rattle.std.specs.Prelude.{◌≡◌, ◌≤◌, ◌+◌, ◌++◌, IfOk, length};
ghost use Rattle.mls_signatures.specs.ShortenedSignatures.{restored, shortened};

use crate::shortened_content::{ShortenedContent, restored_content};
use crate::signature_to_verify::SignatureToVerify;
use crate::signing_keys::opaque_of;
use mls_check::OutOfMemory;
use mls_wire::Sequence;
use std::alloc::Global;

/// A signature that has to be verified, as a list stores it: its bytes are in one piece of memory.
#[derive(Debug, Drop)]
pub(crate) struct ShortenedSignature {
    /// The cipher suite.
    pub(crate) suite: u16,
    /// Whether the group id is left out of what is signed.
    pub(crate) is_shortened: bool,
    /// The number of bytes of the public key.
    pub(crate) key_len: u32,
    /// The number of bytes of the signature.
    pub(crate) signature_len: u32,
    /// The public key, the signature, and what is signed.
    pub(crate) bytes: Sequence<u8>,
}

/// Returns the key, the signature, and what is signed, one after the other.
fn joined(
    alloc: Global,
    needed: &SignatureToVerify,
    content: &ShortenedContent<'_>,
) -> Result<Vec<u8>, OutOfMemory>
    ensures { IfOk result (λ v. v.items
        ≡ needed.now.key ++ (needed.now.signature ++ (content.now.front.now ++ content.now.back.now))) }
{
    let key = needed.key.as_slice();
    let signature = needed.signature.as_slice();
    let content_len = content.front.len().saturating_add(content.back.len());
    let len = content_len.saturating_add(key.len() + signature.len());
    let mut bytes = Vec::with_capacity(alloc, len)?;
    bytes.extend_from_slice(key)?;
    bytes.extend_from_slice(signature)?;
    bytes.extend_from_slice(content.front)?;
    bytes.extend_from_slice(content.back)?;
    Ok(bytes)
}

impl ShortenedSignature {
    /// Returns a signature as the list of a group with this id stores it.
    pub(crate) fn new(
        alloc: Global,
        group_id: &[u8],
        needed: &SignatureToVerify,
    ) -> Result<ShortenedSignature, OutOfMemory>
        ensures { IfOk result (λ x. x ≡ shortened group_id.now needed.now) }
    {
        let content = ShortenedContent::of(group_id, needed.content.as_slice());
        let bytes = joined(alloc, needed, &content)?;
        Ok(ShortenedSignature {
            suite: needed.suite,
            is_shortened: content.is_shortened,
            key_len: needed.key.as_slice().len() as u32,
            signature_len: needed.signature.as_slice().len() as u32,
            bytes: Sequence::new(bytes),
        })
    }

    /// Returns a copy of the signature, with the group id.
    pub(crate) fn restored(
        &self,
        alloc: Global,
        group_id: &[u8],
    ) -> Result<SignatureToVerify, OutOfMemory>
        requires { self.now.key_len + self.now.signature_len ≤ length self.now.bytes }
        ensures { IfOk result (λ q. q ≡ restored group_id.now self.now) }
    {
        let (key, rest) = self.bytes.as_slice().split_at(self.key_len as usize);
        let (signature, stored) = rest.split_at(self.signature_len as usize);
        let key = opaque_of(alloc, key)?;
        let signature = opaque_of(alloc, signature)?;
        let content = restored_content(alloc, group_id, self.is_shortened, stored)?;
        Ok(SignatureToVerify {
            suite: self.suite,
            key,
            content,
            signature,
        })
    }
}
