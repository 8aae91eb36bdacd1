//! What is signed, without the group id.

ghost use Rattle.std.specs.Prelude.{◌≡◌, ◌++◌, IfOk};
ghost use Rattle.mls_signatures.specs.ShortenedSignatures.{has_group_id, restored_content, shortened_content, with_group_id};

use mls_check::OutOfMemory;
use mls_wire::Sequence;
use std::alloc::Global;

/// The number of bytes after the group id: those of a leaf index (RFC 9420, 7.2: LeafNodeTBS).
const AFTER_GROUP_ID: usize = 4;

/// What is signed, without the group id if it has the group id before its last four bytes, in two parts.
#[derive(Clone, Copy, Debug)]
pub(crate) struct ShortenedContent<'a> {
    /// Whether the group id is left out.
    pub(crate) is_shortened: bool,
    /// The bytes before the group id, or all bytes if it is not left out.
    pub(crate) front: &'a [u8],
    /// The bytes after the group id.
    pub(crate) back: &'a [u8],
}

/// Returns whether the bytes before the last four of `content` are the group id.
fn has_group_id(group_id: &[u8], content: &[u8]) -> bool
    ensures { result ≡ has_group_id group_id.now content.now }
{
    if content.len() < group_id.len() + AFTER_GROUP_ID {
        return false;
    }
    let start = content.len() - (group_id.len() + AFTER_GROUP_ID);
    &content[start..start + group_id.len()] == group_id
}

impl<'a> ShortenedContent<'a> {
    /// Returns what is signed, without the group id.
    pub(crate) fn of(group_id: &[u8], content: &'a [u8]) -> ShortenedContent<'a>
        ensures flag { result.is_shortened ≡ has_group_id group_id.now content.now }
        ensures bytes { result.front.now ++ result.back.now
            ≡ shortened_content group_id.now content.now }
    {
        if !has_group_id(group_id, content) {
            return ShortenedContent {
                is_shortened: false,
                front: content,
                back: &[],
            };
        }
        ShortenedContent {
            is_shortened: true,
            front: &content[..content.len() - (group_id.len() + AFTER_GROUP_ID)],
            back: &content[content.len() - AFTER_GROUP_ID..],
        }
    }
}

/// Returns a copy of bytes with the group id before their last four.
fn with_group_id(alloc: Global, group_id: &[u8], bytes: &[u8]) -> Result<Vec<u8>, OutOfMemory>
    ensures { IfOk result (λ v. v.items ≡ with_group_id group_id.now bytes.now) }
{
    let (front, back) = bytes.split_at(bytes.len().saturating_sub(AFTER_GROUP_ID));
    let mut content = Vec::with_capacity(alloc, front.len())?;
    content.extend_from_slice(front)?;
    content.extend_from_slice(group_id)?;
    content.extend_from_slice(back)?;
    Ok(content)
}

/// Returns what is signed, of which a list stores these bytes.
pub(crate) fn restored_content(
    alloc: Global,
    group_id: &[u8],
    is_shortened: bool,
    bytes: &[u8],
) -> Result<Sequence<u8>, OutOfMemory>
    ensures { IfOk result
        (λ content. content ≡ restored_content group_id.now is_shortened bytes.now) }
{
    if is_shortened {
        Ok(Sequence::new(with_group_id(alloc, group_id, bytes)?))
    } else {
        Ok(Sequence::new(Vec::from_slice(alloc, bytes)?))
    }
}
