//! The calls that read what a follower has of its group, for a caller in another language.

ghost use Rattle.std.specs.Prelude.{◌≡◌, None, IfSome, length, slice_get};
ghost use Rattle.mls_nodes.specs.Layout.{group_context};
ghost use Rattle.mls_tree.specs.Tree.{leaf_at};
ghost use Rattle.mls_c.specs.Buffers.{IsPut};
ghost use Rattle.mls_c.specs.Followers.{state_in};
ghost use Rattle.mls_c.specs.GroupParts.{encoded_tree, PutsEncoding, PutsMember, PutsReference};
ghost use Rattle.mls_c.specs.Numbers.{no_follower};

use crate::buffer::put_sized;
use crate::follower_handle::FollowerHandle;
use crate::input_verdict::NO_FOLLOWER;
use std::alloc::Global;

/// Puts the group ID (RFC 9420, 8.1) into a buffer.
#[unsafe(no_mangle)]
pub extern "C" fn mls_follower_group_id(
    alloc: Global,
    follower: &mut FollowerHandle,
    group_id: &mut [u8],
    needed: &mut usize,
) -> u32
    ensures none { follower.old.value ≡ None → (result ≡ no_follower)
        × (group_id.new ≡ group_id.old) × (needed.new ≡ 0) }
    ensures id { IfSome follower.old.value (λ f. IsPut (state_in f).context.group_id
        group_id.old group_id.new needed.new result) }
    ensures unchanged { follower.new.value ≡ follower.old.value }
{
    *needed = 0;
    let Some(open) = follower.take(alloc) else {
        return NO_FOLLOWER;
    };
    let id = open.follower.context().group_id.as_slice();
    let number = put_sized(id, group_id, needed);
    follower.put(open);
    number
}

/// Puts the encoded GroupContext (RFC 9420, 8.1) into a buffer.
#[unsafe(no_mangle)]
pub extern "C" fn mls_follower_context(
    alloc: Global,
    follower: &mut FollowerHandle,
    context: &mut [u8],
    needed: &mut usize,
) -> u32
    ensures none { follower.old.value ≡ None → (result ≡ no_follower)
        × (context.new ≡ context.old) × (needed.new ≡ 0) }
    ensures context { IfSome follower.old.value (λ f. PutsEncoding (group_context (state_in f).context)
        context.old context.new needed.new result) }
    ensures unchanged { follower.new.value ≡ follower.old.value }
{
    *needed = 0;
    let Some(open) = follower.take(alloc) else {
        return NO_FOLLOWER;
    };
    let number = open.put_context(alloc, context, needed);
    follower.put(open);
    number
}

/// Puts the encoded ratchet tree (RFC 9420, 12.4.3.3) into a buffer.
#[unsafe(no_mangle)]
pub extern "C" fn mls_follower_tree(
    alloc: Global,
    follower: &mut FollowerHandle,
    tree: &mut [u8],
    needed: &mut usize,
) -> u32
    ensures none { follower.old.value ≡ None → (result ≡ no_follower)
        × (tree.new ≡ tree.old) × (needed.new ≡ 0) }
    ensures tree { IfSome follower.old.value (λ f. PutsEncoding (encoded_tree (state_in f).tree)
        tree.old tree.new needed.new result) }
    ensures unchanged { follower.new.value ≡ follower.old.value }
{
    *needed = 0;
    let Some(open) = follower.take(alloc) else {
        return NO_FOLLOWER;
    };
    let number = open.put_tree(alloc, tree, needed);
    follower.put(open);
    number
}

/// Puts the encoded credential (RFC 9420, 5.3) and the signature key (7.2) of the leaf node at a leaf index into buffers.
#[unsafe(no_mangle)]
pub extern "C" fn mls_follower_member(
    alloc: Global,
    follower: &mut FollowerHandle,
    leaf: u32,
    credential: &mut [u8],
    credential_needed: &mut usize,
    signature_key: &mut [u8],
    signature_key_needed: &mut usize,
) -> u32
    ensures none { follower.old.value ≡ None → (result ≡ no_follower)
        × (credential.new ≡ credential.old) × (credential_needed.new ≡ 0)
        × (signature_key.new ≡ signature_key.old) × (signature_key_needed.new ≡ 0) }
    ensures member { IfSome follower.old.value (λ f. PutsMember (leaf_at 0 (state_in f).tree leaf)
        credential.old credential.new credential_needed.new
        signature_key.old signature_key.new signature_key_needed.new result) }
    ensures unchanged { follower.new.value ≡ follower.old.value }
{
    *credential_needed = 0;
    *signature_key_needed = 0;
    let Some(open) = follower.take(alloc) else {
        return NO_FOLLOWER;
    };
    let number = open.put_member(
        leaf,
        credential,
        credential_needed,
        signature_key,
        signature_key_needed,
    );
    follower.put(open);
    number
}

/// Writes the number of pending proposals (RFC 9420, 12.4): those that were accepted in this epoch.
#[unsafe(no_mangle)]
pub extern "C" fn mls_follower_pending(
    alloc: Global,
    follower: &mut FollowerHandle,
    count: &mut usize,
) -> u32
    ensures none { follower.old.value ≡ None → (result ≡ no_follower) × (count.new ≡ count.old) }
    ensures count { IfSome follower.old.value
        (λ f. (result ≡ 0) × (count.new ≡ length (state_in f).known)) }
    ensures unchanged { follower.new.value ≡ follower.old.value }
{
    let Some(open) = follower.take(alloc) else {
        return NO_FOLLOWER;
    };
    *count = open.pending_count();
    follower.put(open);
    0
}

/// Puts the reference (RFC 9420, 5.2) of the pending proposal with this number into a buffer. They are numbered from 0 on, in
/// the order in which they were accepted.
#[unsafe(no_mangle)]
pub extern "C" fn mls_follower_pending_at(
    alloc: Global,
    follower: &mut FollowerHandle,
    k: usize,
    reference: &mut [u8],
    needed: &mut usize,
) -> u32
    ensures none { follower.old.value ≡ None → (result ≡ no_follower)
        × (reference.new ≡ reference.old) × (needed.new ≡ 0) }
    ensures reference { IfSome follower.old.value (λ f. PutsReference (slice_get (state_in f).known k)
        reference.old reference.new needed.new result) }
    ensures unchanged { follower.new.value ≡ follower.old.value }
{
    *needed = 0;
    let Some(open) = follower.take(alloc) else {
        return NO_FOLLOWER;
    };
    let number = open.put_reference(k, reference, needed);
    follower.put(open);
    number
}
