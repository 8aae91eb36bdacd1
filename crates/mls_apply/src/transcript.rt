//! Transcript hashes (RFC 9420, 8.2).

ghost use Rattle.std.specs.Prelude.{◌≡◌, ◌≤◌, Some, IsSome, IfOk, length};
ghost use Rattle.mls_hash.specs.SuiteHash.{hash_of};
ghost use Rattle.mls_msgs.specs.Tbs.{confirmed_input};
ghost use Rattle.mls_apply.specs.Transcript.{confirmed_hash, interim_hash};

use mls_hash::{Suite, hash};
use mls_msgs::{Authenticated, confirmed_input};
use mls_tree::HashValue;
use mls_wire::{CodecFault, Opaque, Writer};
use std::alloc::{AllocError, Global};

/// Returns the confirmed transcript hash after a commit, from the interim one before it (RFC 9420, 8.2). Fails only if
/// an allocation fails.
#[tactic(auto, unfolding(crate::specs::Transcript::confirmed_hash))]
pub fn confirmed_hash(
    alloc: Global,
    suite: Suite,
    interim: &[u8],
    auth: &Authenticated,
) -> Result<HashValue, AllocError>
    requires { IsSome (confirmed_input auth.now) }
    ensures { IfOk result (λ h. confirmed_hash (hash_of suite) interim.now auth.now ≡ Some h) }
{
    match confirmed_input(alloc, auth) {
        Ok(input) => Ok(hash(suite, interim, input.as_slice())),
        Err(CodecFault::OutOfMemory) => Err(AllocError),
        Err(CodecFault::Wire(_)) => unreachable!(),
    }
}

/// Returns the interim transcript hash after a confirmed one, from the confirmation tag of the commit (RFC 9420, 8.2).
/// Fails only if an allocation fails.
pub fn interim_hash(
    alloc: Global,
    suite: Suite,
    confirmed: &[u8],
    tag: &Opaque,
) -> Result<HashValue, AllocError>
    ensures { IfOk result (λ h. interim_hash (hash_of suite) confirmed.now (Some tag.now)
        ≡ Some h) }
{
    let mut writer = Writer::new(alloc);
    match writer.write_vec(tag.as_slice()) {
        Ok(()) => Ok(hash(suite, confirmed, writer.bytes())),
        Err(CodecFault::OutOfMemory) => Err(AllocError),
        Err(CodecFault::Wire(_)) => unreachable!(),
    }
}
