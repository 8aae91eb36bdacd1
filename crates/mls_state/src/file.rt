//! State files: the version 2, a checksum and a state.

ghost use Rattle.std.specs.Prelude.{◌≡◌, ◌↔◌, IfOk, Some, IsTrue};
ghost use Rattle.sha2.specs.Sha256.{sha256};
ghost use Rattle.mls_wire.specs.ReadContracts.{seen};
ghost use Rattle.mls_state.specs.Layout.{follower_state, state_file};
ghost use Rattle.mls_state.specs.StateFile.{DecodesStateFile, HasChecksum, MakesStateFile};
ghost use Rattle.mls_state.specs.StateFileInternal.{MakesChecksum};

use crate::fault::StateFileFault;
use crate::state::FollowerState;
use mls_wire::{
    CodecFault, Decode, Draft, Encode, Opaque, Reader, WireFault, WireFaultKind, add_sizes,
    bytes_of, read_input,
};
use sha2::{Digest, Sha256};
use std::alloc::Global;

/// A state, with the checksum that its file has: the SHA-256 digest of the encoded state.
#[derive(Debug, Drop)]
pub struct StateFile {
    /// The checksum as the file has it.
    pub checksum: Opaque,
    /// The state.
    pub state: FollowerState,
}

impl Decode for StateFile {
    ghost use Rattle.mls_state.specs.Layout.{state_file};
    ghost use Rattle.mls_state.specs.Parsing.{state_file_at};
    ghost use Rattle.mls_state.specs.StateExact.{state_file_exact, state_file_long};

    ghost encoding = { state_file };

    ghost reading = { state_file_at };

    #[tactic(auto, unfolding(crate::specs::Parsing::state_file_at))]
    fn read(alloc: Global, reader: &mut Reader<'_>) -> Result<StateFile, CodecFault> {
        let mut ahead = reader.fork();
        let version = u16::read(alloc, &mut ahead)?;
        if version != 2 {
            return Err(CodecFault::Wire(WireFault {
                kind: WireFaultKind::BadTag(version),
                at: reader.position(),
            }));
        }
        let checksum = Opaque::read(alloc, &mut ahead)?;
        let state = FollowerState::read(alloc, &mut ahead)?;
        *reader = ahead;
        Ok(StateFile { checksum, state })
    }

    ghost exact = { state_file_exact };

    ghost long = { state_file_long };
}

impl Encode for StateFile {
    #[tactic(auto, using(mls_nodes::specs::TagSizes::tag_sizes), unfolding(crate::specs::Layout::state_file))]
    fn size(&self) -> Option<usize> {
        add_sizes(Some(2), add_sizes(self.checksum.size(), self.state.size()))
    }

    #[tactic(auto, using(mls_wire::specs::WriteSequences::written), unfolding(crate::specs::Layout::state_file))]
    fn put(&self, alloc: Global, draft: &mut Draft) -> Result<(), CodecFault> {
        draft.put_u16(2)?;
        self.checksum.put(alloc, draft)?;
        self.state.put(alloc, draft)
    }
}

/// Returns the SHA-256 digest of bytes.
fn digest_of(bytes: &[u8]) -> [u8; 32]
    ensures { result ≡ sha256 bytes.now }
{
    let mut hasher = Sha256::new();
    hasher.update(bytes);
    hasher.finalize()
}

/// Returns the SHA-256 digest of the encoding of a state.
fn checksum_of(alloc: Global, state: &FollowerState) -> Result<[u8; 32], CodecFault>
    ensures { MakesChecksum (follower_state state.now) result }
{
    let body = bytes_of(alloc, state)?;
    Ok(digest_of(body.as_slice()))
}

/// Returns the file of a state.
///
/// # Errors
///
/// `TooLong` if and only if the state has no encoding or the file would be longer than a vector can be;
/// [`CodecFault::OutOfMemory`] if an allocation fails.
pub fn encode_state_file(alloc: Global, state: FollowerState) -> Result<Vec<u8>, CodecFault>
    ensures { MakesStateFile state (seen (λ v. v.items) result) }
{
    let checksum = checksum_of(alloc, &state)?;
    let checksum = Opaque::copy(alloc, &checksum)?;
    bytes_of(alloc, &StateFile { checksum, state })
}

/// Returns whether the checksum of a file is that of its state. The bytes are those of the file: the encoded state is their end,
/// so it is not encoded again.
fn is_intact(bytes: &[u8], file: &StateFile) -> bool
    requires { state_file file.now ≡ Some bytes.now }
    ensures { IsTrue result ↔ HasChecksum file.now }
{
    let Some(len) = file.state.size() else {
        unreachable!()
    };
    let checksum = digest_of(&bytes[bytes.len() - len..]);
    file.checksum.as_slice() == checksum.as_slice()
}

/// Returns the state in a file.
///
/// # Errors
///
/// [`StateFileFault::Unreadable`] if the bytes are no encoding of a [`StateFile`], otherwise
/// [`StateFileFault::ChecksumDiffers`] if the checksum is not the digest of the encoded state;
/// [`StateFileFault::OutOfMemory`] if an allocation fails.
pub fn decode_state_file(alloc: Global, bytes: &[u8]) -> Result<FollowerState, StateFileFault>
    ensures { DecodesStateFile bytes.now result }
{
    let file: StateFile = read_input(alloc, bytes)?;
    if is_intact(bytes, &file) {
        return Ok(file.state);
    }
    drop(file);
    Err(StateFileFault::ChecksumDiffers)
}
