//! Leaf nodes that are stored as the bytes that encode them (RFC 9420, 7.2).

ghost use Rattle.std.specs.Prelude.{◌≡◌, ◌↔◌, ◌≤◌, ◌^◌, ◌-◌, IfOk, IfErr, IsTrue, Some, length, option_map, take};
ghost use Rattle.mls_wire.specs.Limits.{vector_limit};
ghost use Rattle.mls_wire.specs.Parsing.{GivesOrFull};
ghost use Rattle.mls_wire.specs.ReadContracts.{Decodes, DecodesAll, seen};
ghost use Rattle.mls_wire.specs.WriteContracts.{MakesPiece, WritesPiece};
ghost use Rattle.mls_nodes.specs.Fingerprints.{fingerprint};
ghost use Rattle.mls_nodes.specs.Layout.{leaf, unsigned_leaf};
ghost use Rattle.mls_nodes.specs.LeafBytesInternal.{IsFrom};
ghost use Rattle.mls_nodes.specs.LeafParsing.{leaf_node_at};
ghost use Rattle.mls_nodes.specs.PlainLeaf.{IsPlain};
ghost use Rattle.mls_nodes.specs.StoredLeaf.{IsAfterKeys};
ghost use Rattle.mls_wire.specs.declared.fault.CodecFault.TheVariants as codec;

use crate::capabilities::Capabilities;
use crate::credential::CredentialRef;
use crate::encoded_len::length_of_body;
use crate::fingerprints::{KeyFingerprints, copy_fingerprints, fingerprint, fingerprints_of_long};
use crate::leaf::LeafNode;
use crate::leaf_bytes::{InputPart, LeafBytes};
use crate::leaf_source::LeafSource;
use mls_wire::{
    CodecFault, Decode, Draft, Encode, MAX_BODY, OpaqueRef, Reader, TryClone, Writer, bytes_of,
    read_all_of, read_value,
};
use std::alloc::{AllocError, Global};
use std::marker::Model;

/// A leaf node (RFC 9420, 7.2), stored as the bytes that encode it: it takes little more memory than these, and is written
/// without being encoded. Leaf nodes of one tree file share its bytes ([`OwnedTreeReader`](crate::OwnedTreeReader)).
/// [`EncodedLeaf::fields`] reads the bytes. The model is the [`LeafNode`].
///
/// A leaf node with a long key also stores the fingerprints of its keys, so that a long key is hashed once. Each stores
/// whether it is plain ([`EncodedLeaf::is_plain`]), so that most are validated without being read again.
#[derive(Debug)]
pub struct EncodedLeaf {
    bytes: LeafBytes,
    fingerprints: Option<Box<KeyFingerprints>>,
    is_plain: bool,
}

// Written out, so that a drop is one call in the proofs of its owners.
impl Drop for EncodedLeaf {
    fn drop(self) {
        let EncodedLeaf {
            bytes: _,
            fingerprints: _,
            is_plain: _,
        } = self;
    }
}

impl Model for EncodedLeaf {
    ghost use Rattle.std.specs.Prelude.{option_map};
    ghost use Rattle.mls_nodes.specs.StoredLeaf.{stored_leaf, IsStoredLeaf};
    ghost use Rattle.mls_nodes.specs.declared.leaf.LeafNode.{LeafNode};

    ghost Value = { LeafNode };

    ghost view = { λ s. stored_leaf s.bytes };

    ghost invariant = { λ s. IsStoredLeaf s.bytes (option_map (λ b. b.value) s.fingerprints) s.is_plain };
}

/// Returns a copy of bytes. More than a vector may have are taken for more than there is memory for.
fn stored(alloc: Global, bytes: &[u8]) -> Result<Vec<u8>, AllocError>
    ensures copy { IfOk result (λ copy. copy.items ≡ bytes.now) }
    ensures limit { IfOk result (λ copy. length copy.items ≤ vector_limit) }
{
    if bytes.len() > MAX_BODY {
        return Err(AllocError);
    }
    Vec::from_slice(alloc, bytes)
}

/// Returns the bytes that a reader has, up to those that it has after a leaf node. They are shared with the input that
/// they are from, if it is given, and else copied.
fn read_bytes(
    alloc: Global,
    source: Option<InputPart<'_>>,
    before: &Reader<'_>,
    after: &Reader<'_>,
) -> Result<LeafBytes, CodecFault>
    requires from { IsFrom source before.now }
    requires after { length after.now.left ≤ length before.now.left }
    ensures bytes { IfOk result (λ b.
        b ≡ take (length before.now.left - length after.now.left) before.now.left) }
    ensures limit { IfOk result (λ b. length b ≤ vector_limit) }
    ensures memory { IfErr result (λ e. e ≡ codec.OutOfMemory) }
{
    let left = before.left();
    let len = left.len() - after.left().len();
    match source {
        Some(part) if len <= MAX_BODY => {
            let start = part.end - left.len();
            Ok(LeafBytes::part(part.input.try_clone(alloc)?, start, start + len))
        }
        _ => Ok(LeafBytes::own(stored(alloc, &left[..len])?)),
    }
}

impl EncodedLeaf {
    /// Reads the leaf node at the front, as [`Decode::read`]. Its bytes are shared with the input that the reader's are
    /// from, if it is given, and else copied.
    pub(crate) fn read_from(
        alloc: Global,
        source: Option<InputPart<'_>>,
        reader: &mut Reader<'_>,
    ) -> Result<EncodedLeaf, CodecFault>
        requires { IsFrom source reader.old }
        ensures { GivesOrFull leaf_node_at reader.old reader.new result }
    {
        let mut ahead = reader.fork();
        // Looked at where it is: it is large, and a `?` would move it.
        let parsed = LeafNode::parse(&mut ahead);
        let fields = match &parsed {
            Ok(fields) => fields,
            Err(fault) => return Err(CodecFault::Wire(*fault)),
        };
        let encryption_key = fields.encryption_key.as_slice();
        let signature_key = fields.signature_key.as_slice();
        let bytes = read_bytes(alloc, source, reader, &ahead)?;
        let fingerprints = fingerprints_of_long(alloc, encryption_key, signature_key)?;
        let is_plain = fields.is_plain();
        *reader = ahead;
        Ok(EncodedLeaf {
            bytes,
            fingerprints,
            is_plain,
        })
    }

    /// Returns the bytes that encode the leaf node.
    pub fn encoding(&self) -> &[u8]
        ensures encoding { leaf self.now ≡ Some result.now }
        ensures limit { length result.now ≤ vector_limit }
    {
        self.bytes.as_slice()
    }

    /// Returns the fields.
    pub fn fields(&self) -> LeafNode<'_>
        ensures { result ≡ self.now }
    {
        match LeafNode::parse(&mut Reader::new(self.bytes.as_slice())) {
            Ok(fields) => fields,
            Err(_) => unreachable!(),
        }
    }

    /// Returns the public key to which secrets are encrypted.
    pub fn encryption_key(&self) -> &[u8]
        ensures { result.now ≡ self.now.encryption_key }
    {
        match OpaqueRef::parse(&mut Reader::new(self.bytes.as_slice())) {
            Ok(key) => key.as_slice(),
            Err(_) => unreachable!(),
        }
    }

    /// Returns the public key under which the member signs.
    pub fn signature_key(&self) -> &[u8]
        ensures { result.now ≡ self.now.signature_key }
    {
        let mut reader = Reader::new(self.bytes.as_slice());
        let Ok(_) = OpaqueRef::parse(&mut reader) else {
            unreachable!();
        };
        match OpaqueRef::parse(&mut reader) {
            Ok(key) => key.as_slice(),
            Err(_) => unreachable!(),
        }
    }

    /// Returns the fingerprint of the encryption key. No key of more than 256 bytes is hashed.
    pub fn encryption_fingerprint(&self) -> u64
        ensures { result ≡ fingerprint self.now.encryption_key }
    {
        match &self.fingerprints {
            Some(both) => both.encryption,
            None => fingerprint(self.encryption_key()),
        }
    }

    /// Returns the fingerprint of the signature key. No key of more than 256 bytes is hashed.
    pub fn signature_fingerprint(&self) -> u64
        ensures { result ≡ fingerprint self.now.signature_key }
    {
        match &self.fingerprints {
            Some(both) => both.signature,
            None => fingerprint(self.signature_key()),
        }
    }

    /// Returns whether the leaf node has no extensions, and has and supports a basic credential (RFC 9420, 5.3 and 7.2).
    /// This was found when it was read, and reads nothing now.
    pub fn is_plain(&self) -> bool
        ensures { IsTrue result ↔ IsPlain self.now }
    {
        self.is_plain
    }

    /// Returns a reader of what follows the two keys.
    fn after_keys(&self) -> Reader<'_>
        ensures { IsAfterKeys self.now result }
    {
        let mut reader = Reader::new(self.bytes.as_slice());
        let Ok(_) = OpaqueRef::parse(&mut reader) else {
            unreachable!();
        };
        let Ok(_) = OpaqueRef::parse(&mut reader) else {
            unreachable!();
        };
        reader
    }

    /// Returns who the member claims to be. Reads no further.
    pub fn credential(&self) -> CredentialRef<'_>
        ensures { result ≡ self.now.credential }
    {
        match CredentialRef::parse(&mut self.after_keys()) {
            Ok(credential) => credential,
            Err(_) => unreachable!(),
        }
    }

    /// Returns what the member's client supports. Reads no further.
    pub fn capabilities(&self) -> Capabilities<'_>
        ensures { result ≡ self.now.capabilities }
    {
        let mut reader = self.after_keys();
        let Ok(_) = CredentialRef::parse(&mut reader) else {
            unreachable!();
        };
        match Capabilities::parse(&mut reader) {
            Ok(capabilities) => capabilities,
            Err(_) => unreachable!(),
        }
    }

    /// Returns how the leaf came into the tree. Reads no further.
    pub fn source(&self) -> LeafSource<'_>
        ensures { result ≡ self.now.source }
    {
        let mut reader = self.after_keys();
        let Ok(_) = CredentialRef::parse(&mut reader) else {
            unreachable!();
        };
        let Ok(_) = Capabilities::parse(&mut reader) else {
            unreachable!();
        };
        match LeafSource::parse(&mut reader) {
            Ok(source) => source,
            Err(_) => unreachable!(),
        }
    }

    /// Returns the member's signature over the other fields.
    pub fn signature(&self) -> &[u8]
        ensures { result.now ≡ self.now.signature }
    {
        self.fields().signature.as_slice()
    }

    /// Returns the bytes that encode the leaf node without its signature.
    pub fn unsigned(&self) -> &[u8]
        ensures encoding { unsigned_leaf self.now ≡ Some result.now }
        ensures limit { length result.now ≤ vector_limit }
    {
        let bytes = self.bytes.as_slice();
        let signature = length_of_body(self.signature()) as usize;
        &bytes[..bytes.len() - signature]
    }

    /// Returns the length of the encoding of the leaf node.
    pub fn encoded_len(&self) -> u64
        ensures length { option_map length (leaf self.now) ≡ Some result }
        ensures small { result ≤ 2 ^ 40 }
    {
        self.bytes.as_slice().len() as u64
    }
}

impl Decode for EncodedLeaf {
    ghost use Rattle.mls_nodes.specs.Layout.{leaf};
    ghost use Rattle.mls_nodes.specs.LeafParsing.{leaf_node_at};
    ghost use Rattle.mls_nodes.specs.NodesExact.{leaf_exact, leaf_long};

    ghost encoding = { leaf };

    ghost reading = { leaf_node_at };

    fn read(alloc: Global, reader: &mut Reader<'_>) -> Result<EncodedLeaf, CodecFault> {
        EncodedLeaf::read_from(alloc, None, reader)
    }

    ghost exact = { leaf_exact };

    ghost long = { leaf_long };
}

impl Encode for EncodedLeaf {
    #[tactic(auto, using(mls_wire::specs::EncodedSizes::size_exact))]
    fn size(&self) -> Option<usize> {
        Some(self.encoded_len() as usize)
    }

    fn put(&self, _alloc: Global, draft: &mut Draft) -> Result<(), CodecFault> {
        draft.put_bytes(self.bytes.as_slice())
    }
}

impl TryClone for EncodedLeaf {
    fn try_clone(&self, alloc: Global) -> Result<EncodedLeaf, CodecFault> {
        let bytes = self.bytes.try_clone(alloc)?;
        Ok(EncodedLeaf {
            bytes,
            fingerprints: copy_fingerprints(alloc, &self.fingerprints)?,
            is_plain: self.is_plain,
        })
    }
}

/// Reads the leaf node at the front. On error the reader is unchanged.
pub fn read_leaf(alloc: Global, reader: &mut Reader<'_>) -> Result<EncodedLeaf, CodecFault>
    ensures { Decodes leaf reader.old reader.new result }
{
    read_value(alloc, reader)
}

/// Returns the leaf node whose encoding is all of the bytes (RFC 9420, 7.2).
///
/// # Errors
///
/// A wire fault if and only if the bytes are no such encoding, or `OutOfMemory`.
pub fn decode_leaf(alloc: Global, bytes: &[u8]) -> Result<EncodedLeaf, CodecFault>
    ensures { DecodesAll leaf bytes.now result }
{
    read_all_of(alloc, bytes)
}

/// Returns a copy of the encoding of the leaf node. The only error is `OutOfMemory`.
pub fn encode_leaf(alloc: Global, value: &EncodedLeaf) -> Result<Vec<u8>, CodecFault>
    ensures { MakesPiece (leaf value.now) (seen (λ v. v.items) result) }
{
    bytes_of(alloc, value)
}

/// Appends the encoding of the leaf node.
///
/// # Errors
///
/// `OutOfMemory`. The bytes are then unchanged.
pub fn write_leaf(alloc: Global, value: &EncodedLeaf, writer: &mut Writer) -> Result<(), CodecFault>
    ensures { WritesPiece (leaf value.now) writer.old writer.new result }
{
    writer.write(alloc, value)
}
