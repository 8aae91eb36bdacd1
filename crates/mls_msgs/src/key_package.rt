//! KeyPackage.

use mls_nodes::{EncodedLeaf, Extensions};
use mls_wire::{CodecFault, Decode, Draft, Encode, Opaque, Reader, Shared, TryClone, add_sizes};
use std::alloc::Global;

/// A KeyPackage (RFC 9420, 10). Any version and cipher suite can be decoded.
#[derive(Debug, Drop)]
pub struct KeyPackage {
    /// The protocol version.
    pub version: u16,
    /// The cipher suite.
    pub cipher_suite: u16,
    /// The public key that a Welcome is encrypted to.
    pub init_key: Opaque,
    /// The leaf node that is added to the tree.
    pub leaf_node: Shared<EncodedLeaf>,
    /// The extensions of the KeyPackage.
    pub extensions: Extensions,
    /// The signature over the KeyPackageTBS.
    pub signature: Opaque,
}

impl Decode for KeyPackage {
    ghost use Rattle.mls_msgs.specs.Layout.{key_package};
    ghost use Rattle.mls_msgs.specs.Parsing.{key_package_at};
    ghost use Rattle.mls_msgs.specs.ProposalExact.{key_package_exact, key_package_long};

    ghost encoding = { key_package };

    ghost reading = { key_package_at };

    #[tactic(auto, unfolding(crate::specs::Parsing::key_package_at))]
    fn read(alloc: Global, reader: &mut Reader<'_>) -> Result<KeyPackage, CodecFault> {
        let mut ahead = reader.fork();
        let version = u16::read(alloc, &mut ahead)?;
        let cipher_suite = u16::read(alloc, &mut ahead)?;
        let init_key = Opaque::read(alloc, &mut ahead)?;
        let leaf_node = Shared::read(alloc, &mut ahead)?;
        let extensions = Extensions::read(alloc, &mut ahead)?;
        let signature = Opaque::read(alloc, &mut ahead)?;
        *reader = ahead;
        Ok(KeyPackage {
            version,
            cipher_suite,
            init_key,
            leaf_node,
            extensions,
            signature,
        })
    }

    ghost exact = { key_package_exact };

    ghost long = { key_package_long };
}

impl KeyPackage {
    ghost use Rattle.std.specs.Prelude.{◌≡◌};
    ghost use Rattle.mls_wire.specs.SaturatingSizes.{size};
    ghost use Rattle.mls_wire.specs.WriteContracts.{Puts};
    ghost use Rattle.mls_msgs.specs.Tbs.{package_tbs};

    /// Returns the encoded length of the KeyPackageTBS.
    #[tactic(auto, using(mls_nodes::specs::TagSizes::tag_sizes), unfolding(crate::specs::Tbs::package_tbs))]
    pub(crate) fn size_unsigned(&self) -> Option<usize>
        ensures { result ≡ size (package_tbs self.now) }
    {
        add_sizes(
            self.version.size(),
            add_sizes(
                self.cipher_suite.size(),
                add_sizes(
                    self.init_key.size(),
                    add_sizes(self.leaf_node.size(), self.extensions.size()),
                ),
            ),
        )
    }

    /// Writes the KeyPackageTBS.
    #[tactic(auto, using(mls_wire::specs::WriteSequences::written), unfolding(crate::specs::Tbs::package_tbs))]
    pub(crate) fn put_unsigned(&self, alloc: Global, draft: &mut Draft) -> Result<(), CodecFault>
        ensures { Puts (package_tbs self.now) draft.old draft.new result }
    {
        draft.put_u16(self.version)?;
        draft.put_u16(self.cipher_suite)?;
        self.init_key.put(alloc, draft)?;
        self.leaf_node.put(alloc, draft)?;
        self.extensions.put(alloc, draft)
    }
}

impl Encode for KeyPackage {
    #[tactic(auto, using(mls_nodes::specs::TagSizes::tag_sizes, crate::proofs::Unsigned::package_signed))]
    fn size(&self) -> Option<usize> {
        add_sizes(self.size_unsigned(), self.signature.size())
    }

    #[tactic(auto, using(mls_wire::specs::WriteSequences::written, crate::proofs::Unsigned::package_signed))]
    fn put(&self, alloc: Global, draft: &mut Draft) -> Result<(), CodecFault> {
        self.put_unsigned(alloc, draft)?;
        self.signature.put(alloc, draft)
    }
}

impl TryClone for KeyPackage {
    fn try_clone(&self, alloc: Global) -> Result<KeyPackage, CodecFault> {
        Ok(KeyPackage {
            version: self.version,
            cipher_suite: self.cipher_suite,
            init_key: self.init_key.try_clone(alloc)?,
            leaf_node: self.leaf_node.try_clone(alloc)?,
            extensions: self.extensions.try_clone(alloc)?,
            signature: self.signature.try_clone(alloc)?,
        })
    }
}
