//! GroupInfo.

use mls_nodes::{Extensions, GroupContext};
use mls_wire::{CodecFault, Decode, Draft, Encode, Opaque, Reader, add_sizes};
use std::alloc::Global;

/// A GroupInfo (RFC 9420, 12.4.3).
#[derive(Debug, Drop)]
pub struct GroupInfo {
    /// The GroupContext.
    pub context: GroupContext,
    /// The extensions of the GroupInfo, for example `ratchet_tree`.
    pub extensions: Extensions,
    /// The confirmation tag of the epoch.
    pub confirmation_tag: Opaque,
    /// The leaf index of the signer.
    pub signer: u32,
    /// The signature over the GroupInfoTBS.
    pub signature: Opaque,
}

impl Decode for GroupInfo {
    ghost use Rattle.mls_msgs.specs.Layout.{group_info};
    ghost use Rattle.mls_msgs.specs.Parsing.{group_info_at};
    ghost use Rattle.mls_msgs.specs.MessageExact.{group_info_exact, group_info_long};

    ghost encoding = { group_info };

    ghost reading = { group_info_at };

    #[tactic(auto, unfolding(crate::specs::Parsing::group_info_at))]
    fn read(alloc: Global, reader: &mut Reader<'_>) -> Result<GroupInfo, CodecFault> {
        let mut ahead = reader.fork();
        let context = GroupContext::read(alloc, &mut ahead)?;
        let extensions = Extensions::read(alloc, &mut ahead)?;
        let confirmation_tag = Opaque::read(alloc, &mut ahead)?;
        let signer = u32::read(alloc, &mut ahead)?;
        let signature = Opaque::read(alloc, &mut ahead)?;
        *reader = ahead;
        Ok(GroupInfo {
            context,
            extensions,
            confirmation_tag,
            signer,
            signature,
        })
    }

    ghost exact = { group_info_exact };

    ghost long = { group_info_long };
}

impl GroupInfo {
    ghost use Rattle.std.specs.Prelude.{◌≡◌};
    ghost use Rattle.mls_wire.specs.SaturatingSizes.{size};
    ghost use Rattle.mls_wire.specs.WriteContracts.{Puts};
    ghost use Rattle.mls_msgs.specs.Tbs.{info_tbs};

    /// Returns the encoded length of the GroupInfoTBS.
    #[tactic(auto, using(mls_nodes::specs::TagSizes::tag_sizes), unfolding(crate::specs::Tbs::info_tbs))]
    pub(crate) fn size_unsigned(&self) -> Option<usize>
        ensures { result ≡ size (info_tbs self.now) }
    {
        add_sizes(
            self.context.size(),
            add_sizes(
                self.extensions.size(),
                add_sizes(self.confirmation_tag.size(), self.signer.size()),
            ),
        )
    }

    /// Writes the GroupInfoTBS.
    #[tactic(auto, using(mls_wire::specs::WriteSequences::written), unfolding(crate::specs::Tbs::info_tbs))]
    pub(crate) fn put_unsigned(&self, alloc: Global, draft: &mut Draft) -> Result<(), CodecFault>
        ensures { Puts (info_tbs self.now) draft.old draft.new result }
    {
        self.context.put(alloc, draft)?;
        self.extensions.put(alloc, draft)?;
        self.confirmation_tag.put(alloc, draft)?;
        draft.put_u32(self.signer)
    }
}

impl Encode for GroupInfo {
    #[tactic(auto, using(mls_nodes::specs::TagSizes::tag_sizes, crate::proofs::Unsigned::info_signed))]
    fn size(&self) -> Option<usize> {
        add_sizes(self.size_unsigned(), self.signature.size())
    }

    #[tactic(auto, using(mls_wire::specs::WriteSequences::written, crate::proofs::Unsigned::info_signed))]
    fn put(&self, alloc: Global, draft: &mut Draft) -> Result<(), CodecFault> {
        self.put_unsigned(alloc, draft)?;
        self.signature.put(alloc, draft)
    }
}
