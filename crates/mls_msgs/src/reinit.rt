//! Reinitialization of a group (RFC 9420, 12.1.5).

use mls_nodes::Extensions;
use mls_wire::{CodecFault, Decode, Draft, Encode, Opaque, Reader, TryClone, add_sizes};
use std::alloc::Global;

/// The parameters of the group that replaces a reinitialized group (RFC 9420, 12.1.5: ReInit). Every `u16` is decoded as
/// a version and as a cipher suite, also if it is unknown.
#[derive(Debug, Drop)]
pub struct ReInit {
    /// The new group's id.
    pub group_id: Opaque,
    /// The new group's protocol version.
    pub version: u16,
    /// The new group's cipher suite.
    pub cipher_suite: u16,
    /// The extensions of the new group's GroupContext.
    pub extensions: Extensions,
}

impl Decode for ReInit {
    ghost use Rattle.mls_msgs.specs.Layout.{reinit};
    ghost use Rattle.mls_msgs.specs.Parsing.{reinit_at};
    ghost use Rattle.mls_msgs.specs.PskExact.{reinit_exact, reinit_long};

    ghost encoding = { reinit };

    ghost reading = { reinit_at };

    #[tactic(auto, unfolding(crate::specs::Parsing::reinit_at))]
    fn read(alloc: Global, reader: &mut Reader<'_>) -> Result<ReInit, CodecFault> {
        let mut ahead = reader.fork();
        let group_id = Opaque::read(alloc, &mut ahead)?;
        let version = u16::read(alloc, &mut ahead)?;
        let cipher_suite = u16::read(alloc, &mut ahead)?;
        let extensions = Extensions::read(alloc, &mut ahead)?;
        *reader = ahead;
        Ok(ReInit {
            group_id,
            version,
            cipher_suite,
            extensions,
        })
    }

    ghost exact = { reinit_exact };

    ghost long = { reinit_long };
}

impl Encode for ReInit {
    #[tactic(auto, using(mls_nodes::specs::TagSizes::tag_sizes), unfolding(crate::specs::Layout::reinit))]
    fn size(&self) -> Option<usize> {
        add_sizes(
            self.group_id.size(),
            add_sizes(
                self.version.size(),
                add_sizes(self.cipher_suite.size(), self.extensions.size()),
            ),
        )
    }

    #[tactic(auto, using(mls_wire::specs::WriteSequences::written), unfolding(crate::specs::Layout::reinit))]
    fn put(&self, alloc: Global, draft: &mut Draft) -> Result<(), CodecFault> {
        self.group_id.put(alloc, draft)?;
        draft.put_u16(self.version)?;
        draft.put_u16(self.cipher_suite)?;
        self.extensions.put(alloc, draft)
    }
}

impl TryClone for ReInit {
    fn try_clone(&self, alloc: Global) -> Result<ReInit, CodecFault> {
        Ok(ReInit {
            group_id: self.group_id.try_clone(alloc)?,
            version: self.version,
            cipher_suite: self.cipher_suite,
            extensions: self.extensions.try_clone(alloc)?,
        })
    }
}
