//! How a leaf came into the tree (RFC 9420, 7.2).

ghost use Rattle.mls_wire.specs.EncodedItems.{Parses};
ghost use Rattle.mls_nodes.specs.LeafParsing.{lifetime_at, source_at};

use mls_wire::{OpaqueRef, Reader, WireFault, WireFaultKind, parse_u8, parse_u64};

/// When a KeyPackage may be used, in seconds since the beginning of 1970.
#[derive(Clone, Copy, Debug)]
pub struct Lifetime {
    /// The first second of it.
    pub not_before: u64,
    /// The last one.
    pub not_after: u64,
}

/// How a leaf came into the tree: source 1, 2 or 3, a byte. Another source is `BadTag` at its offset.
pub enum LeafSource<'a> {
    /// By a KeyPackage that was added.
    KeyPackage(Lifetime),
    /// By an Update of its member.
    Update,
    /// By a Commit of its member.
    Commit {
        /// The parent hash of the next node on the direct path, empty if there is none.
        parent_hash: OpaqueRef<'a>,
    },
}

// Written out, so that a drop is one call in the proofs of its owners.
impl<'a> Drop for LeafSource<'a> {
    fn drop(self) {
        match self {
            LeafSource::KeyPackage(_) => {}
            LeafSource::Update => {}
            LeafSource::Commit { parent_hash: _ } => {}
        }
    }
}

impl Lifetime {
    /// Reads the lifetime at the front. On error the reader may have moved.
    #[tactic(auto, unfolding(crate::specs::LeafParsing::lifetime_at))]
    fn parse(reader: &mut Reader<'_>) -> Result<Lifetime, WireFault>
        ensures { Parses lifetime_at reader.old reader.new result }
    {
        let not_before = parse_u64(reader)?;
        let not_after = parse_u64(reader)?;
        Ok(Lifetime {
            not_before,
            not_after,
        })
    }
}

impl<'a> LeafSource<'a> {
    /// Reads the source at the front. On error the reader may have moved.
    #[tactic(auto, unfolding(crate::specs::LeafParsing::source_at))]
    pub(crate) fn parse(reader: &mut Reader<'a>) -> Result<LeafSource<'a>, WireFault>
        ensures { Parses source_at reader.old reader.new result }
    {
        let at = reader.position();
        match parse_u8(reader)? {
            1 => Ok(LeafSource::KeyPackage(Lifetime::parse(reader)?)),
            2 => Ok(LeafSource::Update),
            3 => Ok(LeafSource::Commit {
                parent_hash: OpaqueRef::parse(reader)?,
            }),
            kind => Err(WireFault {
                kind: WireFaultKind::BadTag(u16::from(kind)),
                at,
            }),
        }
    }
}
