//! Identifiers of pre-shared keys (RFC 9420, 8.4).

ghost use Rattle.std.specs.Prelude.{◌≡◌, ◌↔◌, IsTrue};
ghost use Rattle.mls_wire.specs.Parsing.{GivesOrFull};
ghost use Rattle.mls_msgs.specs.Parsing.{resumption_at};

use crate::bad_tag::bad_tag;
use mls_wire::{BoxedOpaque, CodecFault, Decode, Draft, Encode, Reader, TryClone, add_sizes};
use std::alloc::Global;

/// What a resumption PSK is used for (RFC 9420, 8.4: ResumptionPSKUsage).
#[derive(Clone, Copy, Debug, PartialEq, Eq)]
pub enum PskUsage {
    /// A use that the application defines: 1.
    Application,
    /// The first epoch of the group that replaces a reinitialized group (RFC 9420, 11.2): 2.
    ReInit,
    /// The first epoch of a subgroup (RFC 9420, 11.3): 3.
    Branch,
}

/// The origin of a pre-shared key (RFC 9420, 8.4: PSKType, and the fields that each type has).
#[derive(Debug, Drop)]
pub enum PskKind {
    /// A key from outside MLS, with its `psk_id`: type 1.
    External(BoxedOpaque),
    /// The resumption PSK of an epoch of a group: type 2.
    Resumption {
        /// What the key is used for.
        usage: PskUsage,
        /// The id of that group, `psk_group_id`.
        group_id: BoxedOpaque,
        /// That epoch, `psk_epoch`.
        epoch: u64,
    },
}

/// Identifies a pre-shared key and one use of it (RFC 9420, 8.4: PreSharedKeyID).
#[derive(Debug, Drop)]
pub struct PreSharedKeyId {
    /// The origin of the key.
    pub kind: PskKind,
    /// The `psk_nonce`, a random value that is fresh for each use of the key.
    pub nonce: BoxedOpaque,
}

impl Decode for PskUsage {
    ghost use Rattle.mls_msgs.specs.Layout.{psk_usage};
    ghost use Rattle.mls_msgs.specs.Parsing.{psk_usage_at};
    ghost use Rattle.mls_msgs.specs.PskExact.{psk_usage_exact, psk_usage_long};

    ghost encoding = { psk_usage };

    ghost reading = { psk_usage_at };

    #[tactic(auto, unfolding(crate::specs::Parsing::psk_usage_at))]
    fn read(alloc: Global, reader: &mut Reader<'_>) -> Result<PskUsage, CodecFault> {
        let mut ahead = reader.fork();
        let usage = match u8::read(alloc, &mut ahead)? {
            1 => PskUsage::Application,
            2 => PskUsage::ReInit,
            3 => PskUsage::Branch,
            kind => return Err(bad_tag(u16::from(kind), reader.position())),
        };
        *reader = ahead;
        Ok(usage)
    }

    ghost exact = { psk_usage_exact };

    ghost long = { psk_usage_long };
}

impl Encode for PskUsage {
    #[tactic(auto, using(mls_nodes::specs::TagSizes::tag_sizes), unfolding(crate::specs::Layout::psk_usage))]
    fn size(&self) -> Option<usize> {
        match self {
            PskUsage::Application | PskUsage::ReInit | PskUsage::Branch => Some(1),
        }
    }

    #[tactic(auto, using(mls_wire::specs::WriteSequences::written), unfolding(crate::specs::Layout::psk_usage))]
    fn put(&self, _alloc: Global, draft: &mut Draft) -> Result<(), CodecFault> {
        match self {
            PskUsage::Application => draft.put_u8(1),
            PskUsage::ReInit => draft.put_u8(2),
            PskUsage::Branch => draft.put_u8(3),
        }
    }
}

/// Reads the fields of a resumption PSK: its usage, group id and epoch.
#[tactic(auto, unfolding(crate::specs::Parsing::resumption_at))]
fn read_resumption(alloc: Global, reader: &mut Reader<'_>) -> Result<PskKind, CodecFault>
    ensures { GivesOrFull resumption_at reader.old reader.new result }
{
    let mut ahead = reader.fork();
    let usage = PskUsage::read(alloc, &mut ahead)?;
    let group_id = BoxedOpaque::read(alloc, &mut ahead)?;
    let epoch = u64::read(alloc, &mut ahead)?;
    *reader = ahead;
    Ok(PskKind::Resumption {
        usage,
        group_id,
        epoch,
    })
}

impl Decode for PskKind {
    ghost use Rattle.mls_msgs.specs.Layout.{psk_kind};
    ghost use Rattle.mls_msgs.specs.Parsing.{psk_kind_at};
    ghost use Rattle.mls_msgs.specs.PskExact.{psk_kind_exact, psk_kind_long};

    ghost encoding = { psk_kind };

    ghost reading = { psk_kind_at };

    #[tactic(auto, unfolding(crate::specs::Parsing::psk_kind_at))]
    fn read(alloc: Global, reader: &mut Reader<'_>) -> Result<PskKind, CodecFault> {
        let mut ahead = reader.fork();
        let kind = match u8::read(alloc, &mut ahead)? {
            1 => PskKind::External(BoxedOpaque::read(alloc, &mut ahead)?),
            2 => read_resumption(alloc, &mut ahead)?,
            kind => return Err(bad_tag(u16::from(kind), reader.position())),
        };
        *reader = ahead;
        Ok(kind)
    }

    ghost exact = { psk_kind_exact };

    ghost long = { psk_kind_long };
}

impl Encode for PskKind {
    #[tactic(auto, using(mls_nodes::specs::TagSizes::tag_sizes), unfolding(crate::specs::Layout::psk_kind))]
    fn size(&self) -> Option<usize> {
        match self {
            PskKind::External(id) => add_sizes(Some(1), id.size()),
            PskKind::Resumption {
                usage,
                group_id,
                epoch,
            } => add_sizes(
                Some(1),
                add_sizes(usage.size(), add_sizes(group_id.size(), epoch.size())),
            ),
        }
    }

    #[tactic(auto, using(mls_wire::specs::WriteSequences::written), unfolding(crate::specs::Layout::psk_kind))]
    fn put(&self, alloc: Global, draft: &mut Draft) -> Result<(), CodecFault> {
        match self {
            PskKind::External(id) => {
                draft.put_u8(1)?;
                id.put(alloc, draft)
            }
            PskKind::Resumption {
                usage,
                group_id,
                epoch,
            } => {
                draft.put_u8(2)?;
                usage.put(alloc, draft)?;
                group_id.put(alloc, draft)?;
                draft.put_u64(*epoch)
            }
        }
    }
}

impl Decode for PreSharedKeyId {
    ghost use Rattle.mls_msgs.specs.Layout.{psk_id};
    ghost use Rattle.mls_msgs.specs.Parsing.{psk_id_at};
    ghost use Rattle.mls_msgs.specs.PskExact.{psk_id_exact, psk_id_long};

    ghost encoding = { psk_id };

    ghost reading = { psk_id_at };

    #[tactic(auto, unfolding(crate::specs::Parsing::psk_id_at))]
    fn read(alloc: Global, reader: &mut Reader<'_>) -> Result<PreSharedKeyId, CodecFault> {
        let mut ahead = reader.fork();
        let kind = PskKind::read(alloc, &mut ahead)?;
        let nonce = BoxedOpaque::read(alloc, &mut ahead)?;
        *reader = ahead;
        Ok(PreSharedKeyId { kind, nonce })
    }

    ghost exact = { psk_id_exact };

    ghost long = { psk_id_long };
}

impl Encode for PreSharedKeyId {
    #[tactic(auto, using(mls_nodes::specs::TagSizes::tag_sizes), unfolding(crate::specs::Layout::psk_id))]
    fn size(&self) -> Option<usize> {
        add_sizes(self.kind.size(), self.nonce.size())
    }

    #[tactic(auto, using(mls_wire::specs::WriteSequences::written), unfolding(crate::specs::Layout::psk_id))]
    fn put(&self, alloc: Global, draft: &mut Draft) -> Result<(), CodecFault> {
        self.kind.put(alloc, draft)?;
        self.nonce.put(alloc, draft)
    }
}

impl TryClone for PskKind {
    fn try_clone(&self, alloc: Global) -> Result<PskKind, CodecFault> {
        match self {
            PskKind::External(id) => Ok(PskKind::External(id.try_clone(alloc)?)),
            PskKind::Resumption {
                usage,
                group_id,
                epoch,
            } => Ok(PskKind::Resumption {
                usage: *usage,
                group_id: group_id.try_clone(alloc)?,
                epoch: *epoch,
            }),
        }
    }
}

impl TryClone for PreSharedKeyId {
    fn try_clone(&self, alloc: Global) -> Result<PreSharedKeyId, CodecFault> {
        Ok(PreSharedKeyId {
            kind: self.kind.try_clone(alloc)?,
            nonce: self.nonce.try_clone(alloc)?,
        })
    }
}

/// Returns whether two vectors have the same bytes.
fn is_same_vector(one: &BoxedOpaque, other: &BoxedOpaque) -> bool
    ensures { IsTrue result ↔ (one.now ≡ other.now) }
{
    one.as_slice() == other.as_slice()
}

/// Returns whether two usages are equal.
fn is_same_usage(one: PskUsage, other: PskUsage) -> bool
    ensures { IsTrue result ↔ (one ≡ other) }
{
    one == other
}

/// Returns whether two origins are equal in every field.
fn is_same_kind(one: &PskKind, other: &PskKind) -> bool
    ensures { IsTrue result ↔ (one.now ≡ other.now) }
{
    match (one, other) {
        (PskKind::External(id), PskKind::External(other_id)) => is_same_vector(id, other_id),
        (
            PskKind::Resumption {
                usage,
                group_id,
                epoch,
            },
            PskKind::Resumption {
                usage: other_usage,
                group_id: other_group,
                epoch: other_epoch,
            },
        ) => {
            is_same_usage(*usage, *other_usage)
                && is_same_vector(group_id, other_group)
                && *epoch == *other_epoch
        }
        _ => false,
    }
}

impl PreSharedKeyId {
    /// Returns whether the two are equal in every field, the nonce too (RFC 9420, 12.2: no two PreSharedKey proposals
    /// of a list have the same PreSharedKeyID).
    pub fn is_same(&self, other: &PreSharedKeyId) -> bool
        ensures { IsTrue result ↔ (self.now ≡ other.now) }
    {
        is_same_kind(&self.kind, &other.kind) && is_same_vector(&self.nonce, &other.nonce)
    }
}
