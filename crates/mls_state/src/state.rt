//! The state of a follower, as a state file has it.

ghost use Rattle.mls_wire.specs.Parsing.{GivesOrFull};
ghost use Rattle.mls_state.specs.Parsing.{members_phase_at, full_phase_at};

use crate::rule_set::{put_rules, read_rules, size_of_rules};
use mls_msgs::{Authenticated, Rules};
use mls_nodes::GroupContext;
use mls_wire::{
    CodecFault, Decode, Draft, Encode, Opaque, Reader, Sequence, WireFault, WireFaultKind,
    add_sizes,
};
use std::alloc::Global;

/// The profile in which the group is followed, and whether the group is over. In the members' profile no group is over.
#[derive(Clone, Copy, Debug, PartialEq, Eq)]
pub enum GroupMode {
    /// The members' profile, encoded as 1, then 0.
    Members,
    /// The full profile, of a group that goes on, encoded as 2, then 0.
    Full,
    /// The full profile, of a group that is over (RFC 9420, 11.2), encoded as 2, then 1.
    Ended,
}

/// The state of a follower.
#[derive(Debug, Drop)]
pub struct FollowerState {
    /// The profile in which the group is followed, and whether the group is over.
    pub mode: GroupMode,
    /// The set of strict rules by which the group is followed (own rule).
    pub rules: Rules,
    /// The group's context (RFC 9420, 8.1).
    pub context: GroupContext,
    /// The interim transcript hash (RFC 9420, 8.2).
    pub interim: Opaque,
    /// The body of the encoded ratchet tree (RFC 9420, 12.4.3.3): its nodes, without the length before them.
    pub tree: Opaque,
    /// The proposals received in the current epoch, as AuthenticatedContents (RFC 9420, 6), in the order in which they
    /// were accepted (12.4).
    pub known: Sequence<Authenticated>,
    /// The KeyPackageRefs (RFC 9420, 5.2) of the Adds of the last accepted commit, in the order of its list. `None` before
    /// the first commit.
    pub added: Option<Sequence<Opaque>>,
}

/// Returns the fault of a tag that encodes nothing here.
fn bad_tag(tag: u8, at: usize) -> CodecFault {
    CodecFault::Wire(WireFault {
        kind: WireFaultKind::BadTag(u16::from(tag)),
        at,
    })
}

/// Reads what follows the members' profile: that the group goes on.
#[tactic(auto, unfolding(crate::specs::Parsing::members_phase_at))]
fn read_members_phase(alloc: Global, reader: &mut Reader<'_>) -> Result<GroupMode, CodecFault>
    ensures { GivesOrFull members_phase_at reader.old reader.new result }
{
    let mut ahead = reader.fork();
    let mode = match u8::read(alloc, &mut ahead)? {
        0 => GroupMode::Members,
        tag => return Err(bad_tag(tag, reader.position())),
    };
    *reader = ahead;
    Ok(mode)
}

/// Reads what follows the full profile: whether the group is over.
#[tactic(auto, unfolding(crate::specs::Parsing::full_phase_at))]
fn read_full_phase(alloc: Global, reader: &mut Reader<'_>) -> Result<GroupMode, CodecFault>
    ensures { GivesOrFull full_phase_at reader.old reader.new result }
{
    let mut ahead = reader.fork();
    let mode = match u8::read(alloc, &mut ahead)? {
        0 => GroupMode::Full,
        1 => GroupMode::Ended,
        tag => return Err(bad_tag(tag, reader.position())),
    };
    *reader = ahead;
    Ok(mode)
}

impl Decode for GroupMode {
    ghost use Rattle.mls_state.specs.Layout.{group_mode};
    ghost use Rattle.mls_state.specs.Parsing.{group_mode_at};
    ghost use Rattle.mls_state.specs.StateExact.{group_mode_exact, group_mode_long};

    ghost encoding = { group_mode };

    ghost reading = { group_mode_at };

    #[tactic(auto, unfolding(crate::specs::Parsing::group_mode_at))]
    fn read(alloc: Global, reader: &mut Reader<'_>) -> Result<GroupMode, CodecFault> {
        let mut ahead = reader.fork();
        let mode = match u8::read(alloc, &mut ahead)? {
            1 => read_members_phase(alloc, &mut ahead)?,
            2 => read_full_phase(alloc, &mut ahead)?,
            tag => return Err(bad_tag(tag, reader.position())),
        };
        *reader = ahead;
        Ok(mode)
    }

    ghost exact = { group_mode_exact };

    ghost long = { group_mode_long };
}

impl Encode for GroupMode {
    #[tactic(auto, using(mls_nodes::specs::TagSizes::tag_sizes), unfolding(crate::specs::Layout::group_mode))]
    fn size(&self) -> Option<usize> {
        match self {
            GroupMode::Members | GroupMode::Full | GroupMode::Ended => add_sizes(Some(1), Some(1)),
        }
    }

    #[tactic(auto, using(mls_wire::specs::WriteSequences::written), unfolding(crate::specs::Layout::group_mode))]
    fn put(&self, _alloc: Global, draft: &mut Draft) -> Result<(), CodecFault> {
        match self {
            GroupMode::Members => {
                draft.put_u8(1)?;
                draft.put_u8(0)
            }
            GroupMode::Full => {
                draft.put_u8(2)?;
                draft.put_u8(0)
            }
            GroupMode::Ended => {
                draft.put_u8(2)?;
                draft.put_u8(1)
            }
        }
    }
}

impl Decode for FollowerState {
    ghost use Rattle.mls_state.specs.Layout.{follower_state};
    ghost use Rattle.mls_state.specs.Parsing.{follower_state_at};
    ghost use Rattle.mls_state.specs.StateExact.{follower_state_exact, follower_state_long};

    ghost encoding = { follower_state };

    ghost reading = { follower_state_at };

    #[tactic(auto, unfolding(crate::specs::Parsing::follower_state_at))]
    fn read(alloc: Global, reader: &mut Reader<'_>) -> Result<FollowerState, CodecFault> {
        let mut ahead = reader.fork();
        let mode = GroupMode::read(alloc, &mut ahead)?;
        let rules = read_rules(alloc, &mut ahead)?;
        let context = GroupContext::read(alloc, &mut ahead)?;
        let interim = Opaque::read(alloc, &mut ahead)?;
        let tree = Opaque::read(alloc, &mut ahead)?;
        let known = Sequence::read(alloc, &mut ahead)?;
        let added = Option::<Sequence<Opaque>>::read(alloc, &mut ahead)?;
        *reader = ahead;
        Ok(FollowerState {
            mode,
            rules,
            context,
            interim,
            tree,
            known,
            added,
        })
    }

    ghost exact = { follower_state_exact };

    ghost long = { follower_state_long };
}

impl Encode for FollowerState {
    #[tactic(auto, using(mls_nodes::specs::TagSizes::tag_sizes), unfolding(crate::specs::Layout::follower_state))]
    fn size(&self) -> Option<usize> {
        add_sizes(
            self.mode.size(),
            add_sizes(
                size_of_rules(self.rules),
                add_sizes(
                    self.context.size(),
                    add_sizes(
                        self.interim.size(),
                        add_sizes(
                            self.tree.size(),
                            add_sizes(self.known.size(), self.added.size()),
                        ),
                    ),
                ),
            ),
        )
    }

    #[tactic(auto, using(mls_wire::specs::WriteSequences::written), unfolding(crate::specs::Layout::follower_state))]
    fn put(&self, alloc: Global, draft: &mut Draft) -> Result<(), CodecFault> {
        self.mode.put(alloc, draft)?;
        put_rules(self.rules, draft)?;
        self.context.put(alloc, draft)?;
        self.interim.put(alloc, draft)?;
        self.tree.put(alloc, draft)?;
        self.known.put(alloc, draft)?;
        self.added.put(alloc, draft)
    }
}
