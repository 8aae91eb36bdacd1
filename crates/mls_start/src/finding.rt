//! What is found of the bytes of a group's inputs.

ghost use Rattle.std.specs.Prelude.{◌≡◌, ◌≤◌, length};
ghost use Rattle.mls_follow.specs.FollowerModel.{state_of};
ghost use Rattle.mls_start.specs.Finding.{is_valid};
ghost use Rattle.mls_start.specs.StartFindings.{started_of};

use mls_check::{MemberFault, SignatureCheck, TreeFault};
use mls_follow::{Follower, ResumeFault, StartFault, StrictRefused};
use mls_nodes::{GroupContext, NodeFault};
use mls_strict::StrictFault;
use mls_tree::HashValue;
use mls_wire::WireFault;

/// What is said of a follower that can start or resumes.
#[derive(Clone, Copy)]
pub struct Started {
    /// The group's epoch.
    pub epoch: u64,
    /// The number of members.
    pub members: u32,
    /// The tree hash.
    pub tree_hash: HashValue,
}

/// The finding about a group's inputs: the first that applies.
#[derive(Clone, Copy)]
pub enum Finding {
    /// The GroupContext is not decodable.
    ContextUnreadable(WireFault),
    /// The GroupInfo is not decodable.
    InfoUnreadable(WireFault),
    /// The message is not a GroupInfo.
    NotGroupInfo,
    /// The tree is not decodable.
    TreeUnreadable(NodeFault),
    /// The GroupContext's version is not `mls10`.
    UnsupportedVersion,
    /// The GroupContext's cipher suite is not supported.
    UnsupportedSuite,
    /// The `required_capabilities` extension is not decodable.
    RequirementsUnreadable,
    /// The tree is not valid.
    TreeRefused(TreeFault),
    /// The tree is valid, but not the members.
    MembersRefused(MemberFault),
    /// The tree and the members are valid, but a strict rule that is asked is not met.
    TreeNotStrict(StrictFault),
    /// No follower can start.
    StartRefused(StartFault),
    /// No follower resumes from the file of a state.
    StateRefused(ResumeFault),
    /// A follower resumes from the file of a state, but the strict rules that are asked cannot be added to its own.
    StateNotStrict(StrictRefused),
    /// The tree, which has this hash, and the members are valid, and the strict rules that are asked are met.
    TreeValid(HashValue),
    /// A follower can start, or resumes.
    Starts(Started),
}

impl Finding {
    /// Returns whether all is well: the tree and the members are valid, or a follower starts or resumes.
    pub fn is_valid(&self) -> bool
        ensures { result ≡ is_valid self.now }
    {
        matches!(self, Finding::TreeValid(_) | Finding::Starts(_))
    }
}

/// Returns the tree hash of a GroupContext that belongs to a valid tree.
pub(crate) fn tree_hash_of(context: &GroupContext) -> HashValue
    requires { length context.now.tree_hash ≤ 64 }
    ensures { result ≡ context.now.tree_hash }
{
    HashValue::new(context.tree_hash.as_slice()).unwrap()
}

/// Returns the finding of a follower that has just started or resumed.
pub(crate) fn started_by<C: SignatureCheck>(follower: &Follower<C>) -> Finding
    requires { length (state_of follower.now).context.tree_hash ≤ 64 }
    ensures { result ≡ Finding.Starts (started_of (state_of follower.now)) }
{
    Finding::Starts(Started {
        epoch: follower.context().epoch,
        members: follower.tree().member_count(),
        tree_hash: tree_hash_of(follower.context()),
    })
}
