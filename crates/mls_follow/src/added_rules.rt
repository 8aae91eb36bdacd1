//! Adding strict rules to a group that is followed (own rule).

ghost use Rattle.std.specs.Prelude.{◌≡◌, OnOk, OnErr, IfErr, MatchOption};
ghost use Rattle.mls_follow.specs.AddedRules.{AreKnownStrict, FailsKnownAt, HasAddedRules, IsStrictRefused};
ghost use Rattle.mls_follow.specs.GroupModel.{group_state};

use crate::group::Group;
use mls_apply::KnownProposal;
use mls_hash::Suite;
use mls_msgs::Rules;
use mls_nodes::GroupContext;
use mls_strict::{StrictFault, StrictTreeFault, proposal_refusal, validate_strict};
use std::alloc::Global;
use thiserror::Error;

/// Why strict rules cannot be added to those of a follower.
#[derive(Clone, Copy, Debug, PartialEq, Eq, Error)]
pub enum StrictRefused {
    /// The GroupContext or the tree does not meet one of them.
    #[error("{0}")]
    Group(StrictFault),
    /// The pending proposal with this number, from 0 on, is the first that does not meet one of them.
    #[error("the pending proposal {0} does not meet the strict rules")]
    Known(usize),
    /// An allocation failed.
    #[error("out of memory")]
    OutOfMemory,
}

/// Returns the number of the first pending proposal that does not meet strict rules by itself, from 0 on.
fn first_unmet_known(
    asked: Rules,
    suite: Suite,
    context: &GroupContext,
    known: &[KnownProposal],
) -> Option<usize>
    requires { suite ≡ context.now.cipher_suite }
    ensures { MatchOption result (AreKnownStrict asked context.now known.now)
        (FailsKnownAt asked context.now known.now) }
{
    let mut number = 0;
    for pending in known {
        if proposal_refusal(asked, suite, context, &pending.proposal).is_some() {
            return Some(number);
        }
        number += 1;
    }
    None
}

impl Group {
    /// Adds strict rules to the group's set, as [`Follower::make_strict`](crate::Follower::make_strict) does.
    pub(crate) fn add_rules(&mut self, alloc: Global, asked: Rules) -> Result<(), StrictRefused>
        ensures made { OnOk result (HasAddedRules asked (group_state self.old) (group_state self.new)) }
        ensures refused { IfErr result (IsStrictRefused asked (group_state self.old)) }
        ensures unchanged_on_error { OnErr result (self.new ≡ self.old) }
    {
        let added = asked.difference(self.rules);
        match validate_strict(alloc, added, self.suite, &self.context, self.tree.tree()) {
            Ok(()) => {}
            Err(StrictTreeFault::Strict(fault)) => return Err(StrictRefused::Group(fault)),
            Err(StrictTreeFault::OutOfMemory) => return Err(StrictRefused::OutOfMemory),
        }
        let known = self.known.as_slice();
        if let Some(number) = first_unmet_known(added, self.suite, &self.context, known) {
            return Err(StrictRefused::Known(number));
        }
        self.rules = self.rules.with(asked);
        Ok(())
    }
}
