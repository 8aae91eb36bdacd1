//! The rules for the proposals that a commit includes by value (RFC 9420, 12.1 and 12.4).

ghost use Rattle.std.specs.Prelude.{◌≡◌, None, Some, IsSome, IfOk, IfErr, OnOk};
ghost use Rattle.mls_tree.specs.Tree.{leaf_at};
ghost use Rattle.mls_msgs.specs.declared.framed_content.Sender.TheVariants.{Member};
ghost use Rattle.mls_apply.specs.RuleLists.{first_failing};
ghost use Rattle.mls_follow.specs.AcceptanceInternal.{FailsWithRule};
ghost use Rattle.mls_follow.specs.GroupModel.{group_state};
ghost use Rattle.mls_follow.specs.InlineValidity.{all_valid, both_valid, entry_validity, invalid_by, validity_rules};
ghost use Rattle.mls_follow.specs.MessageRules.{inline_rules};

use crate::group::Group;
use mls_apply::{EpochState, Refusal, check_proposal};
use mls_check::SignatureCheck;
use mls_msgs::{Commit, ProposalOrRef, Sender};
use std::alloc::{AllocError, Global};

/// Whether the proposals of each type among some proposals are valid. No ExternalInit is.
#[derive(Clone, Copy)]
struct Validity {
    adds: bool,
    updates: bool,
    removes: bool,
    extensions: bool,
    psks: bool,
    reinits: bool,
    external_inits: bool,
}

impl Validity {
    /// Returns that all are valid.
    fn full() -> Validity
        ensures { result ≡ all_valid }
    {
        Validity {
            adds: true,
            updates: true,
            removes: true,
            extensions: true,
            psks: true,
            reinits: true,
            external_inits: true,
        }
    }

    /// Returns which are valid here and in `other`.
    fn and(self, other: Validity) -> Validity
        ensures { result ≡ both_valid self other }
    {
        Validity {
            adds: self.adds && other.adds,
            updates: self.updates && other.updates,
            removes: self.removes && other.removes,
            extensions: self.extensions && other.extensions,
            psks: self.psks && other.psks,
            reinits: self.reinits && other.reinits,
            external_inits: self.external_inits && other.external_inits,
        }
    }

    /// Returns that all are valid but those that are refused by this rule.
    fn without(refusal: Refusal) -> Validity
        ensures { result ≡ invalid_by refusal }
    {
        let full = Validity::full();
        match refusal {
            Refusal::AddInvalid => Validity {
                adds: false,
                ..full
            },
            Refusal::UpdateInvalid => Validity {
                updates: false,
                ..full
            },
            Refusal::RemoveInvalid => Validity {
                removes: false,
                ..full
            },
            Refusal::ContextExtensionsInvalid => Validity {
                extensions: false,
                ..full
            },
            Refusal::PskInvalid => Validity {
                psks: false,
                ..full
            },
            Refusal::ReInitInvalid => Validity {
                reinits: false,
                ..full
            },
            Refusal::ExternalInitMisplaced => Validity {
                external_inits: false,
                ..full
            },
            _ => full,
        }
    }

    /// Returns the refusal of the first type of which not all are valid, in the order of their rules.
    fn refusal(self) -> Option<Refusal>
        ensures { result ≡ first_failing (validity_rules self) }
    {
        if !self.adds {
            return Some(Refusal::AddInvalid);
        }
        if !self.updates {
            return Some(Refusal::UpdateInvalid);
        }
        if !self.removes {
            return Some(Refusal::RemoveInvalid);
        }
        if !self.extensions {
            return Some(Refusal::ContextExtensionsInvalid);
        }
        if !self.psks {
            return Some(Refusal::PskInvalid);
        }
        if !self.reinits {
            return Some(Refusal::ReInitInvalid);
        }
        if !self.external_inits {
            return Some(Refusal::ExternalInitMisplaced);
        }
        None
    }
}

/// Returns whether the proposal of an entry is valid, if it is included by value.
#[tactic(auto, unfolding(mls_apply::specs::ProposalRules::checked_refusal))]
fn entry_validity<C: SignatureCheck>(
    alloc: Global,
    group: &Group,
    checker: &C,
    committer: u32,
    entry: &ProposalOrRef,
) -> Result<Validity, AllocError>
    requires member { IsSome (leaf_at 0 group.now.tree.tree committer) }
    ensures { IfOk result (λ v. v ≡ entry_validity (C.meaning checker.now) group.now.context
        group.now.tree.tree (Member committer) entry.now) }
{
    let ProposalOrRef::Proposal(proposal) = entry else {
        return Ok(Validity::full());
    };
    let epoch = EpochState {
        context: &group.context,
        tree: group.tree.tree(),
    };
    let sender = Sender::Member(committer);
    match check_proposal(alloc, &epoch, sender, proposal, checker) {
        Ok(()) => Ok(Validity::full()),
        Err(Refusal::OutOfMemory) => Err(AllocError),
        Err(refusal) => Ok(Validity::without(refusal)),
    }
}

/// Checks the proposals that a commit includes by value: first each Add, then each Update, then each Remove, then each
/// GroupContextExtensions, then each PreSharedKey, then each ReInit, then that there is no ExternalInit.
pub(crate) fn check_inline<C: SignatureCheck>(
    alloc: Global,
    group: &Group,
    checker: &C,
    committer: u32,
    commit: &Commit,
) -> Result<(), Refusal>
    requires member { IsSome (leaf_at 0 group.now.tree.tree committer) }
    ensures rules_hold { OnOk result (first_failing
        (inline_rules (C.meaning checker.now) (group_state group.now) committer commit.now)
        ≡ None) }
    ensures refused { IfErr result (FailsWithRule (first_failing
        (inline_rules (C.meaning checker.now) (group_state group.now) committer commit.now))) }
{
    let mut valid = Validity::full();
    let mut rest = commit.proposals.as_slice();
    while let Some((entry, tail)) = rest.split_first() {
        valid = valid.and(entry_validity(alloc, group, checker, committer, entry)?);
        rest = tail;
    }
    match valid.refusal() {
        Some(refusal) => Err(refusal),
        None => Ok(()),
    }
}
