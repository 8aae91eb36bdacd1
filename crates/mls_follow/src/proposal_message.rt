//! The rules for a Proposal message (RFC 9420, 12.1 and 12.4).

ghost use Rattle.std.specs.Prelude.{◌≡◌, Some, None, IsSome, IsTrue, IfOk, IfErr, OnOk};
ghost use Rattle.mls_apply.specs.RuleLists.{first_failing};
ghost use Rattle.mls_apply.specs.Senders.{is_present};
ghost use Rattle.mls_follow.specs.AcceptanceInternal.{FailsWithRule};
ghost use Rattle.mls_follow.specs.GroupModel.{group_state};
ghost use Rattle.mls_follow.specs.MessageRules.{proposal_message_rules, reference_of};

use crate::group::Group;
use crate::resolved::SentProposal;
use mls_apply::{EpochState, Refusal, check_proposal};
use mls_check::SignatureCheck;
use mls_hash::{Suite, ref_hash};
use mls_msgs::{Authenticated, PROPOSAL_REFERENCE_LABEL, encode_authenticated};
use mls_tree::HashValue;
use mls_wire::CodecFault;
use std::alloc::{AllocError, Global};

/// Returns the ProposalRef of a proposal (RFC 9420, 5.2).
fn reference_of(alloc: Global, group: &Group, auth: &Authenticated) -> Result<HashValue, AllocError>
    requires { IsSome (reference_of group.now.context auth.now) }
    ensures { IfOk result (λ reference.
        reference_of group.now.context auth.now ≡ Some reference) }
{
    let value = match encode_authenticated(alloc, auth) {
        Ok(value) => value,
        Err(CodecFault::OutOfMemory) => return Err(AllocError),
        Err(CodecFault::Wire(_)) => unreachable!(),
    };
    let Ok(reference) = ref_hash(group.suite, PROPOSAL_REFERENCE_LABEL, value.as_slice()) else {
        unreachable!();
    };
    Ok(reference)
}

/// Returns the reference of a proposal that was sent, if the proposal is not pending and satisfies its rules.
#[tactic(auto, unfolding(crate::specs::MessageRules::is_new_proposal, mls_apply::specs::ProposalRules::checked_refusal))]
pub(crate) fn check_proposal_message<C: SignatureCheck>(
    alloc: Global,
    group: &Group,
    checker: &C,
    sent: &SentProposal<'_>,
) -> Result<HashValue, Refusal>
    requires present { IsTrue (is_present group.now.tree.tree sent.now.sender) }
    requires referenced { IsSome (reference_of group.now.context sent.now.auth.now) }
    ensures rules_hold { OnOk result (first_failing
        (proposal_message_rules (C.meaning checker.now) (group_state group.now)
        sent.now.auth.now sent.now.sender sent.now.proposal.now) ≡ None) }
    ensures reference { IfOk result (λ reference. reference_of group.now.context sent.now.auth.now
        ≡ Some reference) }
    ensures refused { IfErr result (FailsWithRule (first_failing
        (proposal_message_rules (C.meaning checker.now) (group_state group.now)
        sent.now.auth.now sent.now.sender sent.now.proposal.now))) }
{
    let SentProposal {
        auth,
        sender,
        proposal,
        ..
    } = *sent;
    let reference = reference_of(alloc, group, auth)?;
    if group.known.find(reference.as_slice()).is_some() {
        return Err(Refusal::KnownProposal);
    }
    let epoch = EpochState {
        context: &group.context,
        tree: group.tree.tree(),
    };
    check_proposal(alloc, &epoch, sender, proposal, checker)?;
    Ok(reference)
}
