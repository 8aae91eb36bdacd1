//! Which signatures of a message a follower would verify (RFC 9420, 5.1.2).

ghost use Rattle.std.specs.Prelude.{◌≡◌, ◌≢◌, ◌<◌, [], length, true, Err, IsOkAnd, IfOk, IfErr};
ghost use Rattle.mls_wire.specs.Limits.{input_limit};
ghost use Rattle.mls_signatures.specs.AcceptedSignatures.{are_from_packages};
ghost use Rattle.mls_follow.specs.Acceptance.{EncodesNoMessage};
ghost use Rattle.mls_follow.specs.GroupModel.{group_state};
ghost use Rattle.mls_follow.specs.FollowerModel.{state_of, checker_of};
ghost use Rattle.mls_follow.specs.MessageHeader.{HasNoHeader, IsUnreadMessage};
ghost use Rattle.mls_follow.specs.MessageSignatures.{AreFreshSignaturesOf, AreSignaturesOf, HaveUnacceptedOf, fresh_signatures_in_state, message_signatures_in_state};

use crate::follower::Follower;
use crate::framed_content_rules::read_message;
use crate::group::Group;
use mls_apply::Refusal;
use mls_check::{OutOfMemory, SignatureCheck};
use mls_msgs::Message;
use mls_signatures::{GroupEpoch, SignatureList, fresh_message_signatures, message_signatures};
use std::alloc::Global;
use thiserror::Error;

/// Why the signatures of a message are not returned.
#[derive(Clone, Copy, Debug, PartialEq, Eq, Error)]
pub enum SignatureListFault {
    /// The bytes encode no message (RFC 9420, 6).
    #[error("the bytes encode no message")]
    Malformed,
    /// An allocation failed. It says nothing of the message.
    #[error("out of memory")]
    OutOfMemory,
}

impl Group {
    /// Returns the signatures of a message, without duplicates. The group is unchanged, whatever is returned.
    fn signatures(&mut self, alloc: Global, message: &Message) -> Result<SignatureList, OutOfMemory>
        ensures signatures { IfOk result (λ list.
            list ≡ message_signatures_in_state (group_state self.old) message.now) }
        ensures state { group_state self.new ≡ group_state self.old }
    {
        if self.ended {
            return Ok(SignatureList::new(alloc));
        }
        let epoch = GroupEpoch {
            profile: self.profile,
            context: &self.context,
            known: &self.known,
            senders: &self.senders,
        };
        message_signatures(alloc, &epoch, &mut self.tree, message)
    }

    /// Returns those signatures of a message that no pending proposal has, without duplicates. The group is unchanged, whatever
    /// is returned.
    fn fresh_signatures(
        &mut self,
        alloc: Global,
        message: &Message,
    ) -> Result<SignatureList, OutOfMemory>
        requires { are_from_packages self.old.known ≡ true }
        ensures signatures { IfOk result (λ list.
            list ≡ fresh_signatures_in_state (group_state self.old) message.now) }
        ensures state { group_state self.new ≡ group_state self.old }
    {
        if self.ended {
            return Ok(SignatureList::new(alloc));
        }
        let epoch = GroupEpoch {
            profile: self.profile,
            context: &self.context,
            known: &self.known,
            senders: &self.senders,
        };
        fresh_message_signatures(alloc, &epoch, &mut self.tree, message)
    }
}

impl<C: SignatureCheck> Follower<C> {
    /// Returns the signatures of one message (RFC 9420, 6), without duplicates: the message's own, if it is a PublicMessage of
    /// the group and its epoch; then of an Add the leaf's and the KeyPackage's, and of an Update the leaf's; of a commit those
    /// of its proposals by value, and of the leaves that it adds or replaces. Some may be returned that no rule checks, as if
    /// another rule refuses the message before.
    ///
    /// In the members' profile only messages of members have signatures. In the full profile also the proposals that external
    /// senders and new members may send do, if the sender has a key (12.1.8). An external commit with a path has its own, and that
    /// of the path's leaf (12.4.3.2). If the group is over, there are none.
    ///
    /// The proposal list of a commit is applied to the tree in place and undone: the group and the checker are
    /// unchanged, whatever is returned.
    ///
    /// # Errors
    ///
    /// [`SignatureListFault::Malformed`] if the bytes encode no message; [`SignatureListFault::OutOfMemory`].
    ///
    /// More than 268,435,456 bytes, and bytes without the header of a message, are `Malformed` even without memory. A
    /// PrivateMessage and a Welcome have no signatures: an empty list is returned, even without memory.
    pub fn signatures_to_verify(
        &mut self,
        bytes: &[u8],
    ) -> Result<SignatureList, SignatureListFault>
        ensures needed { IfOk result (AreSignaturesOf (state_of self.old) bytes.now) }
        ensures malformed { IfErr result (λ e. e ≢ SignatureListFault.OutOfMemory
            → (e ≡ SignatureListFault.Malformed)
            × EncodesNoMessage (state_of self.old).profile bytes.now) }
        ensures too_long { input_limit < length bytes.now → result ≡ Err SignatureListFault.Malformed }
        ensures no_header { HasNoHeader bytes.now → result ≡ Err SignatureListFault.Malformed }
        ensures unread { IsUnreadMessage bytes.now → IsOkAnd result (λ list. list ≡ []) }
        ensures state { state_of self.new ≡ state_of self.old }
        ensures checker { checker_of self.new ≡ checker_of self.old }
    {
        let message = match read_message(self.alloc, self.group.profile, bytes) {
            Ok(message) => message,
            Err(Refusal::NotPublic) => return Ok(SignatureList::new(self.alloc)),
            Err(Refusal::OutOfMemory) => return Err(SignatureListFault::OutOfMemory),
            Err(_) => return Err(SignatureListFault::Malformed),
        };
        let list = self.group.signatures(self.alloc, &message);
        drop(message);
        match list {
            Ok(list) => Ok(list),
            Err(OutOfMemory) => Err(SignatureListFault::OutOfMemory),
        }
    }

    /// Returns those signatures of one message (RFC 9420, 6) that no pending proposal has, without duplicates: those of
    /// [`Follower::signatures_to_verify`], except that of the leaves that a commit adds or replaces only those are returned whose
    /// signature is not one of a proposal of its list.
    ///
    /// The checker accepts the signatures of each pending proposal: it has accepted the message or the entry of a file from which
    /// the proposal came. So what it does not accept of this list is what it does not accept of a message's signatures, in the
    /// same order. The proposals that a commit names by reference are neither read nor copied nor hashed.
    ///
    /// The group and the checker are unchanged, whatever is returned.
    ///
    /// # Errors
    ///
    /// Those of [`Follower::signatures_to_verify`].
    pub fn fresh_signatures(&mut self, bytes: &[u8]) -> Result<SignatureList, SignatureListFault>
        ensures needed { IfOk result (AreFreshSignaturesOf (state_of self.old) bytes.now) }
        ensures filtered { IfOk result (HaveUnacceptedOf (C.meaning (checker_of self.old)) (state_of self.old) bytes.now) }
        ensures malformed { IfErr result (λ e. e ≢ SignatureListFault.OutOfMemory
            → (e ≡ SignatureListFault.Malformed)
            × EncodesNoMessage (state_of self.old).profile bytes.now) }
        ensures too_long { input_limit < length bytes.now → result ≡ Err SignatureListFault.Malformed }
        ensures no_header { HasNoHeader bytes.now → result ≡ Err SignatureListFault.Malformed }
        ensures unread { IsUnreadMessage bytes.now → IsOkAnd result (λ list. list ≡ []) }
        ensures state { state_of self.new ≡ state_of self.old }
        ensures checker { checker_of self.new ≡ checker_of self.old }
    {
        let message = match read_message(self.alloc, self.group.profile, bytes) {
            Ok(message) => message,
            Err(Refusal::NotPublic) => return Ok(SignatureList::new(self.alloc)),
            Err(Refusal::OutOfMemory) => return Err(SignatureListFault::OutOfMemory),
            Err(_) => return Err(SignatureListFault::Malformed),
        };
        let list = self.group.fresh_signatures(self.alloc, &message);
        drop(message);
        match list {
            Ok(list) => Ok(list),
            Err(OutOfMemory) => Err(SignatureListFault::OutOfMemory),
        }
    }
}
