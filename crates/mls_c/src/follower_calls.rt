//! The calls of a follower.

ghost use Rattle.std.specs.Prelude.{◌≡◌};
ghost use Rattle.mls_c.specs.AddedRules.{MakesStrict};
ghost use Rattle.mls_c.specs.Followers.{state_in, meaning_in};
ghost use Rattle.mls_c.specs.Messages as messages;
ghost use Rattle.mls_c.specs.Messages.{PutsQuery, Learns, Judges, PutsStateFile};

use crate::buffer::{put, put_sized};
use crate::group_follower::GroupFollower;
use crate::input_verdict::{
    BAD_RECEIPTS, BUFFER_TOO_SMALL, InputVerdict, OUT_OF_MEMORY, TOO_LONG, added_verdict,
    plain_verdict,
};
use crate::judgement::{Judgement, judgement_of, not_judged};
use crate::query::query_records;
use crate::receipts::are_whole;
use mls_check::OutOfMemory;
use mls_follow::{Refusal, SignatureListFault, Taken};
use mls_msgs::Rules;
use mls_start::{SignaturesLeft, learn_in_follower};
use mls_wire::CodecFault;
use std::alloc::Global;

/// The size of a buffer for each reference of a proposal.
const REFERENCE_SIZE: usize = 64;

/// The number of a message that cannot be read.
pub(crate) const MALFORMED: u32 = 1;

/// Puts the reference of a proposal that was accepted into a buffer.
fn put_reference(answer: &Result<Taken, Refusal>, reference: &mut [u8])
    ensures { reference.new ≡ messages.put_reference answer.now reference.old }
{
    if let Ok(Taken::Proposal(hash)) = answer {
        let _number = put(hash.as_slice(), reference);
    }
}

impl GroupFollower {
    /// Puts the records of the signatures of a message that are not known to be good into a buffer. Returns 0 or why not. Those
    /// of the pending proposals are known to be good, so they are not made.
    pub(crate) fn query(
        &mut self,
        alloc: Global,
        message: &[u8],
        buffer: &mut [u8],
        needed: &mut usize,
    ) -> u32
        ensures queries { PutsQuery self.old message.now buffer.old buffer.new needed.new result }
        ensures state { state_in self.new ≡ state_in self.old }
        ensures meaning { meaning_in self.new ≡ meaning_in self.old }
    {
        *needed = 0;
        let list = match self.follower.fresh_signatures(message) {
            Ok(list) => list,
            Err(SignatureListFault::Malformed) => return MALFORMED,
            Err(SignatureListFault::OutOfMemory) => return OUT_OF_MEMORY,
        };
        let left = SignaturesLeft::of_list(list);
        match query_records(alloc, left, &self.follower, self.follower.checker()) {
            Ok(records) => put_sized(records.as_slice(), buffer, needed),
            Err(OutOfMemory) => OUT_OF_MEMORY,
        }
    }

    /// Learns receipts. Returns 0 or why not.
    pub(crate) fn learn(&mut self, receipts: &[u8]) -> u32
        ensures { Learns self.old self.new receipts.now result }
    {
        if !are_whole(receipts) {
            return BAD_RECEIPTS;
        }
        match learn_in_follower(&mut self.follower, receipts) {
            Ok(()) => 0,
            Err(OutOfMemory) => OUT_OF_MEMORY,
        }
    }

    /// Adds strict rules to those of the follower. Returns the verdict.
    pub(crate) fn make_strict(&mut self, asked: Rules) -> InputVerdict
        ensures { MakesStrict asked self.old self.new result }
    {
        match self.follower.make_strict(asked) {
            Ok(()) => plain_verdict(0),
            Err(refused) => added_verdict(refused),
        }
    }

    /// Processes a message at the time `now`, if one is passed, and puts the reference of a proposal that is accepted into a
    /// buffer.
    pub(crate) fn judge(
        &mut self,
        now: Option<u64>,
        message: &[u8],
        reference: &mut [u8],
    ) -> Judgement
        ensures { Judges now self.old self.new message.now reference.old reference.new result }
    {
        if reference.len() < REFERENCE_SIZE {
            return not_judged(BUFFER_TOO_SMALL);
        }
        let answer = self.follower.take_at(now, message);
        put_reference(&answer, reference);
        judgement_of(&answer)
    }

    /// Puts the file of the state into a buffer. Returns 0 or why not.
    pub(crate) fn store(&self, buffer: &mut [u8], needed: &mut usize) -> u32
        ensures { PutsStateFile self.now buffer.old buffer.new needed.new result }
    {
        *needed = 0;
        match self.follower.encode_state() {
            Ok(bytes) => put_sized(bytes.as_slice(), buffer, needed),
            Err(CodecFault::Wire(_)) => TOO_LONG,
            Err(CodecFault::OutOfMemory) => OUT_OF_MEMORY,
        }
    }
}
