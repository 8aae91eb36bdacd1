//! The calls on a follower, for a caller in another language.

ghost use Rattle.std.specs.Prelude.{◌≡◌, Some, None, IfSome};
ghost use Rattle.mls_tree.specs.Tree.{member_count};
ghost use Rattle.mls_msgs.specs.Rules.{rule_bits};
ghost use Rattle.mls_msgs.specs.declared.rules.Rules.{Rules};
ghost use Rattle.mls_c.specs.AddedRules.{MakesStrict};
ghost use Rattle.mls_c.specs.Buffers.{IsPut};
ghost use Rattle.mls_c.specs.Followers.{state_in, meaning_in};
ghost use Rattle.mls_c.specs.Messages.{Moves, PutsQuery, Learns, Judges, PutsStateFile};
ghost use Rattle.mls_c.specs.Numbers as numbers;
ghost use Rattle.mls_c.specs.Numbers.{no_follower, unsupported_rules, one_if, EncodesRules, EncodesNoRules};

use crate::buffer::put_sized;
use crate::follower_handle::FollowerHandle;
use crate::input_verdict::{InputVerdict, NO_FOLLOWER, UNSUPPORTED_RULES, plain_verdict};
use crate::judgement::{Judgement, not_judged};
use mls_msgs::Rules;
use std::alloc::Global;

/// Drops the follower of a handle, if it has one.
#[unsafe(no_mangle)]
pub extern "C" fn mls_follower_free(alloc: Global, follower: &mut FollowerHandle)
    ensures { follower.new.value ≡ None }
{
    follower.clear(alloc);
}

/// Writes the epoch of the group (RFC 9420, 8.1).
#[unsafe(no_mangle)]
pub extern "C" fn mls_follower_epoch(
    alloc: Global,
    follower: &mut FollowerHandle,
    epoch: &mut u64,
) -> u32
    ensures none { follower.old.value ≡ None → (result ≡ no_follower) × (epoch.new ≡ epoch.old) }
    ensures epoch { IfSome follower.old.value
        (λ f. (result ≡ 0) × (epoch.new ≡ (state_in f).context.epoch)) }
    ensures unchanged { follower.new.value ≡ follower.old.value }
{
    let Some(open) = follower.take(alloc) else {
        return NO_FOLLOWER;
    };
    *epoch = open.follower.context().epoch;
    follower.put(open);
    0
}

/// Writes the number of members of the group: of non-blank leaves (RFC 9420, 4.1).
#[unsafe(no_mangle)]
pub extern "C" fn mls_follower_members(
    alloc: Global,
    follower: &mut FollowerHandle,
    members: &mut u32,
) -> u32
    ensures none { follower.old.value ≡ None → (result ≡ no_follower) × (members.new ≡ members.old) }
    ensures members { IfSome follower.old.value
        (λ f. (result ≡ 0) × (members.new ≡ member_count (state_in f).tree)) }
    ensures unchanged { follower.new.value ≡ follower.old.value }
{
    let Some(open) = follower.take(alloc) else {
        return NO_FOLLOWER;
    };
    *members = open.follower.tree().member_count();
    follower.put(open);
    0
}

/// Writes 1 if the group is over, as a commit with a ReInit was accepted (RFC 9420, 11.2), else 0.
#[unsafe(no_mangle)]
pub extern "C" fn mls_follower_ended(
    alloc: Global,
    follower: &mut FollowerHandle,
    ended: &mut u32,
) -> u32
    ensures none { follower.old.value ≡ None → (result ≡ no_follower) × (ended.new ≡ ended.old) }
    ensures ended { IfSome follower.old.value
        (λ f. (result ≡ 0) × (ended.new ≡ one_if (state_in f).ended)) }
    ensures unchanged { follower.new.value ≡ follower.old.value }
{
    let Some(open) = follower.take(alloc) else {
        return NO_FOLLOWER;
    };
    *ended = if open.follower.ended() { 1 } else { 0 };
    follower.put(open);
    0
}

/// Writes the number that encodes the follower's set of strict rules (own rule): bit `n - 40` is 1 if and only if the set
/// has the strict rule `n`.
#[unsafe(no_mangle)]
pub extern "C" fn mls_follower_rules(
    alloc: Global,
    follower: &mut FollowerHandle,
    rules: &mut u16,
) -> u32
    ensures none { follower.old.value ≡ None → (result ≡ no_follower) × (rules.new ≡ rules.old) }
    ensures rules { IfSome follower.old.value
        (λ f. (result ≡ 0) × (rules.new ≡ rule_bits (state_in f).rules)) }
    ensures unchanged { follower.new.value ≡ follower.old.value }
{
    let Some(open) = follower.take(alloc) else {
        return NO_FOLLOWER;
    };
    *rules = open.follower.rules().bits();
    follower.put(open);
    0
}

/// Adds the strict rules of the set that this number encodes to those of the follower (own rule). Only those that it lacks
/// are checked. If they cannot be added, the follower is unchanged.
#[unsafe(no_mangle)]
pub extern "C" fn mls_follower_make_strict(
    alloc: Global,
    follower: &mut FollowerHandle,
    rules: u16,
) -> InputVerdict
    ensures rules { EncodesNoRules rules → (result ≡ numbers.plain_verdict unsupported_rules)
        × (follower.new.value ≡ follower.old.value) }
    ensures none { (asked : Rules) → EncodesRules rules asked → follower.old.value ≡ None
        → result ≡ numbers.plain_verdict no_follower }
    ensures makes { (asked : Rules) → EncodesRules rules asked → Moves follower.old.value follower.new.value
        (λ f g. MakesStrict asked f g result) }
{
    let Some(asked) = Rules::from_bits(rules) else {
        return plain_verdict(UNSUPPORTED_RULES);
    };
    let Some(mut open) = follower.take(alloc) else {
        return plain_verdict(NO_FOLLOWER);
    };
    let verdict = open.make_strict(asked);
    follower.put(open);
    verdict
}

/// Puts the tree hash of the group (RFC 9420, 8.1) into a buffer.
#[unsafe(no_mangle)]
pub extern "C" fn mls_follower_tree_hash(
    alloc: Global,
    follower: &mut FollowerHandle,
    tree_hash: &mut [u8],
    needed: &mut usize,
) -> u32
    ensures none { follower.old.value ≡ None → (result ≡ no_follower)
        × (tree_hash.new ≡ tree_hash.old) × (needed.new ≡ 0) }
    ensures hash { IfSome follower.old.value (λ f. IsPut (state_in f).context.tree_hash
        tree_hash.old tree_hash.new needed.new result) }
    ensures unchanged { follower.new.value ≡ follower.old.value }
{
    *needed = 0;
    let Some(open) = follower.take(alloc) else {
        return NO_FOLLOWER;
    };
    let hash = open.follower.context().tree_hash.as_slice();
    let number = put_sized(hash, tree_hash, needed);
    follower.put(open);
    number
}

/// Puts the confirmed transcript hash of the group (RFC 9420, 8.2) into a buffer.
#[unsafe(no_mangle)]
pub extern "C" fn mls_follower_confirmed_hash(
    alloc: Global,
    follower: &mut FollowerHandle,
    confirmed_hash: &mut [u8],
    needed: &mut usize,
) -> u32
    ensures none { follower.old.value ≡ None → (result ≡ no_follower)
        × (confirmed_hash.new ≡ confirmed_hash.old) × (needed.new ≡ 0) }
    ensures hash { IfSome follower.old.value (λ f. IsPut (state_in f).context.confirmed
        confirmed_hash.old confirmed_hash.new needed.new result) }
    ensures unchanged { follower.new.value ≡ follower.old.value }
{
    *needed = 0;
    let Some(open) = follower.take(alloc) else {
        return NO_FOLLOWER;
    };
    let hash = open.follower.context().confirmed.as_slice();
    let number = put_sized(hash, confirmed_hash, needed);
    follower.put(open);
    number
}

/// Puts the records of the signatures of a message (RFC 9420, 6) that have no receipt into the buffer `records`. The state
/// and the receipts are unchanged.
#[unsafe(no_mangle)]
pub extern "C" fn mls_follower_query(
    alloc: Global,
    follower: &mut FollowerHandle,
    message: &[u8],
    records: &mut [u8],
    needed: &mut usize,
) -> u32
    ensures none { follower.old.value ≡ None → (result ≡ no_follower)
        × (records.new ≡ records.old) × (needed.new ≡ 0) }
    ensures queries { Moves follower.old.value follower.new.value (λ f g.
        PutsQuery f message.now records.old records.new needed.new result
        × (state_in g ≡ state_in f) × (meaning_in g ≡ meaning_in f)) }
{
    *needed = 0;
    let Some(mut open) = follower.take(alloc) else {
        return NO_FOLLOWER;
    };
    let number = open.query(alloc, message, records, needed);
    follower.put(open);
    number
}

/// Learns that the signatures with these receipts are good. The state is unchanged.
#[unsafe(no_mangle)]
pub extern "C" fn mls_follower_learn(
    alloc: Global,
    follower: &mut FollowerHandle,
    receipts: &[u8],
) -> u32
    ensures none { follower.old.value ≡ None → result ≡ no_follower }
    ensures learns { Moves follower.old.value follower.new.value
        (λ f g. Learns f g receipts.now result) }
{
    let Some(mut open) = follower.take(alloc) else {
        return NO_FOLLOWER;
    };
    let number = open.learn(receipts);
    follower.put(open);
    number
}

/// Processes a message (RFC 9420, 6) without a time, and accepts it if it satisfies every rule. A message that is refused
/// changes nothing. The reference of a proposal that is accepted (5.2) is put into the buffer `reference`.
#[unsafe(no_mangle)]
pub extern "C" fn mls_follower_judge(
    alloc: Global,
    follower: &mut FollowerHandle,
    message: &[u8],
    reference: &mut [u8],
) -> Judgement
    ensures none { follower.old.value ≡ None → (result ≡ numbers.not_judged no_follower)
        × (reference.new ≡ reference.old) }
    ensures judges { Moves follower.old.value follower.new.value
        (λ f g. Judges None f g message.now reference.old reference.new result) }
{
    let Some(mut open) = follower.take(alloc) else {
        return not_judged(NO_FOLLOWER);
    };
    let judgement = open.judge(None, message, reference);
    follower.put(open);
    judgement
}

/// Processes a message as `mls_follower_judge` does, at the time `now`, in seconds since 1970: the lifetime of the leaf node
/// of each Add that the message has by value must include it (RFC 9420, 7.2, 7.3 and 10.1). This is the last rule.
#[unsafe(no_mangle)]
pub extern "C" fn mls_follower_judge_at(
    alloc: Global,
    follower: &mut FollowerHandle,
    now: u64,
    message: &[u8],
    reference: &mut [u8],
) -> Judgement
    ensures none { follower.old.value ≡ None → (result ≡ numbers.not_judged no_follower)
        × (reference.new ≡ reference.old) }
    ensures judges { Moves follower.old.value follower.new.value
        (λ f g. Judges (Some now) f g message.now reference.old reference.new result) }
{
    let Some(mut open) = follower.take(alloc) else {
        return not_judged(NO_FOLLOWER);
    };
    let judgement = open.judge(Some(now), message, reference);
    follower.put(open);
    judgement
}

/// Puts the file of the state into the buffer `state`, from which a follower resumes.
#[unsafe(no_mangle)]
pub extern "C" fn mls_follower_state(
    alloc: Global,
    follower: &mut FollowerHandle,
    state: &mut [u8],
    needed: &mut usize,
) -> u32
    ensures none { follower.old.value ≡ None → (result ≡ no_follower)
        × (state.new ≡ state.old) × (needed.new ≡ 0) }
    ensures stores { IfSome follower.old.value (λ f. PutsStateFile f state.old state.new needed.new result) }
    ensures unchanged { follower.new.value ≡ follower.old.value }
{
    *needed = 0;
    let Some(open) = follower.take(alloc) else {
        return NO_FOLLOWER;
    };
    let number = open.store(state, needed);
    follower.put(open);
    number
}
