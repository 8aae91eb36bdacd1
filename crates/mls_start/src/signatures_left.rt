//! Signatures to verify, made one at a time.

ghost use Rattle.std.specs.Prelude.{◌≡◌, ◌≤◌, ◌-◌, ◌++◌, [], None, drop, IfOk, OnErr, length};
ghost use Rattle.std.specs.Option.{option_to_list};
ghost use Rattle.mls_tree.specs.Tree.{leaf_count};
ghost use Rattle.mls_follow.specs.FollowerModel.{state_of};
ghost use Rattle.mls_follow.specs.State.{State};
ghost use Rattle.mls_start.specs.SignaturesLeft.{signatures_left, signatures_of_leaves};

use mls_check::{OutOfMemory, SignatureCheck};
use mls_follow::Follower;
use mls_signatures::{SignatureList, SignatureToVerify, leaf_signatures};
use std::alloc::Global;

/// The signatures to verify of a start, of a resumption or of a message, which are made one at a time. In contracts
/// `signatures_left` is those that are still to be made.
#[derive(Drop)]
pub enum SignaturesLeft {
    /// Signatures that are made, and then those of the follower's leaves from this leaf index on, from left to right.
    Start {
        made: Vec<SignatureToVerify>,
        leaf: u32,
    },
    /// Those of a list from this index on.
    Listed {
        list: SignatureList,
        next: usize,
    },
}

/// Makes the next signature of a start, and counts on. `None` if there is none left.
fn next_of_start<C: SignatureCheck>(
    alloc: Global,
    follower: &Follower<C>,
    made: &mut Vec<SignatureToVerify>,
    leaf: &mut u32,
) -> Result<Option<SignatureToVerify>, OutOfMemory>
    ensures next { let s = state_of follower.now in
        IfOk result (λ next.
        made.old.items ++ signatures_of_leaves (leaf_count s.tree - leaf.old) s leaf.old
        ≡ option_to_list next ++ (made.new.items
        ++ signatures_of_leaves (leaf_count s.tree - leaf.new) s leaf.new)) }
    ensures end { let s = state_of follower.now in
        IfOk result (λ next. next ≡ None
        → made.old.items ++ signatures_of_leaves (leaf_count s.tree - leaf.old) s leaf.old ≡ []) }
    ensures unchanged_on_error { let s = state_of follower.now in
        OnErr result (made.new.items ++ signatures_of_leaves (leaf_count s.tree - leaf.new) s leaf.new
        ≡ made.old.items ++ signatures_of_leaves (leaf_count s.tree - leaf.old) s leaf.old) }
{
    let leaves = follower.tree().leaf_count();
    'leaves: while made.is_empty() && *leaf < leaves {
        *made = leaf_signatures(alloc, follower.context(), follower.tree(), *leaf)?;
        *leaf += 1;
    }
    if made.is_empty() {
        Ok(None)
    } else {
        Ok(Some(made.remove(0)))
    }
}

/// Makes the signature of a list at an index, and counts on. `None` if the index is that of the end.
#[tactic(auto, using(crate::proofs::LeavesLeft::drop_next, crate::proofs::LeavesLeft::drop_none))]
fn next_listed(
    alloc: Global,
    list: &SignatureList,
    next: &mut usize,
) -> Result<Option<SignatureToVerify>, OutOfMemory>
    ensures next { IfOk result
        (λ made. drop next.old list.now ≡ option_to_list made ++ drop next.new list.now) }
    ensures end { IfOk result (λ made. made ≡ None → drop next.old list.now ≡ []) }
    ensures unchanged_on_error { OnErr result (next.new ≡ next.old) }
{
    if *next >= list.len() {
        return Ok(None);
    }
    let signature = list.get(alloc, *next)?;
    *next += 1;
    Ok(Some(signature))
}

impl SignaturesLeft {
    /// Returns the signatures of a list. Does not allocate.
    pub fn of_list(list: SignatureList) -> SignaturesLeft
        ensures { (s : State) → signatures_left s result ≡ list }
    {
        SignaturesLeft::Listed { list, next: 0 }
    }

    /// Returns a number that the number of signatures left does not exceed.
    #[tactic(auto, using(crate::proofs::LeavesLeft::start_most, crate::proofs::LeavesLeft::drop_most))]
    pub fn at_most<C: SignatureCheck>(&self, follower: &Follower<C>) -> usize
        ensures { length (signatures_left (state_of follower.now) self.now) ≤ result }
    {
        match self {
            SignaturesLeft::Start { made, leaf: _ } => {
                made.len()
                    .saturating_add(follower.tree().leaf_count() as usize)
            }
            SignaturesLeft::Listed { list, next: _ } => list.len(),
        }
    }

    /// Makes the next signature; `None` if there is none left. `follower` is the one whose leaves are signed.
    ///
    /// # Errors
    ///
    /// [`OutOfMemory`]. The signatures left are unchanged.
    pub fn next<C: SignatureCheck>(
        &mut self,
        alloc: Global,
        follower: &Follower<C>,
    ) -> Result<Option<SignatureToVerify>, OutOfMemory>
        ensures next { IfOk result (λ next. signatures_left (state_of follower.now) self.old
            ≡ option_to_list next ++ signatures_left (state_of follower.now) self.new) }
        ensures end { IfOk result (λ next. next ≡ None → signatures_left (state_of follower.now) self.old ≡ []) }
        ensures unchanged_on_error { OnErr result (signatures_left (state_of follower.now) self.new
            ≡ signatures_left (state_of follower.now) self.old) }
    {
        match self {
            SignaturesLeft::Start { made, leaf } => next_of_start(alloc, follower, made, leaf),
            SignaturesLeft::Listed { list, next } => next_listed(alloc, list, next),
        }
    }
}
