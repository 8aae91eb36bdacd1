//! Learning receipts, 32 bytes each: by a checker, and by the checker of a follower.

ghost use Rattle.std.specs.Prelude.{◌≡◌, ℕ, OnOk};
ghost use Rattle.mls_follow.specs.FollowerModel.{checker_of, state_of};
ghost use Rattle.mls_start.specs.ReceiptBytes.{with_receipts, having_learnt};

use mls_check::{LearningCheck, OutOfMemory};
use mls_follow::Follower;

/// Makes a checker learn the receipts in these bytes. Bytes after the last whole receipt are ignored.
///
/// # Errors
///
/// [`OutOfMemory`]. The checker may have learnt some of the receipts.
pub fn learn_receipts<C: LearningCheck>(checker: &mut C, receipts: &[u8]) -> Result<(), OutOfMemory>
    ensures { OnOk result
        (C.meaning checker.new ≡ having_learnt (C.meaning checker.old) receipts.now) }
{
    let mut rest = receipts;
    'receipts: while let Some((digest, others)) = rest.split_first_chunk::<32>() {
        checker.learn_receipt(*digest)?;
        rest = others;
    }
    Ok(())
}

/// Makes the checker of a follower learn the receipts in these bytes. Bytes after the last whole receipt are ignored. The
/// follower's state is unchanged.
///
/// # Errors
///
/// [`OutOfMemory`]. The checker has learnt the first ones of the receipts.
pub fn learn_in_follower<C: LearningCheck>(
    follower: &mut Follower<C>,
    receipts: &[u8],
) -> Result<(), OutOfMemory>
    ensures learnt { OnOk result (C.meaning (checker_of follower.new)
        ≡ having_learnt (C.meaning (checker_of follower.old)) receipts.now) }
    ensures first { (count : ℕ) × (C.meaning (checker_of follower.new)
        ≡ with_receipts count (C.meaning (checker_of follower.old)) receipts.now) }
    ensures state { state_of follower.new ≡ state_of follower.old }
{
    let mut rest = receipts;
    'receipts: while let Some((digest, others)) = rest.split_first_chunk::<32>() {
        follower.learn(*digest)?;
        rest = others;
    }
    Ok(())
}
