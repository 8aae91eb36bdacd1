//! Signatures without their duplicates.

ghost use Rattle.std.specs.Prelude.{◌≡◌, ℕ, IfOk, OnOk, OnErr, List, length};
ghost use Rattle.mls_signatures.specs.SignaturesToVerify.{deduplicated};
ghost use Rattle.mls_signatures.specs.ShortenedSignatures.{AreShortened, restored_all};
ghost use Rattle.mls_signatures.specs.Marks.{marked};

use crate::shortened_signature::ShortenedSignature;
use mls_check::OutOfMemory;
use std::alloc::Global;
use std::collections::BTreeSet;

/// Returns for each signature whether none before it is equal to it.
fn first_marks(alloc: Global, list: &[ShortenedSignature]) -> Result<Vec<bool>, OutOfMemory>
    ensures length { IfOk result (λ marks. length marks.items ≡ length list.now) }
    ensures marked { (g : List ℕ) → AreShortened g list.now → IfOk result (λ marks.
        marked marks.items (restored_all g list.now) ≡ deduplicated (restored_all g list.now)) }
{
    let mut seen: BTreeSet<(u16, bool, u32, u32, &[u8])> = BTreeSet::new(alloc);
    let mut marks = Vec::new(alloc);
    for entry in list {
        let bytes = entry.bytes.as_slice();
        marks.push(seen.insert((
            entry.suite,
            entry.is_shortened,
            entry.key_len,
            entry.signature_len,
            bytes,
        ))?)?;
    }
    Ok(marks)
}

/// Removes the signatures that are not marked. Does not allocate.
fn keep_marked(list: &mut Vec<ShortenedSignature>, marks: &[bool])
    requires { length marks.now ≡ length list.old.items }
    ensures { list.new.items ≡ marked marks.now list.old.items }
{
    let mut kept = 0;
    for at in 0..marks.len() {
        if marks[at] {
            list.swap(kept, at);
            kept += 1;
        }
    }
    list.truncate(kept);
}

/// Removes the signatures that are equal to an earlier one. If memory runs out, the list is unchanged.
pub(crate) fn remove_duplicates(
    alloc: Global,
    list: &mut Vec<ShortenedSignature>,
) -> Result<(), OutOfMemory>
    ensures shortened { (g : List ℕ) → AreShortened g list.old.items → AreShortened g list.new.items }
    ensures signatures { (g : List ℕ) → AreShortened g list.old.items → OnOk result
        (restored_all g list.new.items ≡ deduplicated (restored_all g list.old.items)) }
    ensures unchanged_on_error { OnErr result (list.new.items ≡ list.old.items) }
{
    let marks = first_marks(alloc, list.as_slice())?;
    keep_marked(list, marks.as_slice());
    Ok(())
}
