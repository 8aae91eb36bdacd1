//! The calls that validate a tree, for a caller in another language.

ghost use Rattle.std.specs.Prelude.{◌≡◌};
ghost use Rattle.mls_msgs.specs.Rules.{plain_rules};
ghost use Rattle.mls_msgs.specs.declared.rules.Rules.{Rules};
ghost use Rattle.mls_c.specs.Followers.{AreWhole, good_by};
ghost use Rattle.mls_c.specs.Numbers as numbers;
ghost use Rattle.mls_c.specs.Numbers.{bad_receipts, unsupported_rules, EncodesRules, EncodesNoRules};
ghost use Rattle.mls_c.specs.Starts.{PutsFinding, PutsTreeFinding};

use crate::buffer::put_sized;
use crate::input_verdict::{
    InputVerdict, OUT_OF_MEMORY, UNSUPPORTED_RULES, plain_verdict, verdict_of,
};
use crate::receipts::receipts_in;
use mls_check::OutOfMemory;
use mls_msgs::Rules;
use mls_start::{Finding, tree_finding};
use std::alloc::Global;

/// Puts the tree hash of a valid tree into a buffer, and returns the verdict of the finding.
fn put_finding(finding: &Finding, tree_hash: &mut [u8], needed: &mut usize) -> InputVerdict
    requires { needed.old ≡ 0 }
    ensures { PutsFinding finding.now tree_hash.old tree_hash.new needed.new result }
{
    match finding {
        Finding::TreeValid(hash) => plain_verdict(put_sized(hash.as_slice(), tree_hash, needed)),
        _ => verdict_of(*finding),
    }
}

/// Puts the tree hash of a tree that is valid for a GroupContext by these strict rules, and by the receipts in these bytes,
/// into a buffer, and returns the verdict.
fn put_tree_finding(
    alloc: Global,
    rules: Rules,
    context: &[u8],
    tree: &[u8],
    receipts: &[u8],
    tree_hash: &mut [u8],
    needed: &mut usize,
) -> InputVerdict
    ensures not_whole { (AreWhole receipts.now → ⊥) → (result ≡ numbers.plain_verdict bad_receipts)
        × (tree_hash.new ≡ tree_hash.old) × (needed.new ≡ 0) }
    ensures finds { AreWhole receipts.now → PutsTreeFinding rules (good_by receipts.now) context.now tree.now
        tree_hash.old tree_hash.new needed.new result }
{
    *needed = 0;
    let receipts = match receipts_in(alloc, receipts) {
        Ok(receipts) => receipts,
        Err(verdict) => return verdict,
    };
    let Ok(tree) = tree.to_vec(alloc) else {
        return plain_verdict(OUT_OF_MEMORY);
    };
    match tree_finding(alloc, rules, context, tree, &receipts) {
        Ok(finding) => put_finding(&finding, tree_hash, needed),
        Err(OutOfMemory) => plain_verdict(OUT_OF_MEMORY),
    }
}

/// Checks that a ratchet tree belongs to a GroupContext and is valid, and that its leaf nodes are valid (RFC 9420, 7.3,
/// 7.9.2 and 12.4.3.1), by these receipts. Puts its tree hash into the buffer `tree_hash`.
#[unsafe(no_mangle)]
pub extern "C" fn mls_validate_tree(
    alloc: Global,
    context: &[u8],
    tree: &[u8],
    receipts: &[u8],
    tree_hash: &mut [u8],
    needed: &mut usize,
) -> InputVerdict
    ensures not_whole { (AreWhole receipts.now → ⊥) → (result ≡ numbers.plain_verdict bad_receipts)
        × (tree_hash.new ≡ tree_hash.old) × (needed.new ≡ 0) }
    ensures finds { AreWhole receipts.now → PutsTreeFinding plain_rules (good_by receipts.now) context.now tree.now
        tree_hash.old tree_hash.new needed.new result }
{
    put_tree_finding(
        alloc,
        Rules::plain(),
        context,
        tree,
        receipts,
        tree_hash,
        needed,
    )
}

/// Checks a ratchet tree as `mls_validate_tree` does, and that the GroupContext and the tree meet the set of strict rules
/// (own rule) that the number `rules` encodes.
#[unsafe(no_mangle)]
pub extern "C" fn mls_validate_tree_strict(
    alloc: Global,
    context: &[u8],
    tree: &[u8],
    receipts: &[u8],
    rules: u16,
    tree_hash: &mut [u8],
    needed: &mut usize,
) -> InputVerdict
    ensures rules { EncodesNoRules rules → (result ≡ numbers.plain_verdict unsupported_rules)
        × (tree_hash.new ≡ tree_hash.old) × (needed.new ≡ 0) }
    ensures not_whole { (asked : Rules) → EncodesRules rules asked → (AreWhole receipts.now → ⊥)
        → (result ≡ numbers.plain_verdict bad_receipts)
        × (tree_hash.new ≡ tree_hash.old) × (needed.new ≡ 0) }
    ensures finds { (asked : Rules) → EncodesRules rules asked → AreWhole receipts.now
        → PutsTreeFinding asked (good_by receipts.now) context.now tree.now
        tree_hash.old tree_hash.new needed.new result }
{
    *needed = 0;
    let Some(asked) = Rules::from_bits(rules) else {
        return plain_verdict(UNSUPPORTED_RULES);
    };
    put_tree_finding(alloc, asked, context, tree, receipts, tree_hash, needed)
}
