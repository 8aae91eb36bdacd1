//! KeyPackages in a group that is followed (RFC 9420, 10.1 and 12.1.1).

ghost use Rattle.std.specs.Prelude.{◌≡◌, ◌≢◌, nat_lt, true, None, Some, IfOk, IfErr, OnOk};
ghost use Rattle.mls_hash.specs.Suites.{IsSupported};
ghost use Rattle.mls_apply.specs.ProposalRules.{is_from_key_package};
ghost use Rattle.mls_apply.specs.RuleLists.{first_failing};
ghost use Rattle.mls_follow.specs.FollowerModel.{checker_of, state_of};
ghost use Rattle.mls_follow.specs.State.{last_epoch};
ghost use Rattle.mls_examine.specs.AddablePackages.{IsAddable, IsUnaddable, fit_rules, form_rules_in, group_package_refusal};
ghost use Rattle.mls_examine.specs.GroupInternal.{IsUnfitForm, comes_last, supports_group, unsupported, with_support};
ghost use Rattle.mls_examine.specs.Packages.{IsFactsOf, is_signed, lifetime_of};

use crate::package_check::PackageFacts;
use crate::unaccepted_signatures::UnacceptedSignatures;
use crate::unfit::Unfit;
use mls_apply::package_ref;
use mls_check::{OutOfMemory, SignatureCheck};
use mls_follow::Follower;
use mls_msgs::{KeyPackage, StrictRule};
use mls_nodes::{LeafSource, Lifetime};
use mls_strict::package_refusal;
use std::alloc::Global;

/// Returns whether an epoch has a next one.
fn has_next(epoch: u64) -> bool
    ensures { result ≡ nat_lt epoch last_epoch }
{
    epoch < u64::MAX
}

/// Checks what a KeyPackage must satisfy in the group of a follower and what the tree does not decide (RFC 9420, 7.3, 10.1 and
/// 11.2), and returns the lifetime of its leaf node.
fn check_fit<C: SignatureCheck>(
    follower: &Follower<C>,
    key_package: &KeyPackage,
) -> Result<Lifetime, Unfit>
    ensures rules_hold { OnOk result (first_failing (fit_rules (state_of follower.now) key_package.now) ≡ None) }
    ensures from_package { OnOk result (is_from_key_package key_package.now.leaf_node.source ≡ true) }
    ensures supported { OnOk result (IsSupported key_package.now.cipher_suite) }
    ensures lifetime { IfOk result (λ lifetime.
        lifetime_of key_package.now.leaf_node.source ≡ Some lifetime) }
    ensures broken_rule { IfErr result (λ e.
        first_failing (fit_rules (state_of follower.now) key_package.now) ≡ Some e) }
{
    let context = follower.context();
    let leaf = &key_package.leaf_node;
    if follower.ended() {
        return Err(Unfit::GroupOver);
    }
    if !has_next(context.epoch) {
        return Err(Unfit::LastEpoch);
    }
    if key_package.version != context.version {
        return Err(Unfit::WrongVersion);
    }
    if key_package.cipher_suite != follower.suite().number() {
        return Err(Unfit::WrongSuite);
    }
    let lifetime = match &leaf.source() {
        LeafSource::KeyPackage(lifetime) => *lifetime,
        _ => return Err(Unfit::LeafSource),
    };
    if key_package.init_key.as_slice() == leaf.encryption_key() {
        return Err(Unfit::InitKeyReused);
    }
    Ok(lifetime)
}

/// Returns whether a strict rule comes after 51.
fn comes_last(rule: StrictRule) -> bool
    ensures { result ≡ comes_last rule }
{
    match rule {
        StrictRule::PointOffCurve => true,
        _ => false,
    }
}

/// Returns the strict rule 51, unless it is met.
fn unsupported(met: bool) -> Option<StrictRule>
    ensures { result ≡ unsupported met }
{
    if met {
        return None;
    }
    Some(StrictRule::GroupExtensionUnsupported)
}

/// Returns the first strict rule that a KeyPackage does not meet in a group: `unmet` is the first that it does not meet by
/// itself, and `met` says whether it meets 51. Only 52 comes after 51.
fn with_support(unmet: Option<StrictRule>, met: bool) -> Option<StrictRule>
    ensures { result ≡ with_support unmet met }
{
    let Some(rule) = unmet else {
        return unsupported(met);
    };
    if !comes_last(rule) || met {
        return Some(rule);
    }
    Some(StrictRule::GroupExtensionUnsupported)
}

/// Returns whether the leaf node of a KeyPackage supports the types of a follower's GroupContext extensions, if the follower has the
/// strict rule 51 (RFC 9420, 13.4).
fn supports_group<C: SignatureCheck>(
    follower: &Follower<C>,
    key_package: &KeyPackage,
) -> Result<bool, OutOfMemory>
    ensures { let s = state_of follower.now in
        IfOk result (λ met. met ≡ supports_group s.rules s.context key_package.now) }
{
    if !follower.rules().has(51) {
        return Ok(true);
    }
    follower.supports_extensions(&key_package.leaf_node)
}

/// Returns the first strict rule of a follower's set that a KeyPackage does not meet in its group.
fn unmet_rule<C: SignatureCheck>(
    follower: &Follower<C>,
    key_package: &KeyPackage,
) -> Result<Option<StrictRule>, OutOfMemory>
    ensures { let s = state_of follower.now in
        IfOk result (λ unmet. unmet ≡ group_package_refusal s.rules s.context key_package.now) }
{
    let version = follower.context().version;
    let unmet = package_refusal(follower.rules(), follower.suite(), version, key_package);
    let met = supports_group(follower, key_package)?;
    Ok(with_support(unmet, met))
}

/// Checks the last rules of a KeyPackage in the group of a follower, the strict ones and its signatures, and returns what it is
/// known by.
fn check_form<C: SignatureCheck>(
    alloc: Global,
    follower: &Follower<C>,
    key_package: &KeyPackage,
    lifetime: Lifetime,
) -> Result<PackageFacts, Unfit>
    requires from_package { is_from_key_package key_package.now.leaf_node.source ≡ true }
    requires supported { IsSupported key_package.now.cipher_suite }
    requires lifetime { lifetime_of key_package.now.leaf_node.source ≡ Some lifetime }
    ensures rules_hold { OnOk result (first_failing (form_rules_in (state_of follower.now) key_package.now) ≡ None) }
    ensures signed { OnOk result (is_signed (C.meaning (checker_of follower.now)) key_package.now ≡ true) }
    ensures facts { IfOk result (IsFactsOf key_package.now) }
    ensures unfit { IfErr result (λ e. e ≢ Unfit.OutOfMemory
        → IsUnfitForm (C.meaning (checker_of follower.now)) (state_of follower.now) key_package.now e) }
{
    if let Some(rule) = unmet_rule(follower, key_package)? {
        return Err(Unfit::Strict(rule));
    }
    let reference = package_ref(alloc, key_package)?;
    let unaccepted = UnacceptedSignatures::of_package(alloc, key_package, follower.checker())?;
    if !unaccepted.is_empty() {
        return Err(Unfit::Unsigned(unaccepted));
    }
    Ok(PackageFacts {
        reference,
        cipher_suite: key_package.cipher_suite,
        lifetime,
    })
}

/// Says whether the group of a follower can add a client by its KeyPackage, with a commit of this one Add (RFC 9420, 7.3, 10.1,
/// 12.1.1 and 12.4.2), by the strict rules of the follower. The lifetime of the KeyPackage is returned and not judged, nor is it
/// asked whom its credential stands for. A commit with a path or with more proposals can fail for these; and one that also
/// removes a member who stands in the way can be accepted.
///
/// The Add is applied to the tree in place and undone: the follower is unchanged, whatever is returned.
///
/// # Errors
///
/// The first of these, in this order:
///
/// 1. `GroupOver`: the group is over (11.2).
/// 2. `LastEpoch`: the epoch is 18,446,744,073,709,551,615.
/// 3. `WrongVersion`: the version is not the group's.
/// 4. `WrongSuite`: the cipher suite is not the group's.
/// 5. `LeafSource`: the source of the leaf node is not key_package.
/// 6. `InitKeyReused`: the init key is the leaf's encryption key.
/// 7. `TooManyLeaves`, `KeyRepeated`, `Member`: the tree after the Add fails a rule, as [`Follower::check_add`] says.
/// 8. `Strict`: it does not meet a strict rule of the follower. 51 asks whether its leaf supports the types of the GroupContext's
///    extensions.
/// 9. `Malformed`: it has no encoding, as a part is too long for a vector. None that was decoded is so.
/// 10. `Unsigned`: the signature of the leaf node or that of the package is not good. Those that the checker does not accept are
///     listed. Nothing else is wrong with the package.
///
/// Or `OutOfMemory`, at any time.
pub fn examine_package<C: SignatureCheck>(
    alloc: Global,
    follower: &mut Follower<C>,
    key_package: &KeyPackage,
) -> Result<PackageFacts, Unfit>
    ensures addable { OnOk result (IsAddable (C.meaning (checker_of follower.old)) (state_of follower.old)
        key_package.now) }
    ensures facts { IfOk result (IsFactsOf key_package.now) }
    ensures unfit { IfErr result (λ e. e ≢ Unfit.OutOfMemory
        → IsUnaddable (C.meaning (checker_of follower.old)) (state_of follower.old) key_package.now e) }
    ensures state { state_of follower.new ≡ state_of follower.old }
    ensures checker { checker_of follower.new ≡ checker_of follower.old }
{
    let lifetime = check_fit(follower, key_package)?;
    follower.check_add(key_package)?;
    check_form(alloc, follower, key_package, lifetime)
}
