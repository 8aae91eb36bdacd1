//! GroupInfos of a group that is followed (RFC 9420, 12.4.3 and 12.4.3.2).

ghost use Rattle.std.specs.Prelude.{◌≡◌, ◌≢◌, nat_le, is_some, None, Some, IfOk, IfErr, OnOk};
ghost use Rattle.mls_nodes.specs.Requirements.{extension_of};
ghost use Rattle.mls_apply.specs.RuleLists.{first_failing};
ghost use Rattle.mls_follow.specs.FollowerModel.{checker_of, state_of};
ghost use Rattle.mls_examine.specs.Examinations.{AreInfoFacts, IsFitInfo, IsUnfitInfo};
ghost use Rattle.mls_examine.specs.GroupInfos.{info_rules};

use crate::current_infos::check_current;
use crate::later_infos::check_later;
use crate::unfit::Unfit;
use mls_check::SignatureCheck;
use mls_follow::Follower;
use mls_msgs::GroupInfo;
use mls_nodes::find_extension;
use std::alloc::Global;

/// The extension type of a ratchet_tree (RFC 9420, 12.4.3.3).
const RATCHET_TREE: u16 = 2;

/// The extension type of an external_pub (RFC 9420, 12.4.3.2).
const EXTERNAL_PUB: u16 = 4;

/// What is known of a GroupInfo that fits a group.
#[derive(Clone, Copy, Debug)]
pub struct InfoFacts {
    /// Whether its epoch is later than that of the follower.
    pub is_later: bool,
    /// Its epoch.
    pub epoch: u64,
    /// Whether it has a ratchet_tree (RFC 9420, 12.4.3.3).
    pub has_tree: bool,
    /// Whether it has an external_pub, by which a client can join with a commit (RFC 9420, 12.4.3.2).
    pub has_external_pub: bool,
}

/// Returns whether an epoch is the present one or a later one.
fn is_at_least(epoch: u64, present: u64) -> bool
    ensures { result ≡ nat_le present epoch }
{
    present <= epoch
}

/// Checks what a GroupInfo must satisfy in any epoch: group, version and cipher suite are those of a follower, its epoch is not a
/// former one, and the group is not over.
fn check_info<C: SignatureCheck>(follower: &Follower<C>, info: &GroupInfo) -> Result<(), Unfit>
    ensures rules_hold { OnOk result (first_failing (info_rules (state_of follower.now) info.now) ≡ None) }
    ensures broken_rule { IfErr result (λ e.
        first_failing (info_rules (state_of follower.now) info.now) ≡ Some e) }
{
    let (own, context) = (&info.context, follower.context());
    if own.group_id.as_slice() != context.group_id.as_slice() {
        return Err(Unfit::WrongGroup);
    }
    if own.version != context.version {
        return Err(Unfit::WrongVersion);
    }
    if own.cipher_suite != context.cipher_suite {
        return Err(Unfit::WrongSuite);
    }
    if !is_at_least(own.epoch, context.epoch) {
        return Err(Unfit::PastEpoch);
    }
    if follower.ended() {
        return Err(Unfit::GroupOver);
    }
    Ok(())
}

/// Returns whether a GroupInfo has an extension of a type.
fn has_extension(info: &GroupInfo, kind: u16) -> bool
    ensures { result ≡ is_some (extension_of kind info.now.extensions) }
{
    find_extension(&info.extensions, kind).is_some()
}

/// Returns what is known of a GroupInfo.
fn facts_of<C: SignatureCheck>(follower: &Follower<C>, info: &GroupInfo) -> InfoFacts
    ensures { AreInfoFacts (state_of follower.now) info.now result }
{
    InfoFacts {
        is_later: follower.context().epoch < info.context.epoch,
        epoch: info.context.epoch,
        has_tree: has_extension(info, RATCHET_TREE),
        has_external_pub: has_extension(info, EXTERNAL_PUB),
    }
}

/// Checks a GroupInfo by the rules for the epoch that it has, the present one or a later one.
fn check_epoch<C: SignatureCheck>(
    alloc: Global,
    follower: &Follower<C>,
    info: &GroupInfo,
) -> Result<(), Unfit>
    requires { first_failing (info_rules (state_of follower.now) info.now) ≡ None }
    ensures fit { OnOk result (IsFitInfo (C.meaning (checker_of follower.now)) (state_of follower.now) info.now) }
    ensures unfit { IfErr result (λ e. e ≢ Unfit.OutOfMemory
        → IsUnfitInfo (C.meaning (checker_of follower.now)) (state_of follower.now) info.now e) }
{
    let present = follower.context().epoch;
    if present < info.context.epoch {
        return check_later(alloc, follower, info);
    }
    check_current(alloc, follower, info)
}

/// Says whether a GroupInfo fits the group of a follower (RFC 9420, 12.4.3 and 12.4.3.2), by the strict rules of the follower.
///
/// One of the present epoch fits if and only if a client that starts from it, with the follower's tree, is where the follower is.
/// One of a later epoch fits if and only if a follower starts from it, and a member whom this follower knows vouches for it. That
/// does not show that the group has this epoch: any member can make one of its own. Of an external_pub the form is judged, not
/// whether it is the epoch's.
///
/// The follower is unchanged, and nothing is started.
///
/// # Errors
///
/// The first of these, in this order:
///
/// 1. `WrongGroup`, `WrongVersion`, `WrongSuite`: the group id, the version or the cipher suite is not the group's.
/// 2. `PastEpoch`: the epoch is a former one.
/// 3. `GroupOver`: the group is over (11.2).
///
/// In the present epoch:
///
/// 4. `TreeHashDiffers`, `ConfirmedDiffers`, `ExtensionsDiffer`: the tree hash, the confirmed transcript hash or the extensions of
///    the GroupContext are not the group's.
/// 5. `TagDiffers`: the confirmation tag does not lead to the interim transcript hash (8.2).
/// 6. `SignerNotMember`: the signer's leaf is blank.
/// 7. `TreeDiffers`: the first ratchet_tree, if there is one, is not the encoding of the tree.
/// 8. `ExternalPubInvalid`: the first external_pub, if there is one, is not one vector with as many bytes as a public key of the
///    suite's KEM; or the key does not meet the strict rules 44 and 52 of the follower.
/// 9. `Strict`: it does not meet the strict rule 40 or 41 of the follower by itself.
/// 10. `Malformed`: what is signed has no encoding. That of a decoded one has.
/// 11. `Unsigned`: its signature is not good.
///
/// In a later epoch:
///
/// 4. `StartRefused`: no follower starts from it with the tree in it, by the strict rules of the follower, though every signature
///    is taken as good.
/// 5. `SignerUnknown`: no member of the follower's tree has the signature key of the signer.
/// 6. `ExternalPubInvalid`, as above.
/// 7. `Unsigned`: its signature or that of a leaf node is not good.
///
/// Those signatures that the checker does not accept are listed. Nothing else is wrong with the GroupInfo. Or `OutOfMemory`, at
/// any time.
///
/// One of the present epoch without a ratchet_tree takes time and memory that do not depend on the number of members. Else the
/// encoding of the tree is made once.
pub fn examine_info<C: SignatureCheck>(
    alloc: Global,
    follower: &Follower<C>,
    info: &GroupInfo,
) -> Result<InfoFacts, Unfit>
    ensures fit { OnOk result (IsFitInfo (C.meaning (checker_of follower.now)) (state_of follower.now) info.now) }
    ensures facts { IfOk result (AreInfoFacts (state_of follower.now) info.now) }
    ensures unfit { IfErr result (λ e. e ≢ Unfit.OutOfMemory
        → IsUnfitInfo (C.meaning (checker_of follower.now)) (state_of follower.now) info.now e) }
{
    check_info(follower, info)?;
    check_epoch(alloc, follower, info)?;
    Ok(facts_of(follower, info))
}
