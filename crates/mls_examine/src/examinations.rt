//! Examinations: whether a message other than a handshake fits a group that is followed.

ghost use Rattle.std.specs.Prelude.{◌≡◌, ◌≢◌, IfOk, IfErr};
ghost use Rattle.mls_follow.specs.Acceptance.{EncodesNoMessage};
ghost use Rattle.mls_follow.specs.FollowerModel.{checker_of, state_of};
ghost use Rattle.mls_follow.specs.State.{EncodesMessage};
ghost use Rattle.mls_examine.specs.Examinations.{IsExamined, IsExaminedAs, IsUnfit, IsUnfitAs};

use crate::addable_packages::examine_package;
use crate::group_infos::{InfoFacts, examine_info};
use crate::package_check::PackageFacts;
use crate::unfit::Unfit;
use mls_check::SignatureCheck;
use mls_follow::Follower;
use mls_msgs::{Message, Profile, decode_message_in};
use mls_wire::CodecFault;
use std::alloc::Global;

/// What is known of a message that fits a group.
#[derive(Clone, Copy, Debug)]
pub enum Examined {
    /// A KeyPackage, by which the group can add a client (RFC 9420, 10).
    Package(PackageFacts),
    /// A GroupInfo of the present epoch, or of a later one (RFC 9420, 12.4.3).
    Info(InfoFacts),
}

/// Decodes the message of a profile whose encoding the bytes are. `Malformed` if there is none.
fn decode(alloc: Global, profile: Profile, bytes: &[u8]) -> Result<Message, Unfit>
    ensures read { IfOk result (λ m. EncodesMessage profile m bytes.now) }
    ensures unread { IfErr result (λ e. e ≢ Unfit.OutOfMemory → (e ≡ Unfit.Malformed)
        × EncodesNoMessage profile bytes.now) }
{
    match decode_message_in(alloc, profile, bytes) {
        Ok(message) => Ok(message),
        Err(CodecFault::OutOfMemory) => Err(Unfit::OutOfMemory),
        Err(CodecFault::Wire(_)) => Err(Unfit::Malformed),
    }
}

/// Examines a message that was decoded.
fn examine_message<C: SignatureCheck>(
    alloc: Global,
    follower: &mut Follower<C>,
    message: &Message,
) -> Result<Examined, Unfit>
    ensures fit { IfOk result (IsExaminedAs (C.meaning (checker_of follower.old)) (state_of follower.old) message.now) }
    ensures unfit { IfErr result (λ e. e ≢ Unfit.OutOfMemory
        → IsUnfitAs (C.meaning (checker_of follower.old)) (state_of follower.old) message.now e) }
    ensures state { state_of follower.new ≡ state_of follower.old }
    ensures checker { checker_of follower.new ≡ checker_of follower.old }
{
    match message {
        Message::Public(_) => Err(Unfit::PublicMessage),
        Message::Unread { .. } => Err(Unfit::Malformed),
        Message::GroupInfo(info) => Ok(Examined::Info(examine_info(alloc, follower, info)?)),
        Message::KeyPackage(key_package) => {
            Ok(Examined::Package(examine_package(alloc, follower, key_package)?))
        }
    }
}

/// Says whether a message other than a PublicMessage fits the group of a follower, and what is known of it, by
/// [`examine_package`] and [`examine_info`]. The message is decoded in the profile of the follower.
///
/// The follower is unchanged, whatever is returned.
///
/// # Errors
///
/// - `Malformed`: the bytes encode no message (RFC 9420, 6), or a PrivateMessage or a Welcome, whose bodies are not read.
/// - `PublicMessage`: it is one for [`Follower::take`].
/// - Those of [`examine_package`] of a KeyPackage, and those of [`examine_info`] of a GroupInfo.
/// - `OutOfMemory`.
pub fn examine<C: SignatureCheck>(
    alloc: Global,
    follower: &mut Follower<C>,
    bytes: &[u8],
) -> Result<Examined, Unfit>
    ensures examined { IfOk result (IsExamined (C.meaning (checker_of follower.old)) (state_of follower.old) bytes.now) }
    ensures unfit { IfErr result (λ e. e ≢ Unfit.OutOfMemory
        → IsUnfit (C.meaning (checker_of follower.old)) (state_of follower.old) bytes.now e) }
    ensures state { state_of follower.new ≡ state_of follower.old }
    ensures checker { checker_of follower.new ≡ checker_of follower.old }
{
    let message = decode(alloc, follower.profile(), bytes)?;
    let answer = examine_message(alloc, follower, &message);
    drop(message);
    answer
}
