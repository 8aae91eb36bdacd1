//! Copies of the bytes from which a group is followed.

ghost use Rattle.std.specs.Prelude.{◌≡◌, IfOk, option_map};
ghost use Rattle.mls_msgs.specs.Rules.{plain_rules};
ghost use Rattle.mls_start.specs.Inputs.{inputs_of, OfInfo, OfState};
ghost use Rattle.mls_c.specs.Starts.{passed};

use mls_msgs::{Profile, Rules};
use mls_start::StartBytes;
use std::alloc::{AllocError, Global};

/// Returns a copy of bytes, if there are some.
fn copy_if_any(alloc: Global, bytes: &[u8]) -> Result<Option<Vec<u8>>, AllocError>
    ensures { IfOk result (λ copy. option_map (λ v. v.items) copy ≡ passed bytes.now) }
{
    if bytes.is_empty() {
        return Ok(None);
    }
    Ok(Some(bytes.to_vec(alloc)?))
}

/// Returns copies of a GroupInfo and of a tree, if there is one. The group is followed in `profile`, and with the strict
/// rules `rules`.
pub(crate) fn info_copy(
    alloc: Global,
    rules: Rules,
    profile: Profile,
    info: &[u8],
    tree: &[u8],
) -> Result<StartBytes, AllocError>
    ensures { IfOk result (λ start. inputs_of start ≡ OfInfo rules profile info.now (passed tree.now)) }
{
    let tree = copy_if_any(alloc, tree)?;
    let info = info.to_vec(alloc)?;
    Ok(StartBytes::Info {
        rules,
        profile,
        info,
        tree,
    })
}

/// Returns a copy of the file of a state, to whose strict rules none are added.
pub(crate) fn state_copy(alloc: Global, state: &[u8]) -> Result<StartBytes, AllocError>
    ensures { IfOk result (λ start. inputs_of start ≡ OfState plain_rules state.now) }
{
    Ok(StartBytes::State {
        rules: Rules::plain(),
        bytes: state.to_vec(alloc)?,
    })
}
