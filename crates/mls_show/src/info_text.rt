//! The lines of `show info`.

ghost use Rattle.std.specs.Prelude.{◌≡◌, IfOk, map, string_bytes};
ghost use Rattle.mls_show.specs.InfoText as lines;

use crate::value_text::{hex_of, numbers_of};
use mls_msgs::GroupInfo;
use mls_nodes::{Extensions, ExtensionsLeft, GroupContext};
use std::alloc::{AllocError, Global};

/// Returns the types of extensions.
fn types_of(alloc: Global, extensions: &Extensions) -> Result<Vec<u32>, AllocError>
    ensures { IfOk result (λ types. types.items ≡ map (λ e. e.kind) extensions.now) }
{
    let mut types = Vec::new(alloc);
    let mut left = ExtensionsLeft::of(extensions);
    while let Some(extension) = left.next() {
        types.push(u32::from(extension.kind))?;
    }
    Ok(types)
}

/// Returns the types of extensions as text.
pub(crate) fn types_text(alloc: Global, extensions: &Extensions) -> Result<String, AllocError>
    ensures { IfOk result (λ text. string_bytes text ≡ lines.types_text extensions.now) }
{
    let types = types_of(alloc, extensions)?;
    numbers_of(alloc, types.as_slice())
}

/// Returns the lines of the cipher suite, the group ID and the epoch.
pub(crate) fn group_lines(alloc: Global, context: &GroupContext) -> Result<String, AllocError>
    ensures { IfOk result (λ text. string_bytes text ≡ lines.group_lines context.now) }
{
    let suite = context.cipher_suite;
    let group_id = hex_of(alloc, context.group_id.as_slice())?;
    let epoch = context.epoch;
    format!(in alloc; "suite {suite}\ngroup {group_id}\nepoch {epoch}\n")
}

/// Returns the lines of the tree hash and the confirmed transcript hash.
pub(crate) fn hash_lines(alloc: Global, context: &GroupContext) -> Result<String, AllocError>
    ensures { IfOk result (λ text. string_bytes text ≡ lines.hash_lines context.now) }
{
    let tree_hash = hex_of(alloc, context.tree_hash.as_slice())?;
    let confirmed = hex_of(alloc, context.confirmed.as_slice())?;
    format!(in alloc; "tree {tree_hash}\nconfirmed {confirmed}\n")
}

/// Returns the lines of the extension types of the GroupContext and of the GroupInfo.
fn extension_lines(alloc: Global, info: &GroupInfo) -> Result<String, AllocError>
    ensures { IfOk result (λ text. string_bytes text ≡ lines.extension_lines info.now) }
{
    let group = types_text(alloc, &info.context.extensions)?;
    let own = types_text(alloc, &info.extensions)?;
    format!(in alloc; "extensions {group}\ninfo-extensions {own}\n")
}

/// Returns the lines of the confirmation tag and the signer.
fn signer_lines(alloc: Global, info: &GroupInfo) -> Result<String, AllocError>
    ensures { IfOk result (λ text. string_bytes text ≡ lines.signer_lines info.now) }
{
    let confirmation_tag = hex_of(alloc, info.confirmation_tag.as_slice())?;
    let signer = info.signer;
    format!(in alloc; "confirmation {confirmation_tag}\nsigner {signer}\n")
}

/// Returns the report of a GroupInfo.
pub(crate) fn info_text(alloc: Global, info: &GroupInfo) -> Result<String, AllocError>
    ensures { IfOk result (λ text. string_bytes text ≡ lines.info_text info.now) }
{
    let group = group_lines(alloc, &info.context)?;
    let hashes = hash_lines(alloc, &info.context)?;
    let extensions = extension_lines(alloc, info)?;
    let signer = signer_lines(alloc, info)?;
    format!(in alloc; "{group}{hashes}{extensions}{signer}")
}
