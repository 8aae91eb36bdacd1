//! The lines of `show key-package`.

ghost use Rattle.std.specs.Prelude.{◌≡◌, ◌++◌, codes, IfOk, OnOk};
ghost use Rattle.mls_show.specs.ExtensionsText.{extensions_text};
ghost use Rattle.mls_show.specs.KeyPackageText as lines;
ghost use Rattle.mls_show.specs.ValueTexts.{hex_text, numbers_text};

use crate::credential_text::put_credential;
use crate::extensions_text::{put_codes, put_extensions};
use crate::report_buffer::{put_hex, put_number, put_text};
use crate::tree_text::put_source;
use mls_msgs::KeyPackage;
use mls_nodes::{Capabilities, ExtensionsLeft, LeafNode};
use mls_wire::ItemsRef;
use std::alloc::{AllocError, Global};

/// Appends a word and bytes in hexadecimal.
fn put_bytes(out: &mut Vec<u8>, word: &str, bytes: &[u8]) -> Result<(), AllocError>
    ensures { OnOk result (out.new.items ≡ out.old.items ++ (word.now ++ hex_text bytes.now)) }
{
    put_text(out, word)?;
    put_hex(out, bytes)
}

/// Appends the lines of the protocol version, the cipher suite and the init key.
fn put_suite_lines(out: &mut Vec<u8>, key_package: &KeyPackage) -> Result<(), AllocError>
    ensures { OnOk result (out.new.items ≡ out.old.items ++ lines.suite_lines key_package.now) }
{
    put_text(out, "version ")?;
    put_number(out, usize::from(key_package.version))?;
    put_text(out, "\nsuite ")?;
    put_number(out, usize::from(key_package.cipher_suite))?;
    put_bytes(out, "\ninit-key ", key_package.init_key.as_slice())?;
    put_text(out, "\n")
}

/// Appends the lines of the two keys.
fn put_key_lines(out: &mut Vec<u8>, leaf: &LeafNode<'_>) -> Result<(), AllocError>
    ensures { OnOk result (out.new.items ≡ out.old.items ++ lines.key_lines leaf.now) }
{
    put_bytes(out, "encryption-key ", leaf.encryption_key.as_slice())?;
    put_bytes(out, "\nsignature-key ", leaf.signature_key.as_slice())?;
    put_text(out, "\n")
}

/// Appends the lines of the credential and the source.
fn put_origin_lines(out: &mut Vec<u8>, leaf: &LeafNode<'_>) -> Result<(), AllocError>
    ensures { OnOk result (out.new.items ≡ out.old.items ++ lines.origin_lines leaf.now) }
{
    put_text(out, "credential ")?;
    put_credential(out, &leaf.credential)?;
    put_text(out, "\nsource ")?;
    put_source(out, &leaf.source)?;
    put_text(out, "\n")
}

/// Appends a word and codes.
fn put_list(out: &mut Vec<u8>, word: &str, list: &ItemsRef<'_, u16>) -> Result<(), AllocError>
    ensures { OnOk result (out.new.items ≡ out.old.items ++ (word.now ++ numbers_text list.now)) }
{
    put_text(out, word)?;
    put_codes(out, list)
}

/// Appends the protocol versions and the cipher suites that a client supports.
fn put_protocol(out: &mut Vec<u8>, capabilities: &Capabilities<'_>) -> Result<(), AllocError>
    ensures { OnOk result (out.new.items ≡ out.old.items ++ lines.protocol_text capabilities.now) }
{
    put_list(out, "capabilities versions ", &capabilities.versions)?;
    put_list(out, " suites ", &capabilities.cipher_suites)
}

/// Appends the types that a client supports.
fn put_types(out: &mut Vec<u8>, capabilities: &Capabilities<'_>) -> Result<(), AllocError>
    ensures { OnOk result (out.new.items ≡ out.old.items ++ lines.types_line capabilities.now) }
{
    put_list(out, " extensions ", &capabilities.extensions)?;
    put_list(out, " proposals ", &capabilities.proposals)?;
    put_list(out, " credentials ", &capabilities.credentials)?;
    put_text(out, "\n")
}

/// Appends a line of extensions: a word, and their types and lengths.
pub(crate) fn put_extensions_line(
    out: &mut Vec<u8>,
    word: &str,
    extensions: ExtensionsLeft<'_>,
) -> Result<(), AllocError>
    ensures { OnOk result (out.new.items
        ≡ out.old.items ++ (word.now ++ (extensions_text extensions.entry ++ codes "\n"))) }
{
    put_text(out, word)?;
    put_extensions(out, extensions)?;
    put_text(out, "\n")
}

/// Appends the lines of a leaf node.
fn put_leaf_lines(out: &mut Vec<u8>, leaf: &LeafNode<'_>) -> Result<(), AllocError>
    ensures { OnOk result (out.new.items ≡ out.old.items ++ lines.leaf_lines leaf.now) }
{
    put_key_lines(out, leaf)?;
    put_origin_lines(out, leaf)?;
    put_protocol(out, &leaf.capabilities)?;
    put_types(out, &leaf.capabilities)?;
    let extensions = ExtensionsLeft::of_borrowed(&leaf.extensions);
    put_extensions_line(out, "leaf-extensions ", extensions)
}

/// Returns the report of a KeyPackage.
pub(crate) fn key_package_text(
    alloc: Global,
    key_package: &KeyPackage,
) -> Result<Vec<u8>, AllocError>
    ensures { IfOk result (λ text. text.items ≡ lines.key_package_text key_package.now) }
{
    let mut out = Vec::new(alloc);
    put_suite_lines(&mut out, key_package)?;
    put_leaf_lines(&mut out, &key_package.leaf_node.fields())?;
    let extensions = ExtensionsLeft::of(&key_package.extensions);
    put_extensions_line(&mut out, "extensions ", extensions)?;
    Ok(out)
}
