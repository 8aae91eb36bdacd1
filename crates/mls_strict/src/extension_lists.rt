//! Lists of extensions (RFC 9420, 7.2, 13.4 and 17.3).

ghost use Rattle.std.specs.Prelude.{◌≡◌, ◌||◌, is_some, length, MatchOption, None, Some};
ghost use Rattle.mls_wire.specs.EncodedItems.{items_of, Skips};
ghost use Rattle.mls_wire.specs.Input.{at};
ghost use Rattle.mls_nodes.specs.Parsing.{credential_at, external_sender_at};
ghost use Rattle.mls_nodes.specs.Requirements.{extension_of};
ghost use Rattle.mls_strict.specs.ExtensionLists.{are_senders, has_each_once, has_no_group_type, has_readable_id, has_readable_senders, is_application_id, unread_type_at};
ghost use Rattle.mls_strict.specs.ExternalSendersInternal.{unread_front};

use mls_nodes::{Extension, Extensions, ExtensionsLeft, find_extension};
use mls_wire::{ItemsRef, Opaque, OpaqueRef, Reader, WireFault, WireFaultKind, parse_u16};

/// The extension type of application ids (RFC 9420, 5.3.3).
const APPLICATION_ID: u16 = 1;

/// The extension type of external senders (RFC 9420, 12.1.8.1).
const EXTERNAL_SENDERS: u16 = 5;

/// The type of basic credentials (RFC 9420, 5.3).
const BASIC: u16 = 1;

/// The type of x509 credentials (RFC 9420, 5.3).
const X509: u16 = 2;

/// The most extensions of a short list, in which each type is compared with those before it.
const MAX_SHORT: usize = 64;

/// Returns whether no two extensions of a list are of one type (RFC 9420, 7.2 and 13.4). It takes time that is linear in the
/// list, and allocates nothing.
pub fn has_each_once(extensions: &Extensions) -> bool
    ensures { result ≡ has_each_once extensions.now }
{
    has_each_type_once(&ItemsRef::of(extensions))
}

/// Returns whether no two extensions of a borrowed list are of one type (RFC 9420, 7.2 and 13.4).
pub(crate) fn has_each_type_once(extensions: &ItemsRef<'_, Extension>) -> bool
    ensures { result ≡ has_each_once extensions.now }
{
    match short_list_has_each_once(extensions) {
        Some(has_each_once) => has_each_once,
        None => long_list_has_each_once(extensions),
    }
}

/// Returns whether no two extensions of a short list are of one type. `None` if the list is not short.
fn short_list_has_each_once(extensions: &ItemsRef<'_, Extension>) -> Option<bool>
    ensures { MatchOption result Unit (λ once. once ≡ has_each_once extensions.now) }
{
    let mut kinds = [0; MAX_SHORT];
    let mut count = 0;
    let mut left = ExtensionsLeft::of_borrowed(extensions);
    while let Some(extension) = left.next() {
        if kinds[..count].contains(&extension.kind) {
            return Some(false);
        }
        if count == MAX_SHORT {
            return None;
        }
        kinds[count] = extension.kind;
        count += 1;
    }
    Some(true)
}

/// Returns whether no two extensions of a list are of one type, by a table of the types.
fn long_list_has_each_once(extensions: &ItemsRef<'_, Extension>) -> bool
    ensures { result ≡ has_each_once extensions.now }
{
    let mut is_there = [false; 65536];
    let mut left = ExtensionsLeft::of_borrowed(extensions);
    while let Some(extension) = left.next() {
        let kind = usize::from(extension.kind);
        if is_there[kind] {
            return false;
        }
        is_there[kind] = true;
    }
    true
}

/// Returns whether no extension of a leaf node is of a type from 2 to 5 (RFC 9420, 7.2 and 17.3).
#[tactic(auto, unfolding(crate::specs::ExtensionLists::has_no_group_type))]
pub(crate) fn has_no_group_type(extensions: &ItemsRef<'_, Extension>) -> bool
    ensures { result ≡ has_no_group_type extensions.now }
{
    let mut left = ExtensionsLeft::of_borrowed(extensions);
    while let Some(extension) = left.next() {
        if 2 <= extension.kind && extension.kind <= 5 {
            return false;
        }
    }
    true
}

/// Returns the data of the first extension of a type in a borrowed list.
fn find_borrowed<'a>(extensions: &ItemsRef<'a, Extension>, kind: u16) -> Option<&'a [u8]>
    ensures { MatchOption result
        (extension_of kind extensions.now ≡ None)
        (λ body. extension_of kind extensions.now ≡ Some body.now) }
{
    let mut left = ExtensionsLeft::of_borrowed(extensions);
    while let Some(extension) = left.next() {
        if extension.kind == kind {
            return Some(extension.body);
        }
    }
    None
}

/// Returns whether the data of an application_id are one vector.
fn is_application_id(data: &[u8]) -> bool
    ensures { result ≡ is_application_id data.now }
{
    let mut reader = Reader::new(data);
    OpaqueRef::parse(&mut reader).is_ok() && reader.at_end()
}

/// Returns whether the first application_id of a leaf node, if there is one, is one vector (RFC 9420, 5.3.3).
#[tactic(auto, unfolding(crate::specs::ExtensionLists::has_readable_id))]
pub(crate) fn has_readable_id(extensions: &ItemsRef<'_, Extension>) -> bool
    ensures { result ≡ has_readable_id extensions.now }
{
    match find_borrowed(extensions, APPLICATION_ID) {
        Some(data) => is_application_id(data),
        None => true,
    }
}

/// Returns whether the external sender at the front has a credential of a type that is neither basic nor x509.
#[tactic(auto, unfolding(crate::specs::ExternalSendersInternal::unread_front))]
fn has_unread_credential(senders: &Reader<'_>) -> bool
    ensures { result ≡ is_some (unread_front senders.now) }
{
    let mut reader = senders.fork();
    let Ok(_) = OpaqueRef::parse(&mut reader) else {
        return false;
    };
    match parse_u16(&mut reader) {
        Ok(BASIC | X509) => false,
        Ok(_) => true,
        Err(_) => false,
    }
}

/// Passes over the credential at the front.
#[tactic(auto, unfolding(mls_nodes::specs::Parsing::credential_at))]
fn skip_credential(reader: &mut Reader<'_>) -> Result<(), WireFault>
    ensures { Skips credential_at reader.old reader.new result }
{
    let at = reader.position();
    match parse_u16(reader)? {
        BASIC => {
            OpaqueRef::parse(reader)?;
            Ok(())
        }
        X509 => {
            ItemsRef::<Opaque>::parse(reader)?;
            Ok(())
        }
        kind => Err(WireFault {
            kind: WireFaultKind::BadTag(kind),
            at,
        }),
    }
}

/// Passes over the external sender at the front.
#[tactic(auto, unfolding(mls_nodes::specs::Parsing::external_sender_at))]
fn skip_sender(reader: &mut Reader<'_>) -> Result<(), WireFault>
    ensures { Skips external_sender_at reader.old reader.new result }
{
    OpaqueRef::parse(reader)?;
    skip_credential(reader)
}

/// Returns whether the body of an external_senders is the encodings of external senders, one after the other, or has a
/// credential of a type that is not read after any number of them.
fn are_readable(senders: &[u8]) -> bool
    ensures { result ≡ (is_some (items_of external_sender_at senders.now)
        || is_some (unread_type_at (length senders.now) (at 0 senders.now))) }
{
    let mut left = Reader::new(senders);
    while !left.at_end() {
        if has_unread_credential(&left) {
            return true;
        }
        let Ok(()) = skip_sender(&mut left) else {
            return false;
        };
    }
    true
}

/// Returns whether the data of an external_senders can be read as far as its credentials can be.
fn are_senders(data: &[u8]) -> bool
    ensures { result ≡ are_senders data.now }
{
    let mut reader = Reader::new(data);
    match OpaqueRef::parse(&mut reader) {
        Ok(senders) => reader.at_end() && are_readable(senders.as_slice()),
        Err(_) => false,
    }
}

/// Returns whether the first external_senders of a GroupContext, if there is one, can be read, as far as its credentials are
/// basic or x509 (RFC 9420, 12.1.8.1). Allocates nothing.
#[tactic(auto, unfolding(crate::specs::ExtensionLists::has_readable_senders))]
pub fn has_readable_senders(extensions: &Extensions) -> bool
    ensures { result ≡ has_readable_senders extensions.now }
{
    match find_extension(extensions, EXTERNAL_SENDERS) {
        Some(data) => are_senders(data),
        None => true,
    }
}
