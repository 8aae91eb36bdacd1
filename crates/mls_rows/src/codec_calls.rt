//! Rows of encodings (RFC 9420, 2.1, 5.1, 5.2, 6, 7, 8 and 10): what is read, and written again.

use crate::call_result::CallResult;
use crate::fault::RowFault;
use crate::row::{Row, have};
use mls_msgs::{
    Authenticated, AuthenticatedParts, CONTENT_LABEL, FramedContent, GROUP_INFO_LABEL, GroupInfo,
    KEY_PACKAGE_LABEL, KeyPackage, Message, PROPOSAL_REFERENCE_LABEL, Profile, PublicMessage,
    PublicParts, confirmed_input, content_tbs, decode_authenticated, decode_authenticated_in,
    decode_message_in, decode_proposal_in, encode_authenticated, encode_message, encode_proposal,
    info_tbs, package_tbs,
};
use mls_nodes::{
    EncodedLeaf, Extensions, GroupContext, ParentNode, RequiredCapabilities, decode_context,
    decode_leaf, encode_context, encode_leaf, encode_ratchet_tree, external_senders,
    find_extension, leaf_tbs, put_leaf_tbs, read_context, read_extensions, read_leaf, requirements,
    requirements_of, write_context, write_extensions, write_leaf, write_parent,
};
use mls_tree::PublicTree;
use mls_wire::{
    CodecFault, Draft, Encode, Items, Opaque, Reader, Sequence, TryClone, WireFault, Writer,
    bytes_of, read_all_of, read_input, read_value,
};
use std::alloc::{AllocError, Global};

/// Bytes, or the fault of a codec in words.
pub(crate) fn bytes_result(
    alloc: Global,
    made: Result<Vec<u8>, CodecFault>,
) -> Result<CallResult, RowFault> {
    match made {
        Ok(bytes) => CallResult::bytes(alloc, bytes.as_slice()),
        Err(CodecFault::OutOfMemory) => Err(RowFault::OutOfMemory),
        Err(fault) => CallResult::of(have(format!(in alloc; "{fault}"))),
    }
}

/// What was written, if all was.
fn written(writer: Writer, made: Result<(), CodecFault>) -> Result<Vec<u8>, CodecFault> {
    match made {
        Ok(()) => Ok(writer.into_bytes()),
        Err(fault) => Err(fault),
    }
}

// ---- read and written again

/// A context, copied and written.
fn context_again(alloc: Global, input: &[u8]) -> Result<Vec<u8>, CodecFault> {
    let context = decode_context(alloc, input)?;
    let copy = context.try_clone(alloc);
    drop(context);
    let copy = copy?;
    let again = encode_context(alloc, &copy);
    drop(copy);
    again
}

/// Extensions, written after others.
fn extensions_after(
    alloc: Global,
    reader: &mut Reader<'_>,
    writer: &mut Writer,
) -> Result<(), CodecFault> {
    let extensions = read_extensions(alloc, reader)?;
    let made = write_extensions(alloc, &extensions, writer);
    drop(extensions);
    made
}

/// The context at the front of bytes and the extensions after it, written.
fn context_front(alloc: Global, input: &[u8]) -> Result<Vec<u8>, CodecFault> {
    let mut reader = Reader::new(input);
    let context = read_context(alloc, &mut reader)?;
    let mut writer = Writer::new(alloc);
    let made = write_context(alloc, &context, &mut writer);
    drop(context);
    match made {
        Ok(()) => {
            let made = extensions_after(alloc, &mut reader, &mut writer);
            written(writer, made)
        }
        Err(fault) => Err(fault),
    }
}

/// A leaf, copied and written.
fn leaf_again(alloc: Global, input: &[u8]) -> Result<Vec<u8>, CodecFault> {
    let leaf = decode_leaf(alloc, input)?;
    let copy = leaf.try_clone(alloc);
    drop(leaf);
    let copy = copy?;
    let again = encode_leaf(alloc, &copy);
    drop(copy);
    again
}

/// The leaf at the front of bytes, written.
fn leaf_front(alloc: Global, input: &[u8]) -> Result<Vec<u8>, CodecFault> {
    let leaf = read_leaf(alloc, &mut Reader::new(input))?;
    let mut writer = Writer::new(alloc);
    let made = write_leaf(alloc, &leaf, &mut writer);
    drop(leaf);
    written(writer, made)
}

/// A parent node, written.
fn parent_again(alloc: Global, input: &[u8]) -> Result<Vec<u8>, CodecFault> {
    let parent: ParentNode = read_all_of(alloc, input)?;
    let mut writer = Writer::new(alloc);
    let made = write_parent(alloc, &parent, &mut writer);
    drop(parent);
    written(writer, made)
}

/// A message of a profile, written.
fn message_again(alloc: Global, profile: Profile, input: &[u8]) -> Result<Vec<u8>, CodecFault> {
    let message = decode_message_in(alloc, profile, input)?;
    let again = encode_message(alloc, &message);
    drop(message);
    again
}

/// A proposal of a profile, copied and written.
fn proposal_again(alloc: Global, profile: Profile, input: &[u8]) -> Result<Vec<u8>, CodecFault> {
    let proposal = decode_proposal_in(alloc, profile, input)?;
    let copy = proposal.try_clone(alloc);
    drop(proposal);
    let copy = copy?;
    let again = encode_proposal(alloc, &copy);
    drop(copy);
    again
}

/// An authenticated content of a profile, written.
fn content_again(alloc: Global, profile: Profile, input: &[u8]) -> Result<Vec<u8>, CodecFault> {
    let auth = decode_authenticated_in(alloc, profile, input)?;
    let again = encode_authenticated(alloc, &auth);
    drop(auth);
    again
}

/// A vector of codes, written.
fn codes_again(alloc: Global, input: &[u8]) -> Result<Vec<u8>, CodecFault> {
    let codes: Items<u16> = read_input(alloc, input)?;
    bytes_of(alloc, &codes)
}

/// A vector of vectors, copied and written.
fn vectors_again(alloc: Global, input: &[u8]) -> Result<Vec<u8>, CodecFault> {
    let vectors: Items<Opaque> = read_all_of(alloc, input)?;
    let copy = vectors.try_clone(alloc);
    drop(vectors);
    match copy {
        Ok(copy) => bytes_of(alloc, &copy),
        Err(_) => Err(CodecFault::OutOfMemory),
    }
}

/// A number to the end of bytes, written after an optional vector of numbers.
fn number_after(
    alloc: Global,
    reader: &mut Reader<'_>,
    list: &Option<Sequence<u32>>,
) -> Result<Vec<u8>, CodecFault> {
    let number: u64 = read_value(alloc, reader)?;
    reader.finish()?;
    let mut writer = Writer::new(alloc);
    match writer.write(alloc, list) {
        Ok(()) => {
            let made = writer.write_u64(number);
            written(writer, made)
        }
        Err(fault) => Err(fault),
    }
}

/// An optional vector of numbers and a number after it, written.
fn optional_again(alloc: Global, input: &[u8]) -> Result<Vec<u8>, CodecFault> {
    let mut reader = Reader::new(input);
    let list: Option<Sequence<u32>> = read_value(alloc, &mut reader)?;
    let made = number_after(alloc, &mut reader, &list);
    drop(list);
    made
}

/// A tree, copied and written.
fn tree_again(row: &Row, input: &[u8]) -> Result<Vec<u8>, CodecFault> {
    match PublicTree::decode(row.alloc, input) {
        Ok(tree) => {
            let copy = tree.try_clone(row.alloc);
            drop(tree);
            written_tree(row.alloc, copy)
        }
        Err(_) => {
            row.refuse(2, "a tree");
            Err(CodecFault::OutOfMemory)
        }
    }
}

/// The copy of a tree, written.
fn written_tree<E: Drop>(
    alloc: Global,
    copy: Result<PublicTree, E>,
) -> Result<Vec<u8>, CodecFault> {
    match copy {
        Ok(copy) => {
            let made = encode_ratchet_tree(alloc, copy.nodes());
            drop(copy);
            made.map_err(|_| CodecFault::OutOfMemory)
        }
        Err(_) => Err(CodecFault::OutOfMemory),
    }
}

/// What is read of bytes as a node or a list, written.
fn node_again(row: &Row, input: &[u8]) -> Result<Vec<u8>, CodecFault> {
    match row.word(1) {
        "leaf" => leaf_again(row.alloc, input),
        "leaf_front" => leaf_front(row.alloc, input),
        "parent" => parent_again(row.alloc, input),
        "codes" => codes_again(row.alloc, input),
        "vectors" => vectors_again(row.alloc, input),
        "optional" => optional_again(row.alloc, input),
        "tree" => tree_again(row, input),
        _ => {
            row.refuse(1, "a type that is read");
            Err(CodecFault::OutOfMemory)
        }
    }
}

/// What is read of bytes as a context, a message or a part of one, written.
fn message_part_again(row: &Row, input: &[u8]) -> Result<Vec<u8>, CodecFault> {
    let alloc = row.alloc;
    match row.word(1) {
        "context" => context_again(alloc, input),
        "context_front" => context_front(alloc, input),
        "message" => message_again(alloc, Profile::Members, input),
        "proposal" => proposal_again(alloc, Profile::Members, input),
        "content" => content_again(alloc, Profile::Members, input),
        "full_message" => message_again(alloc, Profile::Full, input),
        "full_proposal" => proposal_again(alloc, Profile::Full, input),
        "full_content" => content_again(alloc, Profile::Full, input),
        _ => node_again(row, input),
    }
}

/// `again | WHAT | BYTES`: what is read of bytes, written; or why it can't be read.
pub(crate) fn again(row: &Row) -> Result<CallResult, RowFault> {
    row.has(2);
    bytes_result(row.alloc, message_part_again(row, row.bytes(2).as_slice()))
}

/// How many bytes an optional vector of numbers has.
fn optional_size(row: &Row) -> Result<u64, RowFault> {
    let list = row.value::<Option<Sequence<u32>>>(2, "an optional vector of numbers")?;
    let size = list.size();
    drop(list);
    Ok(size.unwrap_or(0) as u64)
}

/// How many bytes a leaf has.
fn leaf_size(row: &Row) -> Result<u64, RowFault> {
    let leaf = row.value::<EncodedLeaf>(2, "a leaf")?;
    let size = leaf.encoded_len();
    drop(leaf);
    Ok(size)
}

/// How many bytes a parent has.
fn parent_size(row: &Row) -> Result<u64, RowFault> {
    let parent = row.value::<ParentNode>(2, "a parent")?;
    let size = parent.encoded_len();
    drop(parent);
    Ok(size)
}

/// `length | WHAT | BYTES`: how many bytes a value has, as it is known before it is written.
pub(crate) fn length(row: &Row) -> Result<CallResult, RowFault> {
    row.has(2);
    let size = match row.word(1) {
        "optional" => optional_size(row),
        "leaf" => leaf_size(row),
        "parent" => parent_size(row),
        _ => Err(RowFault::Field(1, "a type that has a length")),
    };
    match size {
        Ok(size) => CallResult::of(have(format!(in row.alloc; "{size}"))),
        Err(fault) => Err(fault),
    }
}

/// `written_length | NUMBER`: the length of a vector as it is written.
pub(crate) fn written_length(row: &Row) -> Result<CallResult, RowFault> {
    row.has(1);
    let mut writer = Writer::new(row.alloc);
    let made = writer.write_len(row.number(1) as usize);
    bytes_result(row.alloc, written(writer, made))
}

/// `read_length | BYTES`: the length of a vector that is read; or why none is, after which nothing is read.
pub(crate) fn read_length(row: &Row) -> Result<CallResult, RowFault> {
    row.has(1);
    let bytes = row.bytes(1);
    let mut reader = Reader::new(bytes.as_slice());
    let read = reader.read_len();
    CallResult::of(have(length_text(row.alloc, read, reader.position())))
}

/// The length of a vector that was read, or why none was, and how many bytes were read then, if there were any.
fn length_text(
    alloc: Global,
    read: Result<usize, WireFault>,
    position: usize,
) -> Result<String, AllocError> {
    match read {
        Ok(length) => format!(in alloc; "{length}"),
        Err(fault) if position == 0 => format!(in alloc; "{fault}"),
        Err(fault) => format!(in alloc; "{fault}, after {position} bytes"),
    }
}

// ---- what is signed and hashed

/// A leaf as it is signed.
fn signed_leaf(
    alloc: Global,
    group_id: &Opaque,
    index: u32,
    leaf: &[u8],
) -> Result<Vec<u8>, CodecFault> {
    let leaf = decode_leaf(alloc, leaf)?;
    let made = leaf_tbs(alloc, &leaf, group_id, index);
    drop(leaf);
    made
}

/// The same, in a draft after other bytes.
fn drafted_leaf(
    alloc: Global,
    before: Vec<u8>,
    group_id: &Opaque,
    index: u32,
    leaf: &[u8],
) -> Result<Vec<u8>, CodecFault> {
    match decode_leaf(alloc, leaf) {
        Ok(leaf) => {
            let mut draft = Draft::after(before);
            let put = put_leaf_tbs(alloc, &leaf, group_id, index, &mut draft);
            drop(leaf);
            put.map(|()| draft.finish())
        }
        Err(fault) => Err(fault),
    }
}

/// `leaf_tbs | GROUP ID | INDEX | LEAF`: what is signed of a leaf (7.2).
pub(crate) fn tbs_of_leaf(row: &Row) -> Result<CallResult, RowFault> {
    row.has(3);
    let group_id = row.opaque(1)?;
    let leaf = row.bytes(3);
    let made = signed_leaf(row.alloc, &group_id, row.number(2), leaf.as_slice());
    bytes_result(row.alloc, made)
}

/// `leaf_tbs_after | BYTES | GROUP ID | INDEX | LEAF`: these bytes, and what is signed of a leaf after them.
pub(crate) fn tbs_of_leaf_after(row: &Row) -> Result<CallResult, RowFault> {
    row.has(4);
    let before = row.bytes(1);
    let group_id = row.opaque(2)?;
    let index = row.number(3);
    let leaf = row.bytes(4);
    let made = drafted_leaf(row.alloc, before, &group_id, index, leaf.as_slice());
    bytes_result(row.alloc, made)
}

/// What is signed of a content, or hashed of a commit.
fn of_content(
    alloc: Global,
    input: &[u8],
    context: Option<&GroupContext>,
    is_hashed: bool,
) -> Result<Vec<u8>, CodecFault> {
    let auth = decode_authenticated(alloc, input)?;
    let made = if is_hashed {
        confirmed_input(alloc, &auth)
    } else {
        content_tbs(alloc, &auth, context)
    };
    drop(auth);
    made
}

/// What is signed of a key package.
fn of_package(alloc: Global, input: &[u8]) -> Result<Vec<u8>, CodecFault> {
    let package: KeyPackage = read_all_of(alloc, input)?;
    let made = package_tbs(alloc, &package);
    drop(package);
    made
}

/// What is signed of a GroupInfo.
fn of_info(alloc: Global, input: &[u8]) -> Result<Vec<u8>, CodecFault> {
    let info: GroupInfo = read_all_of(alloc, input)?;
    let made = info_tbs(alloc, &info);
    drop(info);
    made
}

/// What is signed of a message without a context, found in its bytes.
fn of_message(alloc: Global, input: &[u8]) -> Result<Vec<u8>, CodecFault> {
    let message = decode_message_in(alloc, Profile::Full, input)?;
    let made = match &message {
        Message::Public(public) => Vec::from_slice(alloc, public.content_tbs_in(input)),
        _ => Ok(Vec::new(alloc)),
    };
    drop(message);
    Ok(made?)
}

/// What is signed or hashed of the bytes of a type.
fn tbs_of(row: &Row, input: &[u8]) -> Result<Vec<u8>, CodecFault> {
    match row.word(1) {
        "content" => of_content(row.alloc, input, None, false),
        "message" => of_message(row.alloc, input),
        "commit" => of_content(row.alloc, input, None, true),
        "key_package" => of_package(row.alloc, input),
        "info" => of_info(row.alloc, input),
        _ => {
            row.refuse(1, "a type that is signed");
            Err(CodecFault::OutOfMemory)
        }
    }
}

/// `tbs | WHAT | BYTES`: what is signed of a content or a message without a context, of a key package, or of a GroupInfo; what is
/// hashed of a commit for the confirmed transcript hash.
pub(crate) fn tbs(row: &Row) -> Result<CallResult, RowFault> {
    row.has(2);
    bytes_result(row.alloc, tbs_of(row, row.bytes(2).as_slice()))
}

/// `tbs_in | CONTEXT | CONTENT`: what is signed of a content in a context.
pub(crate) fn tbs_in(row: &Row) -> Result<CallResult, RowFault> {
    row.has(2);
    let context = row.value::<GroupContext>(1, "a context")?;
    let input = row.bytes(2);
    let made = of_content(row.alloc, input.as_slice(), Some(&context), false);
    drop(context);
    bytes_result(row.alloc, made)
}

/// `label | WHAT`: the label of what is signed (5.1.2), or of the reference of a proposal (5.2).
pub(crate) fn label(row: &Row) -> Result<CallResult, RowFault> {
    row.has(1);
    match row.word(1) {
        "content" => CallResult::bytes(row.alloc, CONTENT_LABEL.as_bytes()),
        "key_package" => CallResult::bytes(row.alloc, KEY_PACKAGE_LABEL.as_bytes()),
        "info" => CallResult::bytes(row.alloc, GROUP_INFO_LABEL.as_bytes()),
        "proposal_reference" => {
            CallResult::bytes(row.alloc, PROPOSAL_REFERENCE_LABEL.as_bytes())
        }
        _ => Err(RowFault::Field(1, "what has a label")),
    }
}

// ---- messages of parts

/// `unread | WIRE FORMAT | BODY`: a message of this wire format whose body isn't read, written; or why it can't be.
pub(crate) fn unread(row: &Row) -> Result<CallResult, RowFault> {
    row.has(2);
    let wire_format = row.short_number(1);
    let body = row.opaque(2)?;
    let message = Message::Unread { wire_format, body };
    let written = encode_message(row.alloc, &message);
    drop(message);
    bytes_result(row.alloc, written)
}

/// A public message of its parts, written; `content` if only the content can be made of them.
fn public_result(
    alloc: Global,
    auth: Authenticated,
    membership_tag: Option<Opaque>,
) -> Result<CallResult, RowFault> {
    match PublicMessage::new(PublicParts {
        auth,
        membership_tag,
    }) {
        Ok(public) => {
            let message = Message::Public(public);
            let written = encode_message(alloc, &message);
            drop(message);
            bytes_result(alloc, written)
        }
        Err(parts) => {
            drop(parts);
            CallResult::word(alloc, "content")
        }
    }
}

/// A field that is an opaque value, or `none`.
fn some_opaque(row: &Row, at: usize) -> Option<Opaque> {
    if row.word(at) == "none" {
        return None;
    }
    row.some(row.opaque(at))
}

/// An authenticated content of parts and of the fields of a row; or what it can't be made of.
fn authenticated(
    row: &Row,
    content: FramedContent,
    signature: Opaque,
) -> Result<Authenticated, AuthenticatedParts> {
    Authenticated::new(AuthenticatedParts {
        wire_format: row.short_number(1),
        content,
        signature,
        confirmation_tag: some_opaque(row, 4),
    })
}

/// The message of a content, a signature and the fields of a row.
fn parts_result(
    row: &Row,
    content: FramedContent,
    signature: Opaque,
) -> Result<CallResult, RowFault> {
    match authenticated(row, content, signature) {
        Ok(auth) => public_result(row.alloc, auth, some_opaque(row, 5)),
        Err(parts) => {
            drop(parts);
            CallResult::word(row.alloc, "none")
        }
    }
}

/// `parts | WIRE FORMAT | CONTENT | SIGNATURE | CONFIRMATION TAG | MEMBERSHIP TAG`: the message of these parts; `content` if only an
/// authenticated content can be made of them, and `none` if not even that.
pub(crate) fn parts(row: &Row) -> Result<CallResult, RowFault> {
    row.has(5);
    let content = row.value::<FramedContent>(2, "a framed content")?;
    match row.opaque(3) {
        Ok(signature) => parts_result(row, content, signature),
        Err(fault) => {
            drop(content);
            Err(fault)
        }
    }
}

// ---- extensions

/// The data of the first of these extensions of a type, or `none`.
fn extension_result(
    alloc: Global,
    extensions: &Extensions,
    kind: u16,
) -> Result<CallResult, RowFault> {
    match find_extension(extensions, kind) {
        Some(body) => CallResult::bytes(alloc, body),
        None => CallResult::word(alloc, "none"),
    }
}

/// `extension | EXTENSIONS | NUMBER`: the data of the first extension of a type, or `none`.
pub(crate) fn extension(row: &Row) -> Result<CallResult, RowFault> {
    row.has(2);
    let kind = row.short_number(2);
    let bytes = row.bytes(1);
    match read_extensions(row.alloc, &mut Reader::new(bytes.as_slice())) {
        Ok(extensions) => extension_result(row.alloc, &extensions, kind),
        Err(_) => Err(RowFault::Field(1, "extensions")),
    }
}

/// What a context requires.
fn required_in(alloc: Global, input: &[u8]) -> Result<Vec<u8>, CodecFault> {
    let context = decode_context(alloc, input)?;
    let required = requirements(alloc, &context);
    drop(context);
    required_copy(alloc, required)
}

/// The copy of what is required, written.
fn required_copy(
    alloc: Global,
    required: Result<RequiredCapabilities, CodecFault>,
) -> Result<Vec<u8>, CodecFault> {
    let required = required?;
    let copy = required.try_clone(alloc);
    drop(required);
    bytes_of(alloc, &copy?)
}

/// What extensions require.
fn required_by(alloc: Global, input: &[u8]) -> Result<Vec<u8>, CodecFault> {
    let extensions = read_extensions(alloc, &mut Reader::new(input))?;
    let required = requirements_of(alloc, &extensions);
    drop(extensions);
    bytes_of(alloc, &required?)
}

/// `required | WHAT | BYTES`: what a context or extensions require of members (11.1), or why that can't be read.
pub(crate) fn required(row: &Row) -> Result<CallResult, RowFault> {
    row.has(2);
    let input = row.bytes(2);
    match row.word(1) {
        "context" => bytes_result(row.alloc, required_in(row.alloc, input.as_slice())),
        "extensions" => bytes_result(row.alloc, required_by(row.alloc, input.as_slice())),
        _ => Err(RowFault::Field(1, "context or extensions")),
    }
}

/// The external senders in extensions, written.
fn senders_in(alloc: Global, input: &[u8]) -> Result<Vec<u8>, CodecFault> {
    let extensions = read_extensions(alloc, &mut Reader::new(input))?;
    let senders = external_senders(alloc, &extensions);
    drop(extensions);
    let senders = senders?;
    let written = bytes_of(alloc, &senders);
    drop(senders);
    written
}

/// `external_senders | EXTENSIONS`: the external senders of a group (12.1.8.1), or why they can't be read.
pub(crate) fn senders(row: &Row) -> Result<CallResult, RowFault> {
    row.has(1);
    let input = row.bytes(1);
    bytes_result(row.alloc, senders_in(row.alloc, input.as_slice()))
}
