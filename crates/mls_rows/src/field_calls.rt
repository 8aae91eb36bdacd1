//! Rows of the fields of values by their names (RFC 9420, 5.3, 6, 7.1, 7.2, 7.6, 8.1, 10, 11.1, 12.1 and 12.4).

use crate::call_result::CallResult;
use crate::fault::RowFault;
use crate::row::{Row, have};
use crate::text_writer::TextWriter;
use mls_msgs::{
    Authenticated, Ciphertext, Commit, Content, FramedContent, GroupInfo, KeyPackage, Message,
    PathNode, Proposal, ProposalOrRef, PublicMessage, Sender, UpdatePath, decode_authenticated,
    decode_message,
};
use mls_nodes::{
    Capabilities, CredentialBody, CredentialRef, EncodedLeaf, Extensions, ExtensionsLeft,
    GroupContext, LeafSource, ParentNode, RequiredCapabilities, next_code,
};
use mls_wire::{ItemsRef, Reader};

/// Adds a field of bytes by its name.
fn put_bytes(out: &mut TextWriter, name: &str, bytes: &[u8]) {
    out.add(name);
    out.add(" ");
    out.add_digits(bytes);
    out.add("; ");
}

/// Adds a field that is a number.
fn put_number(out: &mut TextWriter, name: &str, number: u64) {
    out.add(name);
    out.add(" ");
    out.add_number(number);
    out.add("; ");
}

/// Adds a list of codes.
fn put_codes(out: &mut TextWriter, name: &str, codes: &[u16]) {
    out.add_made(format!(in out.alloc; "{name} {codes:?}; "));
}

/// Adds a list of codes that is stored as its encoding.
fn put_listed(out: &mut TextWriter, name: &str, codes: &ItemsRef<'_, u16>) {
    let mut left = ItemsRef::new(codes.encoded());
    let mut listed = Vec::new(out.alloc);
    while let Some(code) = next_code(&mut left) {
        if listed.push(code).is_err() {
            out.fail();
        }
    }
    put_codes(out, name, listed.as_slice());
}

/// Adds extensions, each by its type and its data.
fn put_extensions(out: &mut TextWriter, extensions: &Extensions) {
    put_extensions_left(out, ExtensionsLeft::of(extensions));
}

/// Adds those extensions that are left.
fn put_extensions_left(out: &mut TextWriter, mut left: ExtensionsLeft<'_>) {
    while let Some(extension) = left.next() {
        put_number(out, "extension", u64::from(extension.kind));
        put_bytes(out, "data", extension.body);
    }
}

/// Adds certificates, one after the other.
fn put_certificates(out: &mut TextWriter, mut left: Reader<'_>) {
    for _ in 0..left.left().len() {
        if !left.at_end() {
            put_certificate(out, &mut left);
        }
    }
}

/// Adds the next certificate.
fn put_certificate(out: &mut TextWriter, left: &mut Reader<'_>) {
    match left.read_vec() {
        Ok(certificate) => put_bytes(out, "certificate", certificate),
        Err(_) => out.add("no certificate; "),
    }
}

/// Adds a Credential.
fn put_credential(out: &mut TextWriter, credential: &CredentialRef<'_>) {
    match credential.body() {
        CredentialBody::Basic(identity) => put_bytes(out, "basic", identity.as_slice()),
        CredentialBody::X509(chain) => put_certificates(out, chain.reader()),
    }
}

/// Adds the fields of Capabilities.
fn put_capabilities(out: &mut TextWriter, listed: &Capabilities<'_>) {
    put_listed(out, "versions", &listed.versions);
    put_listed(out, "suites", &listed.cipher_suites);
    put_listed(out, "extensions", &listed.extensions);
    put_listed(out, "proposals", &listed.proposals);
    put_listed(out, "credentials", &listed.credentials);
}

/// Adds the source of a leaf node.
fn put_source(out: &mut TextWriter, source: &LeafSource<'_>) {
    match source {
        LeafSource::KeyPackage(lifetime) => {
            put_number(out, "not before", lifetime.not_before);
            put_number(out, "not after", lifetime.not_after);
        }
        LeafSource::Update => out.add("update; "),
        LeafSource::Commit { parent_hash } => {
            put_bytes(out, "parent hash", parent_hash.as_slice());
        }
    }
}

/// Adds the fields of a leaf node.
fn put_leaf_fields(out: &mut TextWriter, leaf: &EncodedLeaf) {
    put_bytes(out, "encryption", leaf.encryption_key());
    put_bytes(out, "signing", leaf.signature_key());
    put_credential(out, &leaf.fields().credential);
    put_capabilities(out, &leaf.fields().capabilities);
    put_source(out, &leaf.fields().source);
    put_extensions_left(out, ExtensionsLeft::of_borrowed(&leaf.fields().extensions));
    put_bytes(out, "signature", leaf.signature());
}

/// Adds the fields of a parent node.
fn put_parent_fields(out: &mut TextWriter, parent: &ParentNode) {
    put_bytes(out, "encryption", parent.encryption_key.as_slice());
    put_bytes(out, "parent hash", parent.parent_hash.as_slice());
    let unmerged = parent.unmerged.as_slice();
    out.add_made(format!(in out.alloc; "unmerged {unmerged:?}"));
}

/// Adds the fields of a group context.
fn put_context(out: &mut TextWriter, context: &GroupContext) {
    put_number(out, "version", u64::from(context.version));
    put_number(out, "suite", u64::from(context.cipher_suite));
    put_bytes(out, "group", context.group_id.as_slice());
    put_number(out, "epoch", context.epoch);
    put_bytes(out, "tree", context.tree_hash.as_slice());
    put_bytes(out, "confirmed", context.confirmed.as_slice());
    put_extensions(out, &context.extensions);
}

/// Adds the fields of required capabilities.
fn put_required(out: &mut TextWriter, required: &RequiredCapabilities) {
    put_codes(out, "extensions", required.extensions.as_slice());
    put_codes(out, "proposals", required.proposals.as_slice());
    put_codes(out, "credentials", required.credentials.as_slice());
}

/// Adds the fields of a KeyPackage.
fn put_package(out: &mut TextWriter, package: &KeyPackage) {
    put_number(out, "version", u64::from(package.version));
    put_number(out, "suite", u64::from(package.cipher_suite));
    put_bytes(out, "init", package.init_key.as_slice());
    put_leaf_fields(out, &package.leaf_node);
    put_extensions(out, &package.extensions);
    put_bytes(out, "signature", package.signature.as_slice());
}

/// Adds the fields of a Proposal.
fn put_proposal(out: &mut TextWriter, proposal: &Proposal) {
    match proposal {
        Proposal::Add(package) => {
            out.add("add; ");
            put_package(out, package);
        }
        Proposal::Update(leaf) => {
            out.add("update to; ");
            put_leaf_fields(out, leaf);
        }
        Proposal::Remove(removed) => put_number(out, "remove", u64::from(*removed)),
        Proposal::ContextExtensions(extensions) => {
            out.add("context; ");
            put_extensions(out, extensions);
        }
        _ => out.add("another proposal; "),
    }
}

/// Adds the fields of a ProposalOrRef.
fn put_entry(out: &mut TextWriter, entry: &ProposalOrRef) {
    match entry {
        ProposalOrRef::Proposal(proposal) => put_proposal(out, proposal),
        ProposalOrRef::Reference(reference) => {
            put_bytes(out, "reference", reference.as_slice());
        }
    }
}

/// Adds the fields of a node of an UpdatePath.
fn put_node(out: &mut TextWriter, node: &PathNode) {
    put_bytes(out, "node", node.encryption_key.as_slice());
    match node.ciphertexts.to_vec(out.alloc) {
        Ok(sealed) => put_sealed(out, sealed.as_slice()),
        Err(_) => out.fail(),
    }
}

/// Adds the fields of ciphertexts.
fn put_sealed(out: &mut TextWriter, ciphertexts: &[Ciphertext]) {
    for sealed in ciphertexts {
        put_bytes(out, "kem", sealed.kem_output.as_slice());
        put_bytes(out, "ciphertext", sealed.ciphertext.as_slice());
    }
}

/// Adds the fields of an UpdatePath.
fn put_path(out: &mut TextWriter, path: &UpdatePath) {
    out.add("path; ");
    put_leaf_fields(out, &path.leaf_node);
    for node in path.nodes.as_slice() {
        put_node(out, node);
    }
}

/// Adds the fields of a Commit.
fn put_commit(out: &mut TextWriter, commit: &Commit) {
    for entry in commit.proposals.as_slice() {
        put_entry(out, entry);
    }
    match &commit.path {
        Some(path) => put_path(out, path),
        None => out.add("no path; "),
    }
}

/// Adds a Sender.
fn put_sender(out: &mut TextWriter, sender: Sender) {
    match sender {
        Sender::Member(index) => put_number(out, "member", u64::from(index)),
        Sender::External(index) => put_number(out, "external", u64::from(index)),
        Sender::NewMemberProposal => out.add("new member's proposal; "),
        Sender::NewMemberCommit => out.add("new member's commit; "),
    }
}

/// Adds what a FramedContent has as its content.
fn put_content(out: &mut TextWriter, content: &Content) {
    match content {
        Content::Application(data) => put_bytes(out, "application", data.as_slice()),
        Content::Proposal(proposal) => put_proposal(out, proposal),
        Content::Commit(commit) => put_commit(out, commit),
    }
}

/// Adds the fields of a FramedContent.
fn put_framed(out: &mut TextWriter, framed: &FramedContent) {
    put_bytes(out, "group", framed.group_id.as_slice());
    put_number(out, "epoch", framed.epoch);
    put_sender(out, framed.sender);
    put_bytes(out, "data", framed.authenticated.as_slice());
    put_content(out, &framed.content);
}

/// Adds the fields of an AuthenticatedContent.
fn put_authenticated(out: &mut TextWriter, auth: &Authenticated) {
    put_number(out, "format", u64::from(auth.wire_format()));
    put_framed(out, auth.content());
    put_bytes(out, "signature", auth.signature().as_slice());
    match auth.confirmation_tag() {
        Some(tag) => put_bytes(out, "confirmation", tag.as_slice()),
        None => {}
    }
}

/// Adds the fields of a PublicMessage.
fn put_public(out: &mut TextWriter, public: &PublicMessage) {
    put_authenticated(out, public.auth());
    match public.membership_tag() {
        Some(tag) => put_bytes(out, "membership", tag.as_slice()),
        None => {}
    }
}

/// Adds the fields of a GroupInfo.
fn put_info(out: &mut TextWriter, info: &GroupInfo) {
    put_context(out, &info.context);
    put_extensions(out, &info.extensions);
    put_bytes(out, "confirmation", info.confirmation_tag.as_slice());
    put_number(out, "signer", u64::from(info.signer));
    put_bytes(out, "signature", info.signature.as_slice());
}

/// Adds the fields of a message.
fn put_message(out: &mut TextWriter, message: &Message) {
    match message {
        Message::Public(public) => put_public(out, public),
        Message::Unread { wire_format, body } => {
            put_number(out, "unread", u64::from(*wire_format));
            put_bytes(out, "body", body.as_slice());
        }
        Message::GroupInfo(info) => put_info(out, info),
        Message::KeyPackage(package) => put_package(out, package),
    }
}

/// Adds the fields of a message.
fn put_read_message(row: &Row, out: &mut TextWriter) {
    match decode_message(row.alloc, row.bytes(2).as_slice()) {
        Ok(message) => {
            put_message(out, &message);
            drop(message);
        }
        Err(_) => row.refuse(2, "a message"),
    }
}

/// Adds the fields of an AuthenticatedContent.
fn put_read_content(row: &Row, out: &mut TextWriter) {
    match decode_authenticated(row.alloc, row.bytes(2).as_slice()) {
        Ok(auth) => {
            put_authenticated(out, &auth);
            drop(auth);
        }
        Err(_) => row.refuse(2, "an AuthenticatedContent"),
    }
}

/// Adds the fields of a leaf.
fn put_read_leaf(row: &Row, out: &mut TextWriter) {
    match row.value::<EncodedLeaf>(2, "a leaf") {
        Ok(leaf) => {
            put_leaf_fields(out, &leaf);
            drop(leaf);
        }
        Err(fault) => row.record(fault),
    }
}

/// Adds the fields of a parent.
fn put_read_parent(row: &Row, out: &mut TextWriter) {
    match row.value::<ParentNode>(2, "a parent") {
        Ok(parent) => {
            put_parent_fields(out, &parent);
            drop(parent);
        }
        Err(fault) => row.record(fault),
    }
}

/// Adds the fields of a context.
fn put_read_context(row: &Row, out: &mut TextWriter) {
    match row.value::<GroupContext>(2, "a context") {
        Ok(context) => {
            put_context(out, &context);
            drop(context);
        }
        Err(fault) => row.record(fault),
    }
}

/// Adds the fields of required capabilities.
fn put_read_required(row: &Row, out: &mut TextWriter) {
    match row.value::<RequiredCapabilities>(2, "required capabilities") {
        Ok(required) => {
            put_required(out, &required);
            drop(required);
        }
        Err(fault) => row.record(fault),
    }
}

/// `fields | WHAT | BYTES`: the fields of a value by their names.
pub(crate) fn fields(row: &Row) -> Result<CallResult, RowFault> {
    row.has(2);
    let mut out = TextWriter::new(row.alloc);
    match row.word(1) {
        "message" => put_read_message(row, &mut out),
        "content" => put_read_content(row, &mut out),
        "leaf" => put_read_leaf(row, &mut out),
        "parent" => put_read_parent(row, &mut out),
        "context" => put_read_context(row, &mut out),
        "required" => put_read_required(row, &mut out),
        _ => row.refuse(1, "a type that has fields"),
    }
    match out.finish() {
        Ok(text) => CallResult::of(have(String::from_str(row.alloc, text.as_str().trim()))),
        Err(fault) => Err(fault),
    }
}
