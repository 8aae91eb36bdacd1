//! What a follower resumes from (own rules; RFC 9420, 12.4.3.1, for the context and the tree).

ghost use Rattle.std.specs.Prelude.{◌≡◌, ◌≢◌, ◌≤◌, None, Some, IfOk, IfErr, IfSome, OnOk, length, option_map};
ghost use Rattle.mls_wire.specs.Limits.{input_limit};
ghost use Rattle.mls_wire.specs.ReadContracts.{seen};
ghost use Rattle.mls_tree.specs.PublicTreeModel.{plain};
ghost use Rattle.mls_tree.specs.RatchetTree.{RatchetTree};
ghost use Rattle.mls_hash.specs.SuiteHash.{hash_length};
ghost use Rattle.mls_nodes.specs.ExternalSenders.{senders_by};
ghost use Rattle.mls_nodes.specs.Requirements.{Requires};
ghost use Rattle.mls_check.specs.GroupTree.{IsSupportedContext, HasMembers};
ghost use Rattle.mls_check.specs.Signatures.{VerifyFn};
ghost use Rattle.mls_strict.specs.LeafForms.{requires_types};
ghost use Rattle.mls_apply.specs.Staged.{IsSettled};
ghost use Rattle.mls_state.specs.Layout.{state_file};
ghost use Rattle.mls_state.specs.StateFile.{HasChecksum, IsFileOf};
ghost use Rattle.mls_state.specs.declared.file.StateFile.{StateFile};
ghost use Rattle.mls_follow.specs.GroupModel.{group_state};
ghost use Rattle.mls_follow.specs.StoredState.{IsIntact};
ghost use Rattle.mls_follow.specs.FollowerInvariant.{HasUniqueKeysAndValidLeaves};
ghost use Rattle.mls_follow.specs.Resumption.{HasInterim, IsStateOf, IsContentFault, IsResumed, IsResumeFault, is_over, profile_of_mode};
ghost use Rattle.mls_follow.specs.ResumptionParts.{IsStateFault, MakesState, ReadsReferences, ReadsTreeBody, state_without_pending, without_tree};

use crate::epoch_parts::EpochParts;
use crate::group::Group;
use crate::group_tree::{UnsupportedContext, group_requirements, suite_of};
use crate::pending_entries::hold_entries;
use crate::resume_fault::ResumeFault;
use mls_apply::{PendingProposals, StagedTree};
use mls_check::{GroupRequirements, OutOfMemory, SignatureCheck};
use mls_hash::{Suite, decode_with_leaf_hashes};
use mls_msgs::{Profile, Rules};
use mls_nodes::{ExternalSenders, GroupContext, NodeFault, RequiredCapabilities};
use mls_state::{FollowerState, GroupMode, StateFile, StateFileFault, decode_state_file};
use mls_tree::{HashValue, PublicTree};
use mls_wire::{CodecFault, Opaque, Sequence, bytes_of, copy_of, read_input};
use std::alloc::{AllocError, Global};
use std::mem::replace;

/// A refused resumption, with the checker as it was.
#[derive(Drop)]
pub struct ResumeRefused<C> {
    /// The first condition that failed.
    pub fault: ResumeFault,
    /// The checker.
    pub checker: C,
}

/// Returns the tree of the body of an encoded ratchet tree (RFC 9420, 12.4.3.3). If the suite with this number is supported,
/// the leaves have their tree hashes in a cache.
fn tree_of(alloc: Global, cipher_suite: u16, body: Opaque) -> Result<PublicTree, NodeFault>
    ensures { ReadsTreeBody body result }
{
    let bytes = bytes_of(alloc, &body)?;
    drop(body);
    match Suite::from_u16(cipher_suite) {
        Ok(suite) => decode_with_leaf_hashes(alloc, suite, bytes),
        Err(_) => PublicTree::decode(alloc, bytes.as_slice()),
    }
}

/// Returns the fault of a file whose checksum differs: `Unreadable` if its tree cannot be read.
fn damage_of(alloc: Global, bytes: &[u8]) -> ResumeFault
    requires { (file : StateFile) × (state_file file ≡ Some bytes.now) × (HasChecksum file → ⊥) }
    ensures { (G : VerifyFn) → IsResumeFault G bytes.now result }
{
    let file: StateFile = match read_input(alloc, bytes) {
        Ok(file) => file,
        Err(fault) => return ResumeFault::from(NodeFault::from(fault)),
    };
    let state = file.state;
    match tree_of(alloc, state.context.cipher_suite, state.tree) {
        Ok(_) => ResumeFault::ChecksumDiffers,
        Err(fault) => ResumeFault::from(fault),
    }
}

/// Takes the tree out of the content of a file, which then has none.
fn take_tree(alloc: Global, content: &mut FollowerState) -> Result<PublicTree, NodeFault>
    ensures rest { OnOk result (content.new ≡ without_tree content.old) }
    ensures tree { ReadsTreeBody content.old.tree result }
{
    let Ok(empty) = Opaque::copy(alloc, &[]) else {
        return Err(NodeFault::OutOfMemory);
    };
    let body = replace(&mut content.tree, empty);
    tree_of(alloc, content.context.cipher_suite, body)
}

/// Returns the content of a file that has the checksum of its state.
fn read_content(alloc: Global, bytes: &[u8]) -> Result<FollowerState, ResumeFault>
    ensures file { IfOk result (IsFileOf bytes.now) }
    ensures bounded { OnOk result (length bytes.now ≤ input_limit) }
    ensures refused { IfErr result (λ e. (G : VerifyFn) → IsResumeFault G bytes.now e) }
{
    match decode_state_file(alloc, bytes) {
        Ok(content) => Ok(content),
        Err(StateFileFault::Unreadable(fault)) => {
            Err(ResumeFault::Unreadable(NodeFault::Wire(fault)))
        }
        Err(StateFileFault::ChecksumDiffers) => Err(damage_of(alloc, bytes)),
        Err(StateFileFault::OutOfMemory) => Err(ResumeFault::OutOfMemory),
    }
}

/// Returns the content of an intact file without its tree, and the tree. The leaf nodes don't share the bytes of the file.
fn read_state(alloc: Global, bytes: Vec<u8>) -> Result<(FollowerState, PublicTree), ResumeFault>
    ensures intact { IfOk result (λ read. (c : FollowerState) × IsIntact bytes.items c (plain read.1)
        × (read.0 ≡ without_tree c)) }
    ensures refused { IfErr result (λ e. (G : VerifyFn) → IsResumeFault G bytes.items e) }
{
    let mut content = read_content(alloc, bytes.as_slice())?;
    drop(bytes);
    match take_tree(alloc, &mut content) {
        Ok(tree) => Ok((content, tree)),
        Err(fault) => {
            drop(content);
            Err(ResumeFault::from(fault))
        }
    }
}

/// Returns the cipher suite of a context whose version and suite are supported.
fn resumed_suite(context: &GroupContext) -> Result<Suite, ResumeFault>
    ensures supported { OnOk result (IsSupportedContext context.now) }
    ensures suite { IfOk result (λ suite. suite ≡ context.now.cipher_suite) }
    ensures refused { IfErr result (λ e. (G : VerifyFn) (c : FollowerState) (t : RatchetTree)
        → c.context ≡ context.now → IsContentFault G c t e) }
{
    match suite_of(context) {
        Ok(suite) => Ok(suite),
        Err(UnsupportedContext::Version) => Err(ResumeFault::UnsupportedVersion),
        Err(UnsupportedContext::Suite) => Err(ResumeFault::UnsupportedSuite),
    }
}

/// Returns the tree, indexed, and what the group of a supported context requires, if the tree is valid for the context
/// and its leaf nodes are valid.
fn resumed_tree<C: SignatureCheck>(
    alloc: Global,
    suite: Suite,
    context: &GroupContext,
    mut tree: PublicTree,
    checker: &C,
) -> Result<(StagedTree, RequiredCapabilities), ResumeFault>
    requires supported { IsSupportedContext context.now }
    requires suite_of_context { suite ≡ context.now.cipher_suite }
    ensures tree { IfOk result (λ found. found.0.tree ≡ tree.tree) }
    ensures settled { IfOk result (λ found. IsSettled found.0) }
    ensures members { IfOk result (λ found. HasMembers (C.meaning checker.now) context.now
        (λ t. t ≡ plain tree) (plain tree) found.1) }
    ensures refused { IfErr result (λ e. (c : FollowerState) → c.context ≡ context.now
        → IsContentFault (C.meaning checker.now) c (plain tree) e) }
{
    match group_requirements(alloc, suite, context, &mut tree, checker) {
        Ok(required) => match StagedTree::of(alloc, tree) {
            Ok(tree) => Ok((tree, required)),
            Err(tree) => {
                drop(tree);
                drop(required);
                Err(ResumeFault::OutOfMemory)
            }
        },
        Err(fault) => {
            drop(tree);
            Err(ResumeFault::from(fault))
        }
    }
}

/// Returns the interim transcript hash, if it has the length of the suite's hashes.
fn resumed_interim(suite: Suite, interim: &Opaque) -> Option<HashValue>
    ensures hash { IfSome result (λ hash. (hash ≡ interim.now) × (length interim.now ≡ hash_length suite)) }
    ensures other { result ≡ None → length interim.now ≢ hash_length suite }
{
    if interim.as_slice().len() != usize::from(suite.hash_length()) {
        return None;
    }
    HashValue::new(interim.as_slice())
}

/// What is found of the content of a file, before its pending proposals are checked.
#[derive(Drop)]
struct Found {
    suite: Suite,
    tree: StagedTree,
    required: GroupRequirements,
    types: GroupRequirements,
    senders: Option<ExternalSenders>,
    interim: HashValue,
}

/// Returns what is found of the content of a file, if its context, its tree and its interim transcript hash satisfy
/// their conditions.
fn check_content<C: SignatureCheck>(
    alloc: Global,
    content: &FollowerState,
    tree: PublicTree,
    checker: &C,
) -> Result<Found, ResumeFault>
    ensures suite { IfOk result (λ found. found.suite ≡ content.now.context.cipher_suite) }
    ensures tree { IfOk result (λ found. found.tree.tree ≡ tree.tree) }
    ensures settled { IfOk result (λ found. IsSettled found.tree) }
    ensures required { IfOk result (λ found. Requires content.now.context found.required) }
    ensures types { IfOk result (λ found. found.types ≡ requires_types content.now.context.extensions) }
    ensures senders { IfOk result (λ found. found.senders ≡ senders_by content.now.context.extensions) }
    ensures interim { IfOk result (λ found. found.interim ≡ content.now.interim) }
    ensures based { OnOk result (HasInterim (C.meaning checker.now) content.now (plain tree)) }
    ensures refused { IfErr result (IsContentFault (C.meaning checker.now) content.now (plain tree)) }
{
    let suite = resumed_suite(&content.context)?;
    let (tree, required) = resumed_tree(alloc, suite, &content.context, tree, checker)?;
    match resumed_interim(suite, &content.interim) {
        Some(interim) => match EpochParts::of(alloc, &content.context.extensions, required) {
            Ok(parts) => Ok(Found {
                suite,
                tree,
                required: parts.required,
                types: parts.types,
                senders: parts.senders,
                interim,
            }),
            Err(OutOfMemory) => {
                drop(tree);
                Err(ResumeFault::OutOfMemory)
            }
        },
        None => {
            drop(tree);
            drop(required);
            Err(ResumeFault::InterimLength)
        }
    }
}

/// Returns the profile in which the group of a file is followed.
fn profile_of_mode(mode: GroupMode) -> Profile
    ensures { result ≡ profile_of_mode mode }
{
    match mode {
        GroupMode::Members => Profile::Members,
        GroupMode::Full => Profile::Full,
        GroupMode::Ended => Profile::Full,
    }
}

/// Returns whether the group of a file is over.
fn is_over(mode: GroupMode) -> bool
    ensures { result ≡ is_over mode }
{
    match mode {
        GroupMode::Members => false,
        GroupMode::Full => false,
        GroupMode::Ended => true,
    }
}

/// Returns the group of a file without its pending proposals, its strict rules, and the references of those that were added.
fn bare_group(
    alloc: Global,
    mode: GroupMode,
    context: &GroupContext,
    found: Found,
) -> Result<Group, AllocError>
    requires suite { found.suite ≡ context.now.cipher_suite }
    requires settled { IsSettled found.tree }
    requires required { Requires context.now found.required }
    requires types { found.types ≡ requires_types context.now.extensions }
    requires senders { found.senders ≡ senders_by context.now.extensions }
    ensures { IfOk result (λ group. group_state group
        ≡ state_without_pending mode context.now found.tree.tree found.interim) }
{
    let context = match copy_of(alloc, context) {
        Ok(context) => context,
        Err(AllocError) => {
            drop(found);
            return Err(AllocError);
        }
    };
    Ok(Group {
        profile: profile_of_mode(mode),
        rules: Rules::plain(),
        context,
        tree: found.tree,
        interim: found.interim,
        known: PendingProposals::new(alloc),
        ended: is_over(mode),
        added: None,
        suite: found.suite,
        required: found.required,
        types: found.types,
        senders: found.senders,
    })
}

/// Returns the references of those that the last commit added, if they fit the suite and the number of members.
fn added_references(
    alloc: Global,
    group: &Group,
    added: &Option<Sequence<Opaque>>,
) -> Result<Option<Vec<HashValue>>, ResumeFault>
    ensures { ReadsReferences group.now.context.cipher_suite group.now.tree.tree added.now
        (seen (λ o. option_map (λ v. v.items) o) result) }
{
    let Some(references) = added else {
        return Ok(None);
    };
    let len = usize::from(group.suite.hash_length());
    let members = group.tree.tree().member_count() as usize;
    let references = references.as_slice();
    let mut read = Vec::with_capacity(alloc, references.len().min(members))?;
    for (number, reference) in references.iter().enumerate() {
        if reference.as_slice().len() != len || number >= members {
            return Err(ResumeFault::AddedInvalid(number));
        }
        let Some(reference) = HashValue::new(reference.as_slice()) else {
            unreachable!();
        };
        if read.push(reference).is_err() {
            return Err(ResumeFault::OutOfMemory);
        }
    }
    Ok(Some(read))
}

/// Returns the group of a file, if its pending proposals, the references of those that were added and its strict rules satisfy
/// their conditions.
fn group_of<C: SignatureCheck>(
    alloc: Global,
    content: &FollowerState,
    found: Found,
    checker: &C,
) -> Result<Group, ResumeFault>
    requires suite { found.suite ≡ content.now.context.cipher_suite }
    requires settled { IsSettled found.tree }
    requires required { Requires content.now.context found.required }
    requires types { found.types ≡ requires_types content.now.context.extensions }
    requires senders { found.senders ≡ senders_by content.now.context.extensions }
    requires checked { HasUniqueKeysAndValidLeaves (C.meaning checker.now)
        (state_without_pending content.now.mode content.now.context found.tree.tree found.interim) }
    ensures resumed { IfOk result (λ group. MakesState (C.meaning checker.now)
        (state_without_pending content.now.mode content.now.context found.tree.tree found.interim) content.now
        (group_state group)) }
    ensures refused { IfErr result (IsStateFault (C.meaning checker.now)
        (state_without_pending content.now.mode content.now.context found.tree.tree found.interim) content.now) }
{
    let mut group = bare_group(alloc, content.mode, &content.context, found)?;
    hold_entries(alloc, &mut group, checker, content.known.as_slice())?;
    group.added = added_references(alloc, &group, &content.added)?;
    group.add_rules(alloc, content.rules)?;
    Ok(group)
}

/// Returns the group of a file with this content and this tree.
fn resumed_content<C: SignatureCheck>(
    alloc: Global,
    content: FollowerState,
    tree: PublicTree,
    checker: &C,
) -> Result<Group, ResumeFault>
    ensures resumed { IfOk result (λ group. IsStateOf (C.meaning checker.now) content (plain tree) (group_state group)) }
    ensures refused { IfErr result (IsContentFault (C.meaning checker.now) content (plain tree)) }
{
    match check_content(alloc, &content, tree, checker) {
        Ok(found) => {
            let answer = group_of(alloc, &content, found, checker);
            drop(content);
            answer
        }
        Err(fault) => {
            drop(content);
            Err(fault)
        }
    }
}

/// Returns the group of a file.
pub(crate) fn resumed_group<C: SignatureCheck>(
    alloc: Global,
    bytes: Vec<u8>,
    checker: &C,
) -> Result<Group, ResumeFault>
    ensures resumed { IfOk result (λ group. IsResumed (C.meaning checker.now) bytes.items (group_state group)) }
    ensures refused { IfErr result (IsResumeFault (C.meaning checker.now) bytes.items) }
{
    let (content, tree) = read_state(alloc, bytes)?;
    resumed_content(alloc, content, tree, checker)
}
