//! What a follower starts from (RFC 9420, 12.4.3.1).

ghost use Rattle.std.specs.Prelude.{◌≡◌, ◌≢◌, ◌↔◌, ℕ, List, Option, None, Some, Err, IfOk, IfErr, OnOk, OnErr, IsErrAnd, MatchOption, option_map};
ghost use Rattle.mls_check.specs.Signatures.{VerifyFn};
ghost use Rattle.mls_tree.specs.PublicTreeModel.{plain};
ghost use Rattle.mls_tree.specs.RatchetTree.{RatchetTree};
ghost use Rattle.mls_nodes.specs.ExternalSenders.{senders_by};
ghost use Rattle.mls_nodes.specs.Requirements.{extension_of, Requires};
ghost use Rattle.mls_check.specs.GroupTree.{IsSupportedContext, HasMembers, FailsSuite};
ghost use Rattle.mls_msgs.specs.declared.profile.Profile.{Profile};
ghost use Rattle.mls_apply.specs.Staged.{IsSettled};
ghost use Rattle.mls_follow.specs.CommitTree.{initial_state_of_tree};
ghost use Rattle.mls_msgs.specs.declared.rules.Rules.{Rules};
ghost use Rattle.mls_strict.specs.LeafForms.{requires_types};
ghost use Rattle.mls_strict.specs.StrictTrees.{IsStrict};
ghost use Rattle.mls_follow.specs.Start.{UsesTree, UsesNoTree, InfoMeets, IsInfoFault, IsStart, IsStartFault, info_interim, is_info_signed};
ghost use Rattle.mls_follow.specs.StartInternal.{StartsWith, FailsWith, FailsStrictly, IsSignedIn, FailsSigned};

use crate::context_pieces::ContextPieces;
use crate::epoch_parts::EpochParts;
use crate::group_tree::{UnsupportedContext, group_requirements, suite_of};
use crate::start_fault::StartFault;
use mls_apply::{StagedTree, interim_hash};
use mls_check::{GroupRequirements, OutOfMemory, SignatureCheck, signed_in_pieces};
use mls_hash::Suite;
use mls_msgs::{GROUP_INFO_LABEL, GroupInfo, Rules, StrictRule};
use mls_nodes::{EncodedLeaf, ExternalSenders, NodeFault, RequiredCapabilities, find_extension};
use mls_strict::{StrictFault, StrictTreeFault, has_each_once, validate_strict};
use mls_tree::{HashValue, PublicTree};
use mls_wire::EncodedLength;
use std::alloc::Global;

/// The extension type of a ratchet_tree (RFC 9420, 12.4.3.3).
const RATCHET_TREE: u16 = 2;

/// A refused start, with all arguments as they were. Only slots of the tree's hash cache may have been filled.
#[derive(Drop)]
pub struct StartRefused<C> {
    /// The first condition that failed.
    pub fault: StartFault,
    /// The GroupInfo.
    pub info: GroupInfo,
    /// The tree, if one was passed.
    pub tree: Option<PublicTree>,
    /// The checker.
    pub checker: C,
}

/// By what a start is checked: the strict rules of the follower's set, and the cipher suite of the GroupInfo.
#[derive(Drop)]
pub(crate) struct StartRules {
    pub(crate) asked: Rules,
    pub(crate) suite: Suite,
}

/// What is found of a GroupInfo and a tree from which a follower starts.
#[derive(Drop)]
pub(crate) struct StartParts {
    pub(crate) asked: Rules,
    pub(crate) suite: Suite,
    pub(crate) required: GroupRequirements,
    pub(crate) types: GroupRequirements,
    pub(crate) senders: Option<ExternalSenders>,
    pub(crate) interim: HashValue,
}

/// Returns the cipher suite of a GroupInfo whose version and suite are supported.
pub(crate) fn supported_suite(info: &GroupInfo) -> Result<Suite, StartFault>
    ensures supported { OnOk result (IsSupportedContext info.now.context) }
    ensures suite { IfOk result (λ suite. suite ≡ info.now.context.cipher_suite) }
    ensures refused { IfErr result (λ e. (asked : Rules) (G : VerifyFn) (supplied : Option RatchetTree)
        → IsStartFault asked G info.now supplied e) }
    ensures unfollowed { OnErr result (¬ IsSupportedContext info.now.context) }
    ensures unsupported_version { (result ≡ Err StartFault.UnsupportedVersion)
        ↔ (info.now.context.version ≢ 1) }
    ensures unsupported_suite { (result ≡ Err StartFault.UnsupportedSuite) ↔ FailsSuite info.now.context }
{
    match suite_of(&info.context) {
        Ok(suite) => Ok(suite),
        Err(UnsupportedContext::Version) => Err(StartFault::UnsupportedVersion),
        Err(UnsupportedContext::Suite) => Err(StartFault::UnsupportedSuite),
    }
}

/// Returns the tree in a GroupInfo's first extension of type 2 (RFC 9420, 12.4.3.3).
///
/// # Errors
///
/// `NoTree` if and only if there is none that can be read, or `OutOfMemory`.
pub fn tree_in(alloc: Global, info: &GroupInfo) -> Result<PublicTree, StartFault>
    ensures tree { IfOk result (λ t. UsesTree None info.now.extensions (plain t)) }
    ensures none { IfErr result (λ e. e ≢ StartFault.OutOfMemory → (e ≡ StartFault.NoTree)
        × UsesNoTree None info.now.extensions) }
    ensures no_extension { extension_of 2 info.now.extensions ≡ None
        → result ≡ Err StartFault.NoTree }
{
    let Some(body) = find_extension(&info.extensions, RATCHET_TREE) else {
        return Err(StartFault::NoTree);
    };
    match PublicTree::decode(alloc, body) {
        Ok(tree) => Ok(tree),
        Err(NodeFault::OutOfMemory) => Err(StartFault::OutOfMemory),
        Err(_) => Err(StartFault::NoTree),
    }
}

/// Returns whether the signature of the GroupInfo is good under the key of a leaf. The checker gets the GroupInfoTBS (RFC
/// 9420, 12.4.3) in pieces, each from where it is stored.
fn is_info_signed<C: SignatureCheck>(
    alloc: Global,
    info: &GroupInfo,
    signer: &EncodedLeaf,
    checker: &C,
) -> Result<bool, OutOfMemory>
    ensures { IfOk result (λ good. good ≡ is_info_signed
        (C.meaning checker.now) info.now signer.now) }
{
    let context = ContextPieces::of(&info.context);
    let extensions = info.extensions.encoded();
    let extensions_len = EncodedLength::of(extensions.len());
    let tag = info.confirmation_tag.as_slice();
    let tag_len = EncodedLength::of(tag.len());
    let index = info.signer.to_be_bytes();
    let mut tbs = Vec::new(alloc);
    context.add_to(&mut tbs)?;
    tbs.extend_from_slice(&[
        extensions_len.as_slice(),
        extensions,
        tag_len.as_slice(),
        tag,
        &index,
    ])?;
    let suite = info.context.cipher_suite;
    let key = signer.signature_key();
    let signature = info.signature.as_slice();
    signed_in_pieces(
        alloc,
        checker,
        suite,
        key,
        GROUP_INFO_LABEL,
        tbs.as_slice(),
        signature,
    )
}

/// Checks that the leaf of a GroupInfo's signer is non-blank and has signed it.
fn check_signer<C: SignatureCheck>(
    alloc: Global,
    info: &GroupInfo,
    tree: &PublicTree,
    checker: &C,
) -> Result<(), StartFault>
    ensures signed { OnOk result (IsSignedIn (C.meaning checker.now) info.now (plain tree.now)) }
    ensures refused { IfErr result (λ e. (asked : Rules)
        → FailsSigned asked (C.meaning checker.now) info.now (plain tree.now) e) }
{
    let Some(signer) = tree.leaf(info.signer) else {
        return Err(StartFault::SignerNotMember);
    };
    if !is_info_signed(alloc, info, signer, checker)? {
        return Err(StartFault::InfoSignature);
    }
    Ok(())
}

/// Returns what the group of a supported GroupInfo requires, if the tree is valid for its context and its leaf nodes
/// are valid. Fills the hash cache of the tree first.
fn validated_requirements<C: SignatureCheck>(
    alloc: Global,
    suite: Suite,
    info: &GroupInfo,
    tree: &mut PublicTree,
    checker: &C,
) -> Result<RequiredCapabilities, StartFault>
    requires supported { IsSupportedContext info.now.context }
    requires suite_of_context { suite ≡ info.now.context.cipher_suite }
    ensures tree { plain tree.new ≡ plain tree.old }
    ensures members { IfOk result (HasMembers (C.meaning checker.now) info.now.context
        (λ t. t ≡ plain tree.new) (plain tree.new)) }
    ensures refused { IfErr result (λ e. (asked : Rules)
        → FailsWith asked (C.meaning checker.now) info.now (plain tree.new) e) }
{
    match group_requirements(alloc, suite, &info.context, tree, checker) {
        Ok(required) => Ok(required),
        Err(fault) => Err(StartFault::from(fault)),
    }
}

/// Returns the first of the strict rules 40 and 41, if the set has it, that a GroupInfo does not meet by itself.
fn unmet_by_info(rules: &StartRules, info: &GroupInfo) -> Option<StrictRule>
    requires suite_of_context { rules.now.suite ≡ info.now.context.cipher_suite }
    ensures { MatchOption result (InfoMeets rules.now.asked info.now) (IsInfoFault rules.now.asked info.now) }
{
    let tag = info.confirmation_tag.as_slice();
    if rules.asked.has(40) && tag.len() != usize::from(rules.suite.hash_length()) {
        return Some(StrictRule::TagLength);
    }
    if rules.asked.has(41) && !has_each_once(&info.extensions) {
        return Some(StrictRule::ExtensionRepeated);
    }
    None
}

/// Checks that a GroupInfo, its GroupContext and its tree meet the strict rules.
fn check_strict_start(
    alloc: Global,
    rules: &StartRules,
    info: &GroupInfo,
    tree: &PublicTree,
) -> Result<(), StartFault>
    requires suite_of_context { rules.now.suite ≡ info.now.context.cipher_suite }
    ensures info { OnOk result (InfoMeets rules.now.asked info.now) }
    ensures strict { OnOk result (IsStrict rules.now.asked info.now.context tree.now.tree) }
    ensures refused { IfErr result (FailsStrictly rules.now.asked info.now (plain tree.now)) }
{
    if let Some(rule) = unmet_by_info(rules, info) {
        return Err(StartFault::Strict(StrictFault { rule, place: None }));
    }
    match validate_strict(alloc, rules.asked, rules.suite, &info.context, tree) {
        Ok(()) => Ok(()),
        Err(StrictTreeFault::Strict(fault)) => Err(StartFault::Strict(fault)),
        Err(StrictTreeFault::OutOfMemory) => Err(StartFault::OutOfMemory),
    }
}

/// Returns the interim transcript hash of a GroupInfo that its signer has signed, and that meets the strict rules with its
/// tree.
fn verified_interim_hash<C: SignatureCheck>(
    alloc: Global,
    rules: &StartRules,
    info: &GroupInfo,
    tree: &PublicTree,
    checker: &C,
) -> Result<HashValue, StartFault>
    requires suite_of_context { rules.now.suite ≡ info.now.context.cipher_suite }
    ensures signed { OnOk result (IsSignedIn (C.meaning checker.now) info.now (plain tree.now)) }
    ensures info { OnOk result (InfoMeets rules.now.asked info.now) }
    ensures strict { OnOk result (IsStrict rules.now.asked info.now.context tree.now.tree) }
    ensures hashed { IfOk result (λ interim. info_interim info.now ≡ Some interim) }
    ensures refused { IfErr result (FailsSigned rules.now.asked (C.meaning checker.now) info.now (plain tree.now)) }
{
    check_signer(alloc, info, tree, checker)?;
    check_strict_start(alloc, rules, info, tree)?;
    let confirmed = info.context.confirmed.as_slice();
    let suite = rules.suite;
    Ok(interim_hash(alloc, suite, confirmed, &info.confirmation_tag)?)
}

/// Returns what is found of a supported GroupInfo and a tree from which a follower starts. Checks the tree, then its
/// leaf nodes, then the signature of the GroupInfo, then the strict rules. Reads the external senders last.
fn check_info_and_tree<C: SignatureCheck>(
    alloc: Global,
    rules: &StartRules,
    info: &GroupInfo,
    tree: &mut PublicTree,
    checker: &C,
) -> Result<StartParts, StartFault>
    requires supported { IsSupportedContext info.now.context }
    requires suite_of_context { rules.now.suite ≡ info.now.context.cipher_suite }
    ensures tree { plain tree.new ≡ plain tree.old }
    ensures asked { IfOk result (λ checked. checked.asked ≡ rules.now.asked) }
    ensures suite { IfOk result (λ checked. checked.suite ≡ info.now.context.cipher_suite) }
    ensures required { IfOk result (λ checked. Requires info.now.context checked.required) }
    ensures types { IfOk result (λ checked. checked.types ≡ requires_types info.now.context.extensions) }
    ensures senders { IfOk result (λ checked. checked.senders ≡ senders_by info.now.context.extensions) }
    ensures started { IfOk result (λ checked. StartsWith rules.now.asked
        (C.meaning checker.now) info.now (plain tree.old) checked.interim) }
    ensures refused { IfErr result (FailsWith rules.now.asked (C.meaning checker.now) info.now (plain tree.old)) }
{
    let suite = rules.suite;
    let required = validated_requirements(alloc, suite, info, tree, checker)?;
    match verified_interim_hash(alloc, rules, info, tree, checker) {
        Ok(interim) => match EpochParts::of(alloc, &info.context.extensions, required) {
            Ok(parts) => Ok(StartParts {
                asked: rules.asked,
                suite,
                required: parts.required,
                types: parts.types,
                senders: parts.senders,
                interim,
            }),
            Err(OutOfMemory) => Err(StartFault::OutOfMemory),
        },
        Err(fault) => {
            drop(required);
            Err(fault)
        }
    }
}

/// Does the same with a tree that is passed, and indexes it last. On error the tree is returned.
fn check_tree<C: SignatureCheck>(
    alloc: Global,
    rules: &StartRules,
    info: &GroupInfo,
    mut tree: PublicTree,
    checker: &C,
) -> Result<(StagedTree, StartParts), (StartFault, PublicTree)>
    requires supported { IsSupportedContext info.now.context }
    requires suite_of_context { rules.now.suite ≡ info.now.context.cipher_suite }
    ensures tree { IfOk result (λ found. found.0.tree ≡ tree.tree) }
    ensures settled { IfOk result (λ found. IsSettled found.0) }
    ensures asked { IfOk result (λ found. found.1.asked ≡ rules.now.asked) }
    ensures suite { IfOk result (λ found. found.1.suite ≡ info.now.context.cipher_suite) }
    ensures required { IfOk result (λ found. Requires info.now.context found.1.required) }
    ensures types { IfOk result (λ found. found.1.types ≡ requires_types info.now.context.extensions) }
    ensures senders { IfOk result (λ found. found.1.senders ≡ senders_by info.now.context.extensions) }
    ensures started { IfOk result (λ found. StartsWith rules.now.asked
        (C.meaning checker.now) info.now (plain tree) found.1.interim) }
    ensures refused { IfErr result (λ r. FailsWith rules.now.asked (C.meaning checker.now) info.now (plain tree) r.0) }
    ensures returned_arguments { IfErr result (λ r. plain r.1 ≡ plain tree) }
{
    match check_info_and_tree(alloc, rules, info, &mut tree, checker) {
        Ok(checked) => match StagedTree::of(alloc, tree) {
            Ok(tree) => Ok((tree, checked)),
            Err(tree) => {
                drop(checked);
                Err((StartFault::OutOfMemory, tree))
            }
        },
        Err(fault) => Err((fault, tree)),
    }
}

/// Does the same with the tree in the GroupInfo.
fn check_embedded_tree<C: SignatureCheck>(
    alloc: Global,
    rules: &StartRules,
    info: &GroupInfo,
    checker: &C,
) -> Result<(StagedTree, StartParts), StartFault>
    requires supported { IsSupportedContext info.now.context }
    requires suite_of_context { rules.now.suite ≡ info.now.context.cipher_suite }
    ensures settled { IfOk result (λ found. IsSettled found.0) }
    ensures asked { IfOk result (λ found. found.1.asked ≡ rules.now.asked) }
    ensures suite { IfOk result (λ found. found.1.suite ≡ info.now.context.cipher_suite) }
    ensures required { IfOk result (λ found. Requires info.now.context found.1.required) }
    ensures types { IfOk result (λ found. found.1.types ≡ requires_types info.now.context.extensions) }
    ensures senders { IfOk result (λ found. found.1.senders ≡ senders_by info.now.context.extensions) }
    ensures started { IfOk result (λ found. (profile : Profile) → IsStart rules.now.asked profile (C.meaning checker.now)
        info.now None (initial_state_of_tree rules.now.asked profile info.now found.0.tree found.1.interim)) }
    ensures refused { IfErr result (IsStartFault rules.now.asked (C.meaning checker.now) info.now None) }
    ensures no_extension { extension_of 2 info.now.extensions ≡ None
        → result ≡ Err StartFault.NoTree }
{
    let tree = tree_in(alloc, info)?;
    match check_tree(alloc, rules, info, tree, checker) {
        Ok(found) => Ok(found),
        Err((fault, tree)) => {
            drop(tree);
            Err(fault)
        }
    }
}

/// Does the same with the tree that is passed, otherwise with the one in the GroupInfo. On error returns what was
/// passed.
pub(crate) fn check_start<C: SignatureCheck>(
    alloc: Global,
    rules: &StartRules,
    info: &GroupInfo,
    tree: Option<PublicTree>,
    checker: &C,
) -> Result<(StagedTree, StartParts), (StartFault, Option<PublicTree>)>
    requires supported { IsSupportedContext info.now.context }
    requires suite_of_context { rules.now.suite ≡ info.now.context.cipher_suite }
    ensures settled { IfOk result (λ found. IsSettled found.0) }
    ensures asked { IfOk result (λ found. found.1.asked ≡ rules.now.asked) }
    ensures suite { IfOk result (λ found. found.1.suite ≡ info.now.context.cipher_suite) }
    ensures required { IfOk result (λ found. Requires info.now.context found.1.required) }
    ensures types { IfOk result (λ found. found.1.types ≡ requires_types info.now.context.extensions) }
    ensures senders { IfOk result (λ found. found.1.senders ≡ senders_by info.now.context.extensions) }
    ensures started { IfOk result (λ found. (profile : Profile) → IsStart rules.now.asked profile (C.meaning checker.now)
        info.now (option_map plain tree) (initial_state_of_tree rules.now.asked profile info.now found.0.tree found.1.interim)) }
    ensures refused { IfErr result (λ r. IsStartFault rules.now.asked (C.meaning checker.now) info.now
        (option_map plain tree) r.0) }
    ensures returned_arguments { IfErr result (λ r. option_map plain r.1 ≡ option_map plain tree) }
    ensures no_extension { tree ≡ None → extension_of 2 info.now.extensions ≡ None
        → IsErrAnd result (λ r. r.0 ≡ StartFault.NoTree) }
{
    match tree {
        Some(tree) => match check_tree(alloc, rules, info, tree, checker) {
            Ok(found) => Ok(found),
            Err((fault, tree)) => Err((fault, Some(tree))),
        },
        None => match check_embedded_tree(alloc, rules, info, checker) {
            Ok(found) => Ok(found),
            Err(fault) => Err((fault, None)),
        },
    }
}
