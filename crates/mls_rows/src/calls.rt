//! The kinds of rows, each with the function that makes its call.

use crate::call_result::CallResult;
use crate::fault::RowFault;
use crate::names::copy_of;
use crate::row::Row;
use crate::{
    check_calls, codec_calls, field_calls, hash_calls, hostile_calls, key_calls, list_calls,
    proposal_calls, run_calls, state_calls, stories, tree_calls,
};

/// The result of a row of hashes and signatures, or of another kind.
pub(crate) fn call(row: &Row) -> Result<CallResult, RowFault> {
    match row.word(0) {
        "suite" => hash_calls::suite(row),
        "hash_length" => hash_calls::length(row),
        "hash" => hash_calls::hash_of(row),
        "fingerprint" => hash_calls::fingerprint_of(row),
        "leaf_fingerprints" => hash_calls::leaf_fingerprints(row),
        "proposal_ref" => hash_calls::proposal_ref(row),
        "tree_hash" => hash_calls::subtree_hash(row),
        "original_hash" => hash_calls::original_hash(row),
        "parent_hash" => hash_calls::hash_of_parent(row),
        "subtree_hash" => hash_calls::one_of_all(row),
        "parent_hash_of" => check_calls::hash_of_node(row),
        "valid_tree" => check_calls::valid_tree(row),
        "distinct_keys" => check_calls::distinct_keys(row),
        "members" => check_calls::members(row),
        "leaf_signed" => check_calls::leaf_signed(row),
        "changed_leaves" => check_calls::changed_leaves(row),
        "key_in" => check_calls::key_in(row),
        "signed" => check_calls::is_signed(row),
        "signed_in_pieces" => check_calls::is_signed_in_pieces(row),
        "listed" => check_calls::listed(row),
        _ => key_call(row),
    }
}

/// The result of a row of keys, or of another kind.
fn key_call(row: &Row) -> Result<CallResult, RowFault> {
    match row.word(0) {
        "hpke_key" => key_calls::hpke_key(row),
        "signature_key" => key_calls::signature_key(row),
        "suite_point" => key_calls::suite_point(row),
        "certificate_key" => key_calls::key_of_certificate(row),
        _ => codec_call(row),
    }
}

/// The result of a row of encodings, or of another kind.
fn codec_call(row: &Row) -> Result<CallResult, RowFault> {
    match row.word(0) {
        "again" => codec_calls::again(row),
        "length" => codec_calls::length(row),
        "written_length" => codec_calls::written_length(row),
        "read_length" => codec_calls::read_length(row),
        "leaf_tbs" => codec_calls::tbs_of_leaf(row),
        "leaf_tbs_after" => codec_calls::tbs_of_leaf_after(row),
        "tbs" => codec_calls::tbs(row),
        "tbs_in" => codec_calls::tbs_in(row),
        "label" => codec_calls::label(row),
        "unread" => codec_calls::unread(row),
        "parts" => codec_calls::parts(row),
        "extension" => codec_calls::extension(row),
        "external_senders" => codec_calls::senders(row),
        "required" => codec_calls::required(row),
        "fields" => field_calls::fields(row),
        _ => tree_call(row),
    }
}

/// The result of a row of trees, or of another kind.
fn tree_call(row: &Row) -> Result<CallResult, RowFault> {
    match row.word(0) {
        "root" => tree_calls::root_of(row),
        "left" | "right" | "parent" | "sibling" | "level" => tree_calls::relative(row),
        "direct_path" | "copath" | "filtered_direct_path" | "resolution" => tree_calls::list(row),
        "resolution_length" => tree_calls::resolution_length(row),
        "part" => tree_calls::part(row),
        "node" => tree_calls::node(row),
        "leaf" => tree_calls::leaf(row),
        "split_leaves" => tree_calls::split(row),
        "tree_size" => tree_calls::size(row),
        "nodes_form" => tree_calls::nodes_form(row),
        "extended_blank" => tree_calls::extended_blank(row),
        "blank_leaf" => tree_calls::blank_leaf(row),
        "changed" => tree_calls::changed(row),
        "seat" => tree_calls::seat(row),
        "copied" => tree_calls::copied(row),
        _ => list_call(row),
    }
}

/// The result of a row of proposals, lists and paths, or of another kind.
fn list_call(row: &Row) -> Result<CallResult, RowFault> {
    match row.word(0) {
        "proposal" => proposal_calls::proposal(row),
        "resolve" => proposal_calls::resolve(row),
        "pending" => proposal_calls::find(row),
        "package_ref" => proposal_calls::reference_of_package(row),
        "check_list" => list_calls::checked(row),
        "check_join" => proposal_calls::join(row),
        "join_items" => proposal_calls::items_of_join(row),
        "apply_list" => list_calls::applied(row),
        "new_extensions" => list_calls::extensions_after(row),
        "merge_path" => list_calls::merged(row),
        "expected_parent_hashes" => list_calls::expected_hashes(row),
        _ => story_call(row),
    }
}

/// The result of a row of followers, hostile inputs, the program and logs.
fn story_call(row: &Row) -> Result<CallResult, RowFault> {
    match row.word(0) {
        "story" | "story_state" | "story_tree" | "story_added" => stories::story(row),
        "full_story" | "full_story_state" | "full_story_tree" => stories::story(row),
        "full_story_added" => stories::story(row),
        "start" => stories::start(row),
        "resume" => state_calls::resume(row),
        "cut" => hostile_calls::cut(row),
        "cut_message" => hostile_calls::cut_message(row),
        "bits" => hostile_calls::bits(row),
        "state_bits" => hostile_calls::state_bits(row),
        "run" => run_calls::run(row),
        "run_in_pieces" => run_calls::run_in_pieces(row),
        "first_words" => run_calls::first_words(row),
        "prints" => run_calls::prints(row),
        "command" => run_calls::command(row),
        "log" => run_calls::log(row),
        "held_log" => run_calls::held_log(row),
        kind => Err(RowFault::Kind(copy_of(row.alloc, kind)?)),
    }
}
