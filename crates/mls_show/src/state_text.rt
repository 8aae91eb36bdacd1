//! The lines of `show state`.

ghost use Rattle.std.specs.Prelude.{◌≡◌, ◌++◌, IfOk, OnOk};
ghost use Rattle.mls_msgs.specs.Rules.{has_rule};
ghost use Rattle.mls_show.specs.StateText as lines;

use crate::info_text::{group_lines, hash_lines};
use crate::key_package_text::put_extensions_line;
use crate::message_text::{content_text, sender_text};
use crate::node_lines::NodeLines;
use crate::report_buffer::{put_hex, put_numbers, put_text};
use mls_msgs::{Authenticated, Rules};
use mls_nodes::{ExtensionsLeft, Node};
use mls_state::{FollowerState, GroupMode};
use mls_wire::{Opaque, Sequence};
use std::alloc::{AllocError, Global};

/// Appends the lines of the profile and of whether the group is over.
fn put_mode(out: &mut Vec<u8>, mode: GroupMode) -> Result<(), AllocError>
    ensures { OnOk result (out.new.items ≡ out.old.items ++ lines.mode_lines mode) }
{
    match mode {
        GroupMode::Members => put_text(out, "profile members\nended no\n"),
        GroupMode::Full => put_text(out, "profile full\nended no\n"),
        GroupMode::Ended => put_text(out, "profile full\nended yes\n"),
    }
}

/// Appends a number if a set has the strict rule of this number.
fn put_rule(numbers: &mut Vec<u32>, rules: Rules, number: u8) -> Result<(), AllocError>
    ensures { OnOk result (numbers.new.items
        ≡ numbers.old.items ++ lines.number_if (has_rule rules number) number) }
{
    if !rules.has(number) {
        return Ok(());
    }
    numbers.push(u32::from(number))?;
    Ok(())
}

/// Returns the numbers of the strict rules in a set.
fn numbers_in(alloc: Global, rules: Rules) -> Result<Vec<u32>, AllocError>
    ensures { IfOk result (λ numbers. numbers.items ≡ lines.numbers_from 13 40 rules) }
{
    let mut numbers = Vec::new(alloc);
    'strict: for number in 40..53 {
        put_rule(&mut numbers, rules, number)?;
    }
    Ok(numbers)
}

/// Appends the line of the strict rules.
fn put_rules(alloc: Global, out: &mut Vec<u8>, rules: Rules) -> Result<(), AllocError>
    ensures { OnOk result (out.new.items ≡ out.old.items ++ lines.rules_line rules) }
{
    let numbers = numbers_in(alloc, rules)?;
    put_text(out, "rules ")?;
    put_numbers(out, numbers.as_slice())?;
    put_text(out, "\n")
}

/// Appends the line of the interim transcript hash.
fn put_interim(out: &mut Vec<u8>, interim: &[u8]) -> Result<(), AllocError>
    ensures { OnOk result (out.new.items ≡ out.old.items ++ lines.interim_line interim.now) }
{
    put_text(out, "interim ")?;
    put_hex(out, interim)?;
    put_text(out, "\n")
}

/// Appends the line of a pending proposal.
fn put_pending(alloc: Global, out: &mut Vec<u8>, proposal: &Authenticated) -> Result<(), AllocError>
    ensures { OnOk result (out.new.items ≡ out.old.items ++ lines.pending_line proposal.now) }
{
    let framed = proposal.content();
    let sender = sender_text(alloc, framed.sender)?;
    let content = content_text(alloc, &framed.content)?;
    put_text(out, "pending ")?;
    put_text(out, sender.as_str())?;
    put_text(out, " ")?;
    put_text(out, content.as_str())?;
    put_text(out, "\n")
}

/// Appends the lines of pending proposals; none if there are none.
fn put_more_pending(
    alloc: Global,
    out: &mut Vec<u8>,
    known: &[Authenticated],
) -> Result<(), AllocError>
    ensures { OnOk result (out.new.items ≡ out.old.items ++ lines.more_pending_lines known.now) }
{
    for proposal in known {
        put_pending(alloc, out, proposal)?;
    }
    Ok(())
}

/// Appends the lines of the pending proposals, or one line that there are none.
fn put_all_pending(
    alloc: Global,
    out: &mut Vec<u8>,
    known: &[Authenticated],
) -> Result<(), AllocError>
    ensures { OnOk result (out.new.items ≡ out.old.items ++ lines.pending_lines known.now) }
{
    let Some((first, others)) = known.split_first() else {
        return put_text(out, "pending -\n");
    };
    put_pending(alloc, out, first)?;
    put_more_pending(alloc, out, others)
}

/// Appends the line of a KeyPackageRef.
fn put_added(out: &mut Vec<u8>, reference: &[u8]) -> Result<(), AllocError>
    ensures { OnOk result (out.new.items ≡ out.old.items ++ lines.added_line reference.now) }
{
    put_text(out, "added ")?;
    put_hex(out, reference)?;
    put_text(out, "\n")
}

/// Appends the lines of KeyPackageRefs; none if there are none.
fn put_more_added(out: &mut Vec<u8>, references: &[Opaque]) -> Result<(), AllocError>
    ensures { OnOk result (out.new.items ≡ out.old.items ++ lines.more_added_lines references.now) }
{
    for reference in references {
        put_added(out, reference.as_slice())?;
    }
    Ok(())
}

/// Appends the lines of the KeyPackageRefs of a commit, or one line that there are none.
fn put_references(out: &mut Vec<u8>, references: &[Opaque]) -> Result<(), AllocError>
    ensures { OnOk result (out.new.items ≡ out.old.items ++ lines.reference_lines references.now) }
{
    let Some((first, others)) = references.split_first() else {
        return put_text(out, "added -\n");
    };
    put_added(out, first.as_slice())?;
    put_more_added(out, others)
}

/// Appends the lines of the KeyPackageRefs of the last commit, or one line that none is known.
fn put_all_added(out: &mut Vec<u8>, added: &Option<Sequence<Opaque>>) -> Result<(), AllocError>
    ensures { OnOk result (out.new.items ≡ out.old.items ++ lines.added_lines added.now) }
{
    match added {
        None => put_text(out, "added unknown\n"),
        Some(references) => put_references(out, references.as_slice()),
    }
}

/// Appends the lines before that of the numbers of leaves and members.
fn put_first_lines(
    alloc: Global,
    out: &mut Vec<u8>,
    state: &FollowerState,
) -> Result<(), AllocError>
    ensures { OnOk result (out.new.items ≡ out.old.items ++ lines.first_state_lines state.now) }
{
    let group = group_lines(alloc, &state.context)?;
    let hashes = hash_lines(alloc, &state.context)?;
    put_mode(out, state.mode)?;
    put_rules(alloc, out, state.rules)?;
    put_text(out, group.as_str())?;
    put_text(out, hashes.as_str())?;
    put_interim(out, state.interim.as_slice())
}

/// Appends the lines after that of the numbers of leaves and members.
fn put_last_lines(alloc: Global, out: &mut Vec<u8>, state: &FollowerState) -> Result<(), AllocError>
    ensures { OnOk result (out.new.items ≡ out.old.items ++ lines.last_state_lines state.now) }
{
    let extensions = ExtensionsLeft::of(&state.context.extensions);
    put_extensions_line(out, "extensions ", extensions)?;
    put_all_pending(alloc, out, state.known.as_slice())?;
    put_all_added(out, &state.added)
}

/// Returns the report of a state, with `counts` as the line of the numbers of leaves and members.
pub(crate) fn state_text(
    alloc: Global,
    state: &FollowerState,
    counts: &[u8],
) -> Result<Vec<u8>, AllocError>
    ensures { IfOk result (λ text. text.items
        ≡ lines.first_state_lines state.now ++ (counts.now ++ lines.last_state_lines state.now)) }
{
    let mut out = Vec::new(alloc);
    put_first_lines(alloc, &mut out, state)?;
    out.extend_from_slice(counts)?;
    put_last_lines(alloc, &mut out, state)?;
    Ok(out)
}

/// No line for any node, so that only the line of the counts is left.
pub(crate) struct NoLines;

impl NodeLines for NoLines {
    ghost use Rattle.std.specs.Prelude.{[]};

    ghost line = { λ node_index node. [] };

    fn put_line(
        _out: &mut Vec<u8>,
        _node_index: usize,
        _node: &Option<Node>,
    ) -> Result<(), AllocError> {
        Ok(())
    }
}
