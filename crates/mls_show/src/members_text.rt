//! The lines of `show members`.

ghost use Rattle.std.specs.Prelude.{◌≡◌, ◌++◌, OnOk};
ghost use Rattle.mls_show.specs.MembersText as lines;

use crate::credential_text::put_credential;
use crate::node_lines::NodeLines;
use crate::report_buffer::{put_hex, put_number, put_text};
use mls_nodes::{EncodedLeaf, Node};
use std::alloc::AllocError;

/// Appends the line of a member.
fn put_member(out: &mut Vec<u8>, node_index: usize, leaf: &EncodedLeaf) -> Result<(), AllocError>
    ensures { OnOk result (out.new.items ≡ out.old.items ++ lines.member_line node_index leaf.now) }
{
    put_number(out, node_index / 2)?;
    put_text(out, " ")?;
    put_credential(out, &leaf.credential())?;
    put_text(out, " ")?;
    put_hex(out, leaf.signature_key())?;
    put_text(out, "\n")
}

/// The lines of `show members`: one for each leaf that is not blank.
pub(crate) struct MemberLines;

impl NodeLines for MemberLines {
    ghost use Rattle.mls_show.specs.MembersText.{member_lines};

    ghost line = { member_lines };

    fn put_line(
        out: &mut Vec<u8>,
        node_index: usize,
        node: &Option<Node>,
    ) -> Result<(), AllocError> {
        match node {
            None => Ok(()),
            Some(Node::Leaf(leaf)) => put_member(out, node_index, leaf),
            Some(Node::Parent(_)) => Ok(()),
        }
    }
}
