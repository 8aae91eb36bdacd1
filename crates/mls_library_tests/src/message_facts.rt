//! The facts of a message that do not depend on a group (RFC 9420, 6, 6.1, 12.1 and 12.4).
//!
//! A message is text in the notation of [`bytes_of`]. Its facts are text: the wire format, the group ID, the epoch, the content
//! type, the sender, the counts of Adds, Updates, Removes, PreSharedKeys, ReInits, ExternalInits, GroupContextExtensions and
//! references, and the signature key. A fact that the message does not have is `-`.

use crate::notation::{bytes_of, changed};
use crate::support::{expect_text, have, text};
use mls_facts::{MessageFacts, ProposalCounts, message_facts};
use mls_msgs::{Message, Profile, Sender, decode_message_in};
use std::alloc::Global;
use std::process::Abort;

/// Member 0 proposes to add member 1, in epoch 0.
const PROPOSAL: &str = "0001 0001 <47> 00*8 01 00000000 <> 02 \
    0001 0001 0001 <f1> <a1> <b1> 0001 <41> <0001> <0001> <> <> <0001> 01 00*8 ff*8 <> <c1> <> <c9> \
    <c8> <c7>";

/// The content of [`PROPOSAL`].
const ADD: &str =
    "0001 0001 0001 <f1> <a1> <b1> 0001 <41> <0001> <0001> <> <> <0001> 01 00*8 ff*8 <> <c1> <> <c9>";

/// Changes of [`PROPOSAL`], and its facts.
const PROPOSAL_CASES: &[(&[(&str, &str)], &str)] = &[
    (&[], "1 <47> 0 2 member 0 1,0,0,0,0,0,0,0 -"),
    (
        &[("<47> 00*8 01 00000000", "<> ff*8 01 00000003")],
        "1 <> 18446744073709551615 2 member 3 1,0,0,0,0,0,0,0 -",
    ),
    (
        &[("01 00000000", "02 00000005"), (" <c7>", "")],
        "1 <47> 0 2 external 5 1,0,0,0,0,0,0,0 -",
    ),
    (
        &[("01 00000000", "03"), (" <c7>", "")],
        "1 <47> 0 2 new_member_proposal 1,0,0,0,0,0,0,0 <b1>",
    ),
    (
        &[("01 00000000", "04"), (" <c7>", "")],
        "1 <47> 0 2 new_member_commit 1,0,0,0,0,0,0,0 -",
    ),
    (
        &[(
            ADD,
            "0002 <91> <b1> 0001 <41> <0001> <0001> <> <> <0001> 02 <> <c1>",
        )],
        "1 <47> 0 2 member 0 0,1,0,0,0,0,0,0 -",
    ),
    (
        &[
            ("01 00000000", "03"),
            (
                ADD,
                "0002 <91> <b1> 0001 <41> <0001> <0001> <> <> <0001> 02 <> <c1>",
            ),
            (" <c7>", ""),
        ],
        "1 <47> 0 2 new_member_proposal 0,1,0,0,0,0,0,0 -",
    ),
    (
        &[(ADD, "0003 00000002")],
        "1 <47> 0 2 member 0 0,0,1,0,0,0,0,0 -",
    ),
    (
        &[(ADD, "0004 01 <aa> <bb*32>")],
        "1 <47> 0 2 member 0 0,0,0,1,0,0,0,0 -",
    ),
    (
        &[(ADD, "0005 <48> 0001 0001 <>")],
        "1 <47> 0 2 member 0 0,0,0,0,1,0,0,0 -",
    ),
    (
        &[(ADD, "0006 <aa>")],
        "1 <47> 0 2 member 0 0,0,0,0,0,1,0,0 -",
    ),
    (
        &[(ADD, "0007 <0009 <01>>")],
        "1 <47> 0 2 member 0 0,0,0,0,0,0,1,0 -",
    ),
    (
        &[
            ("02 0001 0001 0001 <f1>", "01 <0001 0001 0001 <f1>"),
            ("<c9> ", "<c9>> "),
        ],
        "1 <47> 0 1 member 0 0,0,0,0,0,0,0,0 -",
    ),
];

/// Messages, and their facts.
const CASES: &[(&str, &str)] = &[
    // commits of members
    (
        "0001 0001 <47> 00*8 01 00000000 <> 03 <02 <aa*32>> 00 <c6> <e1> <c5>",
        "1 <47> 0 3 member 0 0,0,0,0,0,0,0,1 -",
    ),
    (
        "0001 0001 <47> 00*8 01 00000000 <> 03 <> 00 <c6> <e1> <c5>",
        "1 <47> 0 3 member 0 0,0,0,0,0,0,0,0 -",
    ),
    (
        "0001 0001 <47> 00*8 01 00000000 <> 03 \
        <01 0003 00000001 02 <aa*32> 01 0003 00000002 01 0004 01 <aa> <bb*32> 02 <ab*32> 01 0007 <>> \
        01 <81> <b0> 0001 <40> <0001> <0001> <> <> <0001> 03 <> <> <c1> <<d1> <<aa> <bb>>> <c6> <e1> <c5>",
        "1 <47> 0 3 member 0 0,0,2,1,0,0,1,2 -",
    ),
    // external commits
    (
        "0001 0001 <47> 00*8 04 <> 03 <01 0006 <aa>> \
        01 <81> <b1> 0001 <41> <0001> <0001> <> <> <0001> 03 <> <> <c1> <<d1> <<aa> <bb>>> <c6> <e1>",
        "1 <47> 0 3 new_member_commit 0,0,0,0,0,1,0,0 <b1>",
    ),
    (
        "0001 0001 <47> 00*8 04 <> 03 <01 0006 <aa> 01 0003 00000000> 00 <c6> <e1>",
        "1 <47> 0 3 new_member_commit 0,0,1,0,0,1,0,0 -",
    ),
    // PrivateMessages, of which the last three have no body that can be read
    (
        "0001 0002 <47> 00*7 05 01 <> <da> <db>",
        "2 <47> 5 1 - 0,0,0,0,0,0,0,0 -",
    ),
    (
        "0001 0002 <> ff*8 02 <aa> <da> <db>",
        "2 <> 18446744073709551615 2 - 0,0,0,0,0,0,0,0 -",
    ),
    (
        "0001 0002 <4748> 00*8 03 <> <> <>",
        "2 <4748> 0 3 - 0,0,0,0,0,0,0,0 -",
    ),
    (
        "0001 0002 <47> 00*7 05 04 <> <da> <db>",
        "2 - - - - 0,0,0,0,0,0,0,0 -",
    ),
    (
        "0001 0002 <47> 00*7 05 01 <> <da> <db> 00",
        "2 - - - - 0,0,0,0,0,0,0,0 -",
    ),
    ("0001 0002", "2 - - - - 0,0,0,0,0,0,0,0 -"),
    // a Welcome, and one whose body is none
    (
        "0001 0003 0001 <<2e*32> <aa> <bb>> <ee>",
        "3 - - - - 0,0,0,0,0,0,0,0 -",
    ),
    ("0001 0003", "3 - - - - 0,0,0,0,0,0,0,0 -"),
    // a GroupInfo and a KeyPackage
    (
        "0001 0004 0001 0001 <47> 00*7 09 <aa> <bb> <> <> <e0> 00000000 <c4>",
        "4 <47> 9 - - 0,0,0,0,0,0,0,0 -",
    ),
    (
        "0001 0005 0001 0001 <f1> <a1> <b1> 0001 <41> <0001> <0001> <> <> <0001> 01 00*8 ff*8 <> <c1> <> <c9>",
        "5 - - - - 0,0,0,0,0,0,0,0 <b1>",
    ),
];

/// Bytes as text.
fn bytes_text(rt: &impl Abort, alloc: Global, bytes: Option<&[u8]>) -> String {
    match bytes {
        Some(bytes) => {
            let digits = text(rt, alloc, bytes);
            have(rt, format!(in alloc; "<{digits}>"))
        }
        None => have(rt, String::from_str(alloc, "-")),
    }
}

/// An epoch as text.
fn epoch_text(rt: &impl Abort, alloc: Global, epoch: Option<u64>) -> String {
    match epoch {
        Some(epoch) => have(rt, format!(in alloc; "{epoch}")),
        None => have(rt, String::from_str(alloc, "-")),
    }
}

/// A content type as text.
fn type_text(rt: &impl Abort, alloc: Global, content_type: Option<u8>) -> String {
    match content_type {
        Some(number) => have(rt, format!(in alloc; "{number}")),
        None => have(rt, String::from_str(alloc, "-")),
    }
}

/// A sender as text.
fn sender_text(rt: &impl Abort, alloc: Global, sender: Option<Sender>) -> String {
    let made = match sender {
        Some(Sender::Member(index)) => format!(in alloc; "member {index}"),
        Some(Sender::External(index)) => format!(in alloc; "external {index}"),
        Some(Sender::NewMemberProposal) => String::from_str(alloc, "new_member_proposal"),
        Some(Sender::NewMemberCommit) => String::from_str(alloc, "new_member_commit"),
        None => String::from_str(alloc, "-"),
    };
    have(rt, made)
}

/// Counts of proposals as text.
fn counts_text(rt: &impl Abort, alloc: Global, counts: ProposalCounts) -> String {
    let first = have(
        rt,
        format!(in alloc;
            "{},{},{},{}",
            counts.adds, counts.updates, counts.removes, counts.psks
        ),
    );
    let joins = counts.external_inits;
    let contexts = counts.group_context_extensions;
    have(
        rt,
        format!(in alloc;
            "{first},{},{joins},{contexts},{}",
            counts.reinits, counts.references
        ),
    )
}

/// The facts of a message as text.
fn facts_text(rt: &impl Abort, alloc: Global, facts: &MessageFacts<'_>) -> String {
    let format = facts.wire_format;
    let group = bytes_text(rt, alloc, facts.group_id);
    let epoch = epoch_text(rt, alloc, facts.epoch);
    let kind = type_text(rt, alloc, facts.content_type);
    let sender = sender_text(rt, alloc, facts.sender);
    let counts = counts_text(rt, alloc, facts.proposals);
    let key = bytes_text(rt, alloc, facts.signature_key);
    have(
        rt,
        format!(in alloc; "{format} {group} {epoch} {kind} {sender} {counts} {key}"),
    )
}

/// The message of a notation.
fn message_of(rt: &impl Abort, alloc: Global, notation: &str) -> Message {
    let bytes = bytes_of(rt, alloc, notation);
    have(
        rt,
        decode_message_in(alloc, Profile::Full, bytes.as_slice()),
    )
}

/// Checks that the message of a notation has these facts.
fn check_facts(rt: &impl Abort, alloc: Global, notation: &str, expected: &str) {
    let message = message_of(rt, alloc, notation);
    let found = facts_text(rt, alloc, &message_facts(&message));
    expect_text(rt, found, expected);
    drop(message);
}

#[test]
fn proposals_have_facts(rt: HostRuntime) {
    let alloc = rt.alloc();
    for (changes, expected) in PROPOSAL_CASES {
        let notation = changed(&rt, alloc, PROPOSAL, changes);
        check_facts(&rt, alloc, notation.as_str(), expected);
    }
}

#[test]
fn messages_have_facts(rt: HostRuntime) {
    let alloc = rt.alloc();
    for (notation, expected) in CASES {
        check_facts(&rt, alloc, notation, expected);
    }
}
