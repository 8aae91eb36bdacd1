//! The fronts of bodies that a message stores unread (RFC 9420, 6.3 and 12.4.3.1): worked examples, and the kind and the offset
//! of each fault, which no contract says. No call here is given memory.
//!
//! Expected values are worked out by hand from the RFC's text.

use mls_msgs::{PrivateContent, PrivateFront, WelcomeFront, read_private, read_welcome};
use mls_wire::{WireFault, WireFaultKind};

/// The KeyPackageRef of a new member.
const ONE: &[u8] = &[
    0x2e, 0xcb, 0x8b, 0x18, 0x29, 0x59, 0x24, 0xee, 0xad, 0x62, 0x6e, 0x0a, 0xea, 0xf7, 0x67, 0xeb,
    0xef, 0xa7, 0x11, 0x36, 0xbd, 0x7e, 0x54, 0xdb, 0x65, 0xcb, 0x61, 0x32, 0xa1, 0xb4, 0x96, 0x8a,
];

/// A Welcome in cipher suite 1 for [`ONE`], with ciphertexts of one byte.
const TO_ONE: [u8; 42] = [
    0x00, 0x01, 0x25, 0x20, 0x2e, 0xcb, 0x8b, 0x18, 0x29, 0x59, 0x24, 0xee, 0xad, 0x62, 0x6e, 0x0a,
    0xea, 0xf7, 0x67, 0xeb, 0xef, 0xa7, 0x11, 0x36, 0xbd, 0x7e, 0x54, 0xdb, 0x65, 0xcb, 0x61, 0x32,
    0xa1, 0xb4, 0x96, 0x8a, 0x01, 0xaa, 0x01, 0xbb, 0x01, 0xee,
];

/// A Welcome in cipher suite 1 for two new members.
const TO_TWO: &[u8] = &[
    0x00, 0x01, 0x40, 0x4a, 0x20, 0x9f, 0x2b, 0x57, 0xbc, 0xeb, 0x12, 0x92, 0x14, 0x6a, 0x62, 0xce,
    0x6f, 0x4a, 0x6a, 0xf9, 0xc2, 0xcf, 0x36, 0xc4, 0x88, 0x60, 0xe5, 0xff, 0xed, 0x68, 0x58, 0xba,
    0x22, 0xeb, 0xfb, 0x18, 0x7c, 0x01, 0xaa, 0x01, 0xbb, 0x20, 0x8a, 0x2c, 0xbc, 0x03, 0x2c, 0x0e,
    0x6a, 0xe3, 0x8b, 0xec, 0xc2, 0x64, 0x1b, 0x68, 0xd1, 0x76, 0xbd, 0x48, 0xf1, 0xda, 0x96, 0x18,
    0x37, 0xea, 0x9f, 0xec, 0x1f, 0xff, 0x59, 0x22, 0xa6, 0xa0, 0x01, 0xaa, 0x01, 0xbb, 0x01, 0xee,
];

/// The references in [`TO_TWO`].
const TWO: &[&[u8]] = &[
    &[
        0x9f, 0x2b, 0x57, 0xbc, 0xeb, 0x12, 0x92, 0x14, 0x6a, 0x62, 0xce, 0x6f, 0x4a, 0x6a, 0xf9,
        0xc2, 0xcf, 0x36, 0xc4, 0x88, 0x60, 0xe5, 0xff, 0xed, 0x68, 0x58, 0xba, 0x22, 0xeb, 0xfb,
        0x18, 0x7c,
    ],
    &[
        0x8a, 0x2c, 0xbc, 0x03, 0x2c, 0x0e, 0x6a, 0xe3, 0x8b, 0xec, 0xc2, 0x64, 0x1b, 0x68, 0xd1,
        0x76, 0xbd, 0x48, 0xf1, 0xda, 0x96, 0x18, 0x37, 0xea, 0x9f, 0xec, 0x1f, 0xff, 0x59, 0x22,
        0xa6, 0xa0,
    ],
];

/// Returns the body of a PrivateMessage: a group ID of one byte, an epoch, a content type, no authenticated data, and
/// ciphertexts of one byte.
fn private_body(group: u8, epoch: u8, content: u8) -> [u8; 16] {
    [
        1, group, 0, 0, 0, 0, 0, 0, 0, epoch, content, 0, 1, 0xda, 1, 0xdb,
    ]
}

/// Returns whether a front names these new members.
fn has_references(front: &WelcomeFront<'_>, expected: &[&[u8]]) -> bool {
    let mut left = front.references();
    for reference in expected {
        let Some(found) = left.next() else {
            return false;
        };
        if found != *reference {
            return false;
        }
    }
    left.next().is_none() && front.len() == expected.len()
}

/// Returns whether a body is a Welcome in this cipher suite for these new members.
fn is_welcome(body: &[u8], cipher_suite: u16, expected: &[&[u8]]) -> bool {
    match read_welcome(body) {
        Ok(front) => front.cipher_suite == cipher_suite && has_references(&front, expected),
        Err(_) => false,
    }
}

#[test]
fn private_fronts_are_read(rt: HostRuntime) {
    const CASES: &[(u8, u8, u8, PrivateContent)] = &[
        (0x47, 1, 1, PrivateContent::Application),
        (0x47, 0, 2, PrivateContent::Proposal),
        (0x47, 1, 3, PrivateContent::Commit),
        (0x47, 2, 3, PrivateContent::Commit),
        (0x48, 1, 1, PrivateContent::Application),
    ];
    for (group, epoch, content_type, content) in CASES {
        let front = PrivateFront {
            group_id: &[*group],
            epoch: u64::from(*epoch),
            content: *content,
        };
        assert_eq!(rt;
            read_private(&private_body(*group, *epoch, *content_type)),
            Ok(front)
        );
    }
}

/// Bytes that are no PrivateMessage, and the kind and the offset of the fault. The content type is checked when it is read.
const NO_PRIVATE: &[(&[u8], WireFaultKind, usize)] = &[
    (&[], WireFaultKind::Truncated, 0),
    (&[0xab, 0xcd], WireFaultKind::Truncated, 0),
    (
        &[1, 0x47, 0, 0, 0, 0, 0, 0, 0, 1, 0, 0, 1, 0xda, 1, 0xdb],
        WireFaultKind::BadTag(0),
        10,
    ),
    (
        &[1, 0x47, 0, 0, 0, 0, 0, 0, 0, 1, 4],
        WireFaultKind::BadTag(4),
        10,
    ),
    (
        &[
            1, 0x47, 0, 0, 0, 0, 0, 0, 0, 1, 1, 0x40, 0, 1, 0xda, 1, 0xdb,
        ],
        WireFaultKind::NotShortest,
        11,
    ),
    (
        &[1, 0x47, 0, 0, 0, 0, 0, 0, 0, 1, 1, 0, 1, 0xda, 0xc0],
        WireFaultKind::BadPrefix,
        14,
    ),
    (
        &[1, 0x47, 0, 0, 0, 0, 0, 0, 0, 1, 1, 0, 1, 0xda, 1, 0xdb, 0],
        WireFaultKind::Trailing,
        16,
    ),
];

/// The offset of the fault of each proper prefix of a PrivateMessage, by the number of its bytes.
const PRIVATE_ENDS: [usize; 16] = [0, 0, 2, 2, 2, 2, 2, 2, 2, 2, 10, 11, 12, 12, 14, 14];

#[test]
fn bytes_that_are_no_private_message_are_refused(rt: HostRuntime) {
    for (body, kind, at) in NO_PRIVATE {
        let fault = WireFault {
            kind: *kind,
            at: *at,
        };
        assert_eq!(rt; read_private(body), Err(fault));
    }
    let body = private_body(0x47, 1, 1);
    for (count, at) in PRIVATE_ENDS.iter().enumerate() {
        let fault = WireFault {
            kind: WireFaultKind::Truncated,
            at: *at,
        };
        assert_eq!(rt; read_private(&body[..count]), Err(fault));
    }
}

#[test]
fn welcome_fronts_are_read(rt: HostRuntime) {
    const CASES: &[(&[u8], u16, &[&[u8]])] = &[
        (&TO_ONE, 1, &[ONE]),
        (TO_TWO, 1, TWO),
        (&[0, 9, 0, 1, 0xee], 9, &[]),
        (&[0xff, 0xff, 3, 0, 0, 0, 0], 0xffff, &[&[]]),
        (&[0, 2, 5, 0, 1, 0xaa, 1, 0xbb, 1, 0xee], 2, &[&[]]),
        (
            &[
                0, 1, 12, 1, 7, 1, 0xaa, 1, 0xbb, 1, 7, 1, 0xaa, 1, 0xbb, 1, 0xee,
            ],
            1,
            &[&[7], &[7]],
        ),
    ];
    for (body, cipher_suite, references) in CASES {
        assert!(rt; is_welcome(body, *cipher_suite, references));
    }
}

/// Bytes that are no Welcome, and the kind and the offset of the fault.
const NO_WELCOME: &[(&[u8], WireFaultKind, usize)] = &[
    (&[], WireFaultKind::Truncated, 0),
    (&[0, 1, 2, 1, 7, 1, 0xee], WireFaultKind::Truncated, 5),
    (
        &[0, 1, 4, 1, 7, 1, 0xaa, 1, 0xee],
        WireFaultKind::Truncated,
        7,
    ),
    (&[0, 1, 2, 2, 7, 1, 0xee], WireFaultKind::Truncated, 3),
    (
        &[0, 1, 7, 1, 7, 1, 0xaa, 1, 0xee],
        WireFaultKind::Truncated,
        2,
    ),
    (&[0, 1, 0, 0xc0], WireFaultKind::BadPrefix, 3),
    (&[0, 1, 0, 1, 0xee, 0], WireFaultKind::Trailing, 5),
];

#[test]
fn bytes_that_are_no_welcome_are_refused(rt: HostRuntime) {
    for (body, kind, at) in NO_WELCOME {
        let fault = WireFault {
            kind: *kind,
            at: *at,
        };
        assert_eq!(rt; read_welcome(body).err(), Some(fault));
    }
    for count in 0..42usize {
        let at = match count {
            0 | 1 => 0,
            2..40 => 2,
            _ => 40,
        };
        let fault = WireFault {
            kind: WireFaultKind::Truncated,
            at,
        };
        assert_eq!(rt; read_welcome(&TO_ONE[..count]).err(), Some(fault));
    }
}

#[test]
fn changed_bits_change_fronts(rt: HostRuntime) {
    let mut readable = 0u32;
    for bit in 0..128usize {
        let mut body = private_body(0x47, 1, 1);
        body[bit / 8] ^= 1 << (bit % 8);
        if read_private(&body).is_ok() {
            readable = readable.wrapping_add(1);
        }
    }
    assert_eq!(rt; readable, 90);
    let mut unchanged = 0u32;
    for bit in 0..336usize {
        let mut body = TO_ONE;
        body[bit / 8] ^= 1 << (bit % 8);
        if is_welcome(&body, 1, &[ONE]) {
            unchanged = unchanged.wrapping_add(1);
        }
    }
    assert_eq!(rt; unchanged, 24);
}
