//! The lines of `signatures`.

ghost use Rattle.std.specs.Prelude.{◌≡◌, ◌++◌, codes, IfOk, OnOk, option_map, string_bytes};
ghost use Rattle.std.specs.Fmt.{decimal};
ghost use Rattle.hex.specs.Hex.{encode_lower};
ghost use Rattle.sha2.specs.Sha256.{sha256};
ghost use Rattle.mls_check.specs.Receipts.{receipt_input};
ghost use Rattle.mls_report.specs.SignaturesReport as lines;
ghost use Rattle.mls_show.specs.ValueTexts.{hex_text};

use mls_check::{SignatureCheck, receipt};
use mls_show::hex_of;
use mls_signatures::SignatureToVerify;
use std::alloc::{AllocError, Global};

/// The number of bytes whose digits are made at once.
const PIECE: usize = 4_096;

/// Returns the receipt of a needed signature, or `-` if it can have none.
fn receipt_text(alloc: Global, needed: &SignatureToVerify) -> Result<String, AllocError>
    ensures { let input = receipt_input needed.now.suite needed.now.key needed.now.content
        needed.now.signature in
        IfOk result (λ text. string_bytes text ≡ lines.receipt_text (option_map sha256 input)) }
{
    let digest = receipt(
        needed.suite,
        needed.key.as_slice(),
        &[needed.content.as_slice()],
        needed.signature.as_slice(),
    );
    match digest {
        Some(digest) => hex_of(alloc, &digest),
        None => String::from_str(alloc, "-"),
    }
}

/// Appends bytes in lower-case hexadecimal. The digits are made piece by piece, so that those of long bytes are not held twice.
fn push_digits(alloc: Global, text: &mut String, bytes: &[u8]) -> Result<(), AllocError>
    ensures { OnOk result (string_bytes text.new
        ≡ string_bytes text.old ++ encode_lower bytes.now) }
{
    let mut rest = bytes;
    while !rest.is_empty() {
        let (piece, tail) = rest.split_at(rest.len().min(PIECE));
        let digits = hex::encode(alloc, piece)?;
        text.push_str(digits.as_str())?;
        rest = tail;
    }
    Ok(())
}

/// Appends a space, and bytes in lower-case hexadecimal, or `-` if there are none.
fn push_hex(alloc: Global, text: &mut String, bytes: &[u8]) -> Result<(), AllocError>
    ensures { OnOk result (string_bytes text.new
        ≡ string_bytes text.old ++ (codes " " ++ hex_text bytes.now)) }
{
    text.push_str(" ")?;
    if bytes.is_empty() {
        text.push_str("-")
    } else {
        push_digits(alloc, text, bytes)
    }
}

/// Appends the receipt of a needed signature, or `-` if it can have none, and the suite.
fn push_receipt(
    alloc: Global,
    text: &mut String,
    needed: &SignatureToVerify,
) -> Result<(), AllocError>
    ensures { let input = receipt_input needed.now.suite needed.now.key needed.now.content
        needed.now.signature in
        OnOk result (string_bytes text.new ≡ string_bytes text.old
        ++ (lines.receipt_text (option_map sha256 input) ++ (codes " " ++ decimal needed.now.suite))) }
{
    let suite = needed.suite;
    let receipt = receipt_text(alloc, needed)?;
    let front = format!(in alloc; "{receipt} {suite}")?;
    text.push_str(front.as_str())
}

/// Returns a number of bytes that the line of a needed signature does not exceed.
fn line_limit(needed: &SignatureToVerify) -> usize {
    let content = needed.content.as_slice().len();
    let others = needed.key.as_slice().len() + needed.signature.as_slice().len();
    content
        .saturating_add(others)
        .saturating_mul(2)
        .saturating_add(80)
}

/// Appends the line of a needed signature. Memory for it is taken at once, since what is signed may be long.
fn push_signature_line(
    alloc: Global,
    text: &mut String,
    needed: &SignatureToVerify,
) -> Result<(), AllocError>
    ensures { OnOk result (string_bytes text.new
        ≡ string_bytes text.old ++ lines.signature_line needed.now) }
{
    text.reserve(line_limit(needed))?;
    push_receipt(alloc, text, needed)?;
    push_hex(alloc, text, needed.key.as_slice())?;
    push_hex(alloc, text, needed.content.as_slice())?;
    push_hex(alloc, text, needed.signature.as_slice())?;
    text.push_str("\n")
}

/// Returns the line of a needed signature: its receipt or `-`, the suite, the key, the SignContent (RFC 9420, 5.1.2) and
/// the signature.
pub fn signature_line(alloc: Global, needed: &SignatureToVerify) -> Result<String, AllocError>
    ensures { IfOk result (λ text. string_bytes text ≡ lines.signature_line needed.now) }
{
    let mut line = String::new(alloc);
    push_signature_line(alloc, &mut line, needed)?;
    Ok(line)
}

/// Appends the line of a needed signature, unless `receipts` cover it.
pub(crate) fn put_line<R: SignatureCheck>(
    alloc: Global,
    text: &mut String,
    needed: &SignatureToVerify,
    receipts: &R,
) -> Result<(), AllocError>
    ensures { OnOk result (string_bytes text.new ≡ string_bytes text.old
        ++ lines.line_unless (R.meaning receipts.now) needed.now) }
{
    let key = needed.key.as_slice();
    let content = needed.content.as_slice();
    if receipts.good(needed.suite, key, &[content], needed.signature.as_slice()) {
        return Ok(());
    }
    push_signature_line(alloc, text, needed)
}
