//! Bytes and numbers as text in a report.

ghost use Rattle.std.specs.Prelude.{◌≡◌, ◌++◌, codes, IfOk, OnOk, string_bytes};
ghost use Rattle.std.specs.Fmt.{decimal};
ghost use Rattle.mls_show.specs.ValueTexts.{hex_text, numbers_text};

use std::alloc::{AllocError, Global};

/// Returns bytes in lower-case hexadecimal, or `-` if there are none.
pub fn hex_of(alloc: Global, bytes: &[u8]) -> Result<String, AllocError>
    ensures { IfOk result (λ text. string_bytes text ≡ hex_text bytes.now) }
{
    if bytes.is_empty() {
        String::from_str(alloc, "-")
    } else {
        hex::encode(alloc, bytes)
    }
}

/// Appends a number, separated by a comma.
fn add_number(alloc: Global, text: &mut String, number: u32) -> Result<(), AllocError>
    ensures { OnOk result
        (string_bytes text.new ≡ string_bytes text.old ++ (codes "," ++ decimal number)) }
{
    let item = format!(in alloc; ",{number}")?;
    text.push_str(item.as_str())
}

/// Returns numbers in decimal, separated by commas, or `-` if there are none.
pub(crate) fn numbers_of(alloc: Global, numbers: &[u32]) -> Result<String, AllocError>
    ensures { IfOk result (λ text. string_bytes text ≡ numbers_text numbers.now) }
{
    let Some((first, others)) = numbers.split_first() else {
        return String::from_str(alloc, "-");
    };
    let mut text = format!(in alloc; "{first}")?;
    for number in others {
        add_number(alloc, &mut text, *number)?;
    }
    Ok(text)
}
