//! The bytes of a report, made in one buffer.

ghost use Rattle.std.specs.Prelude.{◌≡◌, ◌++◌, OnOk};
ghost use Rattle.std.specs.Fmt.{decimal};
ghost use Rattle.mls_show.specs.ValueTexts.{hex_text, numbers_text};

use std::alloc::AllocError;

/// Appends a text.
pub(crate) fn put_text(out: &mut Vec<u8>, text: &str) -> Result<(), AllocError>
    ensures { OnOk result (out.new.items ≡ out.old.items ++ text.now) }
{
    out.extend_from_slice(text.as_bytes())
}

/// Appends a number in decimal.
pub(crate) fn put_number(out: &mut Vec<u8>, number: usize) -> Result<(), AllocError>
    ensures { OnOk result (out.new.items ≡ out.old.items ++ decimal number) }
{
    put_text(out, itoa::Buffer::new().format(number))
}

/// Appends a large number in decimal.
pub(crate) fn put_u64(out: &mut Vec<u8>, number: u64) -> Result<(), AllocError>
    ensures { OnOk result (out.new.items ≡ out.old.items ++ decimal number) }
{
    put_text(out, itoa::Buffer::new().format(number))
}

/// Appends bytes in lower-case hexadecimal, or `-` if there are none.
pub(crate) fn put_hex(out: &mut Vec<u8>, bytes: &[u8]) -> Result<(), AllocError>
    ensures { OnOk result (out.new.items ≡ out.old.items ++ hex_text bytes.now) }
{
    if bytes.is_empty() {
        return put_text(out, "-");
    }
    let start = out.len();
    let Some(end) = start.checked_add(2 * bytes.len()) else {
        return Err(AllocError);
    };
    out.resize(end, 0)?;
    hex::encode_to_slice(bytes, &mut out[start..]).unwrap();
    Ok(())
}

/// Appends numbers in decimal, separated by commas, or `-` if there are none.
pub(crate) fn put_numbers(out: &mut Vec<u8>, numbers: &[u32]) -> Result<(), AllocError>
    ensures { OnOk result (out.new.items ≡ out.old.items ++ numbers_text numbers.now) }
{
    let Some((first, others)) = numbers.split_first() else {
        return put_text(out, "-");
    };
    put_number(out, *first as usize)?;
    for number in others {
        put_text(out, ",")?;
        put_number(out, *number as usize)?;
    }
    Ok(())
}
