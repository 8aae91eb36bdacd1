//! Codes, and extensions by their types and lengths.

ghost use Rattle.std.specs.Prelude.{◌≡◌, ◌++◌, ◌∷◌, [], OnOk, codes, length};
ghost use Rattle.std.specs.Fmt.{decimal};
ghost use Rattle.mls_nodes.specs.declared.extension.Extension.{Extension};
ghost use Rattle.mls_show.specs.ExtensionsText.{more_extensions_text, extensions_text};
ghost use Rattle.mls_show.specs.ValueTexts.{more_numbers_text, numbers_text};

use crate::report_buffer::{put_number, put_text};
use mls_nodes::{ExtensionRef, ExtensionsLeft, next_code};
use mls_wire::ItemsRef;
use std::alloc::AllocError;

/// Appends codes in decimal, each after a comma.
fn put_more_codes(out: &mut Vec<u8>, codes: &ItemsRef<'_, u16>) -> Result<(), AllocError>
    ensures { OnOk result (out.new.items ≡ out.old.items ++ more_numbers_text codes.now) }
{
    let mut left = ItemsRef::new(codes.encoded());
    'codes: while let Some(code) = next_code(&mut left) {
        put_text(out, ",")?;
        put_number(out, usize::from(code))?;
    }
    Ok(())
}

/// Appends codes in decimal, separated by commas, or `-` if there are none.
pub(crate) fn put_codes(out: &mut Vec<u8>, codes: &ItemsRef<'_, u16>) -> Result<(), AllocError>
    ensures { OnOk result (out.new.items ≡ out.old.items ++ numbers_text codes.now) }
{
    let mut left = ItemsRef::new(codes.encoded());
    let Some(first) = next_code(&mut left) else {
        return put_text(out, "-");
    };
    put_number(out, usize::from(first))?;
    put_more_codes(out, &left)
}

/// Appends the type of an extension and the number of bytes of its data.
fn put_extension(out: &mut Vec<u8>, extension: ExtensionRef<'_>) -> Result<(), AllocError>
    ensures { OnOk result (out.new.items ≡ out.old.items
        ++ (decimal extension.entry.kind ++ (codes ":" ++ decimal (length extension.entry.body.now)))) }
{
    put_number(out, usize::from(extension.kind))?;
    put_text(out, ":")?;
    put_number(out, extension.body.len())
}

/// Appends the extensions that are left, each after a comma.
fn put_more_extensions(out: &mut Vec<u8>, mut left: ExtensionsLeft<'_>) -> Result<(), AllocError>
    ensures { OnOk result (out.new.items ≡ out.old.items ++ more_extensions_text left.entry) }
{
    'extensions: while let Some(extension) = left.next() {
        put_text(out, ",")?;
        put_extension(out, extension)?;
    }
    Ok(())
}

/// Appends the extensions that are left, separated by commas, or `-` if there are none.
pub(crate) fn put_extensions(
    out: &mut Vec<u8>,
    mut left: ExtensionsLeft<'_>,
) -> Result<(), AllocError>
    ensures { OnOk result (out.new.items ≡ out.old.items ++ extensions_text left.entry) }
{
    let Some(first) = left.next() else {
        return put_text(out, "-");
    };
    put_extension(out, first)?;
    put_more_extensions(out, left)
}
