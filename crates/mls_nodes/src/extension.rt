//! Extensions of leaf nodes and groups (RFC 9420, 7.2 and 13).

ghost use Rattle.std.specs.Prelude.{◌≡◌, ◌∷◌, [], MatchOption};
ghost use Rattle.mls_wire.specs.Encoding.{list};
ghost use Rattle.mls_wire.specs.ReadContracts.{Decodes};
ghost use Rattle.mls_wire.specs.WriteContracts.{WritesPiece};
ghost use Rattle.mls_nodes.specs.Extension.{extension};

use crate::lists::Extensions;
use mls_wire::{CodecFault, Decode, ItemsRef, Opaque, Reader, Skip, WireFault, Writer, read_value};
use std::alloc::Global;
use std::marker::Model;

/// An extension of any type: application_id 1, ratchet_tree 2, required_capabilities 3, external_pub 4,
/// external_senders 5, and others.
#[derive(Debug, Drop)]
pub struct Extension {
    /// Its type.
    pub kind: u16,
    /// Its data, which is not read any further.
    pub body: Opaque,
}

impl Decode for Extension {
    ghost use Rattle.mls_nodes.specs.LeafParsing.{extension_at};
    ghost use Rattle.mls_nodes.specs.NodesExact.{extension_exact, extension_long};

    ghost encoding = { extension };

    ghost reading = { extension_at };

    #[tactic(auto, unfolding(crate::specs::LeafParsing::extension_at))]
    fn read(alloc: Global, reader: &mut Reader<'_>) -> Result<Extension, CodecFault> {
        let mut ahead = reader.fork();
        let kind = u16::read(alloc, &mut ahead)?;
        let body = Opaque::read(alloc, &mut ahead)?;
        *reader = ahead;
        Ok(Extension { kind, body })
    }

    ghost exact = { extension_exact };

    ghost long = { extension_long };
}

impl Skip for Extension {
    #[tactic(auto, unfolding(crate::specs::LeafParsing::extension_at))]
    fn skip(reader: &mut Reader<'_>) -> Result<(), WireFault> {
        u16::skip(reader)?;
        Opaque::skip(reader)
    }
}

/// An extension whose data is borrowed from the list that it is in.
#[derive(Debug, Clone, Copy)]
pub struct ExtensionRef<'a> {
    /// Its type.
    pub kind: u16,
    /// Its data, which is not read any further.
    pub body: &'a [u8],
}

/// Those extensions of a list that [`ExtensionsLeft::next`] has not returned yet. The model is the list of them.
#[derive(Drop)]
pub struct ExtensionsLeft<'a> {
    left: Reader<'a>,
}

impl<'a> Model for ExtensionsLeft<'a> {
    ghost use Rattle.std.specs.Prelude.{List, IsSome};
    ghost use Rattle.mls_nodes.specs.ExtensionsLeft.{extensions_left, extensions_in};
    ghost use Rattle.mls_nodes.specs.declared.extension.Extension.{Extension};

    ghost Value = { List Extension };

    ghost view = { λ s. extensions_in s.left };

    ghost invariant = { λ s. IsSome (extensions_left s.left) };
}

impl<'a> ExtensionsLeft<'a> {
    /// Returns all extensions of a list.
    pub fn of(extensions: &'a Extensions) -> ExtensionsLeft<'a>
        ensures { result ≡ extensions.now }
    {
        ExtensionsLeft {
            left: extensions.reader(),
        }
    }

    /// Returns all extensions of a borrowed list.
    pub fn of_borrowed(extensions: &ItemsRef<'a, Extension>) -> ExtensionsLeft<'a>
        ensures { result ≡ extensions.now }
    {
        ExtensionsLeft {
            left: extensions.reader(),
        }
    }

    /// Returns the first extension that is left, which is then left no more. `None` if none is left.
    pub fn next(&mut self) -> Option<ExtensionRef<'a>>
        ensures { MatchOption result
            ((self.old ≡ []) × (self.new ≡ []))
            (λ first. self.old ≡ record { kind = first.kind; body = first.body.now } ∷ self.new) }
    {
        if self.left.at_end() {
            return None;
        }
        let Ok(kind) = self.left.read_u16() else {
            unreachable!();
        };
        let Ok(body) = self.left.read_vec() else {
            unreachable!();
        };
        Some(ExtensionRef { kind, body })
    }
}

/// Reads the list of extensions at the front. On error the reader is unchanged.
pub fn read_extensions(alloc: Global, reader: &mut Reader<'_>) -> Result<Extensions, CodecFault>
    ensures { Decodes (list extension) reader.old reader.new result }
{
    read_value(alloc, reader)
}

/// Appends the encoding of a list of extensions.
///
/// # Errors
///
/// `TooLong`, at the number of bytes written so far, if and only if it has no encoding, which is checked before
/// anything is allocated; or `OutOfMemory`. The bytes are then unchanged.
pub fn write_extensions(
    alloc: Global,
    extensions: &Extensions,
    writer: &mut Writer,
) -> Result<(), CodecFault>
    ensures { WritesPiece (list extension extensions.now) writer.old writer.new result }
{
    writer.write(alloc, extensions)
}
