//! A GroupContext in pieces of its encoding (RFC 9420, 8.1).

ghost use Rattle.std.specs.Prelude.{◌≡◌, OnOk, flat_map};
ghost use Rattle.mls_nodes.specs.Layout.{group_context};
ghost use Rattle.mls_follow.specs.ContextPiecesInternal.{AddsPieces};

use mls_nodes::GroupContext;
use mls_wire::EncodedLength;
use std::alloc::AllocError;
use std::marker::Model;

/// A GroupContext, and those parts of its encoding (RFC 9420, 8.1) that it does not store as bytes. So a checker gets it in
/// pieces, and it is not encoded into a buffer. The model is the GroupContext.
#[derive(Drop)]
pub(crate) struct ContextPieces<'a> {
    context: &'a GroupContext,
    version: [u8; 2],
    cipher_suite: [u8; 2],
    group_id_len: EncodedLength,
    epoch: [u8; 8],
    tree_hash_len: EncodedLength,
    confirmed_len: EncodedLength,
    extensions: &'a [u8],
    extensions_len: EncodedLength,
}

impl<'a> Model for ContextPieces<'a> {
    ghost use Rattle.mls_nodes.specs.declared.context.GroupContext.{GroupContext};
    ghost use Rattle.mls_follow.specs.ContextPiecesInternal.{ArePieces};

    ghost Value = { GroupContext };

    ghost view = { λ p. p.context.now };

    ghost invariant = { λ p. ArePieces p.context.now p.version p.cipher_suite p.group_id_len p.epoch p.tree_hash_len
        p.confirmed_len p.extensions.now p.extensions_len };
}

impl<'a> ContextPieces<'a> {
    /// Returns the pieces of a GroupContext.
    pub(crate) fn of(context: &'a GroupContext) -> ContextPieces<'a>
        ensures { result ≡ context.now }
    {
        let extensions = context.extensions.encoded();
        ContextPieces {
            context,
            version: context.version.to_be_bytes(),
            cipher_suite: context.cipher_suite.to_be_bytes(),
            group_id_len: EncodedLength::of(context.group_id.as_slice().len()),
            epoch: context.epoch.to_be_bytes(),
            tree_hash_len: EncodedLength::of(context.tree_hash.as_slice().len()),
            confirmed_len: EncodedLength::of(context.confirmed.as_slice().len()),
            extensions,
            extensions_len: EncodedLength::of(extensions.len()),
        }
    }

    /// Adds the pieces of the encoding to others.
    pub(crate) fn add_to<'b>(&'b self, pieces: &mut Vec<&'b [u8]>) -> Result<(), AllocError>
        ensures { OnOk result (AddsPieces (group_context self.now)
            (flat_map (λ p. p.now) pieces.old.items) (flat_map (λ p. p.now) pieces.new.items)) }
    {
        let context: &'b GroupContext = &*self.context;
        let extensions: &'b [u8] = &*self.extensions;
        pieces.extend_from_slice(&[
            &self.version,
            &self.cipher_suite,
            self.group_id_len.as_slice(),
            context.group_id.as_slice(),
            &self.epoch,
            self.tree_hash_len.as_slice(),
            context.tree_hash.as_slice(),
            self.confirmed_len.as_slice(),
            context.confirmed.as_slice(),
            self.extensions_len.as_slice(),
            extensions,
        ])
    }
}
