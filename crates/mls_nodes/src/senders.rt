//! The external senders of a group (RFC 9420, 12.1.8.1).

ghost use Rattle.std.specs.Prelude.{◌≡◌, []};
ghost use Rattle.mls_nodes.specs.Requirements.{extension_of};
ghost use Rattle.mls_nodes.specs.ExternalSenders.{FindsSenders};

use crate::credential::Credential;
use crate::lists::{Extensions, ExternalSenders};
use crate::required_capabilities::find_extension;
use mls_wire::{
    CodecFault, Decode, Draft, Encode, Opaque, Reader, TryClone, add_sizes, read_all_of,
};
use std::alloc::Global;

/// The extension type of external senders.
const EXTERNAL_SENDERS: u16 = 5;

/// A sender outside a group that may send proposals to it.
#[derive(Debug)]
pub struct ExternalSender {
    /// The public key under which it signs.
    pub signature_key: Opaque,
    /// Who it claims to be.
    pub credential: Credential,
}

// Written out, so that a drop is one call in the proofs of its owners.
impl Drop for ExternalSender {
    fn drop(self) {
        let ExternalSender {
            signature_key: _,
            credential: _,
        } = self;
    }
}

impl Decode for ExternalSender {
    ghost use Rattle.mls_nodes.specs.Layout.{external_sender};
    ghost use Rattle.mls_nodes.specs.Parsing.{external_sender_at};
    ghost use Rattle.mls_nodes.specs.NodesExact.{external_sender_exact, external_sender_long};

    ghost encoding = { external_sender };

    ghost reading = { external_sender_at };

    #[tactic(auto, unfolding(crate::specs::Parsing::external_sender_at))]
    fn read(alloc: Global, reader: &mut Reader<'_>) -> Result<ExternalSender, CodecFault> {
        let mut ahead = reader.fork();
        let signature_key = Opaque::read(alloc, &mut ahead)?;
        let credential = Credential::read(alloc, &mut ahead)?;
        *reader = ahead;
        Ok(ExternalSender {
            signature_key,
            credential,
        })
    }

    ghost exact = { external_sender_exact };

    ghost long = { external_sender_long };
}

impl Encode for ExternalSender {
    #[tactic(auto, using(crate::specs::TagSizes::tag_sizes), unfolding(crate::specs::Layout::external_sender))]
    fn size(&self) -> Option<usize> {
        add_sizes(self.signature_key.size(), self.credential.size())
    }

    #[tactic(auto, using(mls_wire::specs::WriteSequences::written), unfolding(crate::specs::Layout::external_sender))]
    fn put(&self, alloc: Global, draft: &mut Draft) -> Result<(), CodecFault> {
        self.signature_key.put(alloc, draft)?;
        self.credential.put(alloc, draft)
    }
}

impl TryClone for ExternalSender {
    fn try_clone(&self, alloc: Global) -> Result<ExternalSender, CodecFault> {
        Ok(ExternalSender {
            signature_key: self.signature_key.try_clone(alloc)?,
            credential: self.credential.try_clone(alloc)?,
        })
    }
}

/// Returns the empty list of senders.
fn no_senders(alloc: Global) -> ExternalSenders
    ensures { result ≡ [] }
{
    match ExternalSenders::new(Vec::new(alloc)) {
        Ok(senders) => senders,
        Err(_) => unreachable!(),
    }
}

/// Returns the external senders of a group with these extensions: the data of the first one of type 5, or the empty
/// list if there is none, which does not allocate (RFC 9420, 12.1.8.1).
///
/// # Errors
///
/// A wire fault if and only if that data is no encoding of a list of senders, or `OutOfMemory`.
pub fn external_senders(
    alloc: Global,
    extensions: &Extensions,
) -> Result<ExternalSenders, CodecFault>
    ensures { FindsSenders (extension_of 5 extensions.now) result }
{
    match find_extension(extensions, EXTERNAL_SENDERS) {
        Some(body) => read_all_of(alloc, body),
        None => Ok(no_senders(alloc)),
    }
}
