//! Credentials (RFC 9420, 5.3).

ghost use Rattle.mls_wire.specs.EncodedItems.{Parses};
ghost use Rattle.std.specs.Prelude.{◌≡◌};
ghost use Rattle.mls_nodes.specs.CredentialModel.{credential_value};
ghost use Rattle.mls_nodes.specs.Parsing.{credential_at};

use crate::lists::CertChain;
use mls_wire::{
    CodecFault, Decode, Draft, Encode, ItemsRef, Opaque, OpaqueRef, Reader, TryClone, WireFault,
    WireFaultKind, add_sizes, parse_u16,
};
use std::alloc::Global;
use std::marker::Model;

/// Who a member claims to be: type 1 or 2, a `u16`, and the body of that type. A credential of another type is `BadTag`
/// at its offset, since its body cannot be skipped.
#[derive(Debug)]
pub enum Credential {
    /// An identity, as bytes that the application interprets.
    Basic(Opaque),
    /// X.509 certificates.
    X509(CertChain),
}

// Written out, so that a drop is one call in the proofs of its owners.
impl Drop for Credential {
    fn drop(self) {
        match self {
            Credential::Basic(_) => {}
            Credential::X509(_) => {}
        }
    }
}

impl Decode for Credential {
    ghost use Rattle.mls_nodes.specs.Layout.{credential};
    ghost use Rattle.mls_nodes.specs.Parsing.{credential_at};
    ghost use Rattle.mls_nodes.specs.NodesExact.{credential_exact, credential_long};

    ghost encoding = { credential };

    ghost reading = { credential_at };

    #[tactic(auto, unfolding(crate::specs::Parsing::credential_at))]
    fn read(alloc: Global, reader: &mut Reader<'_>) -> Result<Credential, CodecFault> {
        let mut ahead = reader.fork();
        let credential = match u16::read(alloc, &mut ahead)? {
            1 => Credential::Basic(Opaque::read(alloc, &mut ahead)?),
            2 => Credential::X509(CertChain::read(alloc, &mut ahead)?),
            kind => {
                return Err(CodecFault::Wire(WireFault {
                    kind: WireFaultKind::BadTag(kind),
                    at: reader.position(),
                }));
            }
        };
        *reader = ahead;
        Ok(credential)
    }

    ghost exact = { credential_exact };

    ghost long = { credential_long };
}

impl Encode for Credential {
    #[tactic(auto, using(crate::specs::TagSizes::tag_sizes), unfolding(crate::specs::Layout::credential))]
    fn size(&self) -> Option<usize> {
        match self {
            Credential::Basic(identity) => add_sizes(Some(2), identity.size()),
            Credential::X509(chain) => add_sizes(Some(2), chain.size()),
        }
    }

    #[tactic(auto, using(mls_wire::specs::WriteSequences::written), unfolding(crate::specs::Layout::credential))]
    fn put(&self, alloc: Global, draft: &mut Draft) -> Result<(), CodecFault> {
        match self {
            Credential::Basic(identity) => {
                draft.put_u16(1)?;
                identity.put(alloc, draft)
            }
            Credential::X509(chain) => {
                draft.put_u16(2)?;
                chain.put(alloc, draft)
            }
        }
    }
}

impl TryClone for Credential {
    fn try_clone(&self, alloc: Global) -> Result<Credential, CodecFault> {
        match self {
            Credential::Basic(identity) => Ok(Credential::Basic(identity.try_clone(alloc)?)),
            Credential::X509(chain) => Ok(Credential::X509(chain.try_clone(alloc)?)),
        }
    }
}

/// What a borrowed credential holds.
pub enum CredentialBody<'a> {
    /// An identity, as bytes that the application interprets.
    Basic(OpaqueRef<'a>),
    /// X.509 certificates.
    X509(ItemsRef<'a, Opaque>),
}

// Written out, so that a drop is one call in the proofs of its owners.
impl<'a> Drop for CredentialBody<'a> {
    fn drop(self) {
        match self {
            CredentialBody::Basic(_) => {}
            CredentialBody::X509(_) => {}
        }
    }
}

/// A credential, borrowed from the bytes that encode it. The model is a [`Credential`].
pub struct CredentialRef<'a> {
    body: CredentialBody<'a>,
}

// Written out, so that a drop is one call in the proofs of its owners.
impl<'a> Drop for CredentialRef<'a> {
    fn drop(self) {
        let CredentialRef { body: _ } = self;
    }
}

impl<'a> Model for CredentialRef<'a> {
    ghost use Rattle.mls_nodes.specs.CredentialModel.{credential_value};
    ghost use Rattle.mls_nodes.specs.declared.credential.Credential.{Credential};

    ghost Value = { Credential };

    ghost view = { λ s. credential_value s.body };
}

impl<'a> CredentialRef<'a> {
    /// Reads the credential at the front. On error the reader may have moved.
    #[tactic(auto, unfolding(crate::specs::Parsing::credential_at))]
    pub(crate) fn parse(reader: &mut Reader<'a>) -> Result<CredentialRef<'a>, WireFault>
        ensures { Parses credential_at reader.old reader.new result }
    {
        let at = reader.position();
        let body = match parse_u16(reader)? {
            1 => CredentialBody::Basic(OpaqueRef::parse(reader)?),
            2 => CredentialBody::X509(ItemsRef::parse(reader)?),
            kind => {
                return Err(WireFault {
                    kind: WireFaultKind::BadTag(kind),
                    at,
                });
            }
        };
        Ok(CredentialRef { body })
    }

    /// Returns what it holds.
    pub fn body(&self) -> &CredentialBody<'a>
        ensures { credential_value result.now ≡ self.now }
    {
        &self.body
    }
}
