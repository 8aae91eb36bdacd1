//! The front of a Welcome.

ghost use Rattle.std.specs.Prelude.{◌≡◌, ◌<◌, ◌^◌, ◌∷◌, [], length, MatchOption};
ghost use Rattle.mls_wire.specs.EncodedItems.{Parses};
ghost use Rattle.mls_msgs.specs.BodyContracts.{ReadsFront};
ghost use Rattle.mls_msgs.specs.Welcome.{welcome, new_members, references};
ghost use Rattle.mls_msgs.specs.WelcomeParsing.{welcome_at};

use crate::ciphertexts::Ciphertext;
use mls_wire::{
    BoxedOpaque, CodecFault, Decode, ItemsRef, OpaqueRef, Reader, Skip, WireFault, parse_u16,
};
use std::alloc::Global;
use std::marker::Model;

/// An EncryptedGroupSecrets (RFC 9420, 12.4.3.1): the KeyPackageRef of a new member (5.2), and the secrets that are encrypted
/// to it. Lists of them are read, but no value is made.
#[derive(Drop)]
struct EncryptedGroupSecrets {
    new_member: BoxedOpaque,
    encrypted_group_secrets: Ciphertext,
}

impl Decode for EncryptedGroupSecrets {
    ghost use Rattle.mls_msgs.specs.Welcome.{encrypted_group_secrets};
    ghost use Rattle.mls_msgs.specs.EncryptedGroupSecrets.{encrypted_group_secrets_at};
    ghost use Rattle.mls_msgs.specs.WelcomeExact.{encrypted_group_secrets_exact, encrypted_group_secrets_long};

    ghost encoding = { encrypted_group_secrets };

    ghost reading = { encrypted_group_secrets_at };

    #[tactic(auto, unfolding(crate::specs::EncryptedGroupSecrets::encrypted_group_secrets_at))]
    fn read(alloc: Global, reader: &mut Reader<'_>) -> Result<EncryptedGroupSecrets, CodecFault> {
        let mut ahead = reader.fork();
        let new_member = BoxedOpaque::read(alloc, &mut ahead)?;
        let encrypted_group_secrets = Ciphertext::read(alloc, &mut ahead)?;
        *reader = ahead;
        Ok(EncryptedGroupSecrets {
            new_member,
            encrypted_group_secrets,
        })
    }

    ghost exact = { encrypted_group_secrets_exact };

    ghost long = { encrypted_group_secrets_long };
}

impl Skip for EncryptedGroupSecrets {
    #[tactic(auto, unfolding(crate::specs::EncryptedGroupSecrets::encrypted_group_secrets_at))]
    fn skip(reader: &mut Reader<'_>) -> Result<(), WireFault> {
        BoxedOpaque::skip(reader)?;
        Ciphertext::skip(reader)
    }
}

/// Those KeyPackageRefs of a Welcome that [`ReferencesLeft::next`] has not returned yet. The model is the list of them.
#[derive(Drop)]
pub struct ReferencesLeft<'a> {
    left: Reader<'a>,
}

impl<'a> Model for ReferencesLeft<'a> {
    ghost use Rattle.std.specs.Prelude.{ℕ, List, IsSome};
    ghost use Rattle.mls_msgs.specs.ReferencesLeft.{secrets_left, references_in};

    ghost Value = { List (List ℕ) };

    ghost view = { λ s. references_in s.left };

    ghost invariant = { λ s. IsSome (secrets_left s.left) };
}

impl<'a> ReferencesLeft<'a> {
    /// Returns the first reference that is left, which is then left no more. `None` if none is left.
    pub fn next(&mut self) -> Option<&'a [u8]>
        ensures { MatchOption result
            ((self.old ≡ []) × (self.new ≡ []))
            (λ first. self.old ≡ first.now ∷ self.new) }
    {
        if self.left.at_end() {
            return None;
        }
        let Ok(reference) = self.left.read_vec() else {
            unreachable!();
        };
        let Ok(_) = Ciphertext::skip(&mut self.left) else {
            unreachable!();
        };
        Some(reference)
    }
}

/// A Welcome (RFC 9420, 12.4.3.1): its fields, borrowed from the bytes that encode them.
struct Welcome<'a> {
    cipher_suite: u16,
    secrets: ItemsRef<'a, EncryptedGroupSecrets>,
    encrypted_group_info: OpaqueRef<'a>,
}

// Written out, so that a drop is one call in the proofs of its owners.
impl<'a> Drop for Welcome<'a> {
    fn drop(self) {
        let Welcome {
            cipher_suite: _,
            secrets: _,
            encrypted_group_info: _,
        } = self;
    }
}

impl<'a> Welcome<'a> {
    /// Reads the Welcome at the front. On error the reader may have moved.
    #[tactic(auto, unfolding(crate::specs::WelcomeParsing::welcome_at))]
    fn parse(reader: &mut Reader<'a>) -> Result<Welcome<'a>, WireFault>
        ensures { Parses welcome_at reader.old reader.new result }
    {
        let cipher_suite = parse_u16(reader)?;
        let secrets = ItemsRef::parse(reader)?;
        let encrypted_group_info = OpaqueRef::parse(reader)?;
        Ok(Welcome {
            cipher_suite,
            secrets,
            encrypted_group_info,
        })
    }

    /// Returns the front of the Welcome.
    fn into_front(self) -> WelcomeFront<'a>
        ensures suite { result.cipher_suite ≡ self.entry.cipher_suite }
        ensures references { references result ≡ new_members self.entry }
    {
        let Welcome {
            cipher_suite,
            secrets,
            encrypted_group_info: _,
        } = self;
        WelcomeFront {
            cipher_suite,
            secrets,
        }
    }
}

/// The cipher suite and the KeyPackageRefs of the new members of a Welcome (RFC 9420, 12.4.3.1), borrowed from the bytes that
/// encode it. They are not authenticated.
pub struct WelcomeFront<'a> {
    /// The cipher suite. Any is read.
    pub cipher_suite: u16,
    secrets: ItemsRef<'a, EncryptedGroupSecrets>,
}

// Written out, so that a drop is one call in the proofs of its owners.
impl<'a> Drop for WelcomeFront<'a> {
    fn drop(self) {
        let WelcomeFront {
            cipher_suite: _,
            secrets: _,
        } = self;
    }
}

impl<'a> WelcomeFront<'a> {
    /// Returns the KeyPackageRefs of the new members (RFC 9420, 5.2), in their order.
    pub fn references(&self) -> ReferencesLeft<'a>
        ensures references { result ≡ references self.now }
        ensures limit { length result < 2 ^ 64 }
    {
        ReferencesLeft {
            left: Reader::new(self.secrets.encoded()),
        }
    }

    /// Returns the number of new members. Time is proportional to it.
    pub fn len(&self) -> usize
        ensures { result ≡ length (references self.now) }
    {
        let mut left = self.references();
        let mut count = 0;
        while let Some(_) = left.next() {
            count += 1;
        }
        count
    }
}

/// Returns the front of the Welcome whose encoding is all of the bytes: the body of a message of wire format 3. Nothing is
/// copied or decrypted.
///
/// # Errors
///
/// The first fault of the bytes from the left, `Trailing` if bytes are left. Offsets are counted from the start of the
/// body.
pub fn read_welcome(body: &[u8]) -> Result<WelcomeFront<'_>, WireFault>
    ensures { ReadsFront welcome body.now result (λ w front.
        (front.cipher_suite ≡ w.cipher_suite) × (references front ≡ new_members w)) }
{
    let mut reader = Reader::new(body);
    let welcome = Welcome::parse(&mut reader)?;
    reader.finish()?;
    Ok(welcome.into_front())
}
