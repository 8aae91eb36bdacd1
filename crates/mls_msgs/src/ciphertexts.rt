//! The ciphertexts of a path node (RFC 9420, 7.6).

use mls_wire::{BoxedOpaque, CodecFault, Decode, EncodedItems, Reader, Skip, WireFault};
use std::alloc::Global;

/// An HPKECiphertext: a path secret encrypted to one node of a resolution (RFC 9420, 7.6).
#[derive(Debug, Drop)]
pub struct Ciphertext {
    /// The KEM output.
    pub kem_output: BoxedOpaque,
    /// The encrypted path secret.
    pub ciphertext: BoxedOpaque,
}

/// One HPKECiphertext per node of a resolution (RFC 9420, 7.6), in its order.
///
/// Who follows the public state of a group asks only how many there are. So they are stored as their encoding.
pub type Ciphertexts = EncodedItems<Ciphertext>;

impl Decode for Ciphertext {
    ghost use Rattle.mls_msgs.specs.Layout.{ciphertext};
    ghost use Rattle.mls_msgs.specs.Ciphertext.{ciphertext_at};
    ghost use Rattle.mls_msgs.specs.CommitExact.{ciphertext_exact, ciphertext_long};

    ghost encoding = { ciphertext };

    ghost reading = { ciphertext_at };

    #[tactic(auto, unfolding(crate::specs::Ciphertext::ciphertext_at))]
    fn read(alloc: Global, reader: &mut Reader<'_>) -> Result<Ciphertext, CodecFault> {
        let mut ahead = reader.fork();
        let kem_output = BoxedOpaque::read(alloc, &mut ahead)?;
        let ciphertext = BoxedOpaque::read(alloc, &mut ahead)?;
        *reader = ahead;
        Ok(Ciphertext {
            kem_output,
            ciphertext,
        })
    }

    ghost exact = { ciphertext_exact };

    ghost long = { ciphertext_long };
}

impl Skip for Ciphertext {
    #[tactic(auto, unfolding(crate::specs::Ciphertext::ciphertext_at))]
    fn skip(reader: &mut Reader<'_>) -> Result<(), WireFault> {
        BoxedOpaque::skip(reader)?;
        BoxedOpaque::skip(reader)
    }
}
