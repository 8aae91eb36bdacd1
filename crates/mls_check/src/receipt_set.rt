//! Sets of receipts that grow, and the checker that such a set makes.

ghost use Rattle.std.specs.Prelude.{◌≡◌, ℕ, List, [], ◌∷◌, IfOk, IfErr, OnOk, OnErr, false};
ghost use Rattle.mls_check.specs.Receipts.{IsReceipts, IsReceiptsFault};
ghost use Rattle.mls_check.specs.ReceiptSets.{has_digest, HaveSameDigests, with_receipt};

use crate::receipts::{ReceiptsFault, digests_of, receipt};
use crate::signatures::{OutOfMemory, SignatureCheck, Trusting};
use mls_wire::MAX_INPUT;
use std::alloc::Global;
use std::collections::BTreeSet;
use std::marker::Model;

/// A checker that can learn which signatures are good, by their receipts.
pub trait LearningCheck: SignatureCheck {
    /// Learns that the signatures with this receipt are good.
    ///
    /// # Errors
    ///
    /// [`OutOfMemory`]; what the checker says is unchanged.
    fn learn_receipt(&mut self, digest: [u8; 32]) -> Result<(), OutOfMemory>
        ensures learnt { OnOk result (Self.meaning self.new ≡ with_receipt (Self.meaning self.old) digest) }
        ensures unchanged { OnErr result (Self.meaning self.new ≡ Self.meaning self.old) };
}

/// A set of receipts, and a checker that accepts the signatures with a receipt in it. The model is a list of digests,
/// of which order and repeats do not matter.
#[derive(Debug, Drop)]
pub struct Receipts {
    digests: BTreeSet<[u8; 32]>,
}

impl Model for Receipts {
    ghost use Rattle.std.specs.Prelude.{ℕ, List};

    ghost Value = { List (List ℕ) };

    ghost view = { λ r. r.digests.keys };
}

impl Receipts {
    /// Returns the empty set.
    pub fn new(alloc: Global) -> Receipts
        ensures { result ≡ [] }
    {
        Receipts {
            digests: BTreeSet::new(alloc),
        }
    }

    /// Returns the set of the receipts in a file.
    ///
    /// # Errors
    ///
    /// [`ReceiptsFault::TooLong`] if the file is too long, otherwise [`ReceiptsFault::BadLine`] with its first bad
    /// line; [`ReceiptsFault::OutOfMemory`] if an allocation fails.
    pub fn read(alloc: Global, bytes: &[u8]) -> Result<Receipts, ReceiptsFault>
        ensures receipts { IfOk result
            (λ r. (digests : List (List ℕ)) × IsReceipts bytes.now digests × HaveSameDigests digests r) }
        ensures refused { IfErr result (λ e. IsReceiptsFault e bytes.now) }
    {
        if bytes.len() > MAX_INPUT {
            return Err(ReceiptsFault::TooLong);
        }
        let digests = digests_of(alloc, bytes)?;
        match set_of(alloc, digests.as_slice()) {
            Ok(receipts) => Ok(receipts),
            Err(OutOfMemory) => Err(ReceiptsFault::OutOfMemory),
        }
    }

    /// Adds a receipt. It takes time that grows with the logarithm of the size of the set.
    ///
    /// # Errors
    ///
    /// [`OutOfMemory`], only if the set does not have the receipt yet; the set is unchanged.
    pub fn learn(&mut self, digest: [u8; 32]) -> Result<(), OutOfMemory>
        ensures learnt { OnOk result (HaveSameDigests (digest ∷ self.old) self.new) }
        ensures unchanged { OnErr result (self.new ≡ self.old) }
        ensures added { OnErr result (has_digest self.old digest ≡ false) }
    {
        self.digests.insert(digest)?;
        Ok(())
    }

    /// Returns whether the receipt is in the set.
    pub fn has(&self, digest: &[u8; 32]) -> bool
        ensures { result ≡ has_digest self.now digest.now }
    {
        self.digests.contains(digest)
    }
}

impl SignatureCheck for Receipts {
    ghost use Rattle.mls_check.specs.Receipts.{listed};

    ghost meaning = { λ r. listed r };

    fn good(&self, suite: u16, key: &[u8], content: &[&[u8]], signature: &[u8]) -> bool {
        match receipt(suite, key, content, signature) {
            Some(digest) => self.has(&digest),
            None => false,
        }
    }

    fn accepts_all(&self) -> bool {
        false
    }
}

impl LearningCheck for Receipts {
    fn learn_receipt(&mut self, digest: [u8; 32]) -> Result<(), OutOfMemory> {
        self.learn(digest)
    }
}

impl LearningCheck for Trusting {
    /// Does nothing: each signature is good.
    fn learn_receipt(&mut self, _digest: [u8; 32]) -> Result<(), OutOfMemory> {
        Ok(())
    }
}

/// Returns the set of these receipts.
fn set_of(alloc: Global, digests: &[[u8; 32]]) -> Result<Receipts, OutOfMemory>
    ensures { IfOk result (λ r. HaveSameDigests digests.now r) }
{
    let mut receipts = Receipts::new(alloc);
    for digest in digests {
        receipts.learn(*digest)?;
    }
    Ok(receipts)
}
