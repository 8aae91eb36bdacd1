//! Lists of signatures that have to be verified.

ghost use Rattle.std.specs.Prelude.{◌≡◌, ◌<◌, ◌++◌, ◌∷◌, ◌↔◌, [], Some, IfOk, IsTrue, OnOk, length, slice_get};
ghost use Rattle.std.specs.Option.{option_to_list};
ghost use Rattle.mls_signatures.specs.AddedLeaves.{AppendsSignatures};
ghost use Rattle.mls_signatures.specs.SignaturesToVerify.{deduplicated};

use crate::duplicates::remove_duplicates;
use crate::shortened_signature::ShortenedSignature;
use crate::signature_to_verify::SignatureToVerify;
use mls_check::OutOfMemory;
use mls_wire::{Opaque, copy_of};
use std::alloc::Global;
use std::marker::Model;

/// The number of signatures at which duplicates are removed for the first time.
const FIRST_LIMIT: usize = 1_024;

/// A list of signatures that have to be verified, of one group.
///
/// What a leaf node signs ends with the group id and the leaf index (RFC 9420, 7.2). The list stores the group id once, and
/// [`SignatureList::get`] returns a signature with it. So a long group id does not count for each signature. The model is the
/// list of the signatures.
#[derive(Drop)]
pub struct SignatureList {
    group_id: Opaque,
    signatures: Vec<ShortenedSignature>,
    /// The number of signatures at which duplicates are removed next.
    limit: usize,
}

impl Model for SignatureList {
    ghost use Rattle.std.specs.Prelude.{List};
    ghost use Rattle.mls_signatures.specs.ShortenedSignatures.{AreShortened, restored_all};
    ghost use Rattle.mls_signatures.specs.declared.signature_to_verify.SignatureToVerify.{SignatureToVerify};

    ghost Value = { List SignatureToVerify };

    ghost view = { λ s. restored_all s.group_id s.signatures.items };

    ghost invariant = { λ s. AreShortened s.group_id s.signatures.items };
}

impl SignatureList {
    /// Returns an empty list. Does not allocate.
    pub fn new(alloc: Global) -> SignatureList
        ensures { result ≡ [] }
    {
        let Ok(group_id) = Opaque::new(Vec::new(alloc)) else {
            unreachable!();
        };
        SignatureList {
            group_id,
            signatures: Vec::new(alloc),
            limit: FIRST_LIMIT,
        }
    }

    /// Returns the empty list of a group with this id.
    pub(crate) fn of_group(alloc: Global, group_id: &Opaque) -> Result<SignatureList, OutOfMemory>
        ensures { IfOk result (λ list. list ≡ []) }
    {
        let group_id = copy_of(alloc, group_id)?;
        Ok(SignatureList {
            group_id,
            signatures: Vec::new(alloc),
            limit: FIRST_LIMIT,
        })
    }

    /// Returns the number of signatures.
    pub fn len(&self) -> usize
        ensures { result ≡ length self.now }
    {
        self.signatures.len()
    }

    /// Returns whether there is no signature.
    pub fn is_empty(&self) -> bool
        ensures { IsTrue result ↔ (self.now ≡ []) }
    {
        self.signatures.is_empty()
    }

    /// Returns the signature at an index.
    ///
    /// # Errors
    ///
    /// [`OutOfMemory`].
    pub fn get(&self, alloc: Global, index: usize) -> Result<SignatureToVerify, OutOfMemory>
        requires { index < length self.now }
        ensures { IfOk result (λ needed. slice_get self.now index ≡ Some needed) }
    {
        self.signatures[index].restored(alloc, self.group_id.as_slice())
    }

    /// Removes the signatures that are equal to an earlier one. If memory runs out, the list is unchanged.
    fn remove_duplicates(&mut self, alloc: Global) -> Result<(), OutOfMemory>
        ensures { OnOk result (self.new ≡ deduplicated self.old) }
    {
        remove_duplicates(alloc, &mut self.signatures)?;
        self.limit = FIRST_LIMIT.saturating_add(self.signatures.len().saturating_mul(2));
        Ok(())
    }

    /// Appends a signature.
    fn append(&mut self, alloc: Global, needed: &SignatureToVerify) -> Result<(), OutOfMemory>
        ensures { OnOk result (self.new ≡ self.old ++ needed.now ∷ []) }
    {
        let shortened = ShortenedSignature::new(alloc, self.group_id.as_slice(), needed)?;
        self.signatures.push(shortened)?;
        Ok(())
    }

    /// Appends a signature. Once the list has twice as many as after the last time, duplicates are removed.
    fn push(&mut self, alloc: Global, needed: &SignatureToVerify) -> Result<(), OutOfMemory>
        ensures { OnOk result (AppendsSignatures self.old (needed.now ∷ []) self.new) }
    {
        self.append(alloc, needed)?;
        if self.signatures.len() < self.limit {
            return Ok(());
        }
        self.remove_duplicates(alloc)
    }

    /// Appends a signature, if there is one. Duplicates may be removed.
    pub(crate) fn push_optional(
        &mut self,
        alloc: Global,
        needed: Option<SignatureToVerify>,
    ) -> Result<(), OutOfMemory>
        ensures { OnOk result (AppendsSignatures self.old (option_to_list needed) self.new) }
    {
        match needed {
            Some(needed) => self.push(alloc, &needed),
            None => Ok(()),
        }
    }

    /// Returns the list without the signatures that are equal to an earlier one, in its order. Each is moved.
    pub(crate) fn deduplicated(self, alloc: Global) -> Result<SignatureList, OutOfMemory>
        ensures { IfOk result (λ list. list ≡ deduplicated self) }
    {
        let mut list = self;
        match list.remove_duplicates(alloc) {
            Ok(()) => Ok(list),
            Err(memory) => {
                drop(list);
                Err(memory)
            }
        }
    }
}
