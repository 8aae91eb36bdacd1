//! The signatures of a KeyPackage or a GroupInfo that a checker does not accept.

ghost use Rattle.std.specs.Prelude.{◌≡◌, ◌↔◌, ◌++◌, ◌∷◌, [], IfOk, IsTrue, OnOk};
ghost use Rattle.mls_examine.specs.GroupInfos.{unaccepted};
ghost use Rattle.mls_examine.specs.Packages.{is_accepted, unsigned};

use mls_check::{OutOfMemory, SignatureCheck};
use mls_msgs::KeyPackage;
use mls_signatures::{SignatureList, SignatureToVerify, package_signatures};
use std::alloc::Global;
use std::marker::Model;

/// The signatures that a checker does not accept. The model is the list of them.
#[derive(Debug, Drop)]
pub struct UnacceptedSignatures {
    signatures: Vec<SignatureToVerify>,
}

impl Model for UnacceptedSignatures {
    ghost use Rattle.std.specs.Prelude.{List};
    ghost use Rattle.mls_signatures.specs.declared.signature_to_verify.SignatureToVerify.{SignatureToVerify};

    ghost Value = { List SignatureToVerify };

    ghost view = { λ s. s.signatures.items };
}

/// Returns whether a checker accepts a signature.
fn is_accepted<C: SignatureCheck>(checker: &C, signature: &SignatureToVerify) -> bool
    ensures { result ≡ is_accepted (C.meaning checker.now) signature.now }
{
    let content = [signature.content.as_slice()];
    let key = signature.key.as_slice();
    checker.good(
        signature.suite,
        key,
        &content,
        signature.signature.as_slice(),
    )
}

/// Appends a signature, unless a checker accepts it.
fn push_unaccepted<C: SignatureCheck>(
    signatures: &mut Vec<SignatureToVerify>,
    signature: SignatureToVerify,
    checker: &C,
) -> Result<(), OutOfMemory>
    ensures { OnOk result (signatures.new.items
        ≡ signatures.old.items ++ unaccepted (C.meaning checker.now) (signature ∷ [])) }
{
    if is_accepted(checker, &signature) {
        return Ok(());
    }
    signatures.push(signature)?;
    Ok(())
}

impl UnacceptedSignatures {
    /// Returns those of a KeyPackage, in any group of its cipher suite: that of its leaf node, then its own.
    pub(crate) fn of_package<C: SignatureCheck>(
        alloc: Global,
        key_package: &KeyPackage,
        checker: &C,
    ) -> Result<UnacceptedSignatures, OutOfMemory>
        ensures { IfOk result (λ list. list ≡ unsigned (C.meaning checker.now) key_package.now) }
    {
        let mut signatures = package_signatures(alloc, key_package)?;
        signatures.retain(|signature| !is_accepted(checker, signature));
        Ok(UnacceptedSignatures { signatures })
    }

    /// Returns those among these signatures.
    pub(crate) fn among<C: SignatureCheck>(
        mut signatures: Vec<SignatureToVerify>,
        checker: &C,
    ) -> UnacceptedSignatures
        ensures { result ≡ unaccepted (C.meaning checker.now) signatures.items }
    {
        signatures.retain(|signature| !is_accepted(checker, signature));
        UnacceptedSignatures { signatures }
    }

    /// Returns those of a list.
    pub(crate) fn of_list<C: SignatureCheck>(
        alloc: Global,
        list: &SignatureList,
        checker: &C,
    ) -> Result<UnacceptedSignatures, OutOfMemory>
        ensures { IfOk result (λ found. found ≡ unaccepted (C.meaning checker.now) list.now) }
    {
        let mut signatures = Vec::new(alloc);
        for index in 0..list.len() {
            let signature = list.get(alloc, index)?;
            push_unaccepted(&mut signatures, signature, checker)?;
        }
        Ok(UnacceptedSignatures { signatures })
    }

    /// Returns the signatures.
    pub fn as_slice(&self) -> &[SignatureToVerify]
        ensures { result.now ≡ self.now }
    {
        self.signatures.as_slice()
    }

    /// Returns whether there is no signature.
    pub fn is_empty(&self) -> bool
        ensures { IsTrue result ↔ (self.now ≡ []) }
    {
        self.signatures.is_empty()
    }
}
