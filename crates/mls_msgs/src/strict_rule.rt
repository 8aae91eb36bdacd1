//! The strict rules (own rule): each with its number, its name and a sentence.

ghost use Rattle.std.specs.Prelude.{◌≡◌};
ghost use Rattle.mls_msgs.specs.StrictRules.{strict_number, strict_name};

use thiserror::Error;

/// A strict rule: a form, a length or a list that RFC 9420 demands and that anyone can see, as it is broken. The variants
/// are in the order of their numbers.
#[derive(Clone, Copy, Debug, PartialEq, Eq, Error)]
pub enum StrictRule {
    /// The confirmation tag, or the membership tag, has another number of bytes than a hash of the suite (RFC 9420,
    /// 6.1, 6.2 and 8.1).
    #[error("a tag has another length than a hash of the suite")]
    TagLength,
    /// A list of extensions has a type twice: that of a leaf node, of a KeyPackage, of a GroupContextExtensions or of a
    /// ReInit (RFC 9420, 7.2 and 13.4).
    #[error("a list of extensions has a type twice")]
    ExtensionRepeated,
    /// A leaf node has an extension of a type from 2 to 5, which have their place elsewhere (RFC 9420, 7.2, 7.3 and
    /// 17.3).
    #[error("a leaf has an extension that belongs elsewhere")]
    ExtensionMisplaced,
    /// The application_id of a leaf node, or the external_senders of a GroupContext, cannot be read (RFC 9420, 5.3.3
    /// and 12.1.8.1).
    #[error("an extension cannot be read")]
    ExtensionUnreadable,
    /// A key does not have the form that the suite demands: the encryption key or signature key of a leaf node, the
    /// init key of a KeyPackage, or the encryption key of a path node (RFC 9420, 5.1.1; RFC 9180, 7.1).
    #[error("a key is none of the cipher suite")]
    KeyForm,
    /// A kem_output, of a path or of an ExternalInit, does not have the form that the suite demands, or a ciphertext of
    /// a path has another length than a hash of the suite and 16 bytes (RFC 9420, 5.1.3, 7.6 and 8.3; RFC 9180, 7.1).
    #[error("a ciphertext is none of the cipher suite")]
    CiphertextForm,
    /// A leaf node's capabilities do not list the group's version, or not its cipher suite (RFC 9420, 7.2 and 11.1).
    #[error("a leaf does not list the version or the cipher suite of the group")]
    GroupUnlisted,
    /// A leaf node's capabilities list an extension type from 1 to 5, or a proposal type from 1 to 7, which must not be
    /// listed (RFC 9420, 7.2).
    #[error("a leaf lists a default type")]
    DefaultListed,
    /// The lifetime of a leaf node ends before it begins (RFC 9420, 7.2).
    #[error("a lifetime ends before it begins")]
    LifetimeEmpty,
    /// A leaf node has an x509 credential without a certificate, or whose first certificate has another key than the
    /// leaf node signs with (RFC 9420, 5.3).
    #[error("a certificate is not for the signature key")]
    CertificateKey,
    /// A PreSharedKey names a resumption PSK of this group in a later epoch than the current one (RFC 9420, 8.6 and
    /// 12.4.2).
    #[error("a resumption PSK is of an epoch to come")]
    PskAhead,
    /// A leaf node does not support the type of an extension of the GroupContext (RFC 9420, 12.1.7 and 13.4).
    #[error("a member does not support an extension of the group")]
    GroupExtensionUnsupported,
    /// A key of the suites 2, 5 and 7 is no point of the suite's curve (RFC 9420, 5.1.1; RFC 9180, 7.1.4).
    #[error("a key is no point of the curve")]
    PointOffCurve,
}

impl StrictRule {
    /// Returns the number by which reports and sets of rules name the rule, from 40 to 52.
    pub fn number(self) -> u8
        ensures { result ≡ strict_number self }
    {
        match self {
            StrictRule::TagLength => 40,
            StrictRule::ExtensionRepeated => 41,
            StrictRule::ExtensionMisplaced => 42,
            StrictRule::ExtensionUnreadable => 43,
            StrictRule::KeyForm => 44,
            StrictRule::CiphertextForm => 45,
            StrictRule::GroupUnlisted => 46,
            StrictRule::DefaultListed => 47,
            StrictRule::LifetimeEmpty => 48,
            StrictRule::CertificateKey => 49,
            StrictRule::PskAhead => 50,
            StrictRule::GroupExtensionUnsupported => 51,
            StrictRule::PointOffCurve => 52,
        }
    }

    /// Returns the name by which reports name the rule: that of the variant.
    pub fn name(self) -> &'static str
        ensures { result.now ≡ strict_name self }
    {
        match self {
            StrictRule::TagLength => "TagLength",
            StrictRule::ExtensionRepeated => "ExtensionRepeated",
            StrictRule::ExtensionMisplaced => "ExtensionMisplaced",
            StrictRule::ExtensionUnreadable => "ExtensionUnreadable",
            StrictRule::KeyForm => "KeyForm",
            StrictRule::CiphertextForm => "CiphertextForm",
            StrictRule::GroupUnlisted => "GroupUnlisted",
            StrictRule::DefaultListed => "DefaultListed",
            StrictRule::LifetimeEmpty => "LifetimeEmpty",
            StrictRule::CertificateKey => "CertificateKey",
            StrictRule::PskAhead => "PskAhead",
            StrictRule::GroupExtensionUnsupported => "GroupExtensionUnsupported",
            StrictRule::PointOffCurve => "PointOffCurve",
        }
    }
}
