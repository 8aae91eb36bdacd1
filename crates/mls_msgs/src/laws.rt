//! Properties of the encodings: they are unambiguous, and the labels are those of the definitions. Properties of the sets
//! of strict rules.

ghost use Rattle.std.specs.Prelude.{◌≡◌, ◌↔◌, ℕ, true, false};
ghost use Rattle.mls_wire.specs.Encoding.{list, IsInjective, IsUniquelyDecodable};
ghost use Rattle.mls_msgs.specs.Layout.{key_package, psk_usage, psk_kind, psk_id, reinit, proposal, proposal_or_ref, ciphertext, path_node, update_path, commit, sender, content, framed_content, group_info};
ghost use Rattle.mls_msgs.specs.Authenticated.{authenticated_content};
ghost use Rattle.mls_msgs.specs.PublicMessage.{public_message};
ghost use Rattle.mls_msgs.specs.Message.{message};
ghost use Rattle.mls_msgs.specs.PrivateMessage.{content_type, private_message};
ghost use Rattle.mls_msgs.specs.Welcome.{encrypted_group_secrets, welcome};
ghost use Rattle.mls_msgs.specs.Tbs.{content_label, package_label, info_label, reference_label};
ghost use Rattle.mls_msgs.specs.Rules.{is_strict_rule, rule_bits, has_rule, is_plain, plain_rules, strict_rules};
ghost use Rattle.mls_msgs.specs.declared.rules.Rules.{Rules};

use crate::tbs::{CONTENT_LABEL, GROUP_INFO_LABEL, KEY_PACKAGE_LABEL, PROPOSAL_REFERENCE_LABEL};

/// For each type: a list of bytes encodes at most one value, and no encoding is a proper prefix of another. For
/// messages only the first holds, since the body of an unread message is the rest of the input.
pub fn unambiguous()
    ensures key_package { IsUniquelyDecodable key_package }
    ensures psk_usage { IsUniquelyDecodable psk_usage }
    ensures psk_kind { IsUniquelyDecodable psk_kind }
    ensures psk_id { IsUniquelyDecodable psk_id }
    ensures reinit { IsUniquelyDecodable reinit }
    ensures proposal { IsUniquelyDecodable proposal }
    ensures proposal_or_ref { IsUniquelyDecodable proposal_or_ref }
    ensures proposals { IsUniquelyDecodable (list proposal_or_ref) }
    ensures ciphertext { IsUniquelyDecodable ciphertext }
    ensures ciphertexts { IsUniquelyDecodable (list ciphertext) }
    ensures path_node { IsUniquelyDecodable path_node }
    ensures path_nodes { IsUniquelyDecodable (list path_node) }
    ensures update_path { IsUniquelyDecodable update_path }
    ensures commit { IsUniquelyDecodable commit }
    ensures sender { IsUniquelyDecodable sender }
    ensures content { IsUniquelyDecodable content }
    ensures framed_content { IsUniquelyDecodable framed_content }
    ensures authenticated { IsUniquelyDecodable authenticated_content }
    ensures public_message { IsUniquelyDecodable public_message }
    ensures group_info { IsUniquelyDecodable group_info }
    ensures content_type { IsUniquelyDecodable content_type }
    ensures private_message { IsUniquelyDecodable private_message }
    ensures encrypted_group_secrets { IsUniquelyDecodable encrypted_group_secrets }
    ensures welcome { IsUniquelyDecodable welcome }
    ensures message { IsInjective message }
{}

/// The labels of signatures and of references are those of the definitions.
pub fn labels()
    ensures content { CONTENT_LABEL.now ≡ content_label }
    ensures key_package { KEY_PACKAGE_LABEL.now ≡ package_label }
    ensures group_info { GROUP_INFO_LABEL.now ≡ info_label }
    ensures proposal_reference { PROPOSAL_REFERENCE_LABEL.now ≡ reference_label }
{}

/// The rules that a set of strict rules has determine it, and so does the number that encodes it. The empty set is the
/// only one that is plain and has no rule. The strict set has the rules 40 to 52.
pub fn rules_are_sets()
    ensures members { (r s : Rules) → ((n : ℕ) → has_rule r n ≡ has_rule s n) → r ≡ s }
    ensures bits { (r s : Rules) → rule_bits r ≡ rule_bits s → r ≡ s }
    ensures plain_has_none { (n : ℕ) → has_rule plain_rules n ≡ false }
    ensures strict_has_all { (n : ℕ) → has_rule strict_rules n ≡ is_strict_rule n }
    ensures plain_is_empty { (r : Rules) → (is_plain r ≡ true) ↔ (r ≡ plain_rules) }
{}
