//! Theorems about the encodings: bytes determine the value, and a tree that is extended to a full one is the same tree.

ghost use Rattle.std.specs.Prelude.{◌≡◌, ◌↔◌, ◌≤◌, ◌+◌, ◌-◌, ◌^◌, ℕ, List, Option, Some, None, length, take, drop, All};
ghost use Rattle.mls_wire.specs.Encoding.{list, vector};
ghost use Rattle.mls_nodes.specs.Extension.{extension};
ghost use Rattle.mls_nodes.specs.Layout.{credential, codes, capabilities, lifetime, source, leaf, unmerged, parent, node, required_capabilities, external_sender, group_context};
ghost use Rattle.mls_nodes.specs.RatchetTreeEncoding.{ratchet_tree, trimmed, filled};
ghost use Rattle.mls_nodes.specs.Requirements.{RequiresBy, required_by};
ghost use Rattle.mls_nodes.specs.ExternalSenders.{HasSenders, senders_by};
ghost use Rattle.mls_nodes.specs.declared.extension.Extension.{Extension};
ghost use Rattle.mls_nodes.specs.declared.senders.ExternalSender.{ExternalSender};
ghost use Rattle.mls_nodes.specs.declared.required_capabilities.RequiredCapabilities.{RequiredCapabilities};
ghost use Rattle.mls_nodes.specs.NodeModel.{NodeValue};
ghost use Rattle.mls_wire.specs.Encoding.{IsUniquelyDecodable};

/// For each type: bytes are the encoding of at most one value, and no encoding is a proper prefix of another.
pub fn unambiguous()
    ensures codes { IsUniquelyDecodable codes }
    ensures chain { IsUniquelyDecodable (list vector) }
    ensures credential { IsUniquelyDecodable credential }
    ensures capabilities { IsUniquelyDecodable capabilities }
    ensures extension { IsUniquelyDecodable extension }
    ensures extensions { IsUniquelyDecodable (list extension) }
    ensures lifetime { IsUniquelyDecodable lifetime }
    ensures source { IsUniquelyDecodable source }
    ensures leaf { IsUniquelyDecodable leaf }
    ensures unmerged { IsUniquelyDecodable unmerged }
    ensures parent { IsUniquelyDecodable parent }
    ensures node { IsUniquelyDecodable node }
    ensures requirements { IsUniquelyDecodable required_capabilities }
    ensures external_sender { IsUniquelyDecodable external_sender }
    ensures external_senders { IsUniquelyDecodable (list external_sender) }
    ensures context { IsUniquelyDecodable group_context }
    ensures ratchet_tree { IsUniquelyDecodable ratchet_tree }
{}

/// Extending to a full tree gives the entries of a tree at the front, blank ones after them, and the least number
/// 2^(d+1) - 1 of entries that is not below theirs. Leaving out the blank ones at the end undoes it.
pub fn filling()
    ensures full { (nodes : List (Option NodeValue))
        → (d : ℕ) × (length (filled nodes) ≡ 2 ^ (d + 1) - 1) }
    ensures capacity { (nodes : List (Option NodeValue)) → length nodes ≤ length (filled nodes) }
    ensures least { (nodes : List (Option NodeValue)) (d : ℕ)
        → length nodes ≤ 2 ^ (d + 1) - 1
        → length (filled nodes) ≤ 2 ^ (d + 1) - 1 }
    ensures front { (nodes : List (Option NodeValue)) → take (length nodes) (filled nodes) ≡ nodes }
    ensures back { (nodes : List (Option NodeValue))
        → All (λ x. x ≡ None) (drop (length nodes) (filled nodes)) }
    ensures again { (nodes : List (Option NodeValue)) (bytes : List ℕ)
        → ratchet_tree nodes ≡ Some bytes
        → trimmed (filled nodes) ≡ nodes }
{}

/// What a group with these extensions requires is a function of the extensions: `required_by` returns it, and `None` if
/// the data is no encoding of required capabilities.
pub fn requirements_are_determined()
    ensures { (extensions : List Extension) (required : RequiredCapabilities)
        → (required_by extensions ≡ Some required) ↔ RequiresBy extensions required }
{}

/// The external senders of a group with these extensions are a function of the extensions: `senders_by` returns them,
/// and `None` if the data is no encoding of a list of senders.
pub fn senders_are_determined()
    ensures { (extensions : List Extension) (senders : List ExternalSender)
        → (senders_by extensions ≡ Some senders) ↔ HasSenders extensions senders }
{}
