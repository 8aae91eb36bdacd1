//! The set of strict rules, as a state file has it (own rule).

ghost use Rattle.std.specs.Prelude.{◌≡◌};
ghost use Rattle.mls_wire.specs.Parsing.{GivesOrFull};
ghost use Rattle.mls_wire.specs.SaturatingSizes.{size};
ghost use Rattle.mls_wire.specs.WriteContracts.{Puts};
ghost use Rattle.mls_state.specs.Layout.{rule_set};
ghost use Rattle.mls_state.specs.Parsing.{rule_set_at};

use mls_msgs::Rules;
use mls_wire::{CodecFault, Decode, Draft, Encode, Reader, WireFault, WireFaultKind};
use std::alloc::Global;

/// Reads a set of strict rules. `BadTag` of its number if one of the bits 13 to 15 is 1.
#[tactic(auto, using(crate::proofs::RuleSets::rule_set_missing), unfolding(crate::specs::Parsing::rule_set_at))]
pub(crate) fn read_rules(alloc: Global, reader: &mut Reader<'_>) -> Result<Rules, CodecFault>
    ensures { GivesOrFull rule_set_at reader.old reader.new result }
{
    let mut ahead = reader.fork();
    let bits = u16::read(alloc, &mut ahead)?;
    let Some(rules) = Rules::from_bits(bits) else {
        return Err(CodecFault::Wire(WireFault {
            kind: WireFaultKind::BadTag(bits),
            at: reader.position(),
        }));
    };
    *reader = ahead;
    Ok(rules)
}

/// Returns the encoded length of a set of strict rules.
#[tactic(auto, using(mls_nodes::specs::TagSizes::tag_sizes), unfolding(crate::specs::Layout::rule_set))]
pub(crate) fn size_of_rules(rules: Rules) -> Option<usize>
    ensures { result ≡ size (rule_set rules) }
{
    rules.bits().size()
}

/// Writes a set of strict rules.
#[tactic(auto, unfolding(crate::specs::Layout::rule_set))]
pub(crate) fn put_rules(rules: Rules, draft: &mut Draft) -> Result<(), CodecFault>
    ensures { Puts (rule_set rules) draft.old draft.new result }
{
    draft.put_u16(rules.bits())
}
