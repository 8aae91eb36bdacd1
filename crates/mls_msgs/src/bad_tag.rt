//! The fault for a tag with an unknown value.

ghost use Rattle.std.specs.Prelude.{◌≡◌};
ghost use Rattle.mls_wire.specs.declared.fault.CodecFault.TheVariants.{Wire};
ghost use Rattle.mls_wire.specs.declared.fault.WireFaultKind.TheVariants.{BadTag};

use mls_wire::{CodecFault, WireFault, WireFaultKind};

/// Creates the fault for a tag with an unknown value at this offset.
pub(crate) fn bad_tag(tag: u16, at: usize) -> CodecFault
    ensures { result ≡ Wire (record { kind = BadTag tag; at = at }) }
{
    CodecFault::Wire(WireFault {
        kind: WireFaultKind::BadTag(tag),
        at,
    })
}
