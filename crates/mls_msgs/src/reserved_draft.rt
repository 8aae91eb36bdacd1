//! Drafts that allocate all their memory at once.

ghost use Rattle.mls_msgs.specs.ReservedWrite.{MakesRoom};

use mls_wire::{CodecFault, Draft, WireFault, WireFaultKind};
use std::alloc::Global;

/// Creates an empty draft with capacity for `size` bytes. If there is no size, `TooLong` at offset 0, before anything
/// is allocated.
pub(crate) fn draft_with_capacity(alloc: Global, size: Option<usize>) -> Result<Draft, CodecFault>
    ensures { MakesRoom size result }
{
    let Some(size) = size else {
        return Err(CodecFault::Wire(WireFault {
            kind: WireFaultKind::TooLong,
            at: 0,
        }));
    };
    Ok(Draft::after(Vec::with_capacity(alloc, size)?))
}
