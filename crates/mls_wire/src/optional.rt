//! Optional values: a byte that says whether one follows, and the value (RFC 9420, 2.1.1).

use crate::decode::Decode;
use crate::draft::Draft;
use crate::encode::Encode;
use crate::fault::CodecFault;
use crate::reader::Reader;
use crate::size::add_sizes;
use std::alloc::Global;

impl<T: Decode> Decode for Option<T> {
    ghost use Rattle.mls_wire.specs.Encoding.{optional};
    ghost use Rattle.mls_wire.specs.ParsingInternal.{optional_at};
    ghost use Rattle.mls_wire.specs.OptionalsExact.{optional_exact, optional_long};

    ghost encoding = { optional T.encoding };

    ghost reading = { optional_at T.reading };

    #[tactic(auto, unfolding(crate::specs::ParsingInternal::optional_at))]
    fn read(alloc: Global, reader: &mut Reader<'_>) -> Result<Option<T>, CodecFault> {
        let mut ahead = reader.fork();
        let value = if ahead.next_optional()? {
            Some(T::read(alloc, &mut ahead)?)
        } else {
            None
        };
        *reader = ahead;
        Ok(value)
    }

    ghost exact = { optional_exact T.encoding T.reading T.exact };

    ghost long = { optional_long T.encoding };
}

impl<T: Encode> Encode for Option<T> {
    #[tactic(auto, using(crate::specs::EncodedSizes::sizes), unfolding(crate::specs::Encoding::optional))]
    fn size(&self) -> Option<usize> {
        match self {
            None => Some(1),
            Some(value) => add_sizes(Some(1), value.size()),
        }
    }

    #[tactic(auto, using(crate::specs::WriteSequences::written), unfolding(crate::specs::Encoding::optional, crate::specs::Encoding::flag))]
    fn put(&self, alloc: Global, draft: &mut Draft) -> Result<(), CodecFault> {
        match self {
            None => draft.put_optional(false),
            Some(value) => {
                draft.put_optional(true)?;
                value.put(alloc, draft)
            }
        }
    }
}
