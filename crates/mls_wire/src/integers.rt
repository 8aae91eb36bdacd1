//! The unsigned integers of RFC 8446, 3.3, which RFC 9420 uses: the highest byte first.

ghost use Rattle.std.specs.Prelude.{◌↔◌, ◌≢◌, ◌%◌, IsTrue};
ghost use Rattle.std.specs.Int.{w8, w16, w32, w64};
ghost use Rattle.mls_wire.specs.ReadContracts.{NoListHasSize};
ghost use Rattle.mls_wire.specs.Encoding.{number};
ghost use Rattle.mls_wire.specs.Parsing.{number_at};
ghost use Rattle.mls_wire.specs.IntegersExact.{number_exact, wide8, wide16, wide32, wide64, number_long};

use crate::decode::Decode;
use crate::draft::Draft;
use crate::encode::Encode;
use crate::fault::CodecFault;
use crate::reader::Reader;
use std::alloc::Global;

impl Decode for u16 {
    ghost encoding = { number w16 };

    ghost reading = { number_at w16 };

    fn read(_alloc: Global, reader: &mut Reader<'_>) -> Result<u16, CodecFault> {
        Ok(reader.next_u16()?)
    }

    fn is_uneven(len: usize) -> bool
        ensures uneven { IsTrue result → NoListHasSize (number w16) len }
        ensures remainder { IsTrue result ↔ (len % 2 ≢ 0) }
    {
        len % 2 != 0
    }

    ghost exact = { number_exact w16 wide16 };

    ghost long = { number_long w16 wide16 };
}

impl Decode for u32 {
    ghost encoding = { number w32 };

    ghost reading = { number_at w32 };

    fn read(_alloc: Global, reader: &mut Reader<'_>) -> Result<u32, CodecFault> {
        Ok(reader.next_u32()?)
    }

    fn is_uneven(len: usize) -> bool
        ensures uneven { IsTrue result → NoListHasSize (number w32) len }
        ensures remainder { IsTrue result ↔ (len % 4 ≢ 0) }
    {
        len % 4 != 0
    }

    ghost exact = { number_exact w32 wide32 };

    ghost long = { number_long w32 wide32 };
}

impl Encode for u16 {
    fn size(&self) -> Option<usize> {
        let _value = *self;
        Some(2)
    }

    fn put(&self, _alloc: Global, draft: &mut Draft) -> Result<(), CodecFault> {
        draft.put_u16(*self)
    }
}

impl Encode for u32 {
    fn size(&self) -> Option<usize> {
        let _value = *self;
        Some(4)
    }

    fn put(&self, _alloc: Global, draft: &mut Draft) -> Result<(), CodecFault> {
        draft.put_u32(*self)
    }
}

impl Decode for u8 {
    ghost encoding = { number w8 };

    ghost reading = { number_at w8 };

    fn read(_alloc: Global, reader: &mut Reader<'_>) -> Result<u8, CodecFault> {
        Ok(reader.next_u8()?)
    }

    ghost exact = { number_exact w8 wide8 };

    ghost long = { number_long w8 wide8 };
}

impl Encode for u8 {
    fn size(&self) -> Option<usize> {
        let _value = *self;
        Some(1)
    }

    fn put(&self, _alloc: Global, draft: &mut Draft) -> Result<(), CodecFault> {
        draft.put_u8(*self)
    }
}

impl Decode for u64 {
    ghost encoding = { number w64 };

    ghost reading = { number_at w64 };

    fn read(_alloc: Global, reader: &mut Reader<'_>) -> Result<u64, CodecFault> {
        Ok(reader.next_u64()?)
    }

    ghost exact = { number_exact w64 wide64 };

    ghost long = { number_long w64 wide64 };
}

impl Encode for u64 {
    fn size(&self) -> Option<usize> {
        let _value = *self;
        Some(8)
    }

    fn put(&self, _alloc: Global, draft: &mut Draft) -> Result<(), CodecFault> {
        draft.put_u64(*self)
    }
}
