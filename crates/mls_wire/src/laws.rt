//! Theorems about encodings: bytes are the encoding of at most one value of a type, and no encoding is a proper prefix
//! of another. So the result of reading from left to right is determined, and so is that of reading a log. The
//! functions have an empty body; their contracts are the theorems.

ghost use Rattle.std.specs.Int.{w8, w16, w32, w64};
ghost use Rattle.mls_wire.specs.Logs.{NextRecordIsDeterministic};
ghost use Rattle.mls_wire.specs.ReadContracts.{ReadIsDeterministic};
ghost use Rattle.mls_wire.specs.Encoding.{IsInjective, IsPrefixFree, IsUniquelyDecodable, number, length_form, vector, flag};
ghost use Rattle.mls_wire.specs.WriteContracts.{WriteIsDeterministic, PutIsDeterministic, MakeIsDeterministic};

use crate::decode::Decode;

/// For every type that can be decoded: its encoding is injective and prefix-free, and the result of a read is
/// determined.
pub fn one_value<T: Decode>()
    ensures once { IsInjective T.encoding }
    ensures whole { IsPrefixFree T.encoding }
    ensures reading { ReadIsDeterministic T.encoding }
{}

/// For unsigned integers, lengths, vectors and the byte before an optional value (RFC 9420, 2.1): bytes determine the
/// value.
pub fn primitives()
    ensures uint8 { IsUniquelyDecodable (number w8) }
    ensures uint16 { IsUniquelyDecodable (number w16) }
    ensures uint32 { IsUniquelyDecodable (number w32) }
    ensures uint64 { IsUniquelyDecodable (number w64) }
    ensures length { IsUniquelyDecodable length_form }
    ensures vector { IsUniquelyDecodable vector }
    ensures optional { IsUniquelyDecodable flag }
{}

/// For logs: known bytes determine what comes next, where it ends, and the body of a record.
pub fn logs()
    ensures { NextRecordIsDeterministic }
{}

/// For writing: unless it runs out of memory, the result of a call that writes, puts or makes an encoding is
/// determined. So are the bytes after a write, and those of a draft after a successful `put_..`.
pub fn one_text()
    ensures written { WriteIsDeterministic }
    ensures put { PutIsDeterministic }
    ensures made { MakeIsDeterministic }
{}
