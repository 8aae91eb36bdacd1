//! How much the values of a JSON text weigh.

ghost use Rattle.std.specs.Prelude.{◌≡◌, ◌↔◌, ◌≤◌, IsTrue, length};
ghost use Rattle.mls_wire.specs.Limits.{input_limit};
ghost use Rattle.mls_vectors.specs.TextWeight.{byte_weight, text_weight, IsTooHeavy};

/// The weight that a text may have beyond its length.
const FREE_WEIGHT: u64 = 262144;

/// Returns the weight of a byte: that of the values that it can begin.
fn byte_weight(byte: u8) -> u64
    ensures { result ≡ byte_weight byte }
{
    match byte {
        b'{' => 40,
        b'[' => 7,
        b',' => 4,
        _ => 0,
    }
}

/// Returns the weight of a text.
fn text_weight(text: &[u8]) -> u64
    requires { length text.now ≤ input_limit }
    ensures { result ≡ text_weight text.now }
{
    let mut weight = 0;
    for byte in text {
        weight += byte_weight(*byte);
    }
    weight
}

/// Returns whether a JSON text has so many short values that to read it would take many times its length.
pub(crate) fn is_too_heavy(text: &[u8]) -> bool
    requires { length text.now ≤ input_limit }
    ensures { IsTrue result ↔ IsTooHeavy text.now }
{
    text_weight(text) > text.len() as u64 + FREE_WEIGHT
}
