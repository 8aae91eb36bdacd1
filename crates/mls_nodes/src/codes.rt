//! Lists of codes, borrowed from the bytes that encode them (RFC 9420, 7.2 and 11.1).

ghost use Rattle.std.specs.Prelude.{◌≡◌, ◌==◌, ◌∷◌, [], MatchOption};
ghost use Rattle.std.specs.List.{list_any};

use mls_wire::{ItemsRef, parse_u16};

/// Takes the first code from the front of a list. `None` if there is none.
pub fn next_code(codes: &mut ItemsRef<'_, u16>) -> Option<u16>
    ensures { MatchOption result
        ((codes.old ≡ []) × (codes.new ≡ []))
        (λ first. codes.old ≡ first ∷ codes.new) }
{
    if codes.is_empty() {
        return None;
    }
    let mut reader = codes.reader();
    let Ok(code) = parse_u16(&mut reader) else {
        unreachable!();
    };
    *codes = ItemsRef::new(reader.left());
    Some(code)
}

/// Returns whether a list contains this code.
pub fn lists_code(codes: &ItemsRef<'_, u16>, code: u16) -> bool
    ensures { result ≡ list_any (λ x. x == code) codes.now }
{
    let mut left = ItemsRef::new(codes.encoded());
    while let Some(listed) = next_code(&mut left) {
        if listed == code {
            return true;
        }
    }
    false
}
