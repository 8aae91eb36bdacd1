//! Sets of strict rules (own rule).

ghost use Rattle.std.specs.Prelude.{◌<◌, ◌^◌};

/// A set of strict rules (own rule), which a follower asks beside the rules of its profile: forms, lengths and lists that RFC
/// 9420 demands and that anyone can see ([`StrictRule`](crate::StrictRule)). The set has a rule by its number, from 40 to 52.
#[derive(Clone, Copy, Debug, PartialEq, Eq)]
pub struct Rules {
    members: u16,
    ghost fits: { members < 2 ^ 13 },
}

impl Rules {
    ghost use Rattle.std.specs.Prelude.{ℕ, ◌≡◌, ◌==◌, ◌&&◌, ◌||◌, not, Some, is_some, nat_lt, IfSome};
    ghost use Rattle.mls_msgs.specs.Rules.{is_strict_rule, rule_bits, has_rule, is_plain, plain_rules, strict_rules};
    ghost use Rattle.mls_msgs.specs.declared.rules.Rules.{Rules};

    /// Returns the empty set.
    pub const fn plain() -> Rules
        ensures { result ≡ plain_rules }
    {
        Rules { members: 0 }
    }

    /// Returns the set of all strict rules, 40 to 52.
    pub const fn strict() -> Rules
        ensures { result ≡ strict_rules }
    {
        Rules { members: 0x1fff }
    }

    /// Returns whether the set has the strict rule of this number. No set has a number outside 40 to 52.
    pub fn has(self, number: u8) -> bool
        ensures { result ≡ has_rule self number }
    {
        if number < 40 || number > 52 {
            return false;
        }
        (self.members >> (number - 40)) & 1 == 1
    }

    /// Returns whether the set is empty.
    pub fn is_plain(self) -> bool
        ensures { result ≡ is_plain self }
    {
        self.members == 0
    }

    /// Returns the union of two sets.
    pub fn with(self, rules: Rules) -> Rules
        ensures union { (n : ℕ) → has_rule result n ≡ (has_rule self n || has_rule rules n) }
    {
        Rules {
            members: self.members | rules.members,
        }
    }

    /// Returns the rules of this set that another one lacks.
    pub fn difference(self, rules: Rules) -> Rules
        ensures difference { (n : ℕ) → has_rule result n ≡ (has_rule self n && not (has_rule rules n)) }
    {
        Rules {
            members: self.members & !rules.members,
        }
    }

    /// Returns the set without the strict rule of this number, or `None` if the number is none of 40 to 52.
    pub fn without(self, number: u8) -> Option<Rules>
        ensures is_strict_rule { is_some result ≡ is_strict_rule number }
        ensures other_rules { IfSome result (λ r.
            (n : ℕ) → has_rule r n ≡ (has_rule self n && not (n == number))) }
    {
        if number < 40 || number > 52 {
            return None;
        }
        Some(Rules {
            members: self.members & !(1 << (number - 40)),
        })
    }

    /// Returns the number that encodes the set: bit `n - 40` is 1 if and only if the set has the strict rule `n`, and
    /// each other bit is 0.
    pub fn bits(self) -> u16
        ensures encoding { result ≡ rule_bits self }
        ensures below { result < 2 ^ 13 }
    {
        self.members
    }

    /// Returns the set that the number encodes, or `None` if one of the bits 13 to 15 is 1.
    pub fn from_bits(bits: u16) -> Option<Rules>
        ensures is_encoding { is_some result ≡ nat_lt bits (2 ^ 13) }
        ensures encoding { IfSome result (λ r. rule_bits r ≡ bits) }
        ensures inverse { (r : Rules) → rule_bits r ≡ bits → result ≡ Some r }
    {
        if bits >= 0x2000 {
            return None;
        }
        Some(Rules { members: bits })
    }
}
