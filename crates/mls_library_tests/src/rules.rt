//! Sets of strict rules (own rule): which rules a set has, and the numbers that encode it.

use mls_msgs::Rules;

#[test]
fn plain_has_no_rule_and_strict_has_thirteen(rt: HostRuntime) {
    assert_eq!(rt; Rules::plain().bits(), 0);
    assert_eq!(rt; Rules::strict().bits(), 0x1fff);
    assert!(rt; Rules::plain().is_plain());
    assert!(rt; !Rules::strict().is_plain());
    assert!(rt; !Rules::plain().has(40));
    assert!(rt; !Rules::strict().has(39));
    assert!(rt; Rules::strict().has(40));
    assert!(rt; Rules::strict().has(52));
    assert!(rt; !Rules::strict().has(53));
}

#[test]
fn one_rule_is_left_out(rt: HostRuntime) {
    match Rules::strict().without(47) {
        Some(rules) => assert_eq!(rt; rules.bits(), 0x1f7f),
        None => assert!(rt; false),
    }
    assert!(rt; Rules::strict().without(39).is_none());
    assert!(rt; Rules::strict().without(53).is_none());
}

#[test]
fn bits_above_the_rules_are_refused(rt: HostRuntime) {
    assert!(rt; Rules::from_bits(0x2000).is_none());
    assert!(rt; Rules::from_bits(0x8000).is_none());
    assert!(rt; Rules::from_bits(0x1fff) == Some(Rules::strict()));
}

#[test]
fn unions_have_the_rules_of_both(rt: HostRuntime) {
    match (Rules::from_bits(0x1010), Rules::from_bits(0x0001)) {
        (Some(first), Some(second)) => assert_eq!(rt; first.with(second).bits(), 0x1011),
        _ => assert!(rt; false),
    }
}

#[test]
fn differences_have_the_rules_of_the_first_alone(rt: HostRuntime) {
    match (Rules::from_bits(0x1011), Rules::from_bits(0x1f7f)) {
        (Some(first), Some(second)) => {
            assert_eq!(rt; Rules::strict().difference(first).bits(), 0x0fee);
            assert_eq!(rt; Rules::strict().difference(second).bits(), 0x0080);
            assert_eq!(rt; first.difference(Rules::strict()).bits(), 0);
        }
        _ => assert!(rt; false),
    }
}
