//! Tests of `sharing_check`: the rule that is named where several are broken.

use cc_scopes::{Share, ShareRule};
use sharing_check::{Sharing, sharing_of};

#[test]
fn the_first_broken_rule_is_named(rt: HostRuntime) {
    let address = ShareRule::PlainAddress;
    let member = ShareRule::PlainMember;
    let shares = [
        Share {
            rule: member,
            line: 4,
        },
        Share {
            rule: address,
            line: 4,
        },
        Share {
            rule: address,
            line: 9,
        },
    ];
    let first = Sharing::Shared {
        rule: address,
        line: 4,
    };
    assert_eq!(rt; sharing_of(&shares), first);
    assert_eq!(rt; sharing_of(&[]), Sharing::Determinate);
}
