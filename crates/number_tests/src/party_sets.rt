//! Sets of parties as bits, member by member.
use proto_names::PartySet;

#[test]
fn members_from_the_lowest_bit_on(rt: HostRuntime) {
    let set = PartySet { bits: 0x8000_0015 };
    for (p, want) in [
        (0, false),
        (1, true),
        (2, false),
        (3, true),
        (5, true),
        (31, false),
        (32, true),
        (33, false),
    ] {
        assert_eq!(rt; set.has(p), want, "party {p}");
    }
    assert_eq!(rt; set.count(), 4);
    for (k, want) in [
        (0, Some(0)),
        (1, Some(1)),
        (2, Some(5)),
        (4, Some(0x8000_0015)),
        (5, None),
    ] {
        assert_eq!(rt; set.least(k).map(|some| some.bits), want, "the {k} least");
    }
}
