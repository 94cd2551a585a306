use diverge_rule::{Split, diverge_flow};
use merge_rule::merge_flow;

// Ten million vehicles.
const MOST: u64 = 10_000_000_000_000;

#[test]
fn merges_are_worked(rt: HostRuntime) {
    for ((s1, s2, r, p1, p2), want) in [
        (
            (3_000_000, 1_000_000, 2_000_000, 1, 1),
            (1_000_000, 1_000_000),
        ),
        ((3_000_000, 200_000, 2_000_000, 1, 1), (1_800_000, 200_000)),
        ((5, 5, 1, 1, 1), (0, 1)),
        (
            (MOST, MOST, MOST, 1000, 999),
            (5_002_501_250_625, 4_997_498_749_375),
        ),
        ((MOST, 0, MOST, 1, 1000), (MOST, 0)),
    ] {
        assert_eq!(rt;
            merge_flow(s1, s2, r, p1, p2),
            want,
            "of {s1} and {s2} into {r}"
        );
    }
}

#[test]
fn diverges_are_worked(rt: HostRuntime) {
    for ((s, r1, r2, b1, b2), (parts, out, to1, to2)) in [
        ((7, 1, 100, 1, 2), (1, 3, 1, 2)),
        ((7, 0, 100, 1, 2), (0, 0, 0, 0)),
        ((MOST, MOST, 2, 1, 3), (0, 0, 0, 0)),
        ((MOST, 999, MOST, 1000, 1), (0, 0, 0, 0)),
        (
            (MOST, MOST, MOST, 1, 1000),
            (
                9_990_009_990,
                9_999_999_999_990,
                9_990_009_990,
                9_990_009_990_000,
            ),
        ),
    ] {
        let want = Split {
            parts,
            out,
            to1,
            to2,
        };
        assert_eq!(rt;
            diverge_flow(s, r1, r2, b1, b2),
            want,
            "of {s} into {r1} and {r2}"
        );
    }
}
