use fixed_flow::{Amount, AmountFault, Text48, middle, put_wide, share_floor, whole};

#[test]
fn amounts_and_numbers_are_read_by_their_spellings(rt: HostRuntime) {
    for (text, want) in [
        ("0.000001", Ok(Amount(1))),
        ("100000", Ok(Amount(100_000_000_000))),
        ("10000000", Ok(Amount(10_000_000_000_000))),
        ("000000000002.5", Ok(Amount(2_500_000))),
        ("10000000.000001", Err(AmountFault::Range)),
        ("999999999999.999999", Err(AmountFault::Range)),
        ("0000000000002", Err(AmountFault::Spelling)),
        ("1.0000001", Err(AmountFault::Spelling)),
        (".5", Err(AmountFault::Spelling)),
        ("5.", Err(AmountFault::Spelling)),
        ("+1", Err(AmountFault::Spelling)),
        ("", Err(AmountFault::Spelling)),
    ] {
        assert!(rt; Amount::read(text.as_bytes()) == want, "{text}");
    }
    for (text, want) in [
        ("007", Some(7)),
        ("999999999", Some(999_999_999)),
        ("1000000000", None),
        ("-1", None),
        ("", None),
    ] {
        assert!(rt; whole(text.as_bytes()) == want, "{text}");
    }
}

#[test]
fn amounts_are_printed_with_six_decimals(rt: HostRuntime) {
    let mut text = Text48::new();
    for (parts, want) in [
        (0, "0.000000"),
        (2_903_447, "2.903447"),
        (-2_000_000, "-2.000000"),
        (i128::MIN, "-170141183460469231731687303715884.105728"),
    ] {
        put_wide(parts, &mut text);
        assert!(rt; text.bytes() == want.as_bytes(), "{parts}");
    }
    Amount(u64::MAX).put(&mut text);
    assert!(rt; text.bytes() == b"18446744073709.551615".as_slice());
    assert_eq!(rt; middle(3_000_000, -1_000_000, 1_000_000), 1_000_000);
    assert_eq!(rt; share_floor(u64::MAX, u64::MAX - 1, u64::MAX), u64::MAX - 1);
}
