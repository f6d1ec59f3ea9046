// Kinds of measure at the ends of their ranges.
use joined::Joined;
use labels::Labels;
use measure::{Ask, Kind, any_atom, solve};
use millimetres::Millimetres;
use std::test::Fail;

#[test]
fn lengths_and_tests_from_minus_1000_to_10000(rt: HostRuntime) {
    let kind = Millimetres;
    assert!(rt; kind.is_test(0, 10_000) && !kind.is_test(0, 10_001));
    assert!(rt; kind.is_test(0, -1_000) && !kind.is_test(0, -1_001));
    assert!(rt; kind.is_atom(0, 10_000) && !kind.is_atom(0, 10_001));
    assert!(rt; kind.is_atom(0, -1_000) && !kind.is_atom(0, -1_001));
    assert!(rt; kind.passes(0, 200, 200) && !kind.passes(0, 199, 200));
    assert!(rt; !kind.passes(0, 10_001, 5) && !kind.passes(0, 5, -1_001));
    assert!(rt; kind.serves(0) && !kind.serves(1) && !kind.serves(65_535));
}

#[test]
fn one_to_63_labels(rt: HostRuntime) -> Result<(), Fail> {
    assert!(rt;
        Labels::new(0).is_none() && Labels::new(64).is_none() && Labels::new(255).is_none()
    );
    let most = Labels::new(63).ok_or("63 labels")?;
    assert!(rt; most.is_atom(0, 62) && !most.is_atom(0, 63) && !most.is_atom(0, -1));
    assert!(rt; most.is_test(0, i64::MAX) && !most.is_test(0, -1));
    assert!(rt; most.passes(0, i64::MAX, 62));
    let one = Labels::new(1).ok_or("one label")?;
    assert!(rt; one.is_test(0, 1) && !one.is_test(0, 2));
    Ok(())
}

#[test]
fn three_labels_have_tests_to_7(rt: HostRuntime) -> Result<(), Fail> {
    let kind = Labels::new(3).ok_or("three labels")?;
    assert!(rt; kind.is_test(0, 0) && kind.is_test(0, 7) && !kind.is_test(0, 8));
    assert!(rt; kind.passes(0, 5, 0) && !kind.passes(0, 5, 1) && kind.passes(0, 5, 2));
    assert_eq!(rt;
        solve(&kind, 0, &[Ask::new(1, false), Ask::new(6, true)]),
        Some(1)
    );
    assert_eq!(rt; solve(&kind, 0, &[Ask::new(7, false)]), None);
    Ok(())
}

#[test]
fn joined_sorts_alternate(rt: HostRuntime) -> Result<(), Fail> {
    let kind = Joined {
        first: Millimetres,
        second: Labels::new(8).ok_or("eight labels")?,
    };
    assert!(rt; kind.serves(0) && kind.serves(1) && !kind.serves(2) && !kind.serves(65_535));
    assert!(rt; kind.is_atom(0, -1_000) && !kind.is_atom(1, -1_000));
    assert!(rt; kind.is_test(1, 255) && !kind.is_test(1, 256));
    assert_eq!(rt; any_atom(&kind, 65_535), None);
    assert_eq!(rt;
        solve(&kind, 0, &[Ask::new(950, true), Ask::new(900, false)]),
        Some(901)
    );
    assert_eq!(rt;
        solve(&kind, 0, &[Ask::new(100, true), Ask::new(150, false)]),
        None
    );
    Ok(())
}
