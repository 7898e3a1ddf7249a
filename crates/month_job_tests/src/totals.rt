//! Tests of `month_job::totals`.
use month_job::totals::{add_total, total};

#[test]
fn past_64_bits(rt: HostRuntime) {
    assert_eq!(rt; total(&[i64::MAX, i64::MAX, 2, 3]), 18446744073709551619);
    assert_eq!(rt; total(&[i64::MIN, i64::MIN]), -18446744073709551616);
}

#[test]
fn past_128_bits(rt: HostRuntime) {
    assert_eq!(rt; add_total(i128::MAX - 3, &[1, 2]), Some(i128::MAX));
    assert_eq!(rt; add_total(i128::MAX - 3, &[1, 2, 1]), None);
    assert_eq!(rt; add_total(i128::MIN, &[-1]), None);
}
