//! Worked rows: discount factors.
use wasp_fixed::{ONE, discount, half_factor, middle, mul_div_floor};

#[test]
fn factors_of_ten_percent(rt: HostRuntime) {
    assert_eq!(rt; discount(1_000, 1), 909_090_909);
    assert_eq!(rt; discount(1_000, 2), 826_446_280);
    assert_eq!(rt; half_factor(1_000), 953_462_589);
    assert_eq!(rt; middle(1_000, 1), 866_784_171);
}

#[test]
fn factors_of_rate_zero_are_one(rt: HostRuntime) {
    assert_eq!(rt; discount(0, 30), ONE);
    assert_eq!(rt; half_factor(0), ONE);
    assert_eq!(rt; middle(0, 30), ONE);
}

#[test]
fn a_product_past_64_bits_is_divided(rt: HostRuntime) {
    assert_eq!(rt; mul_div_floor(u64::MAX, u64::MAX, u64::MAX), u64::MAX);
    assert_eq!(rt; mul_div_floor(7, 5, 3), 11);
}
