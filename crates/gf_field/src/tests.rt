//! What no clause says: that products and values are those worked out by hand.

use super::*;
use std::test::Fail;

/// Products worked out by hand from the polynomial 0x11D.
#[test]
fn products(rt: HostRuntime) -> Result<(), Fail> {
    for &(a, b, product) in &[
        (2, 0x80, 0x1D),
        (2, 0x8E, 1),
        (3, 3, 5),
        (3, 0xF4, 1),
        (0, 0xFF, 0),
        (0xFF, 1, 0xFF),
    ] {
        assert_eq!(rt; mul(a, b), product);
    }
    assert_eq!(rt; add(0xB5, 0x80), 0x35);
    assert_eq!(rt; inv(2), 0x8E);
    assert_eq!(rt; inv(3), 0xF4);
    Ok(())
}

/// 0x35 + 0x80 x takes the values B5, 28 and A8 at 1, 2 and 3, and any two of them give it back.
#[test]
fn line(rt: HostRuntime) -> Result<(), Fail> {
    assert_eq!(rt; eval(&[0x35, 0x80], 1), 0xB5);
    assert_eq!(rt; eval(&[0x35, 0x80], 2), 0x28);
    assert_eq!(rt; eval(&[0x35, 0x80], 3), 0xA8);
    assert_eq!(rt; eval(&[], 3), 0);
    assert_eq!(rt; interpolate_at(&[1, 2], &[0xB5, 0x28], 0), 0x35);
    assert_eq!(rt; interpolate_at(&[1, 3], &[0xB5, 0xA8], 0), 0x35);
    assert_eq!(rt; interpolate_at(&[3, 2], &[0xA8, 0x28], 0), 0x35);
    assert_eq!(rt; interpolate_at(&[1, 2], &[0xB5, 0x28], 3), 0xA8);
    assert_eq!(rt; interpolate_at(&[], &[], 9), 0);
    Ok(())
}
