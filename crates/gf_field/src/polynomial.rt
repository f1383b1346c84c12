//! Values of polynomials, and interpolation by Lagrange's formula.

ghost use Rattle.std.specs.Prelude.{◌≡◌, ℕ, ◌<◌, List, length};
ghost use Rattle.gf_field.specs.Polynomial.{polynomial_at, AreDistinct, Interpolates, unit_values, product_of_differences};
ghost use Rattle.gf_field.specs.Interpolation.{interpolation, basis_polynomial};

use crate::{add, inv, mul};

/// The value at `x` of the polynomial with these coefficients, the lowest first.
pub fn eval(coefficients: &[u8], x: u8) -> u8
    ensures { result ≡ polynomial_at coefficients.now x }
{
    let mut value = 0;
    for coefficient in coefficients.iter().rev() {
        value = add(*coefficient, mul(x, value));
    }
    value
}

/// The value at `x` of the one polynomial of a degree below the number of points that has the value
/// `values[i]` at `points[i]`, for each i. For no points it is 0.
pub fn interpolate_at(points: &[u8], values: &[u8], x: u8) -> u8
    requires same_length { length points.now ≡ length values.now }
    requires distinct { AreDistinct points.now }
    ensures exists { Interpolates points.now values.now (interpolation points.now values.now) }
    ensures value { (cs : List ℕ) → Interpolates points.now values.now cs → result ≡ polynomial_at cs x }
{
    let mut sum = 0;
    for i in 0..points.len() {
        sum = add(sum, mul(values[i], basis_at(points, i, x)));
    }
    sum
}

/// The value at `x` of the polynomial that is 1 at the point at `i` and 0 at the others, of a degree below their number.
pub fn basis_at(points: &[u8], i: usize, x: u8) -> u8
    requires within { i < length points.now }
    requires distinct { AreDistinct points.now }
    ensures exists { Interpolates points.now (unit_values (length points.now) i) (basis_polynomial points.now i) }
    ensures value { (cs : List ℕ) → Interpolates points.now (unit_values (length points.now) i) cs → result ≡ polynomial_at cs x }
{
    let before = &points[..i];
    let after = &points[i + 1..];
    let numerator = mul(differences(before, x), differences(after, x));
    let denominator = mul(
        differences(before, points[i]),
        differences(after, points[i]),
    );
    mul(inv(denominator), numerator)
}

/// The product of the differences between `x` and each point.
fn differences(points: &[u8], x: u8) -> u8
    ensures { result ≡ product_of_differences points.now x }
{
    let mut product = 1;
    for point in points.iter().rev() {
        product = mul(add(x, *point), product);
    }
    product
}
