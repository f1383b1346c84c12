//! The field of 256 elements: bytes as polynomials over bits, reduced by x^8 + x^4 + x^3 + x^2 + 1 (0x11D).
#![tactic(auto)]

ghost use Rattle.std.specs.Prelude.{◌≡◌, ◌<◌};
ghost use Rattle.gf_field.specs.Field.{field_sum, field_product};

mod laws;
mod polynomial;
mod tables;

pub use laws::{field_laws, polynomial_laws};
pub use polynomial::{basis_at, eval, interpolate_at};
use tables::{logarithm, power};

/// The sum of two elements.
pub fn add(a: u8, b: u8) -> u8
    ensures { result ≡ field_sum a b }
{
    a ^ b
}

/// The product of two elements.
pub fn mul(a: u8, b: u8) -> u8
    ensures { result ≡ field_product a b }
{
    if a == 0 || b == 0 {
        0
    } else {
        power(logarithm(a) + logarithm(b))
    }
}

/// The element whose product with `a` is 1.
pub fn inv(a: u8) -> u8
    requires { 0 < a }
    ensures { field_product a result ≡ 1 }
{
    power(255 - logarithm(a))
}

#[cfg(test)]
mod tests;
