//! The laws of the field and of its polynomials. Each function does nothing: what it ensures is the law.

ghost use Rattle.std.specs.Prelude.{◌≡◌, ℕ, ◌<◌, List, length, slice_index};
ghost use Rattle.gf_field.specs.Field.{field_sum, field_product, field_inverse};
ghost use Rattle.hb_base.specs.ByteLists.{AreBytes};
ghost use Rattle.gf_field.specs.Polynomial.{polynomial_at, AreDistinct, HasDegreeBelow, Interpolates, AreWeightsAt, sum_of_products};
ghost use Rattle.gf_field.specs.Interpolation.{interpolation};

/// The bytes are a field, with 0 and 1 as its zero and its one.
pub fn field_laws()
    ensures sum_closed { (a b : ℕ) → a < 256 → b < 256 → field_sum a b < 256 }
    ensures sum_associative { (a b c : ℕ) → field_sum (field_sum a b) c ≡ field_sum a (field_sum b c) }
    ensures sum_commutative { (a b : ℕ) → field_sum a b ≡ field_sum b a }
    ensures sum_identity { (a : ℕ) → field_sum a 0 ≡ a }
    ensures sum_inverse { (a : ℕ) → field_sum a a ≡ 0 }

    ensures product_closed { (a b : ℕ) → a < 256 → b < 256 → field_product a b < 256 }
    ensures product_associative { (a b c : ℕ) → a < 256 → b < 256 → c < 256 → field_product (field_product a b) c ≡ field_product a (field_product b c) }
    ensures product_commutative { (a b : ℕ) → a < 256 → b < 256 → field_product a b ≡ field_product b a }
    ensures product_identity { (a : ℕ) → a < 256 → field_product a 1 ≡ a }
    ensures product_inverse { (a : ℕ) → 0 < a → a < 256 → (field_inverse a < 256) × (field_product a (field_inverse a) ≡ 1) }

    ensures distributive { (a b c : ℕ) → field_product a (field_sum b c) ≡ field_sum (field_product a b) (field_product a c) }
    ensures no_zero_divisors { (a b : ℕ) → 0 < a → a < 256 → b < 256 → field_product a b ≡ 0 → b ≡ 0 }
{}

/// Polynomials of a degree below the number of some distinct points are determined by their values there:
/// two that agree there are equal, for each choice of values there is exactly one, and the value of that one at
/// any place is the sum of the given values, each times a weight that does not depend on them (Lagrange).
pub fn polynomial_laws()
    ensures equal_coefficients { (points f g : List ℕ) → AreBytes points → AreDistinct points
        → HasDegreeBelow (length points) f → HasDegreeBelow (length points) g
        → ((i : ℕ) → i < length points → polynomial_at f (slice_index points i) ≡ polynomial_at g (slice_index points i))
        → (k : ℕ) → slice_index f k ≡ slice_index g k }
    ensures equal_values { (points f g : List ℕ) → AreBytes points → AreDistinct points
        → HasDegreeBelow (length points) f → HasDegreeBelow (length points) g
        → ((i : ℕ) → i < length points → polynomial_at f (slice_index points i) ≡ polynomial_at g (slice_index points i))
        → (x : ℕ) → polynomial_at f x ≡ polynomial_at g x }
    ensures exists { (points values : List ℕ) → AreBytes points → AreDistinct points → AreBytes values → length points ≡ length values
        → Interpolates points values (interpolation points values) }
    ensures only { (points values cs : List ℕ) → AreBytes points → AreDistinct points → AreBytes values → length points ≡ length values
        → Interpolates points values cs → (x : ℕ) → polynomial_at cs x ≡ polynomial_at (interpolation points values) x }
    ensures weighted { (points values weights cs : List ℕ) (x : ℕ) → x < 256 → AreBytes points → AreDistinct points → AreBytes values
        → length points ≡ length values → length weights ≡ length points → AreWeightsAt x points weights
        → Interpolates points values cs → polynomial_at cs x ≡ sum_of_products weights values }
{}
