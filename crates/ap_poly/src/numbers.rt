// Integers of 128 bits, where a sum or a product may pass them.
ghost use Rattle.std.specs.Prelude.{◌≡◌, ◌+ℤ◌, ◌*ℤ◌, neg_ℤ};
ghost use Rattle.ap_value.specs.Values.{val_of};
ghost use Rattle.ap_world.specs.Primitives.{int_of};
ghost use Rattle.ap_poly.specs.Polynomials.{narrow};

use ap_value::Value;

/// The sum, where 128 bits hold it.
pub(crate) fn narrow_sum(m: i128, n: i128) -> Option<i128>
    ensures { result ≡ narrow (m +ℤ n) }
{
    m.checked_add(n)
}

/// The product, where 128 bits hold it.
pub(crate) fn narrow_product(m: i128, n: i128) -> Option<i128>
    ensures { result ≡ narrow (m *ℤ n) }
{
    m.checked_mul(n)
}

/// The negation, where 128 bits hold it.
pub(crate) fn narrow_negation(n: i128) -> Option<i128>
    ensures { result ≡ narrow (neg_ℤ n) }
{
    n.checked_neg()
}

/// The integer that a value counts as.
pub(crate) fn integer_in(v: &Value) -> i128
    ensures { result ≡ int_of (val_of v.now) }
{
    match v {
        Value::Int(n) => *n,
        _ => 0,
    }
}
