//! Sums and products that stay integers of the language.

ghost use Rattle.std.specs.Prelude.{◌≡◌, ◌+ℤ◌, ◌*ℤ◌};
ghost use Rattle.linear_forms.specs.Shares.{IsWithin, sign_of};

/// A value whose magnitude is below 2^63.
fn within(value: i128) -> Option<i64>
    ensures { IsWithin value result }
{
    let greatest = i64::MAX as i128;
    if value < -greatest || greatest < value {
        None
    } else {
        Some(value as i64)
    }
}

/// The sum of two integers, where that is an integer of the language.
pub fn sum(left: i64, right: i64) -> Option<i64>
    ensures { IsWithin (left +ℤ right) result }
{
    within(left as i128 + right as i128)
}

/// The product of two integers, where that is an integer of the language.
pub fn product(left: i64, right: i64) -> Option<i64>
    ensures { IsWithin (left *ℤ right) result }
{
    within(left as i128 * right as i128)
}

/// -1 at `true`, and else 1.
pub(crate) fn sign(negated: bool) -> i64
    ensures { result ≡ sign_of negated }
{
    if negated { -1 } else { 1 }
}
