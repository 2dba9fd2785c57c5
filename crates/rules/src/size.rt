// The sizes A and B that the two bounds of a rule ask for, raised to 0. Each is the line of its equation.
ghost use Rattle.std.specs.Prelude.{◌≡◌};
ghost use Rattle.counting.specs.Bound.{bound_of};
ghost use Rattle.rules.specs.Rules.{lower_size, upper_size};

// A = K − l + 1 with the raised l: the positive weights and 1 less l.
pub fn lower_size(lower: Option<i32>, positive: u32) -> Option<u64>
    ensures { bound_of result ≡ lower_size positive (bound_of lower) }
{
    let l = lower?;
    Some((u64::from(positive) + 1).saturating_sub_signed(i64::from(l)))
}

// B = u + 1 with the raised u: what the bounds rise by and 1 and u.
pub fn upper_size(upper: Option<i32>, rise: u32) -> Option<u64>
    ensures { bound_of result ≡ upper_size rise (bound_of upper) }
{
    let u = upper?;
    Some((u64::from(rise) + 1).saturating_add_signed(i64::from(u)))
}
