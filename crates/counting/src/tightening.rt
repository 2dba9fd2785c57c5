// The bounds on the objective that the search sets after a find.
ghost use Rattle.std.specs.Prelude.{◌≡◌, ◌<◌, nat_abs};
ghost use Rattle.plpb.specs.Search.{third as thirdOf, lbs_bound, linear_bound};

// A third, rounded down, below zero as well. It is the library's division, with the clause in the definition's word, which the second bound and the probe cite.
pub fn third(a: i64) -> i64
    ensures { result ≡ thirdOf a }
{
    a.div_euclid(3)
}

// The linear bound: O ≤ v − 1, for a find of cost v.
pub fn linear_bound(cost: i64) -> i64
    requires { nat_abs cost < 4294967296 }
    ensures { result ≡ linear_bound cost }
{
    cost - 1
}

// The other bound: O ≤ (l(O) + 2v)/3, for a find of cost v. Costs and l(O) are sums of 512 coefficients at most.
pub fn lbs_bound(least: i64, cost: i64) -> i64
    requires { (nat_abs least < 4294967296) × (nat_abs cost < 4294967296) }
    ensures { result ≡ lbs_bound least cost }
{
    third(least + 2 * cost)
}
