// Sums, differences and parts of small signed numbers.
#![tactic(auto)]

ghost use Rattle.std.specs.Prelude.{◌≡◌, ◌+◌, ◌<◌, nat_abs, ◌+ℤ◌, ◌-ℤ◌};
ghost use Rattle.plpb.specs.Plan.{negative_part, positive_part};

// Each of the four is one operator or one method of the library, and stands here for its clause: callers cite the sum, the difference and the parts of the
// plan, where the operator and the method speak of the machine's numbers. So what they have in common is the form of that clause alone.

pub fn plus(a: i32, b: i32) -> i32
    requires { nat_abs a + nat_abs b < 2_147_483_648 }
    ensures { result ≡ a +ℤ b }
{
    a + b
}

pub fn minus(a: i32, b: i32) -> i32
    requires { nat_abs a + nat_abs b < 2_147_483_648 }
    ensures { result ≡ a -ℤ b }
{
    a - b
}

// This is a weight where it is negative, else 0.
pub fn negative(weight: i32) -> i32
    ensures { result ≡ negative_part weight }
{
    weight.min(0)
}

// This is a weight where it is not negative, else 0.
pub fn positive(weight: i32) -> i32
    ensures { result ≡ positive_part weight }
{
    weight.max(0)
}
