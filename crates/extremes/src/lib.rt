// The least and the greatest sum of a rule's terms.
#![tactic(auto)]

ghost use Rattle.std.specs.Prelude.{◌≡◌, ◌≤◌, Bool, true, false, ℤ, nat_abs};
ghost use Rattle.plpb.specs.Plan.{least_total, greatest_total};
ghost use Rattle.extremes.specs.Terms.{part_of, extreme_of, max_total};
ghost use Rattle.extremes.specs.Sums.{terms_of, Parts};

pub mod sum;

use integers::{negative, plus, positive};
use sum::Sum;
use words::{to_signed, word};

impl Sum<'_> {
    // The sum of what each weight gives. The terms are taken from the last to the first: what is summed is then that of a rest of the list. The library's `sum`
    // asks beforehand that no sum on the way is too large, which is what the loop's invariant says with the rest.
    fn total<F: Fn(i32) -> i32>(&self, part: F) -> i32
        requires callable { (w : ℤ) → F.pre part w }
        requires gives { (b : Bool) × Parts (F.post part) b }
        ensures { (b : Bool) → Parts (F.post part) b → (result ≡ extreme_of b (terms_of self.now)) × (nat_abs result ≤ max_total) }
    {
        let mut sum: i32 = 0;
        for i in (0..self.count).rev() {
            let weight = to_signed(word(self.terms, 2 * (self.first + i) + 1));
            sum = plus(part(weight), sum);
        }
        sum
    }

    pub fn least(&self) -> i32
        ensures { (result ≡ least_total (terms_of self.now)) × (nat_abs result ≤ max_total) }
    {
        self.total(
            |weight|
                ensures { result ≡ part_of false weight }
            { negative(weight) },
        )
    }

    pub fn greatest(&self) -> i32
        ensures { (result ≡ greatest_total (terms_of self.now)) × (nat_abs result ≤ max_total) }
    {
        self.total(
            |weight|
                ensures { result ≡ part_of true weight }
            { positive(weight) },
        )
    }
}
