// Sums over the terms of a field: what the locked variables give, and the least and the greatest sum of the others.
ghost use Rattle.std.specs.Prelude.{◌≡◌, ◌≤◌, nat_abs};
ghost use Rattle.fates.specs.Maps.{codes, becomes};
ghost use Rattle.fates.specs.Sums.{Part, Given, Least, Greatest, part_of, part_total};
ghost use Rattle.fates.specs.Parts.{Gives, terms_of};
ghost use Rattle.fates.specs.Rules.{max_total};

use crate::map::Code;
use crate::terms::Terms;
use integers::{negative, plus, positive};

impl Terms<'_> {
    // The sum of what each term gives, by what becomes of its variable.
    fn total<F: Fn(Code, i32) -> i32>(&self, part: F) -> i32
        requires callable { F.IsAlwaysCallable part }
        requires gives { (p : Part) × Gives (F.post part) p }
        ensures { (p : Part) → Gives (F.post part) p
            → (result ≡ part_total p (codes self.now.map) (terms_of self.now)) × (nat_abs result ≤ max_total) }
    {
        let mut sum: i32 = 0;
        for i in 0..self.count {
            let at = self.from + 6 * i;
            let code = self.map.code(words::read_size(self.file, at));
            sum = plus(sum, part(code, words::read_i32(self.file, at + 2)));
        }
        sum
    }

    // What the locked variables give: the weights of those that are locked at 1.
    pub fn given(&self) -> i32
        ensures { (result ≡ part_total Given (codes self.now.map) (terms_of self.now)) × (nat_abs result ≤ max_total) }
    {
        self.total(
            |code, weight|
                ensures { result ≡ part_of Given (becomes code) weight }
            {
                match code {
                    Code::Locked(true) => weight,
                    Code::Locked(false) | Code::New(_) => 0,
                }
            },
        )
    }

    // The least sum of the variables that go on.
    pub fn least(&self) -> i32
        ensures { (result ≡ part_total Least (codes self.now.map) (terms_of self.now)) × (nat_abs result ≤ max_total) }
    {
        self.total(
            |code, weight|
                ensures { result ≡ part_of Least (becomes code) weight }
            {
                match code {
                    Code::Locked(_) => 0,
                    Code::New(_) => negative(weight),
                }
            },
        )
    }

    // The greatest sum of the variables that go on.
    pub fn greatest(&self) -> i32
        ensures { (result ≡ part_total Greatest (codes self.now.map) (terms_of self.now)) × (nat_abs result ≤ max_total) }
    {
        self.total(
            |code, weight|
                ensures { result ≡ part_of Greatest (becomes code) weight }
            {
                match code {
                    Code::Locked(_) => 0,
                    Code::New(_) => positive(weight),
                }
            },
        )
    }
}
