// A list of numbers split among races by their stakes. All is by value, so that the borrow checker covers each function: what lies in a list of
// races is taken out of it and put back by the crate `races`. No product of a length of the list and a stake is formed: it could be too large.
#![tactic(auto)]

ghost use Rattle.std.specs.Prelude.{◌≡◌, ◌+◌, ◌*◌, ◌/◌, ◌≤◌, ◌<◌, ◌^◌};
ghost use Rattle.division.specs.Split.{sum, whole_parts, one_each, parts};
ghost use Rattle.division.specs.Eight.{bad_at, bad_from, extra_at, refusal_number, lawful_parts, divided};

// How many races there are, and the stakes of the first 8, 0 where there is no race. There is no heap, so that a list of 8 at most is an array with a count;
// that there are no more is what `divide` tests, and so no fact of the struct.
#[derive(Clone, Copy)]
pub struct Stakes {
    pub count: usize,
    pub stakes: [usize; 8],
}

// A part of the list: its first place and its length.
#[derive(Clone, Copy, PartialEq, Eq)]
pub struct Part {
    pub first: usize,
    pub length: usize,
}

// How many parts there are, and the parts, in an array for the same reason.
#[derive(Clone, Copy)]
pub struct Parts {
    pub count: usize,
    pub parts: [Part; 8],
}

// What turns a split away: too little room for the races, no race or more than 8, a stake outside its range. Too little room is told by `festival`.
#[derive(Clone, Copy, PartialEq, Eq)]
pub enum Refusal {
    NoRoom,
    WrongCount,
    WrongStake,
}

// Its number, as the C interface hands it out.
impl From<Refusal> for u32 {
    ghost from_gives = { λ r n. n ≡ refusal_number r };

    fn from(refusal: Refusal) -> u32 {
        match refusal {
            Refusal::NoRoom => 21,
            Refusal::WrongCount => 61,
            Refusal::WrongStake => 62,
        }
    }
}

// Whether a stake is outside 1 to 100, or one that is not 0 where there is no race.
fn bad_at(count: usize, i: usize, s: usize) -> bool
    ensures { result ≡ bad_at count i s }
{
    if i < count {
        !(1..=100).contains(&s)
    } else {
        s != 0
    }
}

// That a sum has 64 bits stands in each clause here that needs it: it is said of another array each time, and a struct would be made anew at each step.
fn total(s: [usize; 8]) -> usize
    requires { sum s < 2 ^ 64 }
    ensures { result ≡ sum s }
{
    s.iter().sum()
}

// A race's share, rounded down. The product is never formed: it could be too large.
fn share(n: usize, s: usize, t: usize) -> usize
    requires { (0 < t) × (s ≤ t) × (t ≤ 800) }
    ensures { result ≡ n * s / t }
{
    n / t * s + n % t * s / t
}

// The array is written over place by place: `share` asks of its stake that it is no more than all of them, which a closure would have to ask of each number.
fn whole_parts(n: usize, t: usize, s: [usize; 8]) -> [usize; 8]
    requires { (0 < t) × (sum s ≤ t) × (t ≤ 800) }
    ensures { result ≡ whole_parts n t s }
{
    let mut w = s;
    for x in w.iter_mut() {
        *x = share(n, *x, t);
    }
    w
}

fn extra(i: usize, r: usize) -> usize
    ensures { (result ≡ extra_at i r) × (result ≤ r) }
{
    usize::from(i < r)
}

fn topped(r: usize, b: [usize; 8]) -> [usize; 8]
    requires { sum b + r < 2 ^ 64 }
    ensures { result ≡ one_each r b }
{
    let mut l = b;
    for (i, x) in l.iter_mut().enumerate() {
        *x += extra(i, r);
    }
    l
}

// The first place goes on from part to part, so that they are written one after another. Over a `zip` of them with the lengths, what the array ends as did not
// follow.
fn placed(l: [usize; 8]) -> [Part; 8]
    requires { sum l < 2 ^ 64 }
    ensures { result ≡ parts 0 l }
{
    let mut parts = [Part {
        first: 0,
        length: 0,
    }; 8];
    let mut at = 0;
    for (i, p) in parts.iter_mut().enumerate() {
        *p = Part {
            first: at,
            length: l[i],
        };
        at += l[i];
    }
    parts
}

impl Stakes {
    // Whether one of them is bad.
    fn any_bad(self) -> bool
        ensures { result ≡ bad_from self.count 0 self.stakes }
    {
        self.stakes
            .iter()
            .enumerate()
            .any(|(i, x)| bad_at(self.count, i, *x))
    }

    // The parts of lawful stakes.
    fn parts(self, numbers: usize) -> Parts
        requires { (0 < sum self.stakes) × (sum self.stakes ≤ 800) }
        ensures { result ≡ lawful_parts self.count self.stakes numbers }
    {
        let t = total(self.stakes);
        let w = whole_parts(numbers, t, self.stakes);
        let u = total(w);
        let l = topped(numbers - u, w);
        Parts {
            count: self.count,
            parts: placed(l),
        }
    }
}

// The parts of `numbers` numbers, or what the split is refused for.
pub fn divide(s: Stakes, numbers: usize) -> Result<Parts, Refusal>
    ensures { result ≡ divided s numbers }
{
    if !(1..=8).contains(&s.count) {
        return Err(Refusal::WrongCount);
    }
    if s.any_bad() {
        return Err(Refusal::WrongStake);
    }
    Ok(s.parts(numbers))
}
