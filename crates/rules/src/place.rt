// Where a variable occurs among the terms of a rule, and how it stands there.
ghost use Rattle.std.specs.Prelude.{◌≡◌, ◌+◌, ◌*◌, ◌≤◌, length};
ghost use Rattle.words.specs.Words.{word_at};
ghost use Rattle.std.specs.Option.{IfSome};
ghost use Rattle.rules.specs.Terms.{bits_in, TermReadable};
ghost use Rattle.rules.specs.Places.{Found, standing_in, standing_at};

use crate::entry::Entry;
use crate::term::read_literal;
use words::word;

impl Entry {
    // The place among all terms of that which names x. The entry's terms are taken from the last to the first, all of them, which is faster than to stop at
    // the one: most rules are short, and where the search ends is hard to foretell. They are told by their places, and not as a sub-slice, since the place
    // that is found is one of the whole table.
    pub fn find(self, terms: &[u8], x: u32) -> Option<usize>
        requires { 8 * (self.first + self.count) ≤ length terms.now }
        ensures { Found (word_at terms.now) self.first self.count x result }
    {
        let mut place = None;
        for k in (0..self.count).rev() {
            if word(terms, 2 * (self.first + k)) == x {
                place = Some(self.first + k);
            }
        }
        place
    }
}

// How a variable stands in a rule: not at all, or with this weight, its literal true or false. Three ways are the paper's three cases, and an Option of two
// would nest them.
#[derive(Clone, Copy)]
pub enum Stands {
    Out,
    On(u32),
    Off(u32),
}

pub fn stands_at(terms: &[u8], assignment: &[u8], place: Option<usize>) -> Stands
    requires { IfSome place (λ i. TermReadable terms.now assignment.now i) }
    ensures { standing_in result ≡ standing_at (bits_in assignment.now) (word_at terms.now) place }
{
    let Some(i) = place else {
        return Stands::Out;
    };
    let l = read_literal(terms, assignment, i);
    if l.truth {
        Stands::On(l.size)
    } else {
        Stands::Off(l.size)
    }
}
