// What opening tests of what it is lent, in the order of document 01: 21, 22, 24; and flip and counts: 21, 22, 24, 25, 23; and then flip alone: 26.
ghost use Rattle.std.specs.Prelude.{◌≡◌, ◌≤◌, length};
ghost use Rattle.tallies.specs.Layout.{are_bits};
ghost use Rattle.tallies.specs.Calls.{too_small, open_refusal, call_refusal, flip_refusal};
ghost use Rattle.calls.specs.Refusals.{number_of, Tested, lent_in};

use fresh::fresh;
use loaded::good;
use recount::tables::Tables;
use words::{index, word};

// What a call is refused for.
#[derive(Clone, Copy)]
pub enum Refusal {
    TooSmall,
    NotLoaded,
    NoVariable,
    NotBits,
    Stale,
    Locked,
}

// Its number in document 01.
impl From<Refusal> for u32 {
    ghost from_gives = { λ r n. n ≡ number_of r };

    fn from(refusal: Refusal) -> u32 {
        match refusal {
            Refusal::TooSmall => 21,
            Refusal::NotLoaded => 22,
            Refusal::NoVariable => 23,
            Refusal::NotBits => 24,
            Refusal::Stale => 25,
            Refusal::Locked => 26,
        }
    }
}

// Whether all bytes are 0 or 1.
fn bits(bytes: &[u8]) -> bool
    ensures { result ≡ are_bits (length bytes.now) bytes.now }
{
    bytes.iter().all(|b| *b <= 1)
}

// What the host program lends, to be tested: nothing is known of it yet, so that there is no ghost field. A test hands on the tables, which have a lifetime of
// their own: a call goes on to write the assignment and the tallies.
#[derive(Clone, Copy)]
pub struct Lent<'a, 'b> {
    pub tables: &'a [u8],
    pub terms: &'a [u8],
    pub assignment: &'b [u8],
    pub tallies: &'b [u8],
}

impl<'a> Lent<'a, '_> {
    // Whether a buffer is smaller than the full limits need.
    fn too_small(&self) -> bool
        ensures { result ≡ too_small (lent_in self.now) }
    {
        self.tables.len() < format::TABLES
            || self.terms.len() < format::TERMS
            || self.assignment.len() < format::ASSIGNMENT
            || self.tallies.len() < format::TALLIES
    }

    // What opening is refused for, or else the tables, which hold a plan.
    pub fn open_refusal(&self) -> Result<Tables<'a>, Refusal>
        ensures { Tested (open_refusal (lent_in self.now)) self.now.tables.now self.now.terms.now result }
    {
        if self.too_small() {
            return Err(Refusal::TooSmall);
        }
        if !good(self.tables, self.terms) {
            return Err(Refusal::NotLoaded);
        }
        let n = index(self.tables, 0);
        if !bits(&self.assignment[..n]) {
            return Err(Refusal::NotBits);
        }
        Ok(Tables {
            tables: self.tables,
            terms: self.terms,
        })
    }

    // What a flip of x and counts of it are refused for, or else the tables.
    pub fn call_refusal(&self, x: u32) -> Result<Tables<'a>, Refusal>
        ensures { Tested (call_refusal (lent_in self.now) x) self.now.tables.now self.now.terms.now result }
    {
        let t = self.open_refusal()?;
        if !fresh(&t, self.assignment, self.tallies) {
            return Err(Refusal::Stale);
        }
        if x == 0 || word(self.tables, 0) < x {
            return Err(Refusal::NoVariable);
        }
        Ok(t)
    }

    // What a flip of x is refused for, or else the tables. A locked variable is refused to flips alone, so the test stands apart from what counts tests too.
    // It is of the lock's word alone, since at which value is not asked.
    pub fn flip_refusal(&self, x: u32) -> Result<Tables<'a>, Refusal>
        ensures { Tested (flip_refusal (lent_in self.now) x) self.now.tables.now self.now.terms.now result }
    {
        let t = self.call_refusal(x)?;
        if 0 < word(self.tables, format::LOCKS + x as usize) {
            return Err(Refusal::Locked);
        }
        Ok(t)
    }
}
