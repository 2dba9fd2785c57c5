// What a rule's two sides need: how much weight has to come to its false literals, or to its true ones, before a part is false that a bound asks for. A flip
// spoils a part where the weight it brings is not below the need, so one comparison tells it.
// The tallies come beside the tables that are read: in one struct with them they would be read while they are lent for writing, which the proof of borrows does
// not cover.
#![tactic(auto)]

ghost use Rattle.std.specs.Prelude.{◌≡◌, ◌+◌, ◌≤◌, ◌<◌, length};
ghost use Rattle.words.specs.Words.{word_at};
ghost use Rattle.format.specs.Layout.{rule_room};
ghost use Rattle.recount.specs.Plans.{plan};
ghost use Rattle.columns.specs.Layout.{kept_size, kept_word_count, need_at};
ghost use Rattle.columns.specs.Columns.{Sized, Needed};
ghost use Rattle.columns.specs.Frames.{Only};
ghost use Rattle.needs.specs.Rules.{Readable, ReadAs, holds_in, Movable, Moved};
ghost use Rattle.needs.specs.Needs.{need_word, NeedsPut, Weighable};

use columns::{LOWER_SIZES, NEEDS, NEVER, TOTALS, UPPER_SIZES};
use recount::tables::Tables;
use words::{index, word, write_word};

// A rule by what is kept of it: N and P, and the words of A and B. It is no State: a size in a word is compared without asking whether it is there.
#[derive(Clone, Copy)]
pub struct KeptRule {
    pub n: u32,
    pub p: u32,
    pub a: u32,
    pub b: u32,
}

// What is kept of rule r.
pub fn read_rule(tallies: &[u8], r: usize) -> KeptRule
    requires { Readable r tallies.now }
    ensures { ReadAs (word_at tallies.now) r result }
{
    let p = word(tallies, r);
    KeptRule {
        n: word(tallies, TOTALS + 3 * r) - p,
        p,
        a: word(tallies, LOWER_SIZES + 3 * r),
        b: word(tallies, UPPER_SIZES + 3 * r),
    }
}

impl KeptRule {
    // N below A says that the lower bound is met, P below B that the upper one is. Both are asked: a jump between them would cost more than the second.
    pub fn holds(self) -> bool
        ensures { result ≡ holds_in self }
    {
        (self.n < self.a) & (self.p < self.b)
    }

    // Once a literal of weight w is turned over: a true one's weight goes from P to N, a false one's from N to P. Whether it was true is a fact of the
    // literal: an enum of the two ways would be made of that fact, and matched here alone.
    pub fn moved(self, on: bool, w: u32) -> KeptRule
        requires { Movable on w self }
        ensures { Moved on w self result }
    {
        if on {
            KeptRule {
                n: self.n + w,
                p: self.p - w,
                ..self
            }
        } else {
            KeptRule {
                n: self.n - w,
                p: self.p + w,
                ..self
            }
        }
    }
}

// What a side with m so far needs for a part of this size. A size that is absent has the word that is above each weight, so that a need is one word, which a
// flip compares once: an Option would be a second word of the lent tallies, and a second question at each place.
fn need(size: u32, m: u32) -> u32
    ensures { result ≡ need_word size m }
{
    if size == 0 || size == NEVER {
        return NEVER;
    }
    size.saturating_sub(m)
}

// The needs of rule r, of which this is kept.
pub fn put_needs(tallies: &mut [u8], r: usize, k: KeptRule)
    requires { (r < rule_room) × (kept_size ≤ length tallies.old) }
    ensures { NeedsPut r k tallies.old tallies.new }
{
    write_word(tallies, NEEDS + 2 * r, need(k.b, k.p));
    write_word(tallies, NEEDS + (2 * r + 1), need(k.a, k.n));
}

// The needs of all rules, from the P that stands in the tallies.
pub fn fill_needs(t: &Tables<'_>, tallies: &mut [u8])
    requires { Sized (plan t.now) tallies.old × Weighable (plan t.now) tallies.old }
    ensures { Needed (plan t.now) tallies.new × Sized (plan t.now) tallies.new
        × Only (need_at 0) kept_word_count tallies.old tallies.new }
{
    let rules = index(t.tables, 2);
    for r in 0..rules {
        put_needs(tallies, r, read_rule(tallies, r));
    }
}
