// Ways through a file that was judged lawful, from field to field. The file and a place in it go one by one: what must stand at the place is another fact in
// each function, and each answers a place, which the next one takes. Here as in `sections`, `fates` and `rewriting` a byte is compared with a tag's own number:
// a lawful file has a tag at each of these places, so that the option of `Tag::of` would be opened at once.
// Each walk over rules or clauses, here as in `sections`, `fates` and `rewriting`, is a loop of its own: a field's length says where the next one stands, and
// that a rule or clause stands there is told afresh by each step, which an iterator or a walk with a closure would have to state of every place at once.
ghost use Rattle.std.specs.Prelude.{◌≡◌, ◌+◌, ◌≤◌, length};
ghost use Rattle.format.specs.File.{terms_in, length_at};
ghost use Rattle.tables.specs.Places.{Reads, behind_objective, locks_in, first_clause, behind_field, rule_from, first_rule, next_rule, Ran};

use format::Tag;

// Where the field of locks stands, or what comes behind it: behind the fields 01 and 02.
pub fn behind_objective(file: &[u8]) -> usize
    requires { behind_objective file.now ≤ length file.now }
    ensures { result ≡ behind_objective file.now }
{
    8 + words::read_size(file, 6)
}

// How many locks a field has, none if it is another.
pub fn locks_of(file: &[u8], at: usize) -> usize
    requires { at + 3 ≤ length file.now }
    ensures { result ≡ locks_in file.now at }
{
    if file[at] == Tag::Locks as u8 {
        words::read_size(file, at + 1) / 3
    } else {
        0
    }
}

// The place behind a field.
pub fn after(file: &[u8], at: usize) -> usize
    requires { behind_field file.now at ≤ length file.now }
    ensures { result ≡ behind_field file.now at }
{
    at + 3 + words::read_size(file, at + 1)
}

// Where the first clause or the end stands.
pub fn first_clause(file: &[u8]) -> usize
    requires { (behind_objective file.now + 3 ≤ length file.now) × (first_clause file.now ≤ length file.now) }
    ensures { result ≡ first_clause file.now }
{
    let at = behind_objective(file);
    if file[at] == Tag::Locks as u8 {
        after(file, at)
    } else {
        at
    }
}

// A clause's first rule, or the place itself, where a rule or the end stands.
pub fn rule_from(file: &[u8], at: usize) -> usize
    requires { at + 3 ≤ length file.now }
    ensures { result ≡ rule_from file.now at }
{
    if file[at] == Tag::Clause as u8 {
        at + 3
    } else {
        at
    }
}

// The first rule of a file, or the end.
pub fn first_rule(file: &[u8]) -> usize
    requires { (behind_objective file.now + 3 ≤ length file.now) × (first_clause file.now + 3 ≤ length file.now) }
    ensures { result ≡ first_rule file.now }
{
    rule_from(file, first_clause(file))
}

// The next rule behind one, or the end.
pub fn next_rule(file: &[u8], at: usize) -> usize
    requires { behind_field file.now at + 3 ≤ length file.now }
    ensures { result ≡ next_rule file.now at }
{
    rule_from(file, after(file, at))
}

// How many terms a rule's field has.
pub fn terms_of(file: &[u8], at: usize) -> usize
    requires { (at + 3 ≤ length file.now) × (9 ≤ length_at file.now at) }
    ensures { result ≡ terms_in 4 (length_at file.now at) }
{
    (words::read_size(file, at + 1) - 9) / 6
}

// A clause's rules: how many, and the place behind them.
#[derive(Clone, Copy)]
pub struct Run {
    pub rules: usize,
    pub next: usize,
}

pub fn clause_run(file: &[u8], from: usize) -> Run
    requires { Reads file.now from }
    ensures { Ran file.now from result.rules result.next }
{
    let mut at = from;
    let mut rules = 0;
    while file[at] == Tag::Rule as u8 {
        at = after(file, at);
        rules += 1;
    }
    Run { rules, next: at }
}
