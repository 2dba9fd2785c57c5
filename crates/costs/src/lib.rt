// What an assignment costs, and l(O), from the coefficients in the table: one pass over the variables.
#![tactic(auto)]

ghost use Rattle.std.specs.Prelude.{◌≡◌, ℕ, ℤ, nat_abs, ◌+◌, ◌*◌, ◌≤◌, ◌<◌, cond, eqb, pos, length};
ghost use Rattle.words.specs.Words.{word_at};
ghost use Rattle.format.specs.Assignment.{bits_of};
ghost use Rattle.format.specs.Limits.{max_variables, max_weight};
ghost use Rattle.format.specs.Layout.{table_size};
ghost use Rattle.costs.specs.Sums.{cost_in, floor_in, weight_at, share_at, least_by, least_at, sum_from, Summable};

// The coefficient of variable i + 1, 0 where it has none.
fn coefficient(tables: &[u8], i: usize) -> i64
    requires { 4 * (4 + i) + 4 ≤ length tables.now }
    ensures { result ≡ weight_at tables.now i }
{
    i64::from(words::read_i32(tables, 4 * (4 + i)))
}

// A weight where its variable's byte is 1. The weight is read first: then the machine chooses without a jump.
fn chosen(byte: u8, weight: i64) -> i64
    ensures { result ≡ cond (eqb byte 1) weight (pos 0) }
{
    if byte == 1 { weight } else { 0 }
}

// What variable i + 1 costs: its coefficient where it is true.
fn share(tables: &[u8], assignment: &[u8], i: usize) -> i64
    requires { (4 * (4 + i) + 4 ≤ length tables.now) × (i < length assignment.now) }
    ensures { result ≡ share_at tables.now assignment.now i }
{
    chosen(assignment[i], coefficient(tables, i))
}

// What a coefficient counts in l(O) under the word of its variable's lock: that of an unlocked one counts if it is negative.
fn least_by(lock: u32, weight: i64) -> i64
    ensures { result ≡ least_by lock weight }
{
    match format::lock_of(lock) {
        None => weight.min(0),
        Some(true) => weight,
        Some(false) => 0,
    }
}

// What variable i + 1 costs at least.
fn least(tables: &[u8], i: usize) -> i64
    requires { (i < max_variables) × (table_size ≤ length tables.now) }
    ensures { result ≡ least_at tables.now i }
{
    least_by(
        words::word(tables, format::RULES_END + i),
        coefficient(tables, i),
    )
}

// The sum of what each of n variables counts.
// The library's `sum` asks beforehand that no sum on the way is too large, which is what the loop's invariant says with the rest.
fn total<F: Fn(usize) -> i64>(n: usize, part: F) -> i64
    requires few { n ≤ max_variables }
    requires callable { (i : ℕ) → i < n → F.pre part i }
    requires small { (i : ℕ) (r : ℤ) → i < n → F.post part i r → nat_abs r ≤ max_weight }
    ensures { (g : ℕ → ℤ) → ((i : ℕ) (r : ℤ) → i < n → F.post part i r → r ≡ g i) → result ≡ sum_from g 0 n }
{
    let mut sum: i64 = 0;
    for i in 0..n {
        sum += part(i);
    }
    sum
}

// What an assignment costs.
pub fn cost(tables: &[u8], assignment: &[u8]) -> i64
    requires { Summable tables.now × (word_at tables.now 0 ≤ length assignment.now) }
    ensures { result ≡ cost_in tables.now (bits_of (word_at tables.now 0) assignment.now) }
{
    total(
        words::index(tables, 0),
        |i|
            requires { (4 * (4 + i) + 4 ≤ length tables.now) × (i < length assignment.now) }
            ensures { result ≡ share_at tables.entry.now assignment.entry.now i }
        { share(tables, assignment, i) },
    )
}

// What an assignment that obeys the locks costs at least: l(O).
pub fn floor_cost(tables: &[u8]) -> i64
    requires { Summable tables.now }
    ensures { result ≡ floor_in tables.now }
{
    total(
        words::index(tables, 0),
        |i|
            requires { (i < max_variables) × (table_size ≤ length tables.now) }
            ensures { result ≡ least_at tables.entry.now i }
        { least(tables, i) },
    )
}
