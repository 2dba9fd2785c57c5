// What the walk keeps beside the tallies and the marks: definitions in specs/. The code is the layout's numbers; specs/Layout.antt has the same for contracts.
// The columns are words behind one another, and no slices or structs: they stand in the two buffers that the caller lends, behind what C reads there, and
// there is no heap for others.
#![tactic(auto)]

// Behind the tallies: K, A and B of each rule, and what its two sides need. Side 2 * r is that of the false literals of rule r, 2 * r + 1 that of the true.
pub const TOTALS: usize = format::UNSATISFIED + 1; // rule r has K at TOTALS + 3 * r

pub const LOWER_SIZES: usize = TOTALS + 1;

pub const UPPER_SIZES: usize = TOTALS + 2;

pub const NEEDS: usize = TOTALS + 3 * (format::MAX_RULES + 1); // a side's need

pub const KEPT: usize = 4 * (NEEDS + 2 * (format::MAX_RULES + 1)); // the bytes of the tallies and what is kept behind them

// Behind the marks, a byte for each variable, and the stamps, a word for each.
pub const HINTS: usize = (format::MAX_VARIABLES / 4 + format::MAX_VARIABLES) - 1; // variable x has its hint at HINTS + x

pub const SIDE_HINTS: u32 = 2 * 4096; // a hint below it names a place of the order; one from it on tells a side

pub const PICKS: usize = HINTS + 1 + format::MAX_VARIABLES; // the variables to pick among

pub const WEIGHTS: usize = PICKS + format::MAX_VARIABLES; // entry k of the order has its weight at WEIGHTS + k

pub const LIST_COUNTS: usize = WEIGHTS + (format::MAX_TERMS + format::MAX_VARIABLES); // clause c has its count at LIST_COUNTS + c

pub const LISTS: usize = LIST_COUNTS + (format::MAX_CLAUSES + 1);

pub const COLUMNS: usize = 4 * (LISTS + (format::MAX_TERMS + format::MAX_VARIABLES));

// The word of what is not there: above every size and every weight. Where the code asks whether something is there, it is an Option (`sizing`, `effects`). What
// is compared again and again stays a word (`needs`, which asks once, where a need is made), since NEVER is above all that it is compared with.
pub const NEVER: u32 = u32::MAX;
