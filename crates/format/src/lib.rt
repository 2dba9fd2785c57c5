// The plan file, the tables and the plan that both stand for: definitions in specs/, theorems in proofs/. The code is the tags, the modes, the words
// of locks and the layout's numbers; specs/Layout.antt has the numbers for contracts, and each crate that uses both ties the two.
#![tactic(auto)]

ghost use Rattle.std.specs.Prelude.{◌≡◌};
ghost use Rattle.format.specs.Tags.{Tagged};
ghost use Rattle.format.specs.Modes.{Moded};
ghost use Rattle.format.specs.Locks.{lock_of};

// What a field of a plan file is: its first byte (docs/FORMAT.md). `of` answers an option and is no `TryFrom`, whose error would be a type that says nothing
// more than `None` does; the same holds of a mode.
#[derive(Clone, Copy, PartialEq, Eq)]
pub enum Tag {
    Variables = 1,
    Objective = 2,
    Clause = 3,
    Rule = 4,
    End = 5,
    Locks = 6,
}

impl Tag {
    // The tag that a byte is, if it is one.
    pub fn of(byte: u8) -> Option<Tag>
        ensures { Tagged byte result }
    {
        match byte {
            1 => Some(Tag::Variables),
            2 => Some(Tag::Objective),
            3 => Some(Tag::Clause),
            4 => Some(Tag::Rule),
            5 => Some(Tag::End),
            6 => Some(Tag::Locks),
            _ => None,
        }
    }
}

// Which of its bounds a rule has: "Mode 1 is lower only, 2 upper only, 3 both".
#[derive(Clone, Copy, PartialEq, Eq)]
pub enum Mode {
    Lower = 1,
    Upper = 2,
    Both = 3,
}

impl Mode {
    // The mode that a byte is, if it is one.
    pub fn of(byte: u8) -> Option<Mode>
        ensures { Moded byte result }
    {
        match byte {
            1 => Some(Mode::Lower),
            2 => Some(Mode::Upper),
            3 => Some(Mode::Both),
            _ => None,
        }
    }
}

// The lock that a word of the tables tells: 0 for unlocked, 1 for locked at 0, any other for locked at 1, where tables of a plan have 2. It is a function, as
// `Tag::of` and `Mode::of` are, since neither a word nor an `Option` is a type of this crate.
#[tactic(auto, unfolding(crate::specs::Locks::lock_of))]
pub fn lock_of(word: u32) -> Option<bool>
    ensures { result ≡ lock_of word }
{
    match word {
        0 => None,
        1 => Some(false),
        _ => Some(true),
    }
}

// How many of each a plan may have.
pub const MAX_VARIABLES: usize = 512;

pub const MAX_CLAUSES: usize = 512;

pub const MAX_RULES: usize = 1024;

pub const MAX_TERMS: usize = 6000;

// The words of the tables: four counts, a coefficient for each variable, two words for each clause, five for each rule, and a lock for each
// variable. Behind this base stands the order of the terms by variable: where the run of each variable ends, and a word for each term.
pub const OBJECTIVE: usize = 4 - 1; // variable x has its coefficient at OBJECTIVE + x

pub const CLAUSES: usize = 4 + MAX_VARIABLES; // clause c has its first rule at CLAUSES + 2 * c

pub const CLAUSE_COUNT: usize = CLAUSES + 1;

pub const RULES: usize = CLAUSES + 2 * (MAX_CLAUSES + 1); // rule r has its first term at RULES + 5 * r

pub const RULE_COUNT: usize = RULES + 1;

pub const RULE_MODE: usize = RULES + 2;

pub const RULE_LOWER: usize = RULES + 3;

pub const RULE_UPPER: usize = RULES + 4;

pub const RULES_END: usize = RULES + 5 * (MAX_RULES + 1);

pub const LOCKS: usize = RULES_END - 1; // variable x has its lock at LOCKS + x

pub const ENDS: usize = RULES_END + MAX_VARIABLES; // variable x's run ends at entry ENDS + x, and begins where that of x - 1 ends

pub const ORDER: usize = ENDS + MAX_VARIABLES + 1; // entry k of the order

pub const TABLE_WORDS: usize = ORDER + MAX_TERMS + MAX_VARIABLES;

pub const TERM_WORDS: usize = 2 * (MAX_TERMS + MAX_VARIABLES);

// The last of k rules has its upper bound at LAST_UPPER + 5 * k.
pub const LAST_UPPER: usize = RULE_UPPER - 5;

// Where the sections behind the counts begin, in bytes, and the bytes of the whole.
pub const OBJECTIVE_BYTE: usize = 4 * 4;

pub const CLAUSES_BYTE: usize = 4 * CLAUSES;

pub const RULES_BYTE: usize = 4 * RULES;

pub const LOCKS_BYTE: usize = 4 * RULES_END;

pub const ENDS_BYTE: usize = 4 * ENDS;

pub const TABLES: usize = 4 * TABLE_WORDS;

pub const TERMS: usize = 4 * TERM_WORDS;

// The words of the tallies: a true weight for each rule, how many of each clause's rules hold, and how many clauses are unsatisfied.
pub const HOLDING: usize = MAX_RULES + 1;

pub const UNSATISFIED: usize = HOLDING + MAX_CLAUSES + 1;

pub const TALLIES: usize = 4 * (UNSATISFIED + 1);

// A byte for each variable: an assignment, and the marks of a search.
pub const ASSIGNMENT: usize = MAX_VARIABLES;

// Behind the marks stands a word for each variable, the number of its last flip in a try: these words begin at byte STAMP_BYTE, and variable x has the word
// STAMPS + x.
pub const STAMP_BYTE: usize = MAX_VARIABLES;

pub const STAMPS: usize = MAX_VARIABLES / 4 - 1;

pub const MARKS: usize = STAMP_BYTE + 4 * MAX_VARIABLES;
