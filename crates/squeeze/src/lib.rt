// A plan file squeezed in its own buffer (document 02, T-12). All is decided on the untouched file; then list and file are written.
// The buffers to write come one by one: one is read while another is written, which a struct of them would not let be proved.
#![tactic(auto)]

ghost use Rattle.std.specs.Prelude.{◌≡◌, Some, cond, ◌≤◌, eqb, pos, length};
ghost use Rattle.plpb.specs.Lists.{any, is_empty, keep, row};
ghost use Rattle.words.specs.Words.{word_at, word_bytes};
ghost use Rattle.words.specs.Writes.{front};
ghost use Rattle.format.specs.Tables.{pad_to};
ghost use Rattle.tables.specs.Places.{Accepts, plan_of_file};
ghost use Rattle.squeezed.specs.Squeezed.{given_total, clauses_left};
ghost use Rattle.fates.specs.Codes.{map_size};
ghost use Rattle.fates.specs.Maps.{codes};
ghost use Rattle.numbering.specs.Numbered.{is_number};
ghost use Rattle.squeeze.specs.Calls.{list_size, Answers, fault_number, squeezing, outcome};
ghost use Rattle.squeeze.specs.Rewritten.{file_bytes};

use fates::clause;
use fates::map::Map;
use fates::terms::Terms;
use tables::Lawful;
use verdict::Refusal;

mod rewrite;

// The bytes of the list: 512 places, a word each.
pub const LIST: usize = 4 * format::MAX_VARIABLES;

// A refusal's number and offset, or the new length and "the objective's constant".
// It stays a record with a number 0 for no refusal, because the C interface hands it out as it is.
#[repr(C)]
#[derive(Clone, Copy)]
pub struct Squeezed {
    pub refusal: u32,
    pub offset: usize,
    pub length: usize,
    pub constant: i64,
}

impl From<Refusal> for Squeezed {
    ghost from_gives = { λ refusal s. (s.refusal ≡ refusal.number) × (s.offset ≡ refusal.offset) × (s.length ≡ 0) × (s.constant ≡ pos 0) };

    fn from(refusal: Refusal) -> Squeezed {
        Squeezed {
            refusal: refusal.number,
            offset: refusal.offset,
            length: 0,
            constant: 0,
        }
    }
}

// "71 if every variable is locked, then 72 if a clause lost all rules"
#[derive(Clone, Copy, PartialEq, Eq)]
enum Unfit {
    AllLocked,
    ClauseLost,
}

// The refusal of a plan that cannot be squeezed: no byte of its file is at fault.
impl From<Unfit> for Refusal {
    ghost from_gives = { λ fault r. (r.number ≡ fault_number (Some fault)) × (r.offset ≡ 0) };

    fn from(fault: Unfit) -> Refusal {
        let number = match fault {
            Unfit::AllLocked => 71,
            Unfit::ClauseLost => 72,
        };
        Refusal { number, offset: 0 }
    }
}

// What stands against squeezing a plan, if anything does. Here and below the file is a slice with a clause and no `Lawful`. What is read of a whole plan rests
// on each number of the slice being a byte. That is known of a slice that is a parameter; of a slice in a struct it could not be proved.
// It answers a fault or none and no `Result`: its one caller opens it at once, and the definition has the number of either.
fn fault(file: &[u8], map: Map<'_>, variables: u32) -> Option<Unfit>
    requires accepts { Accepts file.now }
    ensures { fault_number result ≡ cond (eqb variables 0) 71
        (cond (any is_empty (clauses_left (codes map.entry) (plan_of_file file.now).clauses)) 72 0) }
{
    if variables == 0 {
        return Some(Unfit::AllLocked);
    }
    if clause::lost(file, tables::fields::first_clause(file), map) {
        return Some(Unfit::ClauseLost);
    }
    None
}

// "the objective's constant"
fn constant(file: &[u8], map: Map<'_>) -> i64
    requires accepts { Accepts file.now }
    ensures { result ≡ given_total (codes map.entry) (plan_of_file file.now).objective }
{
    let terms = Terms {
        file,
        from: 8,
        count: words::read_size(file, 6) / 6,
        map,
    };
    i64::from(terms.given())
}

// Carries a squeeze out. File and list stay parameters of their own, since both are written, and a struct that held them would have to say in each contract
// that they are still the same ones. The file that is written is no `Lawful` either, which lends it to be read alone:
// that it is accepted stays a clause, here and where it is rewritten.
fn carry_out(file: &mut [u8], map: Map<'_>, variables: u32, old: &mut [u8]) -> Squeezed
    requires accepts { Accepts file.old }
    requires list_len { list_size ≤ length old.old }
    ensures refusal_value { (result.refusal ≡ 0) × (result.offset ≡ 0)
        × (result.length ≡ length (file_bytes (codes map.entry) variables (plan_of_file file.old)))
        × (result.constant ≡ given_total (codes map.entry) (plan_of_file file.old).objective) }
    ensures file_after { file.new ≡ pad_to (length file.old)
        (file_bytes (codes map.entry) variables (plan_of_file file.old)) }
    ensures after { old.new ≡ front (word_bytes (pad_to 512
        (keep (λ x. is_number (word_at map.entry.words.now x)) (row 1 (plan_of_file file.old).variables)))) old.old }
{
    numbering::list_old(map, words::read_size(file, 3), &mut old[0..LIST]);
    let constant = constant(file, map);
    let length = rewrite::rewrite(file, map, variables);
    Squeezed {
        refusal: 0,
        offset: 0,
        length,
        constant,
    }
}

// Squeezes an accepted file, with a map to fill, or refuses it.
fn squeeze_by(file: &mut [u8], map: &mut [u8], old: &mut [u8]) -> Squeezed
    requires accepts { Accepts file.old }
    requires map_len { (length map.old ≡ map_size) × (list_size ≤ length old.old) }
    ensures answers { Answers result (squeezing (plan_of_file file.old) file.old old.old) }
    ensures file_after { file.new ≡ (squeezing (plan_of_file file.old) file.old old.old).file }
    ensures after { old.new ≡ (squeezing (plan_of_file file.old) file.old old.old).old }
{
    let variables = numbering::fill(Lawful { file }, map);
    let map = Map { words: map };
    match fault(file, map, variables) {
        Some(fault) => Squeezed::from(Refusal::from(fault)),
        None => carry_out(file, map, variables, old),
    }
}

// "Turned away, with nothing changed: 21 for a list below 512 places, the file's own, then 71 [..], then 72". Each refusal becomes the record where it is met:
// a `Result` in between would be opened again at once, and three clauses would have to be said of either side of it.
pub fn squeeze(file: &mut [u8], old: &mut [u8]) -> Squeezed
    ensures answers { Answers result (outcome file.old old.old) }
    ensures file_after { file.new ≡ (outcome file.old old.old).file }
    ensures after { old.new ≡ (outcome file.old old.old).old }
{
    if old.len() < LIST {
        return Squeezed::from(Refusal::TOO_SHORT);
    }
    if let Err(refusal) = judge::judge(file) {
        return Squeezed::from(refusal);
    }
    let mut map = [0u8; fates::MAP];
    squeeze_by(file, &mut map, old)
}
