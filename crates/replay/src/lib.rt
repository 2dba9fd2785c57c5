// Opening, and then a list of calls one after another on the lent buffers: demand 3 as a claim about running code.
#![tactic(auto)]

ghost use Rattle.std.specs.Prelude.{◌≡◌, [], ◌∷◌, ◌++◌, ◌*◌, ◌/◌, ◌≤◌, get_or, length};
ghost use Rattle.counting.specs.Count.{marked_words};
ghost use Rattle.words.specs.Words.{num_at, word_bytes};
ghost use Rattle.words.specs.Writes.{front};
ghost use Rattle.tallies.specs.Demand.{answers, after};
ghost use Rattle.replay.specs.Replay.{called, call_of, calls_of, answer_size, answered_words, answer_words, answer_bytes};
ghost use Rattle.replay.specs.Replay.{replay_refusal, replay_out, replay_assignment, replay_tallies};
ghost use Rattle.tallies.specs.Calls.{lent, answer, left_by};

use calls::counts::{Counted, counts};
use calls::flip::{Flipped, flip};
use calls::open::open;
use calls::tests::Refusal;
use counting::count::Marked;
use words::{read_u32, write_u32};

// How many bytes a call has.
const CALL: usize = 5;

// How many bytes an answer has.
const ANSWER: usize = 24;

// A flip of a variable, or counts of one.
#[derive(Clone, Copy)]
enum Call {
    Flip(u32),
    Counts(u32),
}

// What a call answers; what calls of its kind do not give is 0. It stands for six words of the C interface, so it has each of them.
#[derive(Clone, Copy)]
struct Answered {
    refusal: u32,
    rules: u32,
    breaks: Marked,
    makes: Marked,
}

// A flip gives no counts.
impl From<Flipped> for Answered {
    ghost from_gives = { λ f a. answered_words a ≡ f.refusal ∷ f.rules ∷ 0 ∷ 0 ∷ 0 ∷ 0 ∷ [] };

    fn from(f: Flipped) -> Answered {
        Answered {
            refusal: f.refusal,
            rules: f.rules,
            breaks: Marked::ZERO,
            makes: Marked::ZERO,
        }
    }
}

// Counts rewrite no rule's tally.
impl From<Counted> for Answered {
    ghost from_gives = { λ c a. answered_words a ≡ c.refusal ∷ 0 ∷ (marked_words c.breaks ++ marked_words c.makes) };

    fn from(c: Counted) -> Answered {
        Answered {
            refusal: c.refusal,
            rules: 0,
            breaks: c.breaks,
            makes: c.makes,
        }
    }
}

// The call in its bytes: its kind, 0 for a flip and any other for counts, and its variable.
fn read_call(bytes: &[u8; CALL]) -> Call
    ensures { called result ≡ call_of (get_or bytes.now 0 0) (num_at 4 bytes.now 1) }
{
    let x = read_u32(bytes, 1);
    if bytes[0] == 0 {
        Call::Flip(x)
    } else {
        Call::Counts(x)
    }
}

// Makes one call. The buffers come one by one, as the C interface lends them: nothing is known of them before the call has tested them.
fn make_call(
    tables: &[u8],
    terms: &[u8],
    assignment: &mut [u8],
    tallies: &mut [u8],
    call: Call,
) -> Answered
    ensures result_value { answered_words result
        ≡ answer_words (answer (lent tables.now terms.now assignment.old tallies.old) (called call)) }
    ensures assignment_after { assignment.new
        ≡ (left_by (lent tables.now terms.now assignment.old tallies.old) (called call)).assignment }
    ensures tallies_after { tallies.new
        ≡ (left_by (lent tables.now terms.now assignment.old tallies.old) (called call)).tallies }
{
    match call {
        Call::Flip(x) => Answered::from(flip(tables, terms, assignment, tallies, x)),
        Call::Counts(x) => Answered::from(counts(tables, terms, assignment, tallies, x)),
    }
}

// Writes a count's two words.
fn write_count(out: &mut [u8], count: Marked)
    requires { length out.old ≡ 8 }
    ensures { out.new ≡ word_bytes (marked_words count) }
{
    write_u32(out, 0, count.value);
    write_u32(out, 4, count.cut);
}

// Writes an answer's six words.
fn write_answer(out: &mut [u8], answer: Answered)
    requires { length out.old ≡ answer_size }
    ensures { out.new ≡ word_bytes (answered_words answer) }
{
    write_u32(out, 0, answer.refusal);
    write_u32(out, 4, answer.rules);
    write_count(&mut out[8..16], answer.breaks);
    write_count(&mut out[16..24], answer.makes);
}

// Makes the calls of a list, each on what the one before it left. The buffers come one by one, as the C interface lends them. A call and its answer are found
// by the call's number: after a loop that is lent the answers' places chunk by chunk, what `out` ends as is not said (see `races::put_in`).
fn make_calls(
    tables: &[u8],
    terms: &[u8],
    assignment: &mut [u8],
    tallies: &mut [u8],
    list: &[u8],
    out: &mut [u8],
)
    requires { answer_size * (length list.now / 5) ≤ length out.old }
    ensures out_after { out.new
        ≡ front
        (answer_bytes
        (answers (lent tables.now terms.now assignment.old tallies.old) (calls_of list.now)))
        out.old }
    ensures assignment_after { assignment.new
        ≡ (after (lent tables.now terms.now assignment.old tallies.old) (calls_of list.now)
        ).assignment }
    ensures tallies_after { tallies.new
        ≡ (after (lent tables.now terms.now assignment.old tallies.old) (calls_of list.now)
        ).tallies }
{
    let (calls, _rest) = list.as_chunks::<CALL>();
    for k in 0..calls.len() {
        let call = read_call(&calls[k]);
        let a = make_call(tables, terms, assignment, tallies, call);
        write_answer(&mut out[ANSWER * k..ANSWER * (k + 1)], a);
    }
}

// Opens, and then makes the calls of `list`; `out` has room for the bytes of an answer to each. The refusals are the C interface's numbers.
#[unsafe(no_mangle)]
pub extern "C" fn replay_calls(
    tables: &[u8],
    terms: &[u8],
    assignment: &mut [u8],
    tallies: &mut [u8],
    list: &[u8],
    out: &mut [u8],
) -> u32
    ensures value { result
        ≡ replay_refusal (lent tables.now terms.now assignment.old tallies.old) list.now
        out.old }
    ensures out_after { out.new
        ≡ replay_out (lent tables.now terms.now assignment.old tallies.old) list.now
        out.old }
    ensures assignment_after { assignment.new
        ≡ replay_assignment (lent tables.now terms.now assignment.old tallies.old) list.now
        out.old }
    ensures tallies_after { tallies.new
        ≡ replay_tallies (lent tables.now terms.now assignment.old tallies.old) list.now
        out.old }
{
    if out.len() / ANSWER < list.len() / CALL {
        return u32::from(Refusal::TooSmall);
    }
    let refusal = open(tables, terms, assignment, tallies);
    if refusal != 0 {
        return refusal;
    }
    make_calls(tables, terms, assignment, tallies, list, out);
    0
}
