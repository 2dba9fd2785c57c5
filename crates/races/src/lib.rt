// The races of a festival in the lent list, as records of stake, first place and length: thin functions that take each record out of the list, or put
// it back, and leave the rest to functions on values.
#![tactic(auto)]

ghost use Rattle.std.specs.Prelude.{◌≡◌, ℕ, List, [], ◌+◌, ◌*◌, ◌≤◌, ◌<◌, length, get_or, slice_get};
ghost use Rattle.division.specs.Split.{refusal_after, parts_after};
ghost use Rattle.division.specs.Eight.{kept, laid};
ghost use Rattle.races.specs.Races.{stakes_of, placed, stakes_in, put_at, parts_put};

use division::{Part, Parts, Stakes, divide};

// A race's stake, which the caller sets, and its part of the list, which is written: the first place, from 0, and the length.
#[repr(C)]
#[derive(Clone, Copy)]
pub struct Race {
    pub stake: usize,
    pub first: usize,
    pub length: usize,
}

// The stakes of so many races, as `stake` tells them place by place, 0 where there is no race: those of records, or those among plain numbers.
fn stakes_by<F: Fn(usize) -> usize>(count: usize, stake: F) -> Stakes
    requires { (i : ℕ) → F.pre stake i }
    ensures { (ss : List ℕ) → length ss ≡ count → ((i s : ℕ) → F.post stake i s → s ≡ get_or ss i 0) → result ≡ kept ss }
{
    let mut stakes = [0; 8];
    for (i, x) in stakes.iter_mut().enumerate() {
        *x = stake(i);
    }
    Stakes { count, stakes }
}

// The part of race i, if there is one for it. Both bounds are asked at once: `get` would ask one of them and leave the other.
fn part_of(p: Parts, i: usize) -> Option<Part>
    ensures { result ≡ slice_get (laid p) i }
{
    if p.count <= i || 8 <= i {
        return None;
    }
    Some(p.parts[i])
}

// The place is tested here: that the stake of a record which `get` finds is the one in the list of all stakes did not follow, as it does in `stakes_in`.
fn stakes_of(races: &[Race]) -> Stakes
    ensures { result ≡ kept (stakes_of races.now) }
{
    stakes_by(
        races.len(),
        |i|
            ensures { result ≡ get_or (stakes_of races.entry.now) i 0 }
        { if i < races.len() { races[i].stake } else { 0 } },
    )
}

// This and `put_in` are what the two kinds of records need each: a record is changed in place here, and two numbers of three there.
fn put_parts(races: &mut [Race], p: Parts)
    ensures { races.new ≡ placed (laid p) races.old }
{
    for (i, r) in races.iter_mut().enumerate() {
        if let Some(part) = part_of(p, i) {
            r.first = part.first;
            r.length = part.length;
        }
    }
}

// The split alone, for any length of the list: each race's part is written into its record, and no number is read. 61 and 62 are answered, and then nothing
// is written. The answer is the number that the C interface has, 0 for no refusal.
pub fn planner_share(races: &mut [Race], numbers: usize) -> u32
    ensures { (result ≡ refusal_after 0 (stakes_of races.old))
        × (races.new ≡ placed (parts_after 0 numbers (stakes_of races.old)) races.old) }
{
    match divide(stakes_of(&*races), numbers) {
        Ok(p) => {
            put_parts(races, p);
            0
        }
        Err(refusal) => u32::from(refusal),
    }
}

// The same records as plain numbers, three for each race.
pub fn stakes_in(races: &[usize]) -> Stakes
    ensures { result ≡ kept (stakes_in races.now) }
{
    let (records, _rest) = races.as_chunks::<3>();
    stakes_by(
        records.len(),
        |i|
            ensures { result ≡ get_or (get_or records.entry.now i []) 0 0 }
        { records.get(i).map_or(0, |r| r[0]) },
    )
}

// Writes one race's part, where there is one for it.
fn put_part(races: &mut [usize], i: usize, p: Parts)
    requires { 3 * i + 3 ≤ length races.old }
    ensures { races.new ≡ put_at (laid p) i races.old }
{
    if let Some(part) = part_of(p, i) {
        races[3 * i + 1] = part.first;
        races[3 * i + 2] = part.length;
    }
}

// The records are told by their places: the library says nothing of what a slice ends as that it lent as arrays (`as_chunks_mut`), and after a loop over
// `chunks_exact_mut` what the slice ends as did not follow from what each chunk was left as.
pub fn put_in(races: &mut [usize], p: Parts)
    ensures { races.new ≡ parts_put (laid p) races.old }
{
    let count = races.len() / 3;
    for i in 0..count {
        put_part(races, i, p);
    }
}
