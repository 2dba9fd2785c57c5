// The mapper's two lists judged: "Turned away, with list and row from 1".
#![tactic(auto)]

ghost use Rattle.std.specs.Prelude.{◌≡◌, true, false, not, ltb, List, ℕ, Some, ◌+◌, ◌<◌, length, MatchResult};
ghost use Rattle.plpb.specs.Lists.{◌and◌, ◌or◌};
ghost use Rattle.cells.specs.Values.{gather, same_value};
ghost use Rattle.rows.specs.Reading.{Holds, is_zones, place};
ghost use Rattle.lists.specs.Refusals.{Entry, is_name, is_number, site_formed, zone_formed, site_fault, zone_fault, row_fault, judged, refusal_of};
ghost use Rattle.lists.specs.Refusals.{yes_bytes, no_bytes, site_rows, zone_rows};
ghost use Rattle.entries.specs.Judging.{entries_of, OfBytes, own_fault, Well, zone_column, fault_number, found, missing, IsAt, Tells};

use cells::value::{Value, same};
use rows::row::{Column, Listed, Row, among, field_in, read_row};

// "A code or zone has 1 to 16 bytes and a number 1 to 7 digits"
const LONGEST_NAME: usize = 16;

const LONGEST_NUMBER: usize = 7;

// "Metres are 0 to 1,000,000, least and most 0 to 512."
const MOST_METRES: u64 = 1000000;

const MOST_SITES: u64 = 512;

// The values of `yes` and `no`: their bytes make one number to the base 256, and none is a digit.
const YES: Value = Value {
    length: 3,
    low: 7955827,
    high: 0,
    number: None,
};

const NO: Value = Value {
    length: 2,
    low: 28271,
    high: 0,
    number: None,
};

// "51 malformed row, 52 number out of its range, 53 repeated code or zone, 54 unlisted zone, 55 zone without sites"
#[derive(Clone, Copy)]
pub enum Fault {
    Malformed,
    OutOfRange,
    Repeated,
    Unlisted,
    Unused,
}

// The number of a fault for the C interface.
impl From<Fault> for u32 {
    ghost from_gives = { λ fault n. n ≡ fault_number fault };

    fn from(fault: Fault) -> u32 {
        match fault {
            Fault::Malformed => 51,
            Fault::OutOfRange => 52,
            Fault::Repeated => 53,
            Fault::Unlisted => 54,
            Fault::Unused => 55,
        }
    }
}

// The first row of a list that is at fault, from 1, and what it meets.
#[derive(Clone, Copy)]
pub struct AtFault {
    pub fault: Fault,
    pub row: usize,
}

// Why two lists are turned away: by a row of one of them, or by the size of the plan.
#[derive(Clone, Copy)]
pub enum Refusal {
    Site(AtFault),
    Zone(AtFault),
    Size,
}

// How many sites and zones two lists have.
#[derive(Clone, Copy)]
pub struct Counts {
    pub sites: usize,
    pub zones: usize,
}

// Whether a value may be a code or a zone.
fn is_name(v: Value) -> bool
    ensures { (bytes : List ℕ) → v ≡ gather bytes → result ≡ is_name bytes }
{
    matches!(v.length, 1..=LONGEST_NAME)
}

// Whether a value may be a number: fewer bytes than a name's, all of them digits.
fn is_number(v: Value) -> bool
    ensures { (bytes : List ℕ) → v ≡ gather bytes → result ≡ is_number bytes }
{
    matches!(v.length, 1..=LONGEST_NUMBER) && v.number.is_some()
}

pub fn is_yes(v: Value) -> bool
    ensures { result ≡ same_value v (gather yes_bytes) }
{
    same(v, YES)
}

fn is_no(v: Value) -> bool
    ensures { result ≡ same_value v (gather no_bytes) }
{
    same(v, NO)
}

// Whether a row's fields are those of a site.
fn site_formed(row: Row<'_>) -> bool
    ensures { (x : Entry) → Holds x row.entry → result ≡ site_formed x }
{
    is_name(row.first) && is_number(row.second) && is_name(row.third)
}

// The last column of a zone.
fn is_answer(v: Value) -> bool
    ensures { result ≡ (same_value v (gather yes_bytes) or same_value v (gather no_bytes)) }
{
    is_yes(v) || is_no(v)
}

// Whether a row's fields are those of a zone. The two lists' rows are judged by two pairs of functions, for their columns hold other things.
fn zone_formed(row: Row<'_>) -> bool
    ensures { (x : Entry) → Holds x row.entry → OfBytes x → result ≡ zone_formed x }
{
    is_name(row.first) && is_number(row.second) && is_number(row.third) && is_answer(row.fourth)
}

// Whether a value says a number above a limit.
fn is_above(v: Value, most: u64) -> bool
    ensures { (n : ℕ) → v.number ≡ Some n → result ≡ ltb most n }
{
    v.number.is_some_and(|n| most < n)
}

// "51 malformed row, 52 number out of its range"
fn site_fault(row: Row<'_>) -> Result<(), Fault>
    ensures { (x : Entry) → Holds x row.entry → found result ≡ site_fault x }
{
    if !site_formed(row) {
        return Err(Fault::Malformed);
    }
    if is_above(row.second, MOST_METRES) {
        return Err(Fault::OutOfRange);
    }
    Ok(())
}

fn zone_fault(row: Row<'_>) -> Result<(), Fault>
    ensures { (x : Entry) → Holds x row.entry → OfBytes x → found result ≡ zone_fault x }
{
    if !zone_formed(row) {
        return Err(Fault::Malformed);
    }
    if is_above(row.second, MOST_SITES) {
        return Err(Fault::OutOfRange);
    }
    if is_above(row.third, MOST_SITES) {
        return Err(Fault::OutOfRange);
    }
    Ok(())
}

fn own_fault(row: Row<'_>, listed: Listed) -> Result<(), Fault>
    ensures { (x : Entry) → Holds x row.entry → OfBytes x → found result ≡ own_fault (is_zones listed) x }
{
    match listed {
        Listed::Sites => site_fault(row),
        Listed::Zones => zone_fault(row),
    }
}

// A fault of the row behind k others: rows are counted from 1.
fn at_row(fault: Fault, k: usize) -> AtFault
    requires { k < usize.MAX }
    ensures { result ≡ record { fault = fault; row = k + 1 } }
{
    AtFault { fault, row: k + 1 }
}

// "The first row at fault decides, by the lower number": 51, 52, then 53. Without one it answers how many rows there are.
// It is a loop with the row's number beside the rest of the list, here and where zones are judged: a list is cut into rows only by reading it, an iterator of
// what is read would have to list in its contract the numbers that rows are gathered into, and each row is looked for among those before it by its number.
pub fn judge_list(s: &[u8], listed: Listed) -> Result<usize, AtFault>
    ensures { MatchResult result
        (λ n. judged (row_fault (is_zones listed) (entries_of (is_zones listed) s.now)) (entries_of (is_zones listed) s.now)
        ≡ record { fault = 0; rows = n })
        (IsAt (judged (row_fault (is_zones listed) (entries_of (is_zones listed) s.now)) (entries_of (is_zones listed) s.now))) }
{
    let mut rest = s;
    let mut k = 0;
    while !rest.is_empty() {
        let row = read_row(rest, listed).ok_or(at_row(Fault::Malformed, k))?;
        own_fault(row, listed).map_err(|fault| at_row(fault, k))?;
        if among(s, listed, k, Column::First, row.first) {
            return Err(at_row(Fault::Repeated, k));
        }
        rest = row.rest;
        k += 1;
    }
    Ok(k)
}

// The column of the zone. It stands apart from the other list, which is told by the list too: one answers a column and one a list, and a function for both
// would say less. "Sites: code, carry metres, zone." "Zones: zone, least, most, and `yes` or `no`".
fn zone_column(listed: Listed) -> Column
    ensures { place result ≡ zone_column (is_zones listed) }
{
    match listed {
        Listed::Sites => Column::Third,
        Listed::Zones => Column::First,
    }
}

// The other list.
fn beside(listed: Listed) -> Listed
    ensures { is_zones result ≡ not (is_zones listed) }
{
    match listed {
        Listed::Sites => Listed::Zones,
        Listed::Zones => Listed::Sites,
    }
}

// The first row of a list whose zone no row of the other list has. The other list comes with the number of its rows, which was counted as it was judged; a row
// that is looked for goes through them all. The fault comes beside the list, since the definition (`missing`) has it so.
fn judge_zones(
    s: &[u8],
    listed: Listed,
    other: &[u8],
    rows: usize,
    fault: Fault,
) -> Result<(), AtFault>
    requires { Well (is_zones listed) s.now × (rows ≡ length (entries_of (not (is_zones listed)) other.now)) }
    ensures { MatchResult result
        (λ _. (judged (missing (fault_number fault) (is_zones listed) (entries_of (is_zones listed) s.now) (entries_of (not (is_zones listed)) other.now))
        (entries_of (is_zones listed) s.now)).fault ≡ 0)
        (IsAt (judged (missing (fault_number fault) (is_zones listed) (entries_of (is_zones listed) s.now) (entries_of (not (is_zones listed)) other.now))
        (entries_of (is_zones listed) s.now))) }
{
    let own = zone_column(listed);
    let other_list = beside(listed);
    let theirs = zone_column(other_list);
    let mut rest = s;
    let mut k = 0;
    while !rest.is_empty() {
        let row = read_row(rest, listed).unwrap();
        if !among(other, other_list, rows, theirs, field_in(row, own)) {
            return Err(at_row(fault, k));
        }
        rest = row.rest;
        k += 1;
    }
    Ok(())
}

// "sites before zones; 54 and then 55 come after both lists"; "then, with both 0, 4 when the plan would be too large or has no site". Where no row is at
// fault, a plan is too large only by its sites.
pub fn judge(sites: &[u8], zones: &[u8]) -> Result<Counts, Refusal>
    ensures { Tells (refusal_of (site_rows sites.now) (zone_rows zones.now)) (site_rows sites.now)
        (zone_rows zones.now) result }
{
    let s = judge_list(sites, Listed::Sites).map_err(Refusal::Site)?;
    let z = judge_list(zones, Listed::Zones).map_err(Refusal::Zone)?;
    judge_zones(sites, Listed::Sites, zones, z, Fault::Unlisted).map_err(Refusal::Site)?;
    judge_zones(zones, Listed::Zones, sites, s, Fault::Unused).map_err(Refusal::Zone)?;
    if !(1..=512).contains(&s) {
        return Err(Refusal::Size);
    }
    Ok(Counts { sites: s, zones: z })
}
