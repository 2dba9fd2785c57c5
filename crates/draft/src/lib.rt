// The plan file of the mapper's two lists, written into a lent buffer.
// The buffer and the place to write at stay two parameters: a struct that held the buffer would have to say in each contract that it is still the same one.
#![tactic(auto)]

ghost use Rattle.std.specs.Prelude.{◌≡◌, true, false, cond, ℕ, ◌+◌, ◌*◌, ◌%◌, ◌≤◌, eqb, Some, IfSome};
ghost use Rattle.std.specs.Prelude.{List, [], ◌∷◌, ◌++◌, map, length};
ghost use Rattle.std.specs.Option.{is_some, unwrap_or};
ghost use Rattle.words.specs.Words.{bytes_of};
ghost use Rattle.words.specs.Writes.{front};
ghost use Rattle.format.specs.Writer.{field, clause_fields, write};
ghost use Rattle.format.specs.Layout.{largest_file};
ghost use Rattle.cells.specs.Grammar.{column_of};
ghost use Rattle.cells.specs.Values.{gather};
ghost use Rattle.lists.specs.Lists.{zone_clause};
ghost use Rattle.lists.specs.Refusals.{Entry, site_of, site_fault, site_rows, zone_rows, plan_of, refusal_of};
ghost use Rattle.entries.specs.Judging.{OfBytes, Well};
ghost use Rattle.draft.specs.Draft.{weigh, terms_of, Named, mode_of, rule_body, clauses_of, Wrote};

use cells::value::{Value, same};
use entries::{Counts, is_yes};
use fields::{put_bounds, put_head};
use format::{Mode, Tag};
use rows::row::{Listed, read_row};

// The list of sites, where nothing in it is at fault, and how many sites there are.
#[derive(Clone, Copy)]
struct Sites<'a> {
    list: &'a [u8],
    count: usize,
    ghost well: { Well false list.now },
    ghost counted: { count ≡ length (site_rows list.now) },
}

// What a row of the zone list says.
#[derive(Clone, Copy)]
struct Zone {
    name: Value,
    least: u32,
    most: u32,
    optional: bool,
}

// A number of at most 7 digits. The remainder shows that the cast loses nothing.
fn number_of(v: Value) -> u32
    ensures { (n : ℕ) → v.number ≡ Some n → result ≡ n % 4_294_967_296 }
{
    (v.number.unwrap_or(0) % 4294967296) as u32
}

// What a site weighs: 1 in the zone and 0 elsewhere, or with no zone its metres.
fn weight(metres: Value, own: Value, zone: Option<Value>) -> u32
    ensures { (x : Entry) (name : List ℕ) → metres ≡ gather (column_of 1 x) → own ≡ gather (column_of 2 x) → OfBytes x
        → site_fault x ≡ 0 → IfSome zone (λ v. Named v name) → result ≡ weigh (is_some zone) name (site_of x) }
{
    match zone {
        None => number_of(metres),
        Some(zone) if same(own, zone) => 1,
        Some(_) => 0,
    }
}

// A term, or none for weight 0. Answers the next place.
fn put_term(out: &mut [u8], at: usize, variable: usize, weight: u32) -> usize
    requires { at + 6 ≤ length out.old }
    ensures { Wrote at (cond (eqb weight 0) [] (bytes_of 2 variable ++ bytes_of 4 weight)) out.old out.new result
        × (result ≤ at + 6) }
{
    if weight == 0 {
        return at;
    }
    fields::put_term(out, at, variable, weight);
    at + 6
}

// The terms of the sites, one for each that weighs anything in the zone, or with no zone by its metres. Answers the next place. The loop is no chain, for the
// reason that `entries::judge_list` gives: an iterator of rows would list in its contract the numbers that they are gathered into.
fn put_terms(out: &mut [u8], from: usize, sites: Sites<'_>, zone: Option<Value>) -> usize
    requires { from + 6 * sites.count ≤ length out.old }
    ensures { ((name : List ℕ) → IfSome zone (λ v. Named v name)
        → Wrote from (terms_of (is_some zone) name (site_rows sites.entry.list.now)) out.old out.new result)
        × (result ≤ from + 6 * sites.entry.count) × (from ≤ result) }
{
    let mut to = from;
    let mut rest = sites.list;
    for k in 0..sites.count {
        let row = read_row(rest, Listed::Sites).unwrap();
        let w = weight(row.second, row.third, zone);
        to = put_term(out, to, k + 1, w);
        rest = row.rest;
    }
    to
}

// The byte of a rule's mode: a zone's rule has an upper bound, and a lower one or none. It is the byte that `fields` writes.
fn mode_of(lower: Option<u32>) -> u8
    ensures { result ≡ mode_of lower }
{
    match lower {
        None => Mode::Upper as u8,
        Some(_) => Mode::Both as u8,
    }
}

// A rule over the sites of a zone. The terms are written first: they say how long the field is.
fn put_rule(
    out: &mut [u8],
    at: usize,
    sites: Sites<'_>,
    name: Value,
    lower: Option<u32>,
    upper: u32,
) -> usize
    requires { at + 12 + 6 * sites.count ≤ length out.old }
    ensures { ((bytes : List ℕ) → Named name bytes
        → Wrote at (field 4 (rule_body (mode_of lower) (unwrap_or lower 0) upper
        (terms_of true bytes (site_rows sites.entry.list.now)))) out.old out.new result)
        × (result ≤ at + 12 + 6 * sites.entry.count) }
{
    let end = put_terms(out, at + 12, sites, Some(name));
    let size = end - at - 3;
    put_bounds(out, at, size, mode_of(lower), lower.unwrap_or(0), upper);
    end
}

// "between least and most sites (mode 3), or, with `yes`, that rule or none at all (mode 2)"
fn put_clause(out: &mut [u8], at: usize, sites: Sites<'_>, zone: Zone) -> usize
    requires { at + 27 + 12 * sites.count ≤ length out.old }
    ensures { (name : List ℕ) → Named zone.name name
        → Wrote at (clause_fields (zone_clause (map site_of (site_rows sites.entry.list.now))
        (record { name = name; least = zone.least; most = zone.most; may_be_empty = zone.optional }))) out.old out.new result }
{
    put_head(out, at, Tag::Clause as u8, 0);
    let end = put_rule(out, at + 3, sites, zone.name, Some(zone.least), zone.most);
    if zone.optional {
        return put_rule(out, end, sites, zone.name, None, 0);
    }
    end
}

// "One clause per zone in list order". Answers the next place. The list of zones goes with their number, as that of sites does; only
// `put_plan` hands them on, so that no struct holds them. The loop is no chain, as that of the terms.
fn put_clauses(out: &mut [u8], from: usize, sites: Sites<'_>, zones: &[u8], m: usize) -> usize
    requires { Well true zones.now × (m ≡ length (zone_rows zones.now))
        × (from + length (clauses_of (site_rows sites.list.now) (zone_rows zones.now)) + 27 + 12 * sites.count ≤ length out.old) }
    ensures { Wrote from (clauses_of (site_rows sites.entry.list.now) (zone_rows zones.now)) out.old out.new result }
{
    let mut to = from;
    let mut rest = zones;
    for _row in 0..m {
        let row = read_row(rest, Listed::Zones).unwrap();
        let zone = Zone {
            name: row.first,
            least: number_of(row.second),
            most: number_of(row.third),
            optional: is_yes(row.fourth),
        };
        to = put_clause(out, to, sites, zone);
        rest = row.rest;
    }
    to
}

// "One variable per site in file order; the objective is metres". Answers the next place.
fn put_front(out: &mut [u8], sites: Sites<'_>) -> usize
    requires { 8 + 6 * sites.count ≤ length out.old }
    ensures { Wrote 0 (field 1 (bytes_of 2 sites.entry.count) ++ field 2 (terms_of false [] (site_rows sites.entry.list.now))) out.old out.new result
        × (result ≤ 8 + 6 * sites.entry.count) }
{
    put_head(out, 0, Tag::Variables as u8, 2);
    words::write_u16(out, 3, sites.count);
    let end = put_terms(out, 8, sites, None);
    put_head(out, 5, Tag::Objective as u8, end - 8);
    end
}

// The whole file of two lists that have n rows each. Answers its length.
pub fn put_plan(out: &mut [u8], sites: &[u8], zones: &[u8], n: Counts) -> usize
    requires { ((refusal_of (site_rows sites.now) (zone_rows zones.now)).number ≡ 0) × (n.sites ≡ length (site_rows sites.now))
        × (n.zones ≡ length (zone_rows zones.now)) × (largest_file ≤ length out.old) }
    ensures { (out.new ≡ front (write (plan_of (site_rows sites.now) (zone_rows zones.now))) out.old)
        × (result ≡ length (write (plan_of (site_rows sites.now) (zone_rows zones.now)))) }
{
    let sites = Sites {
        list: sites,
        count: n.sites,
    };
    let end = put_front(out, sites);
    let last = put_clauses(out, end, sites, zones, n.zones);
    put_head(out, last, Tag::End as u8, 0);
    last + 3
}
