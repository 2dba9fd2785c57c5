// The rows of a list.
ghost use Rattle.std.specs.Prelude.{◌≡◌, ◌≤◌, length, take};
ghost use Rattle.std.proofs.Math.Option.{Option};
ghost use Rattle.plpb.specs.Lists.{any};
ghost use Rattle.cells.specs.Grammar.{Record, row_of, rows_of, column_of};
ghost use Rattle.cells.specs.Values.{gather, same_value};
ghost use Rattle.rows.specs.Reading.{Holds, Reads, columns, is_zones, place};

use cells::field::{last, lead};
use cells::value::{Value, empty, same};

// What a list lists: sites in three columns, or zones in four.
#[derive(Clone, Copy)]
pub enum Listed {
    Sites,
    Zones,
}

// The columns of a row. All four stand, as the grammar's row has them; only two are asked for.
#[derive(Clone, Copy)]
pub enum Column {
    First,
    Second,
    Third,
    Fourth,
}

// A row's fields and what follows it in the list. The fourth of a row of three is the empty value, as the grammar has it of a column that is not there
// (`column_of`): each reader of an absent one would turn it into that value.
// Which record a row holds is asked in each clause: the record is the grammar's, and a field of the row would have to name it.
#[derive(Clone, Copy)]
pub struct Row<'a> {
    pub first: Value,
    pub second: Value,
    pub third: Value,
    pub fourth: Value,
    pub rest: &'a [u8],
}

// record = field *(COMMA field), of as many fields as the list has columns. None is a malformed row: it takes the rest of the list. The two arms differ in
// which field ends the row, the third or the fourth. List and kind come side by side: the list is read off row by row while the kind stays, so that a struct
// of the two would be made anew at each row.
pub fn read_row(s: &[u8], listed: Listed) -> Option<Row<'_>>
    ensures { Reads (row_of (columns (is_zones listed)) s.now) result }
{
    let first = lead(s)?;
    let second = lead(first.rest)?;
    match listed {
        Listed::Sites => {
            let third = last(second.rest)?;
            Some(Row {
                first: first.value,
                second: second.value,
                third: third.value,
                fourth: empty(),
                rest: third.rest,
            })
        }
        Listed::Zones => {
            let third = lead(second.rest)?;
            let fourth = last(third.rest)?;
            Some(Row {
                first: first.value,
                second: second.value,
                third: third.value,
                fourth: fourth.value,
                rest: fourth.rest,
            })
        }
    }
}

// A row's field in a column.
pub fn field_in(row: Row<'_>, which: Column) -> Value
    ensures { (x : Option Record) → Holds x row.entry → result ≡ gather (column_of (place which) x) }
{
    match which {
        Column::First => row.first,
        Column::Second => row.second,
        Column::Third => row.third,
        Column::Fourth => row.fourth,
    }
}

// Whether one of a list's first rows has a value in a column. How many rows goes beside the list, since where a row ends is known only when it has been read:
// there is no part of the list to lend in place of the two. It is a loop and no iterator's `any`, for a row that is read is the numbers that its fields are
// gathered into: an iterator would have to list those in its contract, and each caller to tell the grammar's rows by them.
pub fn among(s: &[u8], listed: Listed, rows: usize, which: Column, value: Value) -> bool
    requires { rows ≤ length (rows_of (columns (is_zones listed)) s.now) }
    ensures { result ≡ any (λ x. same_value (gather (column_of (place which) x)) value) (take rows (rows_of (columns (is_zones listed)) s.now)) }
{
    let mut rest = s;
    for _row in 0..rows {
        // A malformed row is empty in each column, and no row follows it.
        let Some(row) = read_row(rest, listed) else {
            return same(empty(), value);
        };
        if same(field_in(row, which), value) {
            return true;
        }
        rest = row.rest;
    }
    false
}
