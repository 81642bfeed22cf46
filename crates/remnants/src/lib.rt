// What deletion left behind: the key and value records that still lie in the free cells of a hive. The tree is not walked and there is no work map.
#![tactic(auto)]

ghost use Rattle.std.specs.Prelude.{◌≡◌, ◌+◌, ◌%◌, ◌≤◌, length};
ghost use Rattle.std.proofs.lemmas.List.Edits.{sets};
ghost use Rattle.base.specs.Block.{bins_limit};
ghost use Rattle.cells.specs.Terms.{Stands};
ghost use Rattle.remnants.specs.Remnants.{kind_of, kind_at, remain_of, remain_at, remnants_of, not_below, first_of, tiles_fault, remnant_answer, kind_word, words_of, filled_with, rows_answer, poured, rows_out};
ghost use Rattle.remnants.specs.Terms.{Spotted, Free, Skipped, Hits, At, cursor, Sought, Sees, sought_left, count_from, pour_from};

use fields::{Fault, Flaw, Offset, Place, Refusal};

// Which record was left: that of a key or that of a value.
#[derive(Clone, Copy)]
pub enum Kind {
    Key,
    Value,
}

// A record that was left: the offset of its cell that was, its kind, and where its name stands in the file: `len` bytes from `name` on, one for each
// character if narrow, else UTF-16LE.
#[derive(Clone, Copy)]
pub struct Remain {
    pub at: Offset,
    pub kind: Kind,
    pub name: Place,
    pub len: usize,
    pub narrow: bool,
}

// What bytes start with: a key record or a value record that ends inside them and has an admissible name. No count, offset or data size is judged.
#[tactic(auto, unfolding(crate::specs::Remnants::kind_of))]
fn kind_of(r: &[u8]) -> Option<Kind>
    ensures { result ≡ kind_of r.now }
{
    if records::is_key(r) {
        Some(Kind::Key)
    } else if values::is_old_value(r) {
        Some(Kind::Value)
    } else {
        None
    }
}

// The record is that of a cell at an offset; the cell's size field is not read: inside a free cell it is an old one.
#[tactic(auto, unfolding(crate::specs::Remnants::kind_at))]
fn kind_at(bins: &[u8], at: usize, end: usize) -> Option<Kind>
    requires at_bound { at + 4 ≤ end }
    requires end_in_bounds { end ≤ length bins.now }
    ensures { result ≡ kind_at bins.now at end }
{
    kind_of(cells::data_to(bins, at, end))
}

// The record r of a key whose cell stood at an offset.
#[tactic(auto, unfolding(crate::specs::Remnants::remain_of))]
fn key_remain(r: &[u8], at: usize) -> Remain
    requires in_bounds { 76 ≤ length r.now }
    requires at_le_bins_limit { at ≤ bins_limit }
    ensures value { result ≡ remain_of Kind.Key r.now at }
    ensures len_bound { result.len ≤ 65535 }
{
    let o = Offset(at as u32);
    let len = fields::u16_at(r, 72) as usize;
    Remain {
        at: o,
        kind: Kind::Key,
        name: cells::part_place(o, 76, len),
        len,
        narrow: records::is_flagged(fields::u16_at(r, 2), 32),
    }
}

// The record r of a value whose cell stood at an offset.
#[tactic(auto, unfolding(crate::specs::Remnants::remain_of))]
fn value_remain(r: &[u8], at: usize) -> Remain
    requires in_bounds { 20 ≤ length r.now }
    requires at_le_bins_limit { at ≤ bins_limit }
    ensures value { result ≡ remain_of Kind.Value r.now at }
    ensures len_bound { result.len ≤ 65535 }
{
    let o = Offset(at as u32);
    let len = fields::u16_at(r, 2) as usize;
    Remain {
        at: o,
        kind: Kind::Value,
        name: cells::part_place(o, 20, len),
        len,
        narrow: values::is_narrow(r),
    }
}

// The record at a position whose kind is known.
#[tactic(auto, unfolding(crate::specs::Remnants::remain_at, crate::specs::Remnants::kind_at), using(crate::proofs::Held::long_ways))]
fn remain_at(bins: &[u8], at: usize, end: usize, kind: Kind) -> Remain
    requires { Spotted bins.now at end kind }
    ensures value { result ≡ remain_at bins.now at end kind }
    ensures len_bound { result.len ≤ 65535 }
{
    let r = cells::data_to(bins, at, end);
    match kind {
        Kind::Key => key_remain(r, at),
        Kind::Value => value_remain(r, at),
    }
}

// A position of a free cell and what it holds, or the cell's end.
#[derive(Clone, Copy)]
struct Hit {
    at: usize,
    kind: Option<Kind>,
}

// The first multiple of 8 at or past `from`, from one on, up to an end.
fn skip(at: usize, end: usize, from: usize) -> usize
    requires at_le_end { at ≤ end }
    requires at_value { at % 8 ≡ 0 }
    requires end_value { end % 8 ≡ 0 }
    ensures { Skipped at end from result }
{
    if from <= at {
        at
    } else if end <= from {
        end
    } else {
        from.next_multiple_of(8)
    }
}

// The second byte of both signatures, "nk" and "vk": a position without it holds no record.
const SECOND: u8 = 107;

// The first record at or past `from` of a free cell, from an offset of it on.
fn find(bins: &[u8], at: usize, end: usize, from: usize) -> Hit
    requires { Free bins.now at end }
    ensures { Hits bins.now at end from result }
{
    let mut o = cells::next_with(bins, skip(at, end, from), end, 1, SECOND);
    while o < end {
        let kind = kind_at(bins, o, end);
        if kind.is_some() {
            return Hit { at: o, kind };
        }
        o = cells::next_with(bins, o + 8, end, 1, SECOND);
    }
    Hit {
        at: end,
        kind: None,
    }
}

// A position of a survey: in a free cell that ends at `cell`, in a bin that ends at `bin`.
#[derive(Clone, Copy)]
struct Cursor {
    at: usize,
    cell: usize,
    bin: usize,
    kind: Option<Kind>,
}

// The first record at or past `from`, from a position on; or the end.
fn seek(bins: &[u8], c: Cursor, from: usize) -> Cursor
    requires { At bins.now c }
    ensures { Sees bins.now c from result }
{
    let mut at = c.at;
    let mut cell = c.cell;
    let mut bin = c.bin;
    while at < bins.len() {
        let hit = find(bins, at, cell, from);
        if hit.kind.is_some() {
            return Cursor {
                at: hit.at,
                cell,
                bin,
                kind: hit.kind,
            };
        }
        let next = cells::next_free(bins, cell, bin);
        at = next.at;
        cell = next.end;
        bin = next.bin;
    }
    Cursor {
        at,
        cell,
        bin,
        kind: None,
    }
}

// The first record at or past `from`, of bins and cells that were tested.
fn first(bins: &[u8], from: usize) -> Cursor
    requires { Stands bins.now 0 0 }
    ensures { Sees bins.now (cursor 0 0 0) from result }
{
    seek(
        bins,
        Cursor {
            at: 0,
            cell: 0,
            bin: 0,
            kind: None,
        },
        from,
    )
}

// The tests 1 to 7, 9 and 10.
#[tactic(auto, using(crate::proofs::Tests::tiles_ways))]
fn tiles_flaw(hive: &[u8]) -> Result<(), Flaw>
    ensures { result ≡ tiles_fault hive.now }
{
    base::base_flaw(hive)?;
    cells::count_tiles(base::bins_of(hive))?;
    Ok(())
}

// A step of the survey, in bins and cells that were tested.
fn next_in(bins: &[u8], from: usize) -> Result<Option<Remain>, Refusal>
    requires { Stands bins.now 0 0 }
    ensures { result ≡ first_of (not_below from (remnants_of bins.now)) }
{
    let c = first(bins, from);
    let Some(kind) = c.kind else {
        return Ok(None);
    };
    Ok(Some(remain_at(bins, c.at, c.cell, kind)))
}

// The first record at or past an offset. Start with 0, and go on with the offset found + 1 until None. Every call makes all tests.
#[tactic(auto, unfolding(crate::specs::Remnants::remnant_answer), using(crate::proofs::Tests::sound_ways))]
pub fn next(hive: &[u8], from: usize) -> Result<Option<Remain>, Refusal>
    ensures { result ≡ remnant_answer hive.now from }
{
    tiles_flaw(hive)?;
    next_in(base::bins_of(hive), from)
}

// The word of a kind.
fn kind_word(kind: Kind) -> u32
    ensures { result ≡ kind_word kind }
{
    match kind {
        Kind::Key => 1,
        Kind::Value => 2,
    }
}

// Stores four words of a record from an index on.
fn store(rows: &mut [u32], i: usize, x: Remain)
    requires i_in_bounds { i + 4 ≤ length rows.old }
    requires len_bound { x.len ≤ 65535 }
    ensures { rows.new ≡ sets rows.old i (words_of x) }
{
    rows[i] = x.at.0;
    rows[i + 1] = kind_word(x.kind);
    rows[i + 2] = x.len as u32;
    rows[i + 3] = u32::from(x.narrow);
}

// Stores the records from a position on, row after row, as many as there is room for.
fn fill(bins: &[u8], start: Cursor, from: usize, rows: &mut [u32]) -> usize
    requires { Sought bins.now from start }
    ensures value { result ≡ count_from (sought_left bins.now from start) 0 (length rows.old) }
    ensures rows_after { rows.new ≡ pour_from (sought_left bins.now from start) 0 rows.old }
{
    let mut c = start;
    let mut n: usize = 0;
    // A cursor moves here with the rows, so that no `for` over them is plainer.
    while 4 <= rows.len() - 4 * n {
        let Some(kind) = c.kind else {
            return n;
        };
        store(rows, 4 * n, remain_at(bins, c.at, c.cell, kind));
        let past = Cursor {
            at: c.at + 8,
            cell: c.cell,
            bin: c.bin,
            kind: None,
        };
        c = seek(bins, past, from);
        n += 1;
    }
    n
}

// The rows in bins and cells that were tested.
fn rows_in(bins: &[u8], from: usize, rows: &mut [u32]) -> Result<Option<usize>, Refusal>
    requires { Stands bins.now 0 0 }
    ensures value { result ≡ filled_with (length rows.old) (not_below from (remnants_of bins.now)) }
    ensures rows_after { rows.new ≡ poured (not_below from (remnants_of bins.now)) rows.old }
{
    let c = first(bins, from);
    if c.kind.is_none() {
        return Ok(None);
    }
    if rows.len() < 4 {
        return Err(Refusal::from(Flaw {
            fault: Fault::OutputShort,
            place: Offset(0),
        }));
    }
    Ok(Some(fill(bins, c, from, rows)))
}

// All records at or past an offset in one pass, four words for each: its offset, 1 for a key or 2 for a value, its name's length in bytes, and 1 where
// that has one byte per character. Whole rows only, as many as there is room for: the words behind the last one stay.
#[tactic(auto, unfolding(crate::specs::Remnants::rows_answer, crate::specs::Remnants::rows_out), using(crate::proofs::Tests::sound_ways))]
pub fn rows(hive: &[u8], from: usize, rows: &mut [u32]) -> Result<Option<usize>, Refusal>
    ensures value { result ≡ rows_answer hive.now from (length rows.old) }
    ensures rows_after { rows.new ≡ rows_out hive.now from rows.old }
{
    tiles_flaw(hive)?;
    rows_in(base::bins_of(hive), from, rows)
}
