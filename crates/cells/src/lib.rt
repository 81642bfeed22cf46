// Bins, cells and the work map. What the crates above may cite: `survey`, the bounded cell that an offset names, and the reads inside its data.
//
// Everything below the survey speaks of the bins data, the part of the hive from 4096 on, at offsets in it.
#![tactic(auto)]

ghost use Rattle.std.specs.Prelude.{◌≡◌, ◌+◌, ◌-◌, ◌*◌, ◌/◌, ◌%◌, ◌≤◌, ◌<◌, length};
ghost use Rattle.cells.specs.Rule.{rule_of, lent};
ghost use Rattle.fields.specs.Number.{u32_at};
ghost use Rattle.cells.specs.Tiling.{good_size, tiling, row_of, bin_size, layout, survey_of};
ghost use Rattle.cells.specs.Terms.{Bin, Pages, Data, Without, Stands, NextFree, length_named, length_by, Inside, PartIn};
ghost use Rattle.cells.specs.Map.{mark_at, marks, marks_all, is_marked, map_after};
ghost use Rattle.cells.specs.Named.{cell_of, data_of, data_at, data_to, part_in, part_place};
ghost use Rattle.cells.specs.Survey.{front_fault, survey_answer, map_left};

use fields::{Fault, Flaw, Offset, Place};

// "the absolute value is a nonzero multiple of 8 and stays inside the bin", of which room bytes are left.
#[tactic(auto, unfolding(crate::specs::Tiling::good_size))]
fn good_size(n: usize, room: usize) -> bool
    ensures { result ≡ good_size n room }
{
    n != 0 && n % 8 == 0 && n <= room
}

// Sets the bit of the cell in use at an offset; a map that does not reach there stays.
fn mark(map: &mut [u8], at: usize)
    ensures { map.new ≡ mark_at map.old at }
{
    let j = at / 64;
    if j < map.len() {
        map[j] |= 1 << (at / 8 % 8);
    }
}

// Walks the cells from one offset to another, and sets the bit of each cell in use.
fn tile(bins: &[u8], start: usize, end: usize, map: &mut [u8]) -> Result<(usize, usize), Flaw>
    requires { Bin bins.now start end }
    ensures value { result ≡ row_of (tiling bins.now start end) 0 0 }
    ensures map_after { map.new ≡ marks (tiling bins.now start end) map.old }
{
    let mut at = start;
    let mut used: usize = 0;
    let mut free: usize = 0;
    while at < end {
        let c = fields::size_at(bins, at);
        let n = c.bytes as usize;
        if !good_size(n, end - at) {
            return Err(Flaw {
                fault: Fault::CellSize,
                place: Offset(at as u32),
            });
        }
        let next = at + n;
        if c.used {
            mark(map, at);
            used += n;
        } else {
            free += n;
        }
        at = next;
    }
    Ok((used, free))
}

// The size of the bin at an offset, or 0 where its header is bad: the number that the layout of specs/Tiling.antt is made of.
#[tactic(auto, unfolding(crate::specs::Tiling::bin_size))]
fn bin_size(bins: &[u8], at: usize) -> usize
    requires { at + 32 ≤ length bins.now }
    ensures { result ≡ bin_size bins.now at }
{
    let n = fields::u32_at(bins, at + 8) as usize;
    if fields::stands_at(bins, at, b"hbin")
        && fields::u32_at(bins, at + 4) as usize == at
        && n % 4096 == 0
        && n <= bins.len() - at
    {
        n
    } else {
        0
    }
}

// What the tiling counts.
#[derive(Clone, Copy)]
pub struct Tally {
    pub bins: usize,
    pub used: usize,
    pub free: usize,
}

// Walks the bins, header before cells, and sets the bit of each cell in use up to the first fault.
fn tile_bins(bins: &[u8], map: &mut [u8]) -> Result<Tally, Flaw>
    requires { Pages bins.now }
    ensures value { result ≡ survey_of (layout bins.now 0) 0 0 0 }
    ensures map_after { map.new ≡ marks_all (layout bins.now 0) map.old }
{
    let mut at: usize = 0;
    let mut count: usize = 0;
    let mut used: usize = 0;
    let mut free: usize = 0;
    while at < bins.len() {
        let n = bin_size(bins, at);
        if n == 0 {
            return Err(Flaw {
                fault: Fault::BinHeader,
                place: Offset(at as u32),
            });
        }
        let next = at + n;
        let (u, f) = tile(bins, at + 32, next, map)?;
        used += u;
        free += f;
        count += 1;
        at = next;
    }
    Ok(Tally {
        bins: count,
        used,
        free,
    })
}

// The same tests for a caller who has no map: the bits go where nobody reads them.
pub fn count_tiles(bins: &[u8]) -> Result<Tally, Flaw>
    requires { Pages bins.now }
    ensures { result ≡ survey_of (layout bins.now 0) 0 0 0 }
{
    let mut map = [0u8; 1];
    tile_bins(bins, &mut map)
}

// A free cell from an offset to another, in a bin that ends at `bin`; or none, at the end of the bins data.
#[derive(Clone, Copy)]
pub struct Gap {
    pub at: usize,
    pub end: usize,
    pub bin: usize,
}

// The next free cell, past the end of a cell and in bins that were tested: a caller starts at 0, 0, where the first bin does.
pub fn next_free(bins: &[u8], from: usize, end: usize) -> Gap
    requires { Stands bins.now from end }
    ensures { NextFree bins.now from end result }
{
    let mut cell = from;
    let mut bin = end;
    while cell < bins.len() {
        if cell == bin {
            let n = fields::u32_at(bins, bin + 8) as usize;
            cell = bin + 32;
            bin += n;
        } else {
            let c = fields::size_at(bins, cell);
            let next = cell + c.bytes as usize;
            if !c.used {
                return Gap {
                    at: cell,
                    end: next,
                    bin,
                };
            }
            cell = next;
        }
    }
    Gap {
        at: cell,
        end: cell,
        bin,
    }
}

// The tests 9 and 10: one pass, with the map complete where the bins are good, else cleared.
pub fn scan(bins: &[u8], map: &mut [u8]) -> Result<Tally, Flaw>
    requires { Data bins.now map.old }
    ensures value { result ≡ survey_of (layout bins.now 0) 0 0 0 }
    ensures map_after { map.new ≡ map_after bins.now result map.old }
{
    let n = bins.len() / 64;
    bitmap::clear(map, n);
    let r = tile_bins(bins, map);
    if r.is_err() {
        bitmap::clear(map, n);
    }
    r
}

// The tests 1 to 8.
fn front_flaw(hive: &[u8], room: usize) -> Result<(), Flaw>
    ensures { result ≡ front_fault hive.now room }
{
    base::base_flaw(hive)?;
    if room < base::bins_size(&hive[0..512]) / 64 {
        return fields::flawed(Fault::MapSmall, Offset(0));
    }
    Ok(())
}

// The tests 1 to 10, with the work map.
pub fn survey(hive: &[u8], map: &mut [u8]) -> Result<Tally, Flaw>
    ensures value { result ≡ survey_answer hive.now (length map.old) }
    ensures map_after { map.new ≡ map_left hive.now map.old }
{
    front_flaw(hive, map.len())?;
    scan(base::bins_of(hive), map)
}

// "A cell starts with a signed 32-bit size": the data follow it.
const SIZE_FIELD: usize = 4;

// The bounded cell: its offset, and how many bytes of data follow its size field.
#[derive(Clone, Copy)]
pub struct Cell {
    pub at: Offset,
    pub len: usize,
}

// How long the cell is that an offset names by its own header, or 0 where it names none. A number comes back in a register,
// a `Result<Cell, Flaw>` does not.
#[tactic(auto, unfolding(crate::specs::Terms::length_named, crate::specs::Named::is_named))]
fn header_length(bins: &[u8], o: Offset) -> usize
    ensures { result ≡ length_named bins.now o.0 }
{
    let at = o.0 as usize;
    if at < 32 || at % 8 != 0 || bins.len() < at + 4 {
        return 0;
    }
    let c = fields::size_at(bins, at);
    let n = c.bytes as usize;
    if c.used && good_size(n, bins.len() - at) {
        n
    } else {
        0
    }
}

// Whether the map has the bit of an offset set.
#[tactic(auto, unfolding(crate::specs::Map::is_marked))]
pub fn is_marked(map: &[u8], o: Offset) -> bool
    ensures { result ≡ is_marked map.now o.0 }
{
    let at = o.0 as usize;
    at % 8 == 0 && bitmap::is_marked(map, at / 8)
}

// The same, in a register too, for a caller who lends the map of the check; lookup lends none, and goes by the cell's own header.
#[tactic(auto, unfolding(crate::specs::Terms::length_by))]
fn named_length(bins: &[u8], map: Option<&[u8]>, o: Offset) -> usize
    ensures { result ≡ length_by (rule_of map.entry) bins.now (lent map.entry) o.0 }
{
    match map {
        Some(m) if !is_marked(m, o) => 0,
        _ => header_length(bins, o),
    }
}

// The cell in use that an offset names, or 11 at that offset.
pub fn find_cell(bins: &[u8], map: Option<&[u8]>, o: Offset) -> Result<Cell, Flaw>
    ensures { result ≡ cell_of (rule_of map.entry) bins.now (lent map.entry) o }
{
    let n = named_length(bins, map, o);
    if n == 0 {
        return Err(Flaw {
            fault: Fault::NoCell,
            place: o,
        });
    }
    Ok(Cell {
        at: o,
        len: n - SIZE_FIELD,
    })
}

// A cell's data, as a part of the bins data.
pub fn cell_data(bins: &[u8], c: Cell) -> &[u8]
    requires { Inside bins.now c }
    ensures { result.now ≡ data_of bins.now c }
{
    let start = c.at.0 as usize + SIZE_FIELD;
    &bins[start..start + c.len]
}

// What would be the data of a cell that starts at an offset and ends at another.
pub fn data_to(bins: &[u8], at: usize, end: usize) -> &[u8]
    requires at_bound { at + 4 ≤ end }
    requires end_in_bounds { end ≤ length bins.now }
    ensures { result.now ≡ data_to bins.now at end }
{
    &bins[at + SIZE_FIELD..end]
}

// The first multiple of 8, from an offset on and up to an end, at which the data of a cell would have a byte at a position; or the end.
pub fn next_with(bins: &[u8], at: usize, end: usize, i: usize, byte: u8) -> usize
    requires bin { Bin bins.now at end }
    requires i_bound { i < 4 }
    ensures { Without bins.now at end i byte result }
{
    // A cursor: where it stops is the answer.
    let mut o = at;
    while o < end {
        if bins[o + SIZE_FIELD + i] == byte {
            return o;
        }
        o += 8;
    }
    o
}

// A part of the data of a cell that was tested.
pub fn part_in(bins: &[u8], o: Offset, at: usize, len: usize) -> &[u8]
    requires { PartIn bins.now o at len }
    ensures { result.now ≡ part_in bins.now o at len }
{
    let start = o.0 as usize + SIZE_FIELD + at;
    &bins[start..start + len]
}

// A number in the data of a cell that was tested.
pub fn word_in(bins: &[u8], o: Offset, at: usize) -> u32
    requires { at + 4 ≤ length (data_at bins.now o) }
    ensures { result ≡ u32_at (data_at bins.now o) at }
{
    fields::u32_at(bins, o.0 as usize + SIZE_FIELD + at)
}

// Where in the file a part of a cell's data stands; what is no part, at 0.
#[tactic(auto, unfolding(crate::specs::Named::part_place))]
pub fn part_place(o: Offset, at: usize, len: usize) -> Place
    requires { at < 4294967296 }
    ensures { result ≡ part_place o at len }
{
    if at == 0 && len == 0 {
        Place(0)
    } else {
        Place(fields::to_place(o).0 + SIZE_FIELD + at)
    }
}
