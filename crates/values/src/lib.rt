// Values and their data, in bounded cells. A record's tests read the data of its cell and nothing else.
#![tactic(auto)]

ghost use Rattle.std.specs.Prelude.{◌≡◌, ◌+◌, ◌*◌, ◌<◌, ◌≤◌, ◌++◌, length, get_or, drop};
ghost use Rattle.cells.specs.Rule.{rule_of, lent};
ghost use Rattle.std.proofs.Math.Seq.{paste};
ghost use Rattle.fields.specs.Faults.{nowhere, fault_over};
ghost use Rattle.cells.specs.Named.{data_at};
ghost use Rattle.values.specs.Records.{is_value_name, is_data_size, value_narrow, is_old_value, is_value, value_fault, is_segmented, content_of, fields_of, value_of, valued};
ghost use Rattle.values.specs.Entries.{entries_at, entries_of};
ghost use Rattle.values.specs.Terms.{Room, entered, Lies, SegmentsLie};
ghost use Rattle.values.specs.Segments.{room_fault, segments_for, is_db, segment_length, segment_list, segments_in, segment_fault, segment_list_fault, segments_fault, data_fault, joined_bytes, bytes_of, length_of};
ghost use Rattle.values.specs.Parts.{part_of};
ghost use Rattle.values.specs.Lists.{value_list_fault, value_entries, whole_value_fault, values_fault};

use fields::{Fault, Flaw, Offset};

// "at most 16,383 characters, even bytes if UTF-16"
#[tactic(auto, unfolding(crate::specs::Records::is_value_name))]
fn is_value_name(len: usize, narrow: bool) -> bool
    ensures { result ≡ is_value_name len narrow }
{
    records::is_whole(len, narrow) && names::characters(len, narrow) <= 16383
}

const TOP_BIT: u32 = 0x8000_0000;

// "Top bit of the size set: length at most 4, bytes lie at 8. Otherwise at most 1,048,576"
#[tactic(auto, unfolding(crate::specs::Records::is_data_size))]
fn is_data_size(size: u32) -> bool
    ensures { result ≡ is_data_size size }
{
    if TOP_BIT <= size {
        size - TOP_BIT <= 4
    } else {
        size <= 1_048_576
    }
}

// "flags at 16 (0x0001: one byte per character)"
pub fn is_narrow(r: &[u8]) -> bool
    requires { 18 ≤ length r.now }
    ensures { result ≡ value_narrow r.now }
{
    fields::u16_at(r, 16) % 2 == 1
}

// Whether bytes start with a value record: 20 bytes and the name, whatever it says of its data.
#[tactic(auto, unfolding(crate::specs::Records::is_old_value))]
pub fn is_old_value(r: &[u8]) -> bool
    ensures { result ≡ is_old_value r.now }
{
    if r.len() < 20 || !fields::stands_at(r, 0, b"vk") {
        return false;
    }
    let len = fields::u16_at(r, 2) as usize;
    20 + len <= r.len() && is_value_name(len, is_narrow(r))
}

// Whether a cell's data hold a value record: with a data size that may be.
#[tactic(auto, unfolding(crate::specs::Records::is_value), using(crate::proofs::Tests::old))]
fn is_value(r: &[u8]) -> bool
    ensures { result ≡ is_value r.now }
{
    is_old_value(r) && is_data_size(fields::u32_at(r, 4))
}

// "data are inline, in one cell or in segments": value data as an enum with three cases carrying offset and length, read by view and copy. Each names a
// cell: inline data lie in the value's own.
#[derive(Clone, Copy)]
pub enum ValueData {
    Inline { cell: Offset, len: u32 },
    OneCell { cell: Offset, len: u32 },
    Segments { cell: Offset, len: u32 },
}

// The fields of a value record.
#[derive(Clone, Copy)]
pub struct Value {
    pub kind: u32,
    pub content: ValueData,
    pub name: records::Name,
}

// "each segment but the last holds 16,344 bytes"
const SEGMENT_SIZE: usize = 16344;

// "Over 16,344 with minor 4 or 5: the cell holds `db`"
#[tactic(auto, unfolding(crate::specs::Records::is_segmented))]
fn is_segmented(minor: u32, size: u32) -> bool
    ensures { result ≡ is_segmented minor size }
{
    SEGMENT_SIZE < size as usize && 4 <= minor
}

// Where the data lie, by the record of the value at an offset.
#[tactic(auto, unfolding(crate::specs::Records::content_of))]
fn content_of(r: &[u8], minor: u32, v: Offset) -> ValueData
    requires { 12 ≤ length r.now }
    ensures { result ≡ content_of r.now minor v }
{
    let size = fields::u32_at(r, 4);
    if TOP_BIT <= size {
        return ValueData::Inline {
            cell: v,
            len: size - TOP_BIT,
        };
    }
    let cell = Offset(fields::u32_at(r, 8));
    if is_segmented(minor, size) {
        ValueData::Segments { cell, len: size }
    } else {
        ValueData::OneCell { cell, len: size }
    }
}

// The fields of the record of the value at an offset.
#[tactic(auto, unfolding(crate::specs::Records::fields_of))]
fn fields_of(r: &[u8], minor: u32, v: Offset) -> Value
    requires { 20 ≤ length r.now }
    ensures { result ≡ fields_of r.now minor v }
{
    Value {
        kind: fields::u32_at(r, 12),
        content: content_of(r, minor, v),
        name: records::Name {
            cell: v,
            at: 20,
            len: fields::u16_at(r, 2) as usize,
            narrow: is_narrow(r),
        },
    }
}

// The value at an offset, parsed once: its cell, then its record.
#[tactic(auto, using(crate::proofs::Valued_at::value_ways, cells::proofs::Naming::inside, crate::proofs::Tests::value_long))]
pub fn value_at(bins: &[u8], map: Option<&[u8]>, minor: u32, v: Offset) -> Result<Value, Flaw>
    ensures { result ≡ valued (value_fault (rule_of map.entry) bins.now (lent map.entry) v) (value_of bins.now minor v) }
{
    let c = cells::find_cell(bins, map, v)?;
    let r = cells::cell_data(bins, c);
    if !is_value(r) {
        return Err(Flaw {
            fault: Fault::Record,
            place: v,
        });
    }
    Ok(fields_of(r, minor, v))
}

// An offset names a cell with room for so many bytes: 11, or 12 at that cell.
#[tactic(auto, using(crate::proofs::Rooms::room_ways))]
fn room_flaw(bins: &[u8], map: Option<&[u8]>, o: Offset, n: usize) -> Result<(), Flaw>
    ensures { result ≡ room_fault (rule_of map.entry) bins.now (lent map.entry) o n }
{
    let c = cells::find_cell(bins, map, o)?;
    if c.len < n {
        return fields::flawed(Fault::Record, o);
    }
    Ok(())
}

// Offsets that stand one after the other from the start of a cell's data on: the elements of a value list or of a segment list.
#[derive(Clone, Copy)]
pub struct Entries {
    pub cell: Offset,
    pub count: usize,
}

// The list whose cell an offset names, with room for so many elements.
fn list_at(bins: &[u8], map: Option<&[u8]>, o: Offset, count: u32) -> Result<Entries, Flaw>
    ensures { result ≡ entered (room_fault (rule_of map.entry) bins.now (lent map.entry) o (4 * count)) (entries_at o count) }
{
    let count = count as usize;
    room_flaw(bins, map, o, 4 * count)?;
    Ok(Entries { cell: o, count })
}

// Element i of a list.
pub fn entry(bins: &[u8], e: Entries, i: usize) -> Offset
    requires room { Room bins.now e }
    requires i_lt_count { i < e.count }
    ensures { result ≡ get_or (entries_of bins.now e) i nowhere }
{
    Offset(cells::word_in(bins, e.cell, 4 * i))
}

// A segment, of which the definitions speak: its cell, and how many bytes of the data it holds.
#[derive(Clone, Copy)]
pub struct Segment {
    pub at: Offset,
    pub len: usize,
}

// "count is size / 16,344 rounded up"
#[tactic(auto, unfolding(crate::specs::Segments::segments_for))]
fn segments_for(size: u32) -> u32
    ensures { result ≡ segments_for size }
{
    (size as usize).div_ceil(SEGMENT_SIZE) as u32
}

// "each segment but the last holds 16,344 bytes", of so many that are left
#[tactic(auto, unfolding(crate::specs::Segments::segment_length))]
fn segment_length(left: usize) -> usize
    ensures { result ≡ segment_length left }
{
    left.min(SEGMENT_SIZE)
}

// "the cell holds `db`, segment count at 2, offset of the segment list at 4"
#[tactic(auto, unfolding(crate::specs::Segments::is_db))]
fn is_db(r: &[u8], size: u32) -> bool
    ensures { result ≡ is_db r.now size }
{
    8 <= r.len()
        && fields::stands_at(r, 0, b"db")
        && u32::from(fields::u16_at(r, 2)) == segments_for(size)
}

// "`db` cell and record, segment list's cell and room"
#[tactic(auto, using(crate::proofs::Segment_faults::db_ways, cells::proofs::Naming::inside))]
fn segment_list(bins: &[u8], map: Option<&[u8]>, o: Offset, size: u32) -> Result<Entries, Flaw>
    ensures { result ≡ entered (segment_list_fault (rule_of map.entry) bins.now (lent map.entry) o size) (entries_at (segment_list bins.now o) (segments_for size)) }
{
    let c = cells::find_cell(bins, map, o)?;
    let r = cells::cell_data(bins, c);
    if !is_db(r, size) {
        return Err(Flaw {
            fault: Fault::Record,
            place: o,
        });
    }
    list_at(bins, map, Offset(fields::u32_at(r, 4)), segments_for(size))
}

// ".. then the segments in order, each 11 then 12"
fn each_segment_flaw(bins: &[u8], map: Option<&[u8]>, e: Entries, size: usize) -> Result<(), Flaw>
    requires { Room bins.now e }
    ensures { result ≡ fault_over (segment_fault (rule_of map.entry) bins.now (lent map.entry)) (segments_in bins.now e size) }
{
    let mut left = size;
    for i in 0..e.count {
        let n = segment_length(left);
        room_flaw(bins, map, entry(bins, e, i), n)?;
        left -= n;
    }
    Ok(())
}

#[tactic(auto, using(crate::proofs::Segment_faults::segments_ways))]
fn segments_flaw(bins: &[u8], map: Option<&[u8]>, o: Offset, size: u32) -> Result<(), Flaw>
    ensures { result ≡ segments_fault (rule_of map.entry) bins.now (lent map.entry) o size }
{
    let e = segment_list(bins, map, o, size)?;
    each_segment_flaw(bins, map, e, size as usize)
}

// The data's own 11 and 12. "size 0 reads nothing"
#[tactic(auto, unfolding(crate::specs::Segments::data_fault))]
pub fn data_flaw(bins: &[u8], map: Option<&[u8]>, x: ValueData) -> Result<(), Flaw>
    ensures { result ≡ data_fault (rule_of map.entry) bins.now (lent map.entry) x }
{
    match x {
        ValueData::Inline { .. } | ValueData::OneCell { len: 0, .. } => Ok(()),
        ValueData::OneCell { cell, len } => room_flaw(bins, map, cell, len as usize),
        ValueData::Segments { cell, len } => segments_flaw(bins, map, cell, len),
    }
}

// A value's record, then its data. The check wants no name and no type, so they are not gathered.
#[tactic(auto, using(crate::proofs::Valued_at::whole_ways, cells::proofs::Naming::inside, crate::proofs::Tests::value_long))]
fn whole_value_flaw(bins: &[u8], map: Option<&[u8]>, minor: u32, v: Offset) -> Result<(), Flaw>
    ensures { result ≡ whole_value_fault (rule_of map.entry) bins.now (lent map.entry) minor v }
{
    let c = cells::find_cell(bins, map, v)?;
    let r = cells::cell_data(bins, c);
    if !is_value(r) {
        return fields::flawed(Fault::Record, v);
    }
    data_flaw(bins, map, content_of(r, minor, v))
}

// The value list of a key: its cell, and its room for all elements. Value count 0 reads nothing.
#[tactic(auto, unfolding(crate::specs::Lists::value_list_fault, crate::specs::Lists::value_entries))]
pub fn value_list(bins: &[u8], map: Option<&[u8]>, k: records::Key) -> Result<Entries, Flaw>
    ensures { result ≡ entered (value_list_fault (rule_of map.entry) bins.now (lent map.entry) k) (value_entries k) }
{
    if k.values == 0 {
        return Ok(Entries {
            cell: Offset(0),
            count: 0,
        });
    }
    list_at(bins, map, k.value_list, k.values)
}

// "values in order with their data": a value's record, then its data, then the next value.
fn each_value_flaw(bins: &[u8], map: Option<&[u8]>, minor: u32, e: Entries) -> Result<(), Flaw>
    requires { Room bins.now e }
    ensures { result ≡ fault_over (whole_value_fault (rule_of map.entry) bins.now (lent map.entry) minor) (entries_of bins.now e) }
{
    for i in 0..e.count {
        whole_value_flaw(bins, map, minor, entry(bins, e, i))?;
    }
    Ok(())
}

// The check's stage of a key's values.
#[tactic(auto, using(crate::proofs::LawsLists::values_ways))]
pub fn values_flaw(bins: &[u8], map: Option<&[u8]>, minor: u32, k: records::Key) -> Result<(), Flaw>
    ensures { result ≡ values_fault (rule_of map.entry) bins.now (lent map.entry) minor k }
{
    let e = value_list(bins, map, k)?;
    each_value_flaw(bins, map, minor, e)
}

// A part of a cell's data: so many bytes from a position on.
#[derive(Clone, Copy)]
pub struct Part {
    pub cell: Offset,
    pub at: usize,
    pub len: usize,
}

// Where data in one piece lie, for a view and for a copy: "bytes lie at 8" of the value's record, or at the start of their cell, where segmented data
// have their `db`.
#[tactic(auto, unfolding(crate::specs::Parts::part_of))]
pub fn part_of(x: ValueData) -> Part
    ensures { result ≡ part_of x }
{
    match x {
        ValueData::Inline { cell, len } => Part {
            cell,
            at: 8,
            len: len as usize,
        },
        ValueData::OneCell { cell, len } | ValueData::Segments { cell, len } => Part {
            cell,
            at: 0,
            len: len as usize,
        },
    }
}

// Copies a part of a cell's data into the middle part of `out` that starts at `to`. "size 0 reads nothing", so that then the offset may name no cell.
fn copy_part(bins: &[u8], p: Part, out: &mut [u8], to: usize)
    requires len_in_bounds { p.at + p.len ≤ length (data_at bins.now p.cell) }
    requires len_in_bounds_2 { to + p.len ≤ length out.old }
    ensures { out.new ≡ paste out.old to (drop p.at (data_at bins.now p.cell)) p.len }
{
    if p.len == 0 {
        return;
    }
    out[to..to + p.len].copy_from_slice(cells::part_in(bins, p.cell, p.at, p.len));
}

// The segments' bytes, one after the other.
fn copy_segments(bins: &[u8], e: Entries, size: usize, out: &mut [u8])
    requires segments_lie { SegmentsLie bins.now e size }
    requires size_in_bounds { size ≤ length out.old }
    ensures { out.new ≡ joined_bytes bins.now (segments_in bins.now e size) ++ drop size out.old }
{
    let mut left = size;
    for i in 0..e.count {
        let n = segment_length(left);
        let p = Part {
            cell: entry(bins, e, i),
            at: 0,
            len: n,
        };
        copy_part(bins, p, out, size - left);
        left -= n;
    }
}

// The segment list of a `db` that was tested.
fn segments_at(bins: &[u8], o: Offset, size: u32) -> Entries
    requires { 8 ≤ length (data_at bins.now o) }
    ensures { result ≡ entries_at (segment_list bins.now o) (segments_for size) }
{
    Entries {
        cell: Offset(cells::word_in(bins, o, 4)),
        count: segments_for(size) as usize,
    }
}

// Writes the data's bytes to the start of `out`, and no other byte.
pub fn copy_data(bins: &[u8], x: ValueData, out: &mut [u8])
    requires lies { Lies bins.now x }
    requires x_in_bounds { length_of x ≤ length out.old }
    ensures { out.new ≡ bytes_of bins.now x ++ drop (length_of x) out.old }
{
    match x {
        ValueData::Inline { .. } | ValueData::OneCell { .. } => copy_part(bins, part_of(x), out, 0),
        ValueData::Segments { cell, len } => copy_segments(
            bins,
            segments_at(bins, cell, len),
            len as usize,
            out,
        ),
    }
}
