// A value's data: info, view and copy, below the key of a path. There is no work map: an offset names a cell by the cell's own header.
#![tactic(auto)]

ghost use Rattle.std.specs.Prelude.{◌≡◌, [], ◌+◌, length, Ok};
ghost use Rattle.base.specs.Block.{bins_data, base_fault};
ghost use Rattle.cells.specs.Rule.{Header};
ghost use Rattle.values.specs.Entries.{entries_of};
ghost use Rattle.values.specs.Terms.{Room, Lies};
ghost use Rattle.values.specs.Records.{value_of};
ghost use Rattle.values.specs.Segments.{data_fault, length_of};
ghost use Rattle.values.specs.Lists.{whole_value_fault};
ghost use Rattle.paths.specs.Children.{child_answer, quick_child};
ghost use Rattle.lookup.specs.Search.{value_named, search_values, lookup_value};
ghost use Rattle.lookup.specs.Spots.{spot_in, spot_of, spot_answer};
ghost use Rattle.fields.specs.declared.Fault.TheVariants.{NoValue};
ghost use Rattle.fields.specs.Faults.{flaw, nowhere, refusal_of};
ghost use Rattle.lookup.specs.Answers.{in_key, value_look_by, info_of, view_fault, viewed_fault, info_where, info_by, info_answer, quick_info, view_by, view_answer, quick_view, view_start_by, view_start, quick_view_start, view_bytes_by, view_bytes, quick_view_bytes, copied_to, copy_by, copy_answer, quick_copy, written, copy_out_by, copy_out, quick_out};

use fields::{Fault, Flaw, Offset, Place, Refusal};
use paths::Way;
use records::Key;
use search::How;
use values::{Entries, Value, ValueData};

// One value, against a name, which is compared in place.
#[tactic(auto, unfolding(crate::specs::Search::value_named), using(crate::proofs::Value_searches::value_ways))]
fn value_named(bins: &[u8], minor: u32, name: &[u16], v: Offset) -> Result<Option<Offset>, Flaw>
    ensures { result ≡ value_named bins.now minor name.now v }
{
    let x = values::value_at(bins, None, minor, v)?;
    Ok(records::is_called(bins, x.name, name).then_some(v))
}

// The values of a list, in order, up to the first match.
#[tactic(auto, using(crate::proofs::Value_searches::turn_ways))]
fn search_values(bins: &[u8], minor: u32, name: &[u16], e: Entries) -> Result<Option<Offset>, Flaw>
    requires { Room bins.now e }
    ensures { result ≡ search_values bins.now minor name.now (entries_of bins.now e) }
{
    for n in 0..e.count {
        let v = values::entry(bins, e, n);
        if let Some(o) = value_named(bins, minor, name, v)? {
            return Ok(Some(o));
        }
    }
    Ok(None)
}

// The first value of a key that has the name.
#[tactic(auto, using(crate::proofs::Value_searches::list_ways))]
fn lookup_value(bins: &[u8], minor: u32, name: &[u16], k: Key) -> Result<Option<Offset>, Flaw>
    ensures { result ≡ lookup_value bins.now minor name.now k }
{
    let e = values::value_list(bins, None, k)?;
    search_values(bins, minor, name, e)
}

// Where the search for a value ends: at its key and itself, or at a key that has no value of the name.
#[derive(Clone, Copy)]
pub enum Spot {
    Found(Offset, Offset),
    Missing(Offset),
}

// A search among the values of a key is made on behalf of that key.
fn in_key(key: Offset, l: Result<Option<Offset>, Flaw>) -> Result<Spot, Refusal>
    ensures { result ≡ in_key key l }
{
    Ok(match l.map_err(|f| fields::refused(key, f))? {
        Some(v) => Spot::Found(key, v),
        None => Spot::Missing(key),
    })
}

// The value of a name, of the key of a path in a hive.
#[tactic(auto, using(crate::proofs::Value_searches::look_ways))]
fn value_look(hive: &[u8], path: &[u16], name: &[u16], how: How) -> Result<Spot, Refusal>
    ensures { result ≡ value_look_by how hive.now path.now name.now }
{
    match paths::key_look(hive, path, how)? {
        Way::Missing(key) => Err(Refusal {
            fault: Fault::NoKey,
            place: Offset(0),
            key,
        }),
        Way::Found(o) => {
            let bins = base::bins_of(hive);
            let k = records::key_fields(bins, o);
            in_key(o, lookup_value(bins, base::minor_of(hive), name, k))
        }
    }
}

// A value: its registry type, the case of its data, and where in the file these lie.
#[derive(Clone, Copy)]
pub struct Info {
    pub kind: u32,
    pub content: ValueData,
    pub at: Place,
    pub len: usize,
}

#[tactic(auto, unfolding(crate::specs::Answers::info_of, crate::specs::Answers::place_in), using(crate::proofs::Value_answers::part_ways))]
fn info_of(x: Value) -> Info
    ensures { result ≡ info_of x }
{
    let p = values::part_of(x.content);
    Info {
        kind: x.kind,
        content: x.content,
        at: cells::part_place(p.cell, p.at, p.len),
        len: p.len,
    }
}

// A value whose data have passed their tests, or the data's own 11 or 12.
fn info_where(bins: &[u8], key: Offset, x: Value) -> Result<Info, Refusal>
    ensures { result ≡ info_where key (data_fault Header bins.now [] x.content) (info_of x) }
{
    values::data_flaw(bins, None, x.content).map_err(|f| fields::refused(key, f))?;
    Ok(info_of(x))
}

// The value at an offset: its record, then its data, in the examination of a key.
#[tactic(auto, using(crate::proofs::Value_answers::where_ways))]
pub fn whole_info(bins: &[u8], minor: u32, key: Offset, v: Offset) -> Result<Info, Refusal>
    ensures { result ≡ info_where key (whole_value_fault Header bins.now [] minor v) (info_of (value_of bins.now minor v)) }
{
    let read = values::value_at(bins, None, minor, v);
    let x = read.map_err(|f| fields::refused(key, f))?;
    info_where(bins, key, x)
}

// "19: view asked of segmented data"
#[tactic(auto, unfolding(crate::specs::Answers::view_fault))]
fn view_flaw(v: Offset, x: ValueData) -> Result<(), Flaw>
    ensures { result ≡ view_fault v x }
{
    match x {
        ValueData::Inline { .. } | ValueData::OneCell { .. } => Ok(()),
        ValueData::Segments { .. } => fields::flawed(Fault::Segmented, v),
    }
}

// The same for a view: 19 before any data cell is read.
#[tactic(auto, using(crate::proofs::Value_answers::where_ways))]
fn view_at(bins: &[u8], minor: u32, key: Offset, v: Offset) -> Result<Info, Refusal>
    ensures { result ≡ info_where key (viewed_fault bins.now minor v) (info_of (value_of bins.now minor v)) }
{
    let read = values::value_at(bins, None, minor, v);
    let x = read.map_err(|f| fields::refused(key, f))?;
    view_flaw(v, x.content).map_err(|f| fields::refused(key, f))?;
    info_where(bins, key, x)
}

// "18: no such value", with the key that has none.
fn no_value(key: Offset) -> Refusal
    ensures { result ≡ refusal_of key (flaw NoValue nowhere) }
{
    Refusal {
        fault: Fault::NoValue,
        place: Offset(0),
        key,
    }
}

#[tactic(auto, using(crate::proofs::Value_answers::found_ways))]
fn info_by(hive: &[u8], path: &[u16], name: &[u16], how: How) -> Result<Info, Refusal>
    ensures { result ≡ info_by how hive.now path.now name.now }
{
    match value_look(hive, path, name, how)? {
        Spot::Found(key, v) => whole_info(base::bins_of(hive), base::minor_of(hive), key, v),
        Spot::Missing(key) => Err(no_value(key)),
    }
}

// The facts of a value, for all three cases of data.
pub fn value_info(hive: &[u8], path: &[u16], name: &[u16]) -> Result<Info, Refusal>
    ensures { result ≡ info_answer hive.now path.now name.now }
{
    info_by(hive, path, name, How::InTurn)
}

// The same, its key searched by halves.
pub fn quick_info(hive: &[u8], path: &[u16], name: &[u16]) -> Result<Info, Refusal>
    ensures { result ≡ quick_info hive.now path.now name.now }
{
    info_by(hive, path, name, How::Halving)
}

#[tactic(auto, using(crate::proofs::Value_answers::found_ways))]
fn viewed_by(hive: &[u8], path: &[u16], name: &[u16], how: How) -> Result<Info, Refusal>
    ensures { result ≡ view_by how hive.now path.now name.now }
{
    match value_look(hive, path, name, how)? {
        Spot::Found(key, v) => view_at(base::bins_of(hive), base::minor_of(hive), key, v),
        Spot::Missing(key) => Err(no_value(key)),
    }
}

// The view's sister: the same facts, or the number of the view's refusal.
pub fn view_info(hive: &[u8], path: &[u16], name: &[u16]) -> Result<Info, Refusal>
    ensures { result ≡ view_answer hive.now path.now name.now }
{
    viewed_by(hive, path, name, How::InTurn)
}

pub fn quick_view_info(hive: &[u8], path: &[u16], name: &[u16]) -> Result<Info, Refusal>
    ensures { result ≡ quick_view hive.now path.now name.now }
{
    viewed_by(hive, path, name, How::Halving)
}

#[tactic(auto, using(crate::proofs::Answered::view_ways))]
fn view_by<'a>(hive: &'a [u8], path: &[u16], name: &[u16], how: How) -> &'a [u8]
    ensures result_value { result.now ≡ view_bytes_by how hive.now path.now name.now }
    ensures ref_ptr_value { result.ref_ptr ≡ (hive.entry.ref_ptr.0, view_start_by how hive.now path.now name.now + hive.entry.ref_ptr.1) }
{
    match viewed_by(hive, path, name, how) {
        Err(_) => &hive[0..0],
        Ok(i) => {
            let at = i.at.0;
            &hive[at..at + i.len]
        }
    }
}

// "A view is the very part of the lent hive that holds the data, empty on refusal": the bytes, and where they stand in memory.
pub fn value_view<'a>(hive: &'a [u8], path: &[u16], name: &[u16]) -> &'a [u8]
    ensures result_value { result.now ≡ view_bytes hive.now path.now name.now }
    ensures ref_ptr_value { result.ref_ptr ≡ (hive.entry.ref_ptr.0, view_start hive.now path.now name.now + hive.entry.ref_ptr.1) }
{
    view_by(hive, path, name, How::InTurn)
}

pub fn quick_view<'a>(hive: &'a [u8], path: &[u16], name: &[u16]) -> &'a [u8]
    ensures result_value { result.now ≡ quick_view_bytes hive.now path.now name.now }
    ensures ref_ptr_value { result.ref_ptr ≡ (hive.entry.ref_ptr.0, quick_view_start hive.now path.now name.now + hive.entry.ref_ptr.1) }
{
    view_by(hive, path, name, How::Halving)
}

// The data that were told, which lie in the hive: "a copy checks all segments, then 20, and writes only the data's length"
pub fn copy_info(hive: &[u8], key: Offset, i: Info, out: &mut [u8]) -> Result<usize, Refusal>
    requires hive_value { base_fault hive.now ≡ Ok tt }
    requires lies { Lies (bins_data hive.now) i.content }
    requires len_value { i.len ≡ length_of i.content }
    ensures value { result ≡ copied_to key (length out.old) (Ok i) }
    ensures out_after { out.new ≡ written (bins_data hive.now) out.old (Ok i) }
{
    if out.len() < i.len {
        return Err(Refusal {
            fault: Fault::OutputShort,
            place: Offset(0),
            key,
        });
    }
    values::copy_data(base::bins_of(hive), i.content, out);
    Ok(i.len)
}

#[tactic(auto, using(crate::proofs::Value_answers::found_ways, crate::proofs::Answered::copy_ways))]
fn copy_by(
    hive: &[u8],
    path: &[u16],
    name: &[u16],
    out: &mut [u8],
    how: How,
) -> Result<usize, Refusal>
    ensures value { result ≡ copy_by how hive.now path.now name.now (length out.old) }
    ensures out_after { out.new ≡ copy_out_by how hive.now path.now name.now out.old }
{
    match value_look(hive, path, name, how)? {
        Spot::Found(key, v) => {
            let i = whole_info(base::bins_of(hive), base::minor_of(hive), key, v)?;
            copy_info(hive, key, i, out)
        }
        Spot::Missing(key) => Err(no_value(key)),
    }
}

// The first value of that name, copied.
pub fn value_copy(hive: &[u8], path: &[u16], name: &[u16], out: &mut [u8]) -> Result<usize, Refusal>
    ensures value { result ≡ copy_answer hive.now path.now name.now (length out.old) }
    ensures out_after { out.new ≡ copy_out hive.now path.now name.now out.old }
{
    copy_by(hive, path, name, out, How::InTurn)
}

pub fn quick_copy(hive: &[u8], path: &[u16], name: &[u16], out: &mut [u8]) -> Result<usize, Refusal>
    ensures value { result ≡ quick_copy hive.now path.now name.now (length out.old) }
    ensures out_after { out.new ≡ quick_out hive.now path.now name.now out.old }
{
    copy_by(hive, path, name, out, How::Halving)
}

// One step of a path: the child of the key at an offset by its name.
pub fn child_of(hive: &[u8], key: Offset, name: &[u16]) -> Result<Offset, Refusal>
    ensures { result ≡ child_answer hive.now key name.now }
{
    paths::child_by(hive, key, name, How::InTurn)
}

// The same by halves.
pub fn quick_child_of(hive: &[u8], key: Offset, name: &[u16]) -> Result<Offset, Refusal>
    ensures { result ≡ quick_child hive.now key name.now }
{
    paths::child_by(hive, key, name, How::Halving)
}

// The given key's own record is tested before it is under examination.
#[tactic(auto, using(crate::proofs::Spots::spot_ways))]
fn spot_in(bins: &[u8], minor: u32, key: Offset, name: &[u16]) -> Result<Spot, Refusal>
    ensures { result ≡ spot_in bins.now minor key name.now }
{
    let k = records::key_at(bins, None, key)?;
    in_key(key, lookup_value(bins, minor, name, k))
}

#[tactic(auto, using(crate::proofs::Spots::spot_ways))]
fn spot_of(hive: &[u8], key: Offset, name: &[u16]) -> Result<Spot, Refusal>
    ensures { result ≡ spot_of hive.now key name.now }
{
    base::base_flaw(hive)?;
    spot_in(base::bins_of(hive), base::minor_of(hive), key, name)
}

// The first value of that name of the key at an offset.
#[tactic(auto, unfolding(crate::specs::Spots::spot_answer))]
pub fn value_of(hive: &[u8], key: Offset, name: &[u16]) -> Result<Offset, Refusal>
    ensures { result ≡ spot_answer hive.now key name.now }
{
    match spot_of(hive, key, name)? {
        Spot::Found(_, v) => Ok(v),
        Spot::Missing(k) => Err(no_value(k)),
    }
}
