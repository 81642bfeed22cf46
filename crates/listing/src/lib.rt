// What a key holds, one by one: its subkeys and its values in the order of their lists, each with its name; the facts of a key or a
// value by its offset, and a value's data. There is no work map: an offset names a cell by the cell's own header.
#![tactic(auto)]

ghost use Rattle.std.specs.Prelude.{◌≡◌, [], ◌≤◌, ◌<◌, length};
ghost use Rattle.fields.specs.Number.{u64_at};
ghost use Rattle.cells.specs.Rule.{Header};
ghost use Rattle.cells.specs.Named.{data_at};
ghost use Rattle.records.specs.Keys.{key_fault, key_of};
ghost use Rattle.records.specs.Terms.{LeavesLie, leaves_named};
ghost use Rattle.security.specs.Descriptor.{descriptor_fault};
ghost use Rattle.values.specs.Records.{value_fault, value_of};
ghost use Rattle.values.specs.Segments.{data_fault};
ghost use Rattle.listing.specs.Members.{entry_of, member_where, nth_in, nth_below, subkey_below, subkey_in, subkey_answer, nth_of, value_below, value_in, value_answer, info_at, copy_at, out_at, facts_of, facts_where, facts_answer};
ghost use Rattle.listing.specs.Pieces.{given_fault, class_length, class_piece, class_where, class_below, class_answer, descriptor_piece, security_where, security_below, security_answer};

use fields::{Flaw, Offset, Place, Refusal};
use lookup::Info;
use records::{Key, Leaves, Name};
use values::{Entries, ValueData};

// A key or a value that a list names, and where its name stands in the file: `len` bytes from `name` on, one for each character if narrow, else UTF-16LE.
#[derive(Clone, Copy)]
pub struct Entry {
    pub at: Offset,
    pub name: Place,
    pub len: usize,
    pub narrow: bool,
}

// A record that was tested, by its offset and its name.
#[tactic(auto, unfolding(crate::specs::Members::entry_of))]
pub fn entry_of(o: Offset, n: Name) -> Entry
    requires { n.at < 4294967296 }
    ensures { result ≡ entry_of o n }
{
    Entry {
        at: o,
        name: cells::part_place(n.cell, n.at, n.len),
        len: n.len,
        narrow: n.narrow,
    }
}

// A key by its offset, which another lists.
#[tactic(auto, using(crate::proofs::Members::entry_ways))]
fn key_entry(bins: &[u8], key: Offset, o: Offset) -> Result<Option<Entry>, Refusal>
    ensures { result ≡ member_where key (key_fault Header bins.now [] o) (entry_of o (key_of bins.now o).name) }
{
    let k = records::key_at(bins, None, o).map_err(|f| fields::refused(key, f))?;
    Ok(Some(entry_of(o, k.name)))
}

// Element n of the leaves. Each leaf is tested when it is reached, and those before the element's own are only counted.
#[tactic(auto, using(crate::proofs::Members::leaf_ways))]
fn nth_in(bins: &[u8], ls: Leaves, n: usize) -> Result<Option<Offset>, Flaw>
    requires { LeavesLie bins.now ls }
    ensures { result ≡ nth_in bins.now (leaves_named bins.now ls) n }
{
    let mut left = n;
    for j in 0..ls.count {
        let o = records::leaf_offset(bins, ls, j);
        let leaf = records::leaf_at(bins, None, o)?;
        if left < leaf.count {
            return Ok(Some(records::child_of(bins, leaf, left).at));
        }
        left -= leaf.count;
    }
    Ok(None)
}

// Subkey n of a key. The subkey count is only asked whether it is 0, as in a search.
#[tactic(auto, using(crate::proofs::Members::below_ways))]
fn nth_below(bins: &[u8], k: Key, n: usize) -> Result<Option<Offset>, Flaw>
    ensures { result ≡ nth_below bins.now k n }
{
    if k.subkeys == 0 {
        return Ok(None);
    }
    let ls = records::head_at(bins, None, k.list)?;
    nth_in(bins, ls, n)
}

// Past the key's own record all is tested on its behalf.
#[tactic(auto, using(crate::proofs::Members::subkey_ways))]
fn subkey_below(bins: &[u8], key: Offset, k: Key, n: usize) -> Result<Option<Entry>, Refusal>
    ensures { result ≡ subkey_below bins.now key k n }
{
    let Some(c) = nth_below(bins, k, n).map_err(|f| fields::refused(key, f))? else {
        return Ok(None);
    };
    key_entry(bins, key, c)
}

#[tactic(auto, using(crate::proofs::Members::subkey_ways))]
fn subkey_in(bins: &[u8], key: Offset, n: usize) -> Result<Option<Entry>, Refusal>
    ensures { result ≡ subkey_in bins.now key n }
{
    let k = records::key_at(bins, None, key)?;
    subkey_below(bins, key, k, n)
}

// Subkey n of the key at an offset, from 0 on.
#[tactic(auto, using(crate::proofs::Members::subkey_ways))]
pub fn nth_subkey(hive: &[u8], key: Offset, n: usize) -> Result<Option<Entry>, Refusal>
    ensures { result ≡ subkey_answer hive.now key n }
{
    base::base_flaw(hive)?;
    subkey_in(base::bins_of(hive), key, n)
}

// A value by its offset, which a key lists.
#[tactic(auto, using(crate::proofs::Members::entry_ways))]
fn value_entry(bins: &[u8], minor: u32, key: Offset, v: Offset) -> Result<Option<Entry>, Refusal>
    ensures { result ≡ member_where key (value_fault Header bins.now [] v) (entry_of v (value_of bins.now minor v).name) }
{
    let read = values::value_at(bins, None, minor, v);
    let x = read.map_err(|f| fields::refused(key, f))?;
    Ok(Some(entry_of(v, x.name)))
}

#[tactic(auto, using(crate::proofs::Members::below_ways))]
fn nth_of(bins: &[u8], k: Key, n: usize) -> Result<Option<Offset>, Flaw>
    ensures { result ≡ nth_of bins.now k n }
{
    let e = values::value_list(bins, None, k)?;
    Ok((n < e.count).then(|| values::entry(bins, e, n)))
}

#[tactic(auto, using(crate::proofs::Members::value_ways))]
fn value_below(
    bins: &[u8],
    minor: u32,
    key: Offset,
    k: Key,
    n: usize,
) -> Result<Option<Entry>, Refusal>
    ensures { result ≡ value_below bins.now minor key k n }
{
    let Some(v) = nth_of(bins, k, n).map_err(|f| fields::refused(key, f))? else {
        return Ok(None);
    };
    value_entry(bins, minor, key, v)
}

#[tactic(auto, using(crate::proofs::Members::value_ways))]
fn value_in(bins: &[u8], minor: u32, key: Offset, n: usize) -> Result<Option<Entry>, Refusal>
    ensures { result ≡ value_in bins.now minor key n }
{
    let k = records::key_at(bins, None, key)?;
    value_below(bins, minor, key, k, n)
}

// Value n of the key at an offset, from 0 on.
#[tactic(auto, using(crate::proofs::Members::value_ways))]
pub fn nth_value(hive: &[u8], key: Offset, n: usize) -> Result<Option<Entry>, Refusal>
    ensures { result ≡ value_answer hive.now key n }
{
    base::base_flaw(hive)?;
    value_in(base::bins_of(hive), base::minor_of(hive), key, n)
}

// The facts of the value at an offset, for all three cases of data. No key is asked, so none is under examination.
#[tactic(auto, using(crate::proofs::Members::info_ways))]
pub fn info_at(hive: &[u8], v: Offset) -> Result<Info, Refusal>
    ensures { result ≡ info_at hive.now v }
{
    base::base_flaw(hive)?;
    lookup::whole_info(
        base::bins_of(hive),
        base::minor_of(hive),
        Offset(fields::NO_KEY),
        v,
    )
}

// The data of the value at an offset, segments joined.
#[tactic(auto, using(crate::proofs::Members::info_ways))]
pub fn copy_at(hive: &[u8], v: Offset, out: &mut [u8]) -> Result<usize, Refusal>
    ensures value { result ≡ copy_at hive.now v (length out.old) }
    ensures out_after { out.new ≡ out_at hive.now v out.old }
{
    let i = info_at(hive, v)?;
    lookup::copy_info(hive, Offset(fields::NO_KEY), i, out)
}

// What a key's record says of it. Its counts are its own: nothing is counted.
#[derive(Clone, Copy)]
pub struct Facts {
    pub entry: Entry,
    pub stamp: u64,
    pub parent: Offset,
    pub subkeys: u32,
    pub values: u32,
}

// When a key that was tested was last written.
#[tactic(auto, using(crate::proofs::Members::facts_ways))]
fn stamp_of(bins: &[u8], o: Offset) -> u64
    requires { 76 ≤ length (data_at bins.now o) }
    ensures { result ≡ u64_at (data_at bins.now o) 4 }
{
    fields::u64_at(cells::part_in(bins, o, 4, 8), 0)
}

#[tactic(auto, using(crate::proofs::Members::facts_ways))]
fn facts_in(bins: &[u8], o: Offset) -> Result<Facts, Refusal>
    ensures { result ≡ facts_where (key_fault Header bins.now [] o) (facts_of bins.now o) }
{
    let k = records::key_at(bins, None, o)?;
    Ok(Facts {
        entry: entry_of(o, k.name),
        stamp: stamp_of(bins, o),
        parent: k.parent,
        subkeys: k.subkeys,
        values: k.values,
    })
}

// The facts of the key at an offset.
#[tactic(auto, using(crate::proofs::Members::facts_ways))]
pub fn key_facts(hive: &[u8], key: Offset) -> Result<Facts, Refusal>
    ensures { result ≡ facts_answer hive.now key }
{
    base::base_flaw(hive)?;
    facts_in(base::bins_of(hive), key)
}

// Bytes of the file: `len` of them from `at` on.
#[derive(Clone, Copy)]
pub struct Piece {
    pub at: Place,
    pub len: usize,
}

// The given key: 1 to 7, then its own 11 or 12.
#[tactic(auto, using(crate::proofs::Pieces::given_ways))]
fn given_flaw(hive: &[u8], key: Offset) -> Result<(), Flaw>
    ensures { result ≡ given_fault hive.now key }
{
    base::base_flaw(hive)?;
    records::key_at(base::bins_of(hive), None, key)?;
    Ok(())
}

// How many bytes the class name of a key that was tested has.
#[tactic(auto, using(crate::proofs::Pieces::class_ways))]
fn class_length(bins: &[u8], key: Offset) -> u16
    requires { 76 ≤ length (data_at bins.now key) }
    ensures { result ≡ class_length bins.now key }
{
    fields::u16_at(cells::part_in(bins, key, 74, 2), 0)
}

// A class name of a key, whose cell is tested as one of a value's data.
#[tactic(auto, using(crate::proofs::Pieces::class_ways))]
fn class_at(bins: &[u8], key: Offset, cell: Offset, len: u16) -> Result<Option<Piece>, Refusal>
    ensures { result ≡ class_where key (data_fault Header bins.now [] (ValueData.OneCell cell len)) (class_piece cell len) }
{
    let data = ValueData::OneCell {
        cell,
        len: u32::from(len),
    };
    values::data_flaw(bins, None, data).map_err(|f| fields::refused(key, f))?;
    let len = usize::from(len);
    Ok(Some(Piece {
        at: cells::part_place(cell, 0, len),
        len,
    }))
}

// The class name of a key that was tested. Of length 0 there is none, and the offset is not read.
#[tactic(auto, using(crate::proofs::Pieces::class_ways))]
fn class_below(bins: &[u8], key: Offset) -> Result<Option<Piece>, Refusal>
    requires { 76 ≤ length (data_at bins.now key) }
    ensures { result ≡ class_below bins.now key }
{
    let len = class_length(bins, key);
    if len == 0 {
        return Ok(None);
    }
    class_at(bins, key, Offset(cells::word_in(bins, key, 48)), len)
}

// Where the class name of the key at an offset lies, and how long it is.
#[tactic(auto, using(crate::proofs::Pieces::class_ways))]
pub fn key_class(hive: &[u8], key: Offset) -> Result<Option<Piece>, Refusal>
    ensures { result ≡ class_answer hive.now key }
{
    given_flaw(hive, key)?;
    class_below(base::bins_of(hive), key)
}

// The descriptor of the item at an offset, which a key names.
#[tactic(auto, using(crate::proofs::Pieces::security_ways))]
fn security_at(bins: &[u8], key: Offset, o: Offset) -> Result<Piece, Refusal>
    ensures { result ≡ security_where key (descriptor_fault Header bins.now [] o) (descriptor_piece bins.now o) }
{
    let read = security::described_at(bins, None, o);
    let i = read.map_err(|f| fields::refused(key, f))?;
    Ok(Piece {
        at: security::descriptor_place(o, i),
        len: i.size as usize,
    })
}

// The descriptor of a key that was tested.
#[tactic(auto, unfolding(crate::specs::Pieces::security_below))]
fn security_below(bins: &[u8], key: Offset) -> Result<Piece, Refusal>
    requires { 76 ≤ length (data_at bins.now key) }
    ensures { result ≡ security_below bins.now key }
{
    security_at(bins, key, records::security_of(bins, key))
}

// Where the security descriptor of the key at an offset lies, and how long it is.
#[tactic(auto, using(crate::proofs::Pieces::security_ways))]
pub fn key_security(hive: &[u8], key: Offset) -> Result<Piece, Refusal>
    ensures { result ≡ security_answer hive.now key }
{
    given_flaw(hive, key)?;
    security_below(base::bins_of(hive), key)
}
