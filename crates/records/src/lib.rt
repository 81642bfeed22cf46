// Keys and their lists, in bounded cells. A record's test is a function of its cell's data alone, so that it reads only inside its cell; what is read
// later of a record that was tested is read in its cell's data too, by way of `cells`.
#![tactic(auto)]

ghost use Rattle.std.specs.Prelude.{◌≡◌, [], ◌+◌, ◌≤◌, ◌<◌, length};
ghost use Rattle.names.specs.Comparison.{compare, same_name};
ghost use Rattle.names.specs.Hashing.{hash_of};
ghost use Rattle.names.specs.Hints.{fits_hint};
ghost use Rattle.cells.specs.Rule.{Header, rule_of, lent};
ghost use Rattle.cells.specs.Named.{data_at};
ghost use Rattle.records.specs.Keys.{is_flagged, is_whole, is_key_name, is_key, key_in, key_fault, key_of, security_of, keyed, called, NameIn, name_bytes, codes_of};
ghost use Rattle.records.specs.Lists.{has_elements, width_of, has_leaf_signature, is_leaf, is_list, children_below, leaf_fault, head_fault, lists_fault};
ghost use Rattle.records.specs.Terms.{leaves_in, leaves_at, headed, LeavesLie, leaf_named, leaf_in, leaf_of, leafed, ElementsLie, child_named, totalled, total_over};

use fields::{Fault, Flaw, Offset};
use std::cmp::Ordering;

// A stored name: its bytes lie in the data of a cell, from a position on.
#[derive(Clone, Copy)]
pub struct Name {
    pub cell: Offset,
    pub at: usize,
    pub len: usize,
    pub narrow: bool,
}

// The fields of a key record.
#[derive(Clone, Copy)]
pub struct Key {
    pub parent: Offset,
    pub subkeys: u32,
    pub list: Offset,
    pub values: u32,
    pub value_list: Offset,
    pub name: Name,
}

// An element of a leaf: the key that it names, and what stands beside: in an `lh` the hash, in an `lf` the hint, in an `li` nothing.
// The kind stands in two flags and not in an enum around the value, for the theorems name these fields.
#[derive(Clone, Copy)]
pub struct Child {
    pub at: Offset,
    pub hashed: bool,
    pub hinted: bool,
    pub beside: u32,
}

// Whether a flag, a power of two, is set.
pub fn is_flagged(flags: u16, bit: u16) -> bool
    requires { 0 < bit }
    ensures { result ≡ is_flagged flags bit }
{
    flags / bit % 2 == 1
}

// "UTF-16 lengths are even"
pub fn is_whole(len: usize, narrow: bool) -> bool
    ensures { result ≡ is_whole len narrow }
{
    narrow || len % 2 == 0
}

// "A name has 1 to 255 characters and no backslash; UTF-16 lengths are even."
#[tactic(auto, unfolding(crate::specs::Keys::is_key_name))]
fn is_key_name(s: &[u8], narrow: bool) -> bool
    ensures { result ≡ is_key_name s.now narrow }
{
    let count = names::characters(s.len(), narrow);
    is_whole(s.len(), narrow) && (1..=255).contains(&count) && !names::has_backslash(s, narrow)
}

// Whether a cell's data hold a key record: 76 bytes and the name.
#[tactic(auto, unfolding(crate::specs::Keys::is_key))]
pub fn is_key(r: &[u8]) -> bool
    ensures { result ≡ is_key r.now }
{
    if r.len() < 76 || !fields::stands_at(r, 0, b"nk") {
        return false;
    }
    let end = 76 + usize::from(fields::u16_at(r, 72));
    end <= r.len() && is_key_name(&r[76..end], is_flagged(fields::u16_at(r, 2), 32))
}

// The name of the key record r at an offset.
#[tactic(auto, unfolding(crate::specs::Keys::key_in))]
fn name_in(r: &[u8], o: Offset) -> Name
    requires { 76 ≤ length r.now }
    ensures { result ≡ (key_in r.now o).name }
{
    Name {
        cell: o,
        at: 76,
        len: usize::from(fields::u16_at(r, 72)),
        narrow: is_flagged(fields::u16_at(r, 2), 32),
    }
}

// The fields of the key record r at an offset.
#[tactic(auto, unfolding(crate::specs::Keys::key_in))]
fn key_in(r: &[u8], o: Offset) -> Key
    requires { 76 ≤ length r.now }
    ensures { result ≡ key_in r.now o }
{
    Key {
        parent: Offset(fields::u32_at(r, 16)),
        subkeys: fields::u32_at(r, 20),
        list: Offset(fields::u32_at(r, 28)),
        values: fields::u32_at(r, 36),
        value_list: Offset(fields::u32_at(r, 40)),
        name: name_in(r, o),
    }
}

// The key at an offset: its cell, then its record.
#[tactic(auto, using(crate::proofs::LawsRecord::records, crate::proofs::LawsKey::key_room), unfolding(crate::specs::Keys::key_fault, crate::specs::Keys::key_of))]
pub fn key_at(bins: &[u8], map: Option<&[u8]>, o: Offset) -> Result<Key, Flaw>
    ensures { result ≡ keyed (key_fault (rule_of map.entry) bins.now (lent map.entry) o) (key_of bins.now o) }
{
    let r = cells::cell_data(bins, cells::find_cell(bins, map, o)?);
    if !is_key(r) {
        return Err(Flaw {
            fault: Fault::Record,
            place: o,
        });
    }
    Ok(key_in(r, o))
}

// The key at an offset, tested as `key_at` tests it, by its cell's own header: of its fields the name alone is read, for a search that passes over most
// of the keys that it meets.
#[tactic(auto, using(crate::proofs::LawsRecord::records, crate::proofs::LawsKey::key_room), unfolding(crate::specs::Keys::key_fault, crate::specs::Keys::key_of))]
pub fn name_at(bins: &[u8], o: Offset) -> Result<Name, Flaw>
    ensures { result ≡ called (key_fault Header bins.now [] o) (key_of bins.now o).name }
{
    let r = cells::cell_data(bins, cells::find_cell(bins, None, o)?);
    if !is_key(r) {
        return Err(Flaw {
            fault: Fault::Record,
            place: o,
        });
    }
    Ok(name_in(r, o))
}

// The fields of a key that was tested before.
pub fn key_fields(bins: &[u8], o: Offset) -> Key
    requires { 76 ≤ length (data_at bins.now o) }
    ensures { result ≡ key_of bins.now o }
{
    key_in(cells::part_in(bins, o, 0, 76), o)
}

// The security offset of a key that was tested before. It is read beside the fields, by the pass that wants it: the walk does not.
#[tactic(auto, unfolding(crate::specs::Keys::security_of))]
pub fn security_of(bins: &[u8], o: Offset) -> Offset
    requires { 76 ≤ length (data_at bins.now o) }
    ensures { result ≡ security_of bins.now o }
{
    Offset(cells::word_in(bins, o, 44))
}

// A name, read in place.
fn name_part(bins: &[u8], n: Name) -> &[u8]
    requires { NameIn bins.now n }
    ensures { result.now ≡ name_bytes bins.now n }
{
    cells::part_in(bins, n.cell, n.at, n.len)
}

// The order of two stored names.
#[tactic(auto, unfolding(crate::specs::Keys::codes_of))]
pub fn compare_names(bins: &[u8], a: Name, b: Name) -> Ordering
    requires { NameIn bins.now a × NameIn bins.now b }
    ensures { result ≡ compare (codes_of bins.now a) (codes_of bins.now b) }
{
    names::compare_stored(name_part(bins, a), a.narrow, name_part(bins, b), b.narrow)
}

// The hash of a stored name.
#[tactic(auto, unfolding(crate::specs::Keys::codes_of))]
pub fn hash_of(bins: &[u8], n: Name) -> u32
    requires { NameIn bins.now n }
    ensures { result ≡ hash_of (codes_of bins.now n) }
{
    names::hash(name_part(bins, n), n.narrow)
}

// A stored name against a given one.
#[tactic(auto, unfolding(crate::specs::Keys::codes_of))]
pub fn order_of(bins: &[u8], n: Name, name: &[u16]) -> Ordering
    requires { NameIn bins.now n }
    ensures { result ≡ compare (codes_of bins.now n) name.now }
{
    names::compare_name(name_part(bins, n), n.narrow, name)
}

// Whether a stored name is the given one.
#[tactic(auto, unfolding(crate::specs::Keys::codes_of))]
pub fn is_called(bins: &[u8], n: Name, name: &[u16]) -> bool
    requires { NameIn bins.now n }
    ensures { result ≡ same_name (codes_of bins.now n) name.now }
{
    names::is_named(name_part(bins, n), n.narrow, name)
}

// Whether a hint is that of a stored name.
#[tactic(auto, unfolding(crate::specs::Keys::codes_of))]
pub fn is_hinted(bins: &[u8], n: Name, hint: u32) -> bool
    requires { NameIn bins.now n }
    ensures { result ≡ fits_hint hint (codes_of bins.now n) }
{
    names::is_hinted(name_part(bins, n), n.narrow, hint)
}

// Whether two stored names are the same.
#[tactic(auto, unfolding(crate::specs::Keys::codes_of))]
pub fn is_namesake(bins: &[u8], a: Name, b: Name) -> bool
    requires { NameIn bins.now a × NameIn bins.now b }
    ensures { result ≡ same_name (codes_of bins.now a) (codes_of bins.now b) }
{
    names::is_same(name_part(bins, a), a.narrow, name_part(bins, b), b.narrow)
}

// "count at 2 (at least 1), elements at 4": room for all elements, of so many bytes each.
#[tactic(auto, using(crate::proofs::ListTests::rooms), unfolding(crate::specs::Lists::has_elements))]
fn has_elements(r: &[u8], width: usize) -> bool
    requires { width ≤ 8 }
    ensures { result ≡ has_elements r.now width }
{
    if r.len() < 4 {
        return false;
    }
    let n = usize::from(fields::u16_at(r, 2));
    1 <= n && 4 + n * width <= r.len()
}

// An element of an `li` has 4 bytes, one of an `lf` or `lh` 8.
#[tactic(auto, unfolding(crate::specs::Lists::width_of))]
fn width_of(r: &[u8]) -> usize
    requires { 4 ≤ length r.now }
    ensures { result ≡ width_of r.now }
{
    if fields::stands_at(r, 0, b"li") { 4 } else { 8 }
}

// "`ri`: offsets of `li`, `lf` or `lh` lists, never of `ri`."
#[tactic(auto, unfolding(crate::specs::Lists::has_leaf_signature))]
fn has_leaf_signature(r: &[u8]) -> bool
    requires { 4 ≤ length r.now }
    ensures { result ≡ has_leaf_signature r.now }
{
    fields::stands_at(r, 0, b"li")
        || fields::stands_at(r, 0, b"lf")
        || fields::stands_at(r, 0, b"lh")
}

// Whether a cell's data hold a leaf.
#[tactic(auto, using(crate::proofs::ListTests::tests))]
fn is_leaf(r: &[u8]) -> bool
    ensures { result ≡ is_leaf r.now }
{
    4 <= r.len() && has_leaf_signature(r) && has_elements(r, width_of(r))
}

// Whether a cell's data hold a list: an `ri` with its elements, or a leaf.
#[tactic(auto, using(crate::proofs::ListTests::tests))]
fn is_list(r: &[u8]) -> bool
    ensures { result ≡ is_list r.now }
{
    if r.len() < 4 {
        false
    } else if fields::stands_at(r, 0, b"ri") {
        has_elements(r, 4)
    } else {
        is_leaf(r)
    }
}

// The leaves of a list, by its cell: those that an `ri` (index) names, "elements at 4", else the list itself.
#[derive(Clone, Copy)]
pub struct Leaves {
    pub cell: Offset,
    pub count: usize,
    pub index: bool,
}

// The leaves of the list r at an offset.
#[tactic(auto, unfolding(crate::specs::Terms::leaves_in))]
fn leaves_in(r: &[u8], o: Offset) -> Leaves
    requires { 4 ≤ length r.now }
    ensures { result ≡ leaves_in r.now o }
{
    let index = fields::stands_at(r, 0, b"ri");
    let count = if index {
        usize::from(fields::u16_at(r, 2))
    } else {
        1
    };
    Leaves {
        cell: o,
        count,
        index,
    }
}

// The list at an offset, without the leaves that an `ri` names.
#[tactic(auto, using(crate::proofs::LawsRecord::records, crate::proofs::ListFacts::rooms), unfolding(crate::specs::Lists::head_fault, crate::specs::Terms::leaves_at))]
pub fn head_at(bins: &[u8], map: Option<&[u8]>, o: Offset) -> Result<Leaves, Flaw>
    ensures { result ≡ headed (head_fault (rule_of map.entry) bins.now (lent map.entry) o) (leaves_at bins.now o) }
{
    let r = cells::cell_data(bins, cells::find_cell(bins, map, o)?);
    if !is_list(r) {
        return Err(Flaw {
            fault: Fault::Record,
            place: o,
        });
    }
    Ok(leaves_in(r, o))
}

// The offset of leaf j.
#[tactic(auto, using(crate::proofs::ListFacts::places), unfolding(crate::specs::Terms::leaf_named))]
pub fn leaf_offset(bins: &[u8], ls: Leaves, j: usize) -> Offset
    requires { (j < ls.count) × LeavesLie bins.now ls }
    ensures { result ≡ leaf_named bins.now ls j }
{
    if ls.index {
        Offset(cells::word_in(bins, ls.cell, 4 + 4 * j))
    } else {
        ls.cell
    }
}

// The leaves of a list that was tested before.
pub fn leaves_fields(bins: &[u8], o: Offset) -> Leaves
    requires { 4 ≤ length (data_at bins.now o) }
    ensures { result ≡ leaves_at bins.now o }
{
    leaves_in(cells::part_in(bins, o, 0, 4), o)
}

// The elements of a leaf, by its cell: "elements at 4", of so many bytes each.
#[derive(Clone, Copy)]
pub struct Leaf {
    pub cell: Offset,
    pub count: usize,
    pub width: usize,
    pub hashed: bool,
    pub hinted: bool,
}

// The elements of the leaf r at an offset.
#[tactic(auto, unfolding(crate::specs::Terms::leaf_in))]
fn leaf_in(r: &[u8], o: Offset) -> Leaf
    requires { 4 ≤ length r.now }
    ensures { result ≡ leaf_in r.now o }
{
    Leaf {
        cell: o,
        count: usize::from(fields::u16_at(r, 2)),
        width: width_of(r),
        hashed: fields::stands_at(r, 0, b"lh"),
        hinted: fields::stands_at(r, 0, b"lf"),
    }
}

// The leaf at an offset; an `ri` there is 12.
#[tactic(auto, using(crate::proofs::LawsRecord::records, crate::proofs::ListFacts::rooms), unfolding(crate::specs::Lists::leaf_fault, crate::specs::Terms::leaf_of))]
pub fn leaf_at(bins: &[u8], map: Option<&[u8]>, o: Offset) -> Result<Leaf, Flaw>
    ensures { result ≡ leafed (leaf_fault (rule_of map.entry) bins.now (lent map.entry) o) (leaf_of bins.now o) }
{
    let r = cells::cell_data(bins, cells::find_cell(bins, map, o)?);
    if !is_leaf(r) {
        return Err(Flaw {
            fault: Fault::Record,
            place: o,
        });
    }
    Ok(leaf_in(r, o))
}

// The elements of a leaf that was tested before.
pub fn leaf_fields(bins: &[u8], o: Offset) -> Leaf
    requires { 4 ≤ length (data_at bins.now o) }
    ensures { result ≡ leaf_of bins.now o }
{
    leaf_in(cells::part_in(bins, o, 0, 4), o)
}

// The offset of the key that element i of a leaf names, without what stands beside it.
#[tactic(auto, using(crate::proofs::ListFacts::places), unfolding(crate::specs::Terms::child_named))]
pub fn child_offset(bins: &[u8], leaf: Leaf, i: usize) -> Offset
    requires { (i < leaf.count) × ElementsLie bins.now leaf }
    ensures { result ≡ (child_named bins.now leaf i).at }
{
    Offset(cells::word_in(bins, leaf.cell, 4 + i * leaf.width))
}

// Element i of a leaf.
#[tactic(auto, using(crate::proofs::ListFacts::places), unfolding(crate::specs::Terms::child_named))]
pub fn child_of(bins: &[u8], leaf: Leaf, i: usize) -> Child
    requires { (i < leaf.count) × ElementsLie bins.now leaf }
    ensures { result ≡ child_named bins.now leaf i }
{
    let p = 4 + i * leaf.width;
    let beside = if leaf.width == 4 {
        0
    } else {
        cells::word_in(bins, leaf.cell, p + 4)
    };
    Child {
        at: Offset(cells::word_in(bins, leaf.cell, p)),
        hashed: leaf.hashed,
        hinted: leaf.hinted,
        beside,
    }
}

// The elements of all leaves, counted, or the first leaf's flaw.
fn total_over(bins: &[u8], map: Option<&[u8]>, ls: Leaves) -> Result<usize, Flaw>
    requires { (ls.count < 65536) × LeavesLie bins.now ls }
    ensures { result ≡ total_over (rule_of map.entry) bins.now (lent map.entry) ls }
{
    let mut sum = 0;
    for j in 0..ls.count {
        let leaf = leaf_at(bins, map, leaf_offset(bins, ls, j))?;
        sum += leaf.count;
    }
    Ok(sum)
}

// "The key's count is the total over its leaves": that total, or the first flaw of its lists. "Count 0: the list offset is not read."
#[tactic(auto, using(crate::proofs::Totals::totals))]
pub fn total_of(bins: &[u8], map: Option<&[u8]>, k: Key) -> Result<usize, Flaw>
    ensures { result ≡ totalled (lists_fault (rule_of map.entry) bins.now (lent map.entry) k) (length (children_below bins.now k)) }
{
    if k.subkeys == 0 {
        return Ok(0);
    }
    let ls = head_at(bins, map, k.list)?;
    total_over(bins, map, ls)
}
