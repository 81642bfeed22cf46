// The check: the tree walked from the root, the security items, and the report.
#![tactic(auto)]

ghost use Rattle.std.specs.Prelude.{◌≡◌, ◌<◌, slice_index_or, MatchResult, Ok};
ghost use Rattle.fields.specs.Charges.{Free, Of};
ghost use Rattle.cells.specs.Survey.{map_left};
ghost use Rattle.cells.specs.Named.{data_at};
ghost use Rattle.cells.specs.Rule.{Map};
ghost use Rattle.records.specs.Terms.{no_child};
ghost use Rattle.records.specs.Keys.{key_of};
ghost use Rattle.records.specs.Lists.{leaf_children, leaf_fault, children_below, lists_fault};
ghost use Rattle.tree.specs.Tree.{parent_fault, order_fault, place_fault, hash_fault, hint_fault, rest_fault, own_fault, holder as holder_of, tally as tally_of, key_charge, key_answer, list_answer, ring_charge, answer, check_answer};
ghost use Rattle.values.specs.Lists.{value_entries};
ghost use Rattle.namesakes.specs.Terms.{NamesLie};
ghost use Rattle.tree.specs.Terms.{NameLies, Fits, ArrivalFits, subkeys_fault, last_of, RowLies, row_children, Ready, keys_answer, KeysChecked};

use cells::Tally;
use fields::{Fault, Flaw, Offset, Refusal};
use records::{Child, Key, Leaf};
use std::cmp::Ordering;

// "The check reports bins, keys reached, values (one for each value list element of those keys), used bytes and free bytes"
#[derive(Clone, Copy)]
pub struct Report {
    pub bins: usize,
    pub keys: u64,
    pub values: u64,
    pub used: usize,
    pub free: usize,
}

// What the walk knows of the whole hive.
#[derive(Clone, Copy)]
pub struct Hive {
    pub minor: u32,
    pub root: Offset,
}

// Where a key was found: at the start, first below a key, or below a key after a sibling.
#[derive(Clone, Copy)]
pub enum Arrival {
    Start,
    First(Offset),
    After(Offset, Offset),
}

// Keys and values counted so far.
#[derive(Clone, Copy)]
pub struct Count {
    pub keys: u64,
    pub values: u64,
}

// "a subkey's parent field names the key that lists it, and no subkey is the root"
#[tactic(auto, unfolding(crate::specs::Tree::parent_fault), using(crate::proofs::Tests::firsts))]
fn parent_flaw(root: Offset, k: Key, at: Offset, parent: Offset) -> Result<(), Flaw>
    ensures { result ≡ parent_fault root k at parent }
{
    if k.parent.0 != parent.0 || at.0 == root.0 {
        return fields::flawed(Fault::Parent, at);
    }
    Ok(())
}

// "those of subkeys ascend strictly over all leaves of a key"
#[tactic(auto, unfolding(crate::specs::Tree::order_fault))]
fn order_flaw(bins: &[u8], sibling: Offset, k: Key, at: Offset) -> Result<(), Flaw>
    requires name_lies { NameLies bins.now k }
    requires fits { Fits bins.now sibling }
    ensures { result ≡ order_fault bins.now sibling k at }
{
    let before = records::key_fields(bins, sibling);
    match records::compare_names(bins, before.name, k.name) {
        Ordering::Less => Ok(()),
        Ordering::Equal | Ordering::Greater => fields::flawed(Fault::Order, at),
    }
}

// Where the key was listed: "parent or root listed (neither at the start); order".
#[tactic(auto, unfolding(crate::specs::Tree::place_fault), using(crate::proofs::Tests::firsts))]
fn place_flaw(bins: &[u8], root: Offset, k: Key, at: Offset, l: Arrival) -> Result<(), Flaw>
    requires name_lies { NameLies bins.now k }
    requires arrival_fits { ArrivalFits bins.now l }
    ensures { result ≡ place_fault bins.now root k at l }
{
    match l {
        Arrival::Start => Ok(()),
        Arrival::First(p) => parent_flaw(root, k, at, p),
        Arrival::After(p, b) => {
            parent_flaw(root, k, at, p)?;
            order_flaw(bins, b, k, at)
        }
    }
}

// The hash of an `lh` element is that of the name.
#[tactic(auto, unfolding(crate::specs::Tree::hash_fault))]
fn hash_flaw(bins: &[u8], k: Key, c: Child) -> Result<(), Flaw>
    requires { NameLies bins.now k }
    ensures { result ≡ hash_fault bins.now k c }
{
    if c.hashed && records::hash_of(bins, k.name) != c.beside {
        return fields::flawed(Fault::Order, c.at);
    }
    Ok(())
}

// The hint of an `lf` element is that of the name.
#[tactic(auto, unfolding(crate::specs::Tree::hint_fault))]
fn hint_flaw(bins: &[u8], k: Key, c: Child) -> Result<(), Flaw>
    requires { NameLies bins.now k }
    ensures { result ≡ hint_fault bins.now k c }
{
    if c.hinted && !records::is_hinted(bins, k.name, c.beside) {
        return fields::flawed(Fault::Order, c.at);
    }
    Ok(())
}

// "all its lists and the total"
#[tactic(auto, unfolding(crate::specs::Terms::subkeys_fault, crate::specs::Tree::total_fault), using(crate::proofs::Tests::firsts))]
fn subkeys_flaw(bins: &[u8], map: &[u8], k: Key, at: Offset) -> Result<(), Flaw>
    ensures { result ≡ subkeys_fault bins.now map.now k at }
{
    if records::total_of(bins, Some(map), k)? != k.subkeys as usize {
        return fields::flawed(Fault::Parent, at);
    }
    Ok(())
}

// "level; values in order with their data; all its lists and the total"
#[tactic(auto, unfolding(crate::specs::Tree::rest_fault, crate::specs::Terms::subkeys_fault, crate::specs::Tree::level_fault), using(crate::proofs::Tests::firsts))]
fn values_and_lists_flaw(
    bins: &[u8],
    map: &[u8],
    minor: u32,
    levels: u32,
    k: Key,
    at: Offset,
) -> Result<(), Flaw>
    ensures { result ≡ rest_fault bins.now map.now minor levels k at }
{
    if levels == 0 {
        return fields::flawed(Fault::Level, at);
    }
    values::values_flaw(bins, Some(map), minor, k)?;
    // the names of a key's values, after them and before its lists
    namesakes::namesake_flaw(bins, k)?;
    subkeys_flaw(bins, map, k, at)
}

// All of a key's tests but that of its record.
#[tactic(auto, unfolding(crate::specs::Tree::own_fault, crate::specs::Tree::beside_fault), using(crate::proofs::Tests::firsts))]
fn key_tests(
    bins: &[u8],
    map: &[u8],
    hive: Hive,
    levels: u32,
    k: Key,
    c: Child,
    l: Arrival,
) -> Result<(), Flaw>
    requires name_lies { NameLies bins.now k }
    requires arrival_fits { ArrivalFits bins.now l }
    ensures { result ≡ own_fault bins.now map.now hive levels k c l }
{
    place_flaw(bins, hive.root, k, c.at, l)?;
    // what stands beside the offset, hash or hint
    hash_flaw(bins, k, c)?;
    hint_flaw(bins, k, c)?;
    values_and_lists_flaw(bins, map, hive.minor, levels, k, c.at)
}

// One key more. The sums cannot wrap in a hive that is accepted: no key is listed twice.
#[tactic(auto, unfolding(crate::specs::Tree::tally))]
fn tally(t: Count, k: Key) -> Count
    ensures { result ≡ tally_of t k }
{
    Count {
        keys: t.keys.wrapping_add(1),
        values: t.values.wrapping_add(u64::from(k.values)),
    }
}

// The last key of a leaf.
fn last_of(bins: &[u8], map: &[u8], o: Offset) -> Offset
    requires { leaf_fault Map bins.now map.now o ≡ Ok tt }
    ensures { result ≡ last_of bins.now o }
{
    let leaf = records::leaf_fields(bins, o);
    records::child_offset(bins, leaf, leaf.count - 1)
}

// The key on whose behalf a key's own cell and record are tested: the one that lists it. At the start there is none.
fn holder(l: Arrival) -> Offset
    ensures { result ≡ holder_of l }
{
    match l {
        Arrival::Start => Offset(fields::NO_KEY),
        Arrival::First(p) | Arrival::After(p, _) => p,
    }
}

// A key with all its tests: those of its own cell and record are charged to the key that lists it, for it is no key yet, and the others to itself.
#[tactic(auto, using(crate::proofs::Tests::charged))]
fn tested_key(
    bins: &[u8],
    map: &[u8],
    hive: Hive,
    levels: u32,
    c: Child,
    l: Arrival,
) -> Result<Key, Refusal>
    requires { ArrivalFits bins.now l }
    ensures { MatchResult result
        (λ k. (k ≡ key_of bins.now c.at) × (key_charge bins.now map.now hive levels c l ≡ Free))
        (λ r. key_charge bins.now map.now hive levels c l ≡ Of r) }
{
    let k = records::key_at(bins, Some(map), c.at).map_err(|f| fields::refused(holder(l), f))?;
    key_tests(bins, map, hive, levels, k, c, l).map_err(|f| fields::refused(c.at, f))?;
    Ok(k)
}

// "A key is checked by way of its lists, and a list by way of its keys." The levels left fall with each key; lists and leaves are walked in loops.
#[cycle(check_key_check_leaf_check_list_check_siblings)]
fn check_key(
    bins: &[u8],
    map: &[u8],
    hive: Hive,
    c: Child,
    l: Arrival,
    levels: u32,
    t: Count,
) -> Result<Count, Refusal>
    requires { ArrivalFits bins.now l }
    ensures { result ≡ key_answer bins.now map.now hive levels c l t }
{
    let k = tested_key(bins, map, hive, levels, c, l)?;
    check_list(bins, map, hive, c.at, k, levels - 1, tally(t, k))
}

// The children of a key, leaf by leaf.
#[cycle(check_key_check_leaf_check_list_check_siblings)]
fn check_list(
    bins: &[u8],
    map: &[u8],
    hive: Hive,
    key: Offset,
    k: Key,
    levels: u32,
    from: Count,
) -> Result<Count, Refusal>
    requires { lists_fault Map bins.now map.now k ≡ Ok tt }
    ensures { result ≡ list_answer bins.now map.now hive levels key (Arrival.First key) (children_below bins.now k) from }
{
    if k.subkeys == 0 {
        return Ok(from);
    }
    let ls = records::leaves_fields(bins, k.list);
    let mut t = from;
    let mut l = Arrival::First(key);
    for j in 0..ls.count {
        let o = records::leaf_offset(bins, ls, j);
        t = check_leaf(bins, map, hive, key, o, l, levels, t)?;
        l = Arrival::After(key, last_of(bins, map, o));
    }
    Ok(t)
}

// The keys of a leaf, each wholly before the next.
#[cycle(check_key_check_leaf_check_list_check_siblings)]
fn check_leaf(
    bins: &[u8],
    map: &[u8],
    hive: Hive,
    key: Offset,
    o: Offset,
    first: Arrival,
    levels: u32,
    from: Count,
) -> Result<Count, Refusal>
    requires o_value { leaf_fault Map bins.now map.now o ≡ Ok tt }
    requires arrival_fits { ArrivalFits bins.now first }
    ensures { result ≡ list_answer bins.now map.now hive levels key first (leaf_children (data_at bins.now o)) from }
{
    let leaf = records::leaf_fields(bins, o);
    check_siblings(bins, map, hive, key, leaf, first, levels, from)
}

// An element of a row.
#[tactic(auto, unfolding(crate::specs::Terms::row_children))]
fn row_child(bins: &[u8], row: Leaf, i: usize) -> Child
    requires { (i < row.count) × RowLies bins.now row }
    ensures { result ≡ slice_index_or (row_children bins.now row) i no_child }
{
    if row.width == 0 {
        Child {
            at: row.cell,
            hashed: false,
            hinted: false,
            beside: 0,
        }
    } else {
        records::child_of(bins, row, i)
    }
}

// The keys of a row, the root's or a leaf's. It is the one place that asks for a key's tests: so they are no call, but for a key that has subkeys.
#[cycle(check_key_check_leaf_check_list_check_siblings)]
fn check_siblings(
    bins: &[u8],
    map: &[u8],
    hive: Hive,
    key: Offset,
    row: Leaf,
    first: Arrival,
    levels: u32,
    from: Count,
) -> Result<Count, Refusal>
    requires row_lies { RowLies bins.now row }
    requires arrival_fits { ArrivalFits bins.now first }
    ensures { result ≡ list_answer bins.now map.now hive levels key first (row_children bins.now row) from }
{
    let mut t = from;
    let mut l = first;
    for i in 0..row.count {
        let c = row_child(bins, row, i);
        t = check_key(bins, map, hive, c, l, levels, t)?;
        l = Arrival::After(key, c.at);
    }
    Ok(t)
}

// The tree from the root, on bins that were surveyed: "The root is level 0; level 512 is the last."
fn check_tree(hive: &[u8], map: &[u8], t: Tally) -> Result<Report, Refusal>
    requires { Ready hive.now map.now }
    ensures { result ≡ keys_answer hive.now map.now t }
{
    let minor = base::minor_of(hive);
    let root = base::root_of(hive);
    let start = Leaf {
        cell: root,
        count: 1,
        width: 0,
        hashed: false,
        hinted: false,
    };
    let none = Count { keys: 0, values: 0 };
    let n = check_siblings(
        base::bins_of(hive),
        map,
        Hive { minor, root },
        root,
        start,
        Arrival::Start,
        513,
        none,
    )?;
    Ok(Report {
        bins: t.bins,
        keys: n.keys,
        values: n.values,
        used: t.used,
        free: t.free,
    })
}

// "given after the tree walk": the security items of a hive whose tree was walked. The map serves there, and is left as it was.
fn check_items(hive: &[u8], map: &mut [u8], report: Report) -> Result<Report, Refusal>
    requires { KeysChecked hive.now map.old report.keys }
    ensures value { result ≡ answer (ring_charge hive.now map.old) report }
    ensures map_unchanged { map.new ≡ map.old }
{
    let root = base::root_of(hive);
    security_check::security_charge(base::bins_of(hive), map, root, report.keys)?;
    Ok(report)
}

// The check of a hive, with a work map of at least bins size / 64 bytes.
pub fn check(hive: &[u8], map: &mut [u8]) -> Result<Report, Refusal>
    ensures value { result ≡ check_answer hive.now map.old }
    ensures map_after { map.new ≡ map_left hive.now map.old }
{
    let t = cells::survey(hive, map)?;
    let report = check_tree(hive, map, t)?;
    check_items(hive, map, report)
}
