// The child of a key by its name. There is no work map: an offset names a cell by the cell's own header.
#![tactic(auto)]

ghost use Rattle.std.specs.Prelude.{◌≡◌, ℕ, ◌<◌};
ghost use Rattle.fields.specs.Faults.{nowhere};
ghost use Rattle.records.specs.Terms.{ElementsLie, elements_of, LeavesLie, leaves_named};
ghost use Rattle.search.specs.Search.{key_named, search_keys, search_leaf, search_leaves, search_below};
ghost use Rattle.search.specs.declared.Turn.{Turn};
ghost use Rattle.search.specs.Quick.{halve, halving, ask_key, quick_keys, ask_keys, ask_leaf, quick_below, below_by};
ghost use Rattle.search.specs.Terms.{by_offset, asked_last};

use fields::{Flaw, Offset};
use records::{Key, Leaf, Leaves};
use std::cmp::Ordering;

// One key, against a name, which is compared in place.
#[tactic(auto, unfolding(crate::specs::Search::key_named), using(crate::proofs::Ways::key_ways))]
fn key_named(bins: &[u8], name: &[u16], at: Offset) -> Result<Option<Offset>, Flaw>
    ensures { result ≡ key_named bins.now name.now (by_offset at) }
{
    let stored = records::name_at(bins, at)?;
    Ok(records::is_called(bins, stored, name).then_some(at))
}

// The keys of a leaf, in order, up to the first match.
fn search_keys(bins: &[u8], name: &[u16], leaf: Leaf) -> Result<Option<Offset>, Flaw>
    requires { ElementsLie bins.now leaf }
    ensures { result ≡ search_keys bins.now name.now (elements_of bins.now leaf) }
{
    for i in 0..leaf.count {
        let at = records::child_offset(bins, leaf, i);
        if let Some(o) = key_named(bins, name, at)? {
            return Ok(Some(o));
        }
    }
    Ok(None)
}

#[tactic(auto, unfolding(crate::specs::Search::search_leaf), using(crate::proofs::Ways::leaf_ways))]
fn search_leaf(bins: &[u8], name: &[u16], o: Offset) -> Result<Option<Offset>, Flaw>
    ensures { result ≡ search_leaf bins.now name.now o }
{
    let leaf = records::leaf_at(bins, None, o)?;
    search_keys(bins, name, leaf)
}

// One leaf at a time: leaf 1, its keys, leaf 2, its keys.
fn search_leaves(bins: &[u8], name: &[u16], ls: Leaves) -> Result<Option<Offset>, Flaw>
    requires { LeavesLie bins.now ls }
    ensures { result ≡ search_leaves bins.now name.now (leaves_named bins.now ls) }
{
    for j in 0..ls.count {
        let l = records::leaf_offset(bins, ls, j);
        if let Some(o) = search_leaf(bins, name, l)? {
            return Ok(Some(o));
        }
    }
    Ok(None)
}

// The child of a key by its name. The subkey count is only asked whether it is 0; all elements of the lists are searched.
#[tactic(auto, unfolding(crate::specs::Search::search_below), using(crate::proofs::Ways::list_ways))]
fn search_below(bins: &[u8], name: &[u16], k: Key) -> Result<Option<Offset>, Flaw>
    ensures { result ≡ search_below bins.now name.now k }
{
    if k.subkeys == 0 {
        return Ok(None);
    }
    let ls = records::head_at(bins, None, k.list)?;
    search_leaves(bins, name, ls)
}

// Counts are below 2^16, so 16 turns are enough.
const TURNS: usize = 16;

// One turn of a halving: on with what stands before, with what stands behind, or an answer.
#[derive(Clone, Copy)]
pub enum Turn {
    Left,
    Right,
    Stop(Result<Option<Offset>, Flaw>),
}

// Of so many things, which `ask` asks by their index, the one that answers: by halves.
fn by_halves<F: Fn(usize) -> Turn>(count: usize, ask: F) -> Result<Option<Offset>, Flaw>
    requires { (i : ℕ) → i < count → F.pre ask i }
    ensures { (says : ℕ → Turn) → ((i : ℕ) (t : Turn) → i < count → F.post ask i t → t ≡ says i)
        → result ≡ halve TURNS says 0 count }
{
    let mut lo: usize = 0;
    let mut hi = count;
    for turn in 0..TURNS {
        if hi <= lo {
            return Ok(None);
        }
        let mid = lo + (hi - lo) / 2;
        match ask(mid) {
            Turn::Left => hi = mid,
            Turn::Right => lo = mid + 1,
            Turn::Stop(a) => return a,
        }
    }
    Ok(None)
}

// One key, which may stand before or behind the name.
#[tactic(auto, unfolding(crate::specs::Quick::ask_key), using(crate::proofs::Ways::key_ways))]
fn ask_key(bins: &[u8], name: &[u16], at: Offset) -> Turn
    ensures { result ≡ ask_key bins.now name.now (by_offset at) }
{
    // a `Turn` is no `Result`: no `?`, here and in `ask_leaf`
    match records::name_at(bins, at) {
        Err(f) => Turn::Stop(Err(f)),
        Ok(stored) => match records::order_of(bins, stored, name) {
            Ordering::Less => Turn::Right,
            Ordering::Equal => Turn::Stop(Ok(Some(at))),
            Ordering::Greater => Turn::Left,
        },
    }
}

// The keys of a leaf, by halves.
fn quick_keys(bins: &[u8], name: &[u16], leaf: Leaf) -> Result<Option<Offset>, Flaw>
    requires { ElementsLie bins.now leaf }
    ensures { result ≡ quick_keys bins.now name.now (elements_of bins.now leaf) }
{
    by_halves(
        leaf.count,
        |i| ask_key(bins, name, records::child_offset(bins, leaf, i)),
    )
}

// A leaf whose first key does not stand behind the name: by its last key, then by its keys.
fn ask_last(bins: &[u8], name: &[u16], leaf: Leaf) -> Turn
    requires elements_lie { ElementsLie bins.now leaf }
    requires count_nonzero { 0 < leaf.count }
    ensures { result ≡ asked_last bins.now name.now (elements_of bins.now leaf) }
{
    let last = records::child_offset(bins, leaf, leaf.count - 1);
    match ask_key(bins, name, last) {
        Turn::Right => Turn::Right,
        Turn::Stop(Err(f)) => Turn::Stop(Err(f)),
        // two arms: one of both leaves the proof no name for what was answered
        Turn::Left => Turn::Stop(quick_keys(bins, name, leaf)),
        Turn::Stop(Ok(_)) => Turn::Stop(quick_keys(bins, name, leaf)),
    }
}

// A leaf is asked by its first and its last key, so that leaves and keys obey one law.
fn ask_keys(bins: &[u8], name: &[u16], leaf: Leaf) -> Turn
    requires elements_lie { ElementsLie bins.now leaf }
    requires count_nonzero { 0 < leaf.count }
    ensures { result ≡ ask_keys bins.now name.now (elements_of bins.now leaf) }
{
    let first = records::child_offset(bins, leaf, 0);
    match ask_key(bins, name, first) {
        Turn::Left => Turn::Left,
        Turn::Stop(Err(f)) => Turn::Stop(Err(f)),
        // two arms, as in `ask_last`
        Turn::Right => ask_last(bins, name, leaf),
        Turn::Stop(Ok(_)) => ask_last(bins, name, leaf),
    }
}

#[tactic(auto, unfolding(crate::specs::Quick::ask_leaf), using(crate::proofs::Ways::leaf_ways))]
fn ask_leaf(bins: &[u8], name: &[u16], o: Offset) -> Turn
    ensures { result ≡ ask_leaf bins.now name.now o }
{
    match records::leaf_at(bins, None, o) {
        Err(f) => Turn::Stop(Err(f)),
        Ok(leaf) => ask_keys(bins, name, leaf),
    }
}

// The leaves of a list, by halves.
fn quick_leaves(bins: &[u8], name: &[u16], ls: Leaves) -> Result<Option<Offset>, Flaw>
    requires { LeavesLie bins.now ls }
    ensures { result ≡ halving (ask_leaf bins.now name.now) nowhere (leaves_named bins.now ls) }
{
    by_halves(
        ls.count,
        |j| ask_leaf(bins, name, records::leaf_offset(bins, ls, j)),
    )
}

// The child of a key by its name, by halves: at most 16 leaves and 16 keys are asked, whatever the lists.
#[tactic(auto, unfolding(crate::specs::Quick::quick_below), using(crate::proofs::Ways::list_ways))]
fn quick_below(bins: &[u8], name: &[u16], k: Key) -> Result<Option<Offset>, Flaw>
    ensures { result ≡ quick_below bins.now name.now k }
{
    if k.subkeys == 0 {
        return Ok(None);
    }
    let ls = records::head_at(bins, None, k.list)?;
    quick_leaves(bins, name, ls)
}

// How a child is searched: all in turn, by the definition that holds for every hive, or by halves, which is right where the names ascend.
#[derive(Clone, Copy)]
pub enum How {
    InTurn,
    Halving,
}

#[tactic(auto, unfolding(crate::specs::Quick::below_by))]
pub fn below(bins: &[u8], name: &[u16], k: Key, how: How) -> Result<Option<Offset>, Flaw>
    ensures { result ≡ below_by how bins.now name.now k }
{
    match how {
        How::InTurn => search_below(bins, name, k),
        How::Halving => quick_below(bins, name, k),
    }
}
