// A pass over the tree of a hive that the check has accepted, which repeats no test: it counts how often the keys name each item of a table, or seeks
// the first key whose item is not marked. Recursion goes over levels alone, lists are walked in loops.
#![tactic(auto)]

ghost use Rattle.std.specs.Prelude.{◌≡◌, ◌+◌, ◌≤◌, length};
ghost use Rattle.cells.specs.Named.{data_at};
ghost use Rattle.chains.specs.Chains.{find_in};
ghost use Rattle.records.specs.Lists.{leaf_children, children};
ghost use Rattle.records.specs.Listed.{joined, keys_in};
ghost use Rattle.security_pass.specs.Counting.{Legible, LegibleLeaf, Ready, bump, visited, counted_all, is_off, ends, sought_in};

use fields::Offset;

// Which pass it is: one that seeks, or one that counts for a table of so many items. Definitions here and above name both fields, so that no enum
// takes their place.
#[derive(Clone, Copy)]
pub struct Pass {
    pub seek: bool,
    pub items: usize,
}

// One more for x, where it stands in the table.
#[tactic(auto, unfolding(crate::specs::Counting::bump), using(crate::proofs::Laws::bump_ways))]
fn count_item(table: &[u32], older: &[u32], heads: &[u32], n: usize, x: u32, counts: &mut [u32])
    requires { Ready table.now older.now heads.now counts.old n }
    ensures { counts.new ≡ bump counts.old (find_in table.now x n) }
{
    let p = chains::find(table, older, heads, n, x);
    if p != 0 {
        counts[p - 1] = counts[p - 1].wrapping_add(1);
    }
}

// Whether an offset lies past the bins data or has no bit in the map.
#[tactic(auto, unfolding(crate::specs::Counting::is_off))]
fn is_off(bins: &[u8], map: &[u8], o: Offset) -> bool
    ensures { result ≡ is_off bins.now map.now o }
{
    bins.len() <= o.0 as usize || !cells::is_marked(map, o)
}

// One key: counted, or looked at. Whether the pass ends here.
#[tactic(auto, using(crate::proofs::Laws::visit_ways))]
fn visit(
    bins: &[u8],
    map: &[u8],
    table: &[u32],
    older: &[u32],
    heads: &[u32],
    w: Pass,
    at: Offset,
    counts: &mut [u32],
) -> bool
    requires in_bounds { 76 ≤ length (data_at bins.now at) }
    requires ready { Ready table.now older.now heads.now counts.old w.items }
    ensures value { result ≡ ends bins.now map.now w at }
    ensures counts_after { counts.new ≡ visited bins.now table.now w counts.old at }
{
    let o = records::security_of(bins, at);
    if w.seek {
        return is_off(bins, map, o);
    }
    count_item(table, older, heads, w.items, o.0, counts);
    false
}

// A key, then those below it.
#[tactic(auto, using(crate::proofs::Laws::key_ways, crate::proofs::Rooms::level_ways))]
pub fn count_key(
    bins: &[u8],
    map: &[u8],
    table: &[u32],
    older: &[u32],
    heads: &[u32],
    w: Pass,
    at: Offset,
    levels: u32,
    counts: &mut [u32],
) -> Option<Offset>
    requires legible { Legible bins.now levels at }
    requires ready { Ready table.now older.now heads.now counts.old w.items }
    ensures value { result ≡ sought_in bins.now map.now w (keys_in bins.now levels at) }
    ensures counts_after { counts.new ≡ counted_all bins.now table.now w counts.old (keys_in bins.now levels at) }
{
    if visit(bins, map, table, older, heads, w, at, counts) {
        return Some(at);
    }
    count_list(bins, map, table, older, heads, w, at, levels - 1, counts)
}

// The children of a key, leaf by leaf: the levels left fall with each key that has some.
#[cycle(count_leaf_count_list)]
#[tactic(auto, using(crate::proofs::Rooms::list_ways))]
fn count_list(
    bins: &[u8],
    map: &[u8],
    table: &[u32],
    older: &[u32],
    heads: &[u32],
    w: Pass,
    at: Offset,
    levels: u32,
    counts: &mut [u32],
) -> Option<Offset>
    requires legible { Legible bins.now (levels + 1) at }
    requires ready { Ready table.now older.now heads.now counts.old w.items }
    ensures value { result ≡ sought_in bins.now map.now w (joined (keys_in bins.now levels) (children bins.now at)) }
    ensures counts_after { counts.new ≡ counted_all bins.now table.now w counts.old (joined (keys_in bins.now levels) (children bins.now at)) }
{
    let k = records::key_fields(bins, at);
    if k.subkeys == 0 {
        return None;
    }
    let ls = records::leaves_fields(bins, k.list);
    for j in 0..ls.count {
        let o = records::leaf_offset(bins, ls, j);
        if let Some(found) = count_leaf(bins, map, table, older, heads, w, o, levels, counts) {
            return Some(found);
        }
    }
    None
}

// The keys of a leaf, each wholly before the next. Most keys have no subkeys, and are counted in the loop itself: a call would lend all tables again.
#[cycle(count_leaf_count_list)]
fn count_leaf(
    bins: &[u8],
    map: &[u8],
    table: &[u32],
    older: &[u32],
    heads: &[u32],
    w: Pass,
    o: Offset,
    levels: u32,
    counts: &mut [u32],
) -> Option<Offset>
    requires legible_leaf { LegibleLeaf bins.now levels o }
    requires ready { Ready table.now older.now heads.now counts.old w.items }
    ensures value { result ≡ sought_in bins.now map.now w (joined (keys_in bins.now levels) (leaf_children (data_at bins.now o))) }
    ensures counts_after { counts.new ≡ counted_all bins.now table.now w counts.old (joined (keys_in bins.now levels) (leaf_children (data_at bins.now o))) }
{
    let leaf = records::leaf_fields(bins, o);
    for i in 0..leaf.count {
        let at = records::child_offset(bins, leaf, i);
        if visit(bins, map, table, older, heads, w, at, counts) {
            return Some(at);
        }
        let k = records::key_fields(bins, at);
        if k.subkeys != 0 {
            if let Some(found) = count_list(
                bins,
                map,
                table,
                older,
                heads,
                w,
                at,
                levels - 1,
                counts,
            ) {
                return Some(found);
            }
        }
    }
    None
}
