// Values of one key that have one name: "The check shall refuse a key that has two values with equal upper-cased names". A key may have tens of thousands
// of values, so names are not compared each with each: a table of their hashes, searched by chains, says which have to be.
#![tactic(auto)]

ghost use Rattle.std.specs.Prelude.{◌≡◌, ◌+◌, ◌≤◌, ◌<◌, length, get_or};
ghost use Rattle.fields.specs.Faults.{nowhere};
ghost use Rattle.cells.specs.Named.{data_at};
ghost use Rattle.chains.specs.Chains.{Chained};
ghost use Rattle.namesake_laws.specs.Repeats.{First, Blocked, met_in, later};
ghost use Rattle.namesake_laws.specs.Tables.{Empty, Taken};
ghost use Rattle.records.specs.Keys.{codes_of};
ghost use Rattle.values.specs.Entries.{entries_of};
ghost use Rattle.values.specs.Lists.{value_entries};
ghost use Rattle.namesakes.specs.Namesakes.{value_name, namesake_fault};
ghost use Rattle.namesakes.specs.Terms.{NamesLie, called, Ready};

use fields::{Fault, Flaw, Offset};
use records::{Key, Name};
use values::Entries;

// The name of a value that was tested before.
fn name_at(bins: &[u8], v: Offset) -> Name
    requires { 20 ≤ length (data_at bins.now v) }
    ensures { result ≡ value_name bins.now v }
{
    let r = cells::part_in(bins, v, 0, 20);
    Name {
        cell: v,
        at: 20,
        len: usize::from(fields::u16_at(r, 2)),
        narrow: values::is_narrow(r),
    }
}

// The name of the value at position i.
fn name_of(bins: &[u8], e: Entries, i: usize) -> Name
    requires names_lie { NamesLie bins.now e }
    requires i_lt_count { i < e.count }
    ensures { result ≡ value_name bins.now (get_or (entries_of bins.now e) i nowhere) }
{
    name_at(bins, values::entry(bins, e, i))
}

// Whether one of the n values from position s on, whose hashes stand in the table, has a name, of the hash g.
fn is_met(
    bins: &[u8],
    e: Entries,
    s: usize,
    n: usize,
    x: Name,
    g: u32,
    keys: &[u32],
    older: &[u32],
    heads: &[u32],
) -> bool
    requires { Ready bins.now e s n x g keys.now older.now heads.now }
    ensures { result ≡ met_in (later (called bins.now (entries_of bins.now e)) s) n (codes_of bins.now x) }
{
    // A `while`, for p goes from link to link; 0 ends a chain, as `chains` has it.
    let mut p = chains::find(keys, older, heads, n, g);
    while p != 0 {
        let y = name_of(bins, e, s + (p - 1));
        if records::is_namesake(bins, y, x) {
            return true;
        }
        let q = older[p - 1] as usize;
        p = chains::find_from(keys, older, heads.len(), n, q, g);
    }
    false
}

// One hash more, while there is room: how many then stand in the table.
#[tactic(auto, using(crate::proofs::Readings::taking))]
fn take_in(keys: &mut [u32], older: &mut [u32], heads: &mut [u32], n: usize, g: u32) -> usize
    requires chained { Chained keys.old older.old heads.old n }
    requires keys_in_bounds { (length keys.old ≤ length older.old) × (length keys.old + 1 < 4294967296) }
    ensures taken { Taken (length keys.old) keys.old n g keys.new result }
    ensures chained_2 { Chained keys.new older.new heads.new result }
{
    if n < keys.len() {
        chains::insert(keys, older, heads, n, g);
        n + 1
    } else {
        n
    }
}

// One block: the values from position s on, as many as the table has room for, are taken into it. The lowest position below `best` whose value has a
// namesake of the block before it, or `best`.
fn in_block(
    bins: &[u8],
    e: Entries,
    s: usize,
    best: usize,
    keys: &mut [u32],
    older: &mut [u32],
    heads: &mut [u32],
) -> usize
    requires names_lie { NamesLie bins.now e }
    requires best_le_count { best ≤ e.count }
    requires empty { Empty keys.old older.old heads.old }
    ensures { Blocked (called bins.now (entries_of bins.now e)) s (length keys.old) best result }
{
    let mut n = 0;
    for j in s..best {
        let x = name_of(bins, e, j);
        let g = records::hash_of(bins, x);
        if is_met(bins, e, s, n, x, g, keys, older, heads) {
            return j;
        }
        n = take_in(keys, older, heads, n, g);
    }
    best
}

// The same, with a table on the stack. It is called from two places and too long to be made a part of them: so its 48 KiB are given back before the check
// goes down a level.
fn block(bins: &[u8], e: Entries, s: usize, best: usize) -> usize
    requires names_lie { NamesLie bins.now e }
    requires best_le_count { best ≤ e.count }
    ensures { Blocked (called bins.now (entries_of bins.now e)) s 4096 best result }
{
    let mut keys = [0u32; 4096];
    let mut older = [0u32; 4096];
    let mut heads = [0u32; 4096];
    in_block(bins, e, s, best, &mut keys, &mut older, &mut heads)
}

// One block after the other: the lowest position whose value has a namesake before it, or the count.
fn many(bins: &[u8], e: Entries) -> usize
    requires { NamesLie bins.now e }
    ensures { First (called bins.now (entries_of bins.now e)) e.count result }
{
    // A `while`, for each block may bring the end nearer.
    let mut best = block(bins, e, 0, e.count);
    let mut s = 4096;
    while s < best {
        best = block(bins, e, s, best);
        s += 4096;
    }
    best
}

// Whether the value at position j has a namesake before it, each compared.
fn is_repeat(bins: &[u8], e: Entries, j: usize) -> bool
    requires names_lie { NamesLie bins.now e }
    requires j_lt_count { j < e.count }
    ensures { result ≡ met_in (called bins.now (entries_of bins.now e)) j (called bins.now (entries_of bins.now e) j) }
{
    let x = name_of(bins, e, j);
    for i in 0..j {
        if records::is_namesake(bins, name_of(bins, e, i), x) {
            return true;
        }
    }
    false
}

// A few values need no table.
#[tactic(auto, using(crate::proofs::Readings::passing))]
fn few(bins: &[u8], e: Entries) -> usize
    requires { NamesLie bins.now e }
    ensures { First (called bins.now (entries_of bins.now e)) e.count result }
{
    for j in 0..e.count {
        if is_repeat(bins, e, j) {
            return j;
        }
    }
    e.count
}

// The lowest position whose value has a namesake before it, or the count: no `Option`, for `First` of `namesake_laws` speaks of the count.
fn first_repeated(bins: &[u8], e: Entries) -> usize
    requires { NamesLie bins.now e }
    ensures { First (called bins.now (entries_of bins.now e)) e.count result }
{
    if e.count <= 16 {
        few(bins, e)
    } else {
        many(bins, e)
    }
}

// The check's stage of a key's names of values, where these have passed.
pub fn namesake_flaw(bins: &[u8], k: Key) -> Result<(), Flaw>
    requires { NamesLie bins.now (value_entries k) }
    ensures { result ≡ namesake_fault bins.now k }
{
    let count = k.values as usize;
    if count < 2 {
        return Ok(());
    }
    let e = Entries {
        cell: k.value_list,
        count,
    };
    let j = first_repeated(bins, e);
    if j < count {
        return fields::flawed(Fault::Namesake, values::entry(bins, e, j));
    }
    Ok(())
}
