// "value with an earlier namesake in its key": the values of a key stand in a row in a stream. A key may have tens of thousands of values, so names are not
// compared each with each: a table of their hashes, searched by chains, says which have to be, and keeps where each value's frame starts.
#![tactic(auto)]

ghost use Rattle.std.specs.Prelude.{◌≡◌, ◌+◌, ◌≤◌, ◌<◌, length};
ghost use Rattle.chains.specs.Chains.{Chained};
ghost use Rattle.namesake_laws.specs.Repeats.{First, Blocked, met_in};
ghost use Rattle.namesake_laws.specs.Tables.{Empty, Taken};
ghost use Rattle.build_frames.specs.Terms.{name_in, TextLies};
ghost use Rattle.build_namesakes.specs.Rows.{start_of, Held, Row, name_text, called};
ghost use Rattle.build_namesakes.specs.Terms.{starts_called, Ready};

use build_frames::Text;

// The name of the value whose frame starts at a position.
fn name_at(s: &[u8], p: usize) -> Text
    requires { Held s.now p }
    ensures { (result ≡ name_text s.now p) × TextLies s.now result }
{
    Text {
        at: p + 14,
        len: fields::u32_at(s, p + 10) as usize,
    }
}

// Where frame j of a row starts.
pub fn position_of(s: &[u8], at: usize, j: usize) -> usize
    requires { Row s.now at j }
    ensures { result ≡ start_of s.now at j }
{
    let mut p = at;
    for _i in 0..j {
        p = build_frames::frame_end(s, p);
    }
    p
}

// Whether one of the n values of a table has a name, of the hash g.
fn is_met(
    s: &[u8],
    n: usize,
    x: Text,
    g: u32,
    keys: &[u32],
    older: &[u32],
    heads: &[u32],
    starts: &[usize],
) -> bool
    requires { Ready s.now n x g keys.now older.now heads.now starts.now }
    ensures { result ≡ met_in (starts_called s.now starts.now) n (name_in s.now x) }
{
    // A position in a chain is one above the index, and 0 ends it: so `chains` has them.
    let mut p = chains::find(keys, older, heads, n, g);
    while p != 0 {
        if build_frames::is_namesake(s, name_at(s, starts[p - 1]), x) {
            return true;
        }
        let q = older[p - 1] as usize;
        p = chains::find_from(keys, older, heads.len(), n, q, g);
    }
    false
}

// One value more, by its hash and where its frame starts, while there is room: how many then stand in the table.
fn take_in(
    keys: &mut [u32],
    older: &mut [u32],
    heads: &mut [u32],
    starts: &mut [usize],
    n: usize,
    g: u32,
    p: usize,
) -> usize
    requires chained { Chained keys.old older.old heads.old n }
    requires keys_in_bounds { (length keys.old ≤ length older.old) × (length keys.old ≤ length starts.old) × (length keys.old + 1 < 4294967296) }
    ensures taken { Taken (length keys.old) keys.old n g keys.new result }
    ensures taken_2 { Taken (length keys.old) starts.old n p starts.new result }
    ensures chained_2 { Chained keys.new older.new heads.new result }
{
    if n < keys.len() {
        chains::insert(keys, older, heads, n, g);
        starts[n] = p;
        n + 1
    } else {
        n
    }
}

// One block: the values of a row are taken into the table, as many as it has room for. The lowest of n whose value has a namesake of the block before it,
// or n.
fn in_block(
    s: &[u8],
    at: usize,
    n: usize,
    keys: &mut [u32],
    older: &mut [u32],
    heads: &mut [u32],
    starts: &mut [usize],
) -> usize
    requires row { Row s.now at n }
    requires empty { Empty keys.old older.old heads.old × (length keys.old ≤ length starts.old) }
    ensures { Blocked (called s.now at) 0 (length keys.old) n result }
{
    let mut p = at;
    let mut k: usize = 0;
    for j in 0..n {
        let x = name_at(s, p);
        let g = build_frames::hash_of(s, x);
        if is_met(s, k, x, g, keys, older, heads, starts) {
            return j;
        }
        k = take_in(keys, older, heads, starts, k, g, p);
        p = build_frames::frame_end(s, p);
    }
    n
}

// The same, with a table on the stack. It is called from two places and too long to be made a part of them: so its 80 KiB are given back before the pass
// goes on.
fn block(s: &[u8], at: usize, n: usize) -> usize
    requires { Row s.now at n }
    ensures { Blocked (called s.now at) 0 4096 n result }
{
    let mut keys = [0u32; 4096];
    let mut older = [0u32; 4096];
    let mut heads = [0u32; 4096];
    let mut starts = [0usize; 4096];
    in_block(s, at, n, &mut keys, &mut older, &mut heads, &mut starts)
}

// One block after the other: the lowest of n whose value has a namesake before it, or n. What is looked at ends at `best`, which falls: so this is no `for`.
fn many(s: &[u8], at: usize, n: usize) -> usize
    requires { Row s.now at n }
    ensures { First (called s.now at) n result }
{
    let mut best = block(s, at, n);
    let mut p = at;
    let mut b: usize = 4096;
    while b < best {
        p = position_of(s, p, 4096);
        best = b + block(s, p, best - b);
        b += 4096;
    }
    best
}

// Whether one of the first j values of a row has a name, each compared.
fn is_repeat(s: &[u8], at: usize, j: usize, x: Text) -> bool
    requires { Row s.now at j × TextLies s.now x }
    ensures { result ≡ met_in (called s.now at) j (name_in s.now x) }
{
    let mut p = at;
    for _i in 0..j {
        if build_frames::is_namesake(s, name_at(s, p), x) {
            return true;
        }
        p = build_frames::frame_end(s, p);
    }
    false
}

// A few values need no table.
fn few(s: &[u8], at: usize, n: usize) -> usize
    requires { Row s.now at n }
    ensures { First (called s.now at) n result }
{
    let mut p = at;
    for j in 0..n {
        if is_repeat(s, at, j, name_at(s, p)) {
            return j;
        }
        p = build_frames::frame_end(s, p);
    }
    n
}

// The lowest of n values of a row that has a namesake before it, or n.
pub fn first_repeat(s: &[u8], at: usize, n: usize) -> usize
    requires { Row s.now at n }
    ensures { First (called s.now at) n result }
{
    if n <= 16 {
        few(s, at, n)
    } else {
        many(s, at, n)
    }
}
