// The security items of a hive whose tree was accepted: "each count must equal the number of reached keys that name the item", and every key's item
// lies on the ring. Items are taken in batches, and each batch costs one pass over the keys.
#![tactic(auto)]

ghost use Rattle.std.specs.Prelude.{◌≡◌, true};
ghost use Rattle.cells.specs.Terms.{Data};
ghost use Rattle.security_pass.specs.Counting.{Legible, sought_in};
ghost use Rattle.security.specs.Items.{is_item, ring_fault, ring_of, ring_steps, off_charge, security_charge};
ghost use Rattle.security.specs.Terms.{taken};
ghost use Rattle.security_check.specs.Terms.{tree_keys, unequal, added_from, summed, sum_over, turn_by, turned, Turning, Rows, Walkable, Rung, marked, Complete, Asked, seeking, refused_at, answer_of};

use fields::{Fault, Flaw, Offset, Refusal};
use security::Batch;
use security_pass::Pass;

// How many items a batch takes, and how many chains they hang on: a prime number, so that items of one size spread over all of them.
const ITEMS: usize = 2048;

const CHAINS: usize = 2039;

// How a batch ended: with the ring closed, or with items left; each with the sum of its counts.
#[derive(Clone, Copy)]
enum Turn {
    Ended(u64),
    Next(u64, Offset),
}

// "All these faults are the new refusal 28": at a place, with the key under examination.
fn refused_at(key: Offset, place: Offset) -> Result<(), Refusal>
    ensures { result ≡ refused_at key place }
{
    Err(fields::refused(
        key,
        Flaw {
            fault: Fault::Security,
            place,
        },
    ))
}

// The counts of a batch, compared in order with what its items say, and added.
fn compare(bins: &[u8], table: &[u32], counts: &[u32], n: usize) -> Result<u64, Flaw>
    requires { Rows bins.now table.now counts.now n }
    ensures { result ≡ summed (unequal bins.now table.now counts.now 0 n) (added_from counts.now 0 n) }
{
    let mut sum: u64 = 0;
    for i in 0..n {
        let o = Offset(table[i]);
        let k = counts[i];
        if security::item_at(bins, o).count != k {
            return Err(Flaw {
                fault: Fault::Security,
                place: o,
            });
        }
        sum = sum.wrapping_add(u64::from(k));
    }
    Ok(sum)
}

// How many items a batch took.
fn size_of(b: Batch) -> usize
    ensures { result ≡ taken b }
{
    match b {
        Batch::Closed(n) | Batch::Broken(n, _) | Batch::More(n, _) => n,
    }
}

// What follows a batch whose counts, added, come to n: a fault that `gather` met, else the next batch.
fn turn_of(n: u64, b: Batch) -> Result<Turn, Flaw>
    ensures { result ≡ turn_by (Ok n) b }
{
    match b {
        Batch::Closed(_) => Ok(Turn::Ended(n)),
        Batch::Broken(_, o) => Err(Flaw {
            fault: Fault::Security,
            place: o,
        }),
        Batch::More(_, o) => Ok(Turn::Next(n, o)),
    }
}

// One batch, with its tables on the stack. Its counts are compared in order before its end is looked at: so an earlier count goes before a later link.
fn run_batch(
    bins: &[u8],
    map: &[u8],
    root: Offset,
    first: Offset,
    from: Offset,
) -> Result<Turn, Flaw>
    requires { Turning bins.now map.now root first 2048 from }
    ensures { result ≡ turned bins.now map.now (tree_keys bins.now root) first 2048 from }
{
    let mut table = [0u32; ITEMS];
    let mut older = [0u32; ITEMS];
    let mut heads = [0u32; CHAINS];
    let mut counts = [0u32; ITEMS];
    let b = security::gather(bins, map, first, from, &mut table, &mut older, &mut heads);
    let n = size_of(b);
    let w = Pass {
        seek: false,
        items: n,
    };
    security_pass::count_key(bins, map, &table, &older, &heads, w, root, 513, &mut counts);
    turn_of(compare(bins, &table, &counts, n)?, b)
}

// The whole ring, batch by batch: the first fault, or how often the keys name its items. Its items are fewer than the bins data have bytes.
fn ring_sum(bins: &[u8], map: &[u8], root: Offset, first: Offset) -> Result<u64, Flaw>
    requires first_value { is_item bins.now map.now first ≡ true }
    requires walkable { Walkable bins.now root }
    ensures { result ≡ summed (ring_fault bins.now map.now (tree_keys bins.now root) first (ring_steps bins.now) first) (sum_over bins.now (tree_keys bins.now root) (ring_of bins.now first (ring_steps bins.now) first)) }
{
    let mut sum: u64 = 0;
    let mut from = first;
    for _met in (0..bins.len()).step_by(ITEMS) {
        match run_batch(bins, map, root, first, from)? {
            Turn::Ended(n) => return Ok(sum.wrapping_add(n)),
            Turn::Next(n, o) => {
                sum = sum.wrapping_add(n);
                from = o;
            }
        }
    }
    Ok(sum)
}

// Sets the bits of the ring's items.
fn mark_ring(bins: &[u8], map: &mut [u8], first: Offset)
    requires rung { Rung bins.now first }
    requires fact { Data bins.now map.old }
    ensures { map.new ≡ marked (ring_of bins.now first (ring_steps bins.now) first) map.old }
{
    let mut at = first;
    for _met in 0..bins.len() {
        bitmap::put_bit(map, at.0 as usize / 8, true);
        at = security::item_at(bins, at).forward;
        if at.0 == first.0 {
            return;
        }
    }
}

// The first key whose item has no bit in the map.
fn seek_key(bins: &[u8], map: &[u8], root: Offset) -> Option<Offset>
    requires { Legible bins.now 513 root }
    ensures { result ≡ sought_in bins.now map.now seeking (tree_keys bins.now root) }
{
    let none = [0u32; 1];
    let mut counts = [0u32; 1];
    let w = Pass {
        seek: true,
        items: 0,
    };
    security_pass::count_key(bins, map, &none, &none, &none, w, root, 513, &mut counts)
}

// The first key off the ring, sought with the map: cleared, and the ring items' own bits set in it, it tells each key's offset in one step. Then the
// pass over the cells makes it again as it was.
fn seek_off(bins: &[u8], map: &mut [u8], root: Offset, first: Offset) -> Result<(), Refusal>
    requires rung { Rung bins.now first }
    requires fact { Data bins.now map.old }
    requires legible { Legible bins.now 513 root }
    requires complete { Complete bins.now map.old }
    ensures value { result ≡ answer_of (off_charge bins.now (ring_of bins.now first (ring_steps bins.now) first) (tree_keys bins.now root)) }
    ensures map_unchanged { map.new ≡ map.old }
{
    bitmap::clear(map, bins.len() / 64);
    mark_ring(bins, map, first);
    let s = seek_key(bins, map, root);
    // What the survey says of the hive is known: its tree was accepted.
    let _ = cells::scan(bins, map);
    match s {
        None => Ok(()),
        Some(k) => refused_at(k, k),
    }
}

// The examination of the security items, of a hive whose tree was accepted with so many keys. The map is as it was.
pub fn security_charge(bins: &[u8], map: &mut [u8], root: Offset, keys: u64) -> Result<(), Refusal>
    requires { Asked bins.now map.old root keys }
    ensures value { result ≡ answer_of (security_charge bins.now map.old root (tree_keys bins.now root)) }
    ensures map_unchanged { map.new ≡ map.old }
{
    let first = records::security_of(bins, root);
    if !security::is_item(bins, map, first) {
        return refused_at(root, root);
    }
    let n = ring_sum(bins, map, root, first).map_err(|f| fields::refused(root, f))?;
    if n == keys {
        return Ok(());
    }
    seek_off(bins, map, root, first)
}
