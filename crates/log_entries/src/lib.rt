// The entries of a new-format log: the tests of one, and what one pass over those that count finds.
#![tactic(auto)]

ghost use Rattle.std.specs.Prelude.{◌≡◌, ◌+◌, ◌*◌, ◌≤◌, ◌<◌, length};
ghost use Rattle.fields.specs.Number.{u32_at};
ghost use Rattle.log_entries.specs.Entries.{number_at, ref_bytes, is_hashed, is_placed, are_apart, apart_from, are_refs, is_entry, grown as grown_by, chain_of};
ghost use Rattle.log_entries.specs.Terms.{Whole, refs_fit, EndBy};

// What the entries that count say: how many they are, where the last ends, its number and bins size, and the largest bins size of all.
#[derive(Clone, Copy)]
pub struct Chain {
    pub entries: usize,
    pub end: usize,
    pub last: u32,
    pub bins: usize,
    pub largest: usize,
}

// A number of 32 bits, to count with: no sum or product of two of them wraps.
fn wide_at(log: &[u8], i: usize) -> usize
    requires { i + 4 ≤ length log.now }
    ensures { (result ≡ u32_at log.now i) × (result < 4294967296) }
{
    fields::u32_at(log, i) as usize
}

// ---- the tests of one entry, which starts at a place

// Both hashes: Hash-1 over all that follows the entry's head, padding too.
#[tactic(auto, unfolding(crate::specs::Entries::is_hashed), using(std::proofs::lemmas::Bool::Decides::nat_tests))]
fn is_hashed(log: &[u8], at: usize) -> bool
    requires { Whole log.now at }
    ensures { result ≡ is_hashed log.now at }
{
    let end = at + wide_at(log, at + 4);
    fields::u64_at(log, at + 24) == marvin::hash(&log[at + 40..end])
        && fields::u64_at(log, at + 32) == marvin::hash(&log[at..at + 32])
}

// The bytes of the first n references.
#[tactic(auto, using(crate::proofs::Tests::steps), unfolding(crate::specs::Entries::ref_bytes))]
fn ref_bytes(log: &[u8], at: usize, n: usize) -> usize
    requires n_bound { n < 4294967296 }
    requires n_in_bounds { at + 40 + 8 * n ≤ length log.now }
    ensures { result ≡ ref_bytes log.now at n }
{
    let mut sum = 0;
    for i in 0..n {
        sum += wide_at(log, at + 44 + 8 * i);
    }
    sum
}

#[tactic(auto, using(std::proofs::lemmas::Bool::Decides::nat_tests))]
fn is_placed(log: &[u8], at: usize, i: usize) -> bool
    requires { at + 48 + 8 * i ≤ length log.now }
    ensures { result ≡ is_placed log.now at i }
{
    let offset = wide_at(log, at + 40 + 8 * i);
    let bytes = wide_at(log, at + 44 + 8 * i);
    offset % 512 == 0 && bytes % 512 == 0 && offset + bytes <= wide_at(log, at + 16)
}

#[tactic(auto, using(std::proofs::lemmas::Bool::Decides::nat_tests))]
fn are_apart(log: &[u8], at: usize, i: usize, j: usize) -> bool
    requires i_in_bounds { at + 48 + 8 * i ≤ length log.now }
    requires j_in_bounds { at + 48 + 8 * j ≤ length log.now }
    ensures { result ≡ are_apart log.now at i j }
{
    let offset = wide_at(log, at + 40 + 8 * i);
    let size = wide_at(log, at + 44 + 8 * i);
    let other = wide_at(log, at + 40 + 8 * j);
    let other_size = wide_at(log, at + 44 + 8 * j);
    size == 0 || other_size == 0 || offset + size <= other || other + other_size <= offset
}

// Whether reference i shares no byte with any before it.
#[tactic(auto, using(crate::proofs::Tests::steps), unfolding(crate::specs::Entries::apart_from))]
fn apart_from(log: &[u8], at: usize, i: usize) -> bool
    requires { at + 48 + 8 * i ≤ length log.now }
    ensures { result ≡ apart_from log.now at i i }
{
    for j in 0..i {
        if !are_apart(log, at, i, j) {
            return false;
        }
    }
    true
}

// The same, where the ends of those before it are known: only a reference that has bytes and starts before one of them needs a comparison with each.
#[tactic(auto, using(std::proofs::lemmas::Bool::Decides::nat_tests))]
fn is_apart(log: &[u8], at: usize, i: usize, end: usize) -> bool
    requires i_in_bounds { at + 48 + 8 * i ≤ length log.now }
    requires end_by { EndBy log.now at i end }
    ensures { result ≡ apart_from log.now at i i }
{
    wide_at(log, at + 44 + 8 * i) == 0
        || end <= wide_at(log, at + 40 + 8 * i)
        || apart_from(log, at, i)
}

// The end of those before reference i, or its own.
fn later_end(log: &[u8], at: usize, i: usize, end: usize) -> usize
    requires i_in_bounds { at + 48 + 8 * i ≤ length log.now }
    requires end_by { EndBy log.now at i end }
    ensures { EndBy log.now at (i + 1) result }
{
    let own = wide_at(log, at + 40 + 8 * i) + wide_at(log, at + 44 + 8 * i);
    end.max(own)
}

#[tactic(auto, using(crate::proofs::Tests::steps), unfolding(crate::specs::Entries::are_refs))]
fn are_refs(log: &[u8], at: usize, n: usize) -> bool
    requires { at + 40 + 8 * n ≤ length log.now }
    ensures { result ≡ are_refs log.now at n }
{
    let mut end = 0;
    for i in 0..n {
        if !is_placed(log, at, i) || !is_apart(log, at, i, end) {
            return false;
        }
        end = later_end(log, at, i, end);
    }
    true
}

// No reference is read before it is known that all of them, and their bytes, end in the entry.
#[tactic(auto, using(std::proofs::lemmas::Bool::Decides::nat_tests))]
fn refs_fit(log: &[u8], at: usize) -> bool
    requires { Whole log.now at }
    ensures { result ≡ refs_fit log.now at }
{
    let room = wide_at(log, at + 4) - 40;
    let count = wide_at(log, at + 20);
    8 * count <= room && ref_bytes(log, at, count) <= room - 8 * count && are_refs(log, at, count)
}

// Whether entry number n stands at a place.
#[tactic(auto, using(std::proofs::lemmas::Bool::Decides::nat_tests), unfolding(crate::specs::Entries::is_entry))]
pub fn is_entry(log: &[u8], at: usize, n: u64) -> bool
    requires { at ≤ length log.now }
    ensures { result ≡ is_entry log.now at n }
{
    let room = log.len() - at;
    if room < 40 {
        return false;
    }
    let size = wide_at(log, at + 4);
    fields::stands_at(log, at, b"HvLE")
        && 512 <= size
        && size % 512 == 0
        && size <= room
        && is_hashed(log, at)
        && u64::from(fields::u32_at(log, at + 12)) == n
        && base::is_bins_size(fields::u32_at(log, at + 16))
        && refs_fit(log, at)
}

// ---- the entries that count

// The chain with one entry more, which starts where it ends.
#[tactic(auto, using(std::proofs::lemmas::Bool::Decides::nat_tests), unfolding(crate::specs::Entries::grown))]
fn grown(log: &[u8], chain: Chain) -> Chain
    requires whole { Whole log.now chain.end }
    requires entries_in_bounds { chain.entries < length log.now }
    ensures { result ≡ grown_by log.now chain (record { at = chain.end; number = number_at log.now chain.end }) }
{
    let at = chain.end;
    let bins = wide_at(log, at + 16);
    Chain {
        entries: chain.entries + 1,
        end: at + wide_at(log, at + 4),
        last: fields::u32_at(log, at + 12),
        bins,
        largest: chain.largest.max(bins),
    }
}

// One pass: the first entry that does not pass ends the log. A number that 32 bits do not hold is that of no entry.
pub fn chain_of(log: &[u8]) -> Chain
    requires { 512 ≤ length log.now }
    ensures { result ≡ chain_of log.now }
{
    let mut chain = Chain {
        entries: 0,
        end: 512,
        last: 0,
        bins: 0,
        largest: 0,
    };
    let mut n = u64::from(fields::u32_at(&log[0..512], 4));
    while is_entry(log, chain.end, n) {
        chain = grown(log, chain);
        n += 1;
    }
    chain
}
