// The old-format log: where its parts lie, its own tests, what it says of a hive, and the repair's stores.
#![tactic(auto)]

ghost use Rattle.std.specs.Prelude.{◌≡◌, true, ◌++◌, ◌+◌, ◌≤◌, ◌<◌, length, drop, Ok};
ghost use Rattle.sectors.specs.Logged.{is_in, put_one};
ghost use Rattle.old_log.specs.Layout.{log_bins, map_size, bitmap as bitmap_of, pages_at, is_logged, logged_place, logged, logged_count, next_logged, all_put};
ghost use Rattle.old_log.specs.Tests.{is_log_base, pages_fit, head_fault, log_fault, counted, zero_agrees, stamps_agree, all_in};

use fields::{Fault, Flaw, Offset, Place};

pub fn bins_size(log: &[u8]) -> usize
    requires { 512 ≤ length log.now }
    ensures { (result ≡ log_bins log.now) × (result < 4294967296) }
{
    base::bins_size(&log[0..512])
}

// s is the log's first 512 bytes.
#[tactic(auto, unfolding(crate::specs::Tests::is_log_base))]
fn is_log_base(s: &[u8]) -> bool
    requires { 512 ≤ length s.now }
    ensures { result ≡ is_log_base s.now }
{
    let kind = fields::u32_at(s, 28);
    (kind == 1 || kind == 2) && base::usable(s, kind) && base::sequences_equal(s)
}

// 21; 22 for the bitmap; 23.
#[tactic(auto, using(crate::proofs::Rules::ladder))]
pub fn head_flaw(log: &[u8]) -> Result<(), Flaw>
    ensures { result ≡ head_fault log.now }
{
    if log.len() < 512 || !is_log_base(&log[0..512]) {
        return fields::flawed(Fault::LogBase, Offset(0));
    }
    if log.len() < 516 + bins_size(log) / 4096 {
        return fields::flawed(Fault::LogShort, Offset(0));
    }
    if !fields::stands_at(log, 512, b"DIRT") {
        return fields::flawed(Fault::NoDirt, Offset(0));
    }
    Ok(())
}

#[tactic(auto, using(crate::proofs::Rules::heads))]
pub fn map_of(log: &[u8]) -> &[u8]
    requires { head_fault log.now ≡ Ok tt }
    ensures { result.now ≡ bitmap_of log.now }
{
    &log[516..516 + bins_size(log) / 4096]
}

// The next multiple of 512 at or after the bitmap's end.
#[tactic(auto, using(crate::proofs::Rules::heads))]
pub fn pages_at(log: &[u8]) -> usize
    requires { head_fault log.now ≡ Ok tt }
    ensures { result ≡ pages_at log.now }
{
    (516 + bins_size(log) / 4096 + 511) / 512 * 512
}

#[tactic(auto, using(crate::proofs::Rules::heads))]
fn logged_count(log: &[u8]) -> usize
    requires { head_fault log.now ≡ Ok tt }
    ensures { result ≡ logged_count log.now }
{
    bitmap::bits_before(map_of(log), bins_size(log) / 512)
}

#[tactic(auto, using(crate::proofs::Rules::heads))]
fn pages_fit(log: &[u8], count: usize) -> bool
    requires log_value { head_fault log.now ≡ Ok tt }
    requires count_value { count ≡ logged_count log.now }
    ensures { result ≡ pages_fit log.now }
{
    count == 0 || pages_at(log) + 512 * count <= log.len()
}

// 21; 22 for the bitmap; 23; 22 for the pages. The bits are counted once.
#[tactic(auto, using(fields::proofs::Firsts::on, fields::proofs::Firsts::stop), unfolding(crate::specs::Tests::log_fault))]
pub fn log_test(log: &[u8]) -> Result<usize, Flaw>
    ensures { result ≡ counted (log_fault log.now) (logged_count log.now) }
{
    head_flaw(log)?;
    let count = logged_count(log);
    if !pages_fit(log, count) {
        return Err(Flaw {
            fault: Fault::LogShort,
            place: Offset(0),
        });
    }
    Ok(count)
}

// ---- its pages, once the tests are passed

#[tactic(auto, using(crate::proofs::Rules::heads))]
pub fn is_logged(log: &[u8], page: usize) -> bool
    requires { log_fault log.now ≡ Ok tt }
    ensures { result ≡ is_logged log.now page }
{
    bitmap::is_marked(map_of(log), page)
}

#[tactic(auto, using(crate::proofs::Rules::heads))]
pub fn next_logged(log: &[u8], from: usize) -> Option<usize>
    requires { head_fault log.now ≡ Ok tt }
    ensures { result ≡ next_logged log.now from }
{
    bitmap::next_marked(map_of(log), from)
}

// Where a logged page lies in the log: by the set bits before it, never by its number.
#[tactic(auto, using(crate::proofs::Rules::pages))]
pub fn logged_place(log: &[u8], page: usize) -> Place
    requires log_value { log_fault log.now ≡ Ok tt }
    requires page_value { is_logged log.now page ≡ true }
    ensures { result.0 ≡ logged_place log.now page }
{
    let before = bitmap::bits_before(map_of(log), page);
    Place(pages_at(log) + 512 * before)
}

// Marks every logged page in a bitmap: the log has it.
#[tactic(auto, using(crate::proofs::Rules::heads))]
pub fn mark(log: &[u8], map: &mut [u8])
    requires log_value { head_fault log.now ≡ Ok tt }
    requires log_in_bounds { map_size log.now ≤ length map.old }
    ensures { map.new ≡ bitmap_of log.now ++ drop (map_size log.now) map.old }
{
    let n = bins_size(log) / 4096;
    map[0..n].copy_from_slice(map_of(log));
}

// ---- what it says of a hive

// "where page 0 is logged, that page's bytes 20 to 27 do too"
#[tactic(auto, using(crate::proofs::Rules::pages), unfolding(crate::specs::Layout::logged))]
fn zero_agrees(log: &[u8]) -> bool
    requires { log_fault log.now ≡ Ok tt }
    ensures { result ≡ zero_agrees log.now }
{
    if !is_logged(log, 0) {
        return true;
    }
    let at = logged_place(log, 0).0;
    fields::u64_at(&log[at..at + 512], 20) == fields::u64_at(&log[0..512], 12)
}

#[tactic(auto, using(crate::proofs::Rules::pages), unfolding(crate::specs::Tests::stamps_agree, sectors::specs::Sector::page))]
pub fn stamps_agree(hive: &[u8], log: &[u8]) -> bool
    requires log_value { log_fault log.now ≡ Ok tt }
    requires log_in_bounds { 4096 + log_bins log.now ≤ length hive.now }
    ensures { result ≡ stamps_agree hive.now log.now }
{
    let stamp = fields::u64_at(&log[0..512], 12);
    if base::usable(&hive[0..512], 0) {
        fields::u64_at(&hive[0..512], 12) == stamp
    } else {
        fields::u64_at(&hive[4096..4608], 20) == stamp && zero_agrees(log)
    }
}

// Whether a page, if it is logged, is in. The caller knows where it lies in the log.
#[tactic(auto, using(crate::proofs::Rules::pages), unfolding(crate::specs::Layout::logged, sectors::specs::Sector::page))]
fn is_in(hive: &[u8], log: &[u8], page: usize, from: usize) -> bool
    requires log_value { log_fault log.now ≡ Ok tt }
    requires log_in_bounds { 4096 + log_bins log.now ≤ length hive.now }
    requires from_value { from ≡ logged_place log.now page }
    ensures { result ≡ is_in (is_logged log.now) (logged log.now) hive.now page }
{
    if !is_logged(log, page) {
        return true;
    }
    let at = sectors::page_place(page).0;
    fields::same(&hive[at..at + 512], &log[from..from + 512])
}

// Whether every logged page is in: one pass over the bitmap, which keeps the place of the next logged page as it goes.
#[tactic(auto, using(crate::proofs::Rules::steps), unfolding(sectors::specs::Logged::in_below, bitmap::specs::Bits::bits_before))]
pub fn all_in(hive: &[u8], log: &[u8]) -> bool
    requires log_value { log_fault log.now ≡ Ok tt }
    requires log_in_bounds { 4096 + log_bins log.now ≤ length hive.now }
    ensures { result ≡ all_in hive.now log.now }
{
    let map = map_of(log);
    let n = bins_size(log) / 512;
    let mut from = pages_at(log);
    for page in 0..n {
        if !is_in(hive, log, page, from) {
            return false;
        }
        from += 512 * bitmap::bit_of(map, page);
    }
    true
}

// ---- the repair's stores

// Puts a page in where it is logged. The caller knows where it lies in the log.
#[tactic(auto, using(crate::proofs::Rules::pages), unfolding(crate::specs::Layout::logged))]
fn put_in(hive: &mut [u8], log: &[u8], page: usize, from: usize)
    requires log_value { log_fault log.now ≡ Ok tt }
    requires log_in_bounds { 4096 + log_bins log.now ≤ length hive.old }
    requires from_value { from ≡ logged_place log.now page }
    ensures { hive.new ≡ put_one (is_logged log.now) (logged log.now) page hive.old }
{
    if is_logged(log, page) {
        sectors::store(hive, sectors::page_place(page), log, Place(from));
    }
}

// Every logged page, rising: one pass over the bitmap, which keeps the place of the next logged page as it goes.
#[tactic(auto, using(crate::proofs::Rules::steps), unfolding(sectors::specs::Logged::put_below, bitmap::specs::Bits::bits_before))]
pub fn put_all(hive: &mut [u8], log: &[u8])
    requires log_value { log_fault log.now ≡ Ok tt }
    requires log_in_bounds { 4096 + log_bins log.now ≤ length hive.old }
    ensures { hive.new ≡ all_put hive.old log.now }
{
    let map = map_of(log);
    let end = bins_size(log) / 512;
    let mut from = pages_at(log);
    for page in 0..end {
        put_in(hive, log, page, from);
        from += 512 * bitmap::bit_of(map, page);
    }
}
