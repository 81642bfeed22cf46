// The new-format log: its own tests, its pages, what it says of a hive, and the repair's stores.
#![tactic(auto)]

ghost use Rattle.std.specs.Prelude.{◌≡◌, not, ◌&&◌, ◌||◌, ◌++◌, ◌+◌, ◌/◌, ◌≤◌, ◌<◌, eqb, length, drop, Ok};
ghost use Rattle.fields.specs.Number.{u64_at};
ghost use Rattle.bitmap.specs.Bits.{next_among};
ghost use Rattle.fields.specs.Bytes.{same_bytes};
ghost use Rattle.sectors.specs.Sector.{sector_at, stored, page_place, page as page_of};
ghost use Rattle.sectors.specs.Logged.{in_below};
ghost use Rattle.sectors.specs.Closing.{closing_sector};
ghost use Rattle.log_entries.specs.Entries.{chain_of};
ghost use Rattle.log_versions.specs.Versions.{versions as versions_in, versions_of, is_logged, logged_place, logged};
ghost use Rattle.new_log.specs.Layout.{log_bins, page_count, logged_below, logged_count, next_logged, marks_of, all_in, all_put};
ghost use Rattle.new_log.specs.Tests.{is_log_base, log_fault, headed, all_stamped, applies as is_of, renewed, closing_of};
ghost use Rattle.new_log.specs.Windows.{has_page, in_window, Windowed, always, differs};

use fields::{Fault, Flaw, Offset, Place};
use log_entries::Chain;

// ---- its own tests

// s is the log's first 512 bytes.
#[tactic(auto, unfolding(crate::specs::Tests::is_log_base))]
fn is_log_base(s: &[u8]) -> bool
    requires { 512 ≤ length s.now }
    ensures { result ≡ is_log_base s.now }
{
    base::usable(s, 6) && base::sequences_equal(s)
}

// 21; 22. The one pass that hashes: what it finds is handed on.
#[tactic(auto, using(crate::proofs::Ways::ladder))]
pub fn read(log: &[u8]) -> Result<Chain, Flaw>
    ensures { result ≡ headed (log_fault log.now) (chain_of log.now) }
{
    if log.len() < 512 || !is_log_base(&log[0..512]) {
        return Err(Flaw {
            fault: Fault::LogBase,
            place: Offset(0),
        });
    }
    let chain = log_entries::chain_of(log);
    if chain.entries == 0 {
        return Err(Flaw {
            fault: Fault::LogShort,
            place: Offset(0),
        });
    }
    Ok(chain)
}

// ---- windows: maps with one bit for each page from `base` on

// Whether the window has a bit for a page.
#[tactic(auto, using(std::proofs::lemmas::Bool::Decides::nat_tests))]
fn has_page(map: &[u8], base: usize, page: usize) -> bool
    ensures { result ≡ has_page map.now base page }
{
    base <= page && (page - base) / 8 < map.len()
}

// Sets or clears the bit of a page, where the window has one.
#[tactic(auto, unfolding(crate::specs::Windows::in_window))]
fn put_page(map: &mut [u8], base: usize, page: usize, on: bool)
    ensures { map.new ≡ in_window map.old base page on }
{
    if has_page(map, base, page) {
        bitmap::put_bit(map, page - base, on);
    }
}

// Sets the bit of each logged page.
#[tactic(auto, using(crate::proofs::Walks::windows))]
fn mark_window(log: &[u8], chain: Chain, base: usize, map: &mut [u8])
    requires { chain ≡ chain_of log.now }
    ensures { Windowed always base (versions_in log.now) map.old map.new }
{
    let mut c = log_versions::first(log, chain);
    while 0 < c.pages {
        put_page(map, base, c.page, true);
        c = log_versions::next(log, c);
    }
}

// How many of 131,072 pages are logged.
fn window_count(log: &[u8], chain: Chain, base: usize) -> usize
    requires { chain ≡ chain_of log.now }
    ensures { logged_below log.now (base + 131072) ≡ logged_below log.now base + result }
{
    let mut window = [0u8; 16384];
    mark_window(log, chain, base, &mut window);
    bitmap::bits_before(&window, 131072)
}

// No test needs the count: it is made where it is asked.
#[tactic(auto, using(crate::proofs::Counts::counts), unfolding(crate::specs::Layout::logged_below))]
pub fn logged_count(log: &[u8], chain: Chain) -> usize
    requires { chain ≡ chain_of log.now }
    ensures { result ≡ logged_count log.now }
{
    let mut count = 0;
    for base in (0..chain.largest / 512).step_by(131072) {
        count += window_count(log, chain, base);
    }
    count
}

// The least logged page among 131,072.
fn window_next(log: &[u8], chain: Chain, base: usize) -> Option<usize>
    requires chain_value { chain ≡ chain_of log.now }
    requires base_bound { base < page_count log.now }
    ensures { result ≡ next_among 131072 (is_logged log.now) base }
{
    let mut window = [0u8; 16384];
    mark_window(log, chain, base, &mut window);
    let k = bitmap::next_marked(&window, 0)?;
    Some(base + k)
}

#[tactic(auto, using(crate::proofs::Counts::nexts))]
pub fn next_logged(log: &[u8], chain: Chain, from: usize) -> Option<usize>
    requires { chain ≡ chain_of log.now }
    ensures { result ≡ next_logged log.now from }
{
    for base in (from..chain.largest / 512).step_by(131072) {
        if let Some(p) = window_next(log, chain, base) {
            return Some(p);
        }
    }
    None
}

// Writes the map of the logged pages to the first bytes of a lent one.
fn write_marks(log: &[u8], chain: Chain, map: &mut [u8])
    requires chain_value { chain ≡ chain_of log.now }
    requires log_in_bounds { page_count log.now / 8 ≤ length map.old }
    ensures { map.new ≡ marks_of log.now ++ drop (page_count log.now / 8) map.old }
{
    let n = chain.largest / 512 / 8;
    bitmap::clear(map, n);
    mark_window(log, chain, 0, &mut map[0..n]);
}

// The same, and how many they are: the map that is written has them to count.
pub fn mark(log: &[u8], chain: Chain, map: &mut [u8]) -> usize
    requires log_value { log_fault log.now ≡ Ok tt }
    requires chain_value { chain ≡ chain_of log.now }
    requires log_in_bounds { page_count log.now / 8 ≤ length map.old }
    ensures value { result ≡ logged_count log.now }
    ensures map_after { map.new ≡ marks_of log.now ++ drop (page_count log.now / 8) map.old }
{
    write_marks(log, chain, map);
    bitmap::bits_before(map, chain.largest / 512)
}

// ---- one page

// Whether some version names the page.
#[tactic(auto, using(crate::proofs::Walks::naming), unfolding(log_versions::specs::Versions::names))]
pub fn is_logged(log: &[u8], chain: Chain, page: usize) -> bool
    requires { chain ≡ chain_of log.now }
    ensures { result ≡ is_logged log.now page }
{
    let mut c = log_versions::first(log, chain);
    while 0 < c.pages {
        if c.page == page {
            return true;
        }
        c = log_versions::next(log, c);
    }
    false
}

// Where the last version of the page lies, 0 where there is none.
#[tactic(auto, using(crate::proofs::Walks::placing), unfolding(log_versions::specs::Versions::last_place))]
pub fn logged_place(log: &[u8], chain: Chain, page: usize) -> Place
    requires { chain ≡ chain_of log.now }
    ensures { result.0 ≡ logged_place log.now page }
{
    let mut place = 0;
    let mut c = log_versions::first(log, chain);
    while 0 < c.pages {
        if c.page == page {
            place = c.place;
        }
        c = log_versions::next(log, c);
    }
    Place(place)
}

// ---- what it says of a hive

// Whether a version is of another page, or bears the stamp.
#[tactic(auto, using(std::proofs::lemmas::Bool::Decides::nat_tests))]
fn is_stamped(log: &[u8], page: usize, place: usize, stamp: u64) -> bool
    requires { place + 512 ≤ length log.now }
    ensures { result ≡ (not (eqb page 0) || eqb (u64_at (sector_at log.now place) 20) stamp) }
{
    page != 0 || fields::u64_at(&log[place..place + 512], 20) == stamp
}

// "every logged version of page 0"
#[tactic(auto, using(crate::proofs::Walks::stamping), unfolding(crate::specs::Tests::all_stamped, log_versions::specs::Versions::bytes_in))]
fn all_stamped(log: &[u8], chain: Chain, stamp: u64) -> bool
    requires { chain ≡ chain_of log.now }
    ensures { result ≡ all_stamped stamp (versions_of log.now 0) }
{
    let mut c = log_versions::first(log, chain);
    while 0 < c.pages {
        if !is_stamped(log, c.page, c.place, stamp) {
            return false;
        }
        c = log_versions::next(log, c);
    }
    true
}

#[tactic(auto, using(crate::proofs::Facts::passed), unfolding(crate::specs::Tests::applies, sectors::specs::Sector::page))]
pub fn applies(hive: &[u8], log: &[u8], chain: Chain) -> bool
    requires log_value { log_fault log.now ≡ Ok tt }
    requires chain_value { chain ≡ chain_of log.now }
    requires log_in_bounds { 4096 + log_bins log.now ≤ length hive.now }
    ensures { result ≡ is_of hive.now log.now }
{
    if base::usable(&hive[0..512], 0) {
        fields::u32_at(&hive[0..512], 8) == fields::u32_at(&log[0..512], 4)
    } else {
        let stamp = fields::u64_at(&log[0..512], 12);
        fields::u64_at(&hive[4096..4608], 20) == stamp && all_stamped(log, chain, stamp)
    }
}

// Whether a page of the hive has the bytes of one of its versions.
#[tactic(auto, unfolding(sectors::specs::Sector::page))]
fn is_same(hive: &[u8], log: &[u8], page: usize, place: usize) -> bool
    requires page_in_bounds { page_place page + 512 ≤ length hive.now }
    requires place_in_bounds { place + 512 ≤ length log.now }
    ensures { result ≡ same_bytes (page_of hive.now page) (sector_at log.now place) }
{
    let at = 4096 + 512 * page;
    fields::same(&hive[at..at + 512], &log[place..place + 512])
}

// The bit of a page, where the window has one: set if the hive's bytes differ from those of this version, else cleared.
#[tactic(auto, unfolding(crate::specs::Windows::in_window))]
fn put_differs(hive: &[u8], log: &[u8], map: &mut [u8], base: usize, page: usize, place: usize)
    requires page_in_bounds { page_place page + 512 ≤ length hive.now }
    requires place_in_bounds { place + 512 ≤ length log.now }
    ensures { map.new ≡ in_window map.old base page (differs hive.now log.now page place) }
{
    if has_page(map, base, page) {
        bitmap::put_bit(map, page - base, !is_same(hive, log, page, place));
    }
}

#[tactic(auto, using(crate::proofs::Walks::windows))]
fn differ_window(hive: &[u8], log: &[u8], chain: Chain, base: usize, map: &mut [u8])
    requires chain_value { chain ≡ chain_of log.now }
    requires log_in_bounds { 4096 + log_bins log.now ≤ length hive.now }
    ensures { Windowed (differs hive.now log.now) base (versions_in log.now) map.old map.new }
{
    let mut c = log_versions::first(log, chain);
    while 0 < c.pages {
        put_differs(hive, log, map, base, c.page, c.place);
        c = log_versions::next(log, c);
    }
}

// Whether each logged page among 131,072 is in, by its last version.
fn window_in(hive: &[u8], log: &[u8], chain: Chain, base: usize) -> bool
    requires chain_value { chain ≡ chain_of log.now }
    requires log_in_bounds { 4096 + log_bins log.now ≤ length hive.now }
    ensures { in_below (is_logged log.now) (logged log.now) (base + 131072) hive.now ≡ (in_below (is_logged log.now) (logged log.now) base hive.now && result) }
{
    let mut window = [0u8; 16384];
    differ_window(hive, log, chain, base, &mut window);
    bitmap::bits_before(&window, 131072) == 0
}

#[tactic(auto, using(crate::proofs::Ins::ins), unfolding(sectors::specs::Logged::in_below))]
pub fn all_in(hive: &[u8], log: &[u8], chain: Chain) -> bool
    requires chain_value { chain ≡ chain_of log.now }
    requires log_in_bounds { 4096 + log_bins log.now ≤ length hive.now }
    ensures { result ≡ all_in hive.now log.now }
{
    for base in (0..chain.largest / 512).step_by(131072) {
        if !window_in(hive, log, chain, base) {
            return false;
        }
    }
    true
}

// ---- the repair's stores

// Every version in turn, so that the last of a page stays.
#[tactic(auto, using(crate::proofs::Walks::windows))]
pub fn put_all(hive: &mut [u8], log: &[u8], chain: Chain)
    requires chain_value { chain ≡ chain_of log.now }
    requires log_in_bounds { 4096 + log_bins log.now ≤ length hive.old }
    ensures { hive.new ≡ all_put hive.old log.now }
{
    let mut c = log_versions::first(log, chain);
    while 0 < c.pages {
        sectors::store(hive, sectors::page_place(c.page), log, Place(c.place));
        c = log_versions::next(log, c);
    }
}

// Makes the log's first sector the closing one.
fn put_number_and_size(dst: &mut [u8], number: u32, bins: u32)
    requires { 512 ≤ length dst.old }
    ensures { dst.new ≡ closing_sector (renewed dst.old number bins) }
{
    fields::put_u32(dst, 4, number);
    fields::put_u32(dst, 8, number);
    fields::put_u32(dst, 40, bins);
    sectors::make_closing(dst);
}

// Writes the closing sector to the hive's first 512 bytes.
#[tactic(auto, using(crate::proofs::Facts::passed))]
pub fn store_closing(hive: &mut [u8], log: &[u8], chain: Chain)
    requires log_value { log_fault log.now ≡ Ok tt }
    requires chain_value { chain ≡ chain_of log.now }
    requires in_bounds { 512 ≤ length hive.old }
    ensures { hive.new ≡ stored hive.old 0 (closing_of log.now) }
{
    sectors::store(hive, Place(0), log, Place(0));
    put_number_and_size(&mut hive[0..512], chain.last, chain.bins as u32);
}
