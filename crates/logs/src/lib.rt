// A log, whatever its format: its own tests, its pages, what it says of a hive, and the repair's stores.
// What the tests have read of the log is handed to each question, so that a call reads the log once.
// Every question goes by the format, so every proof opens the words that say so.
#![tactic(auto, unfolding(crate::specs::Logs::read_of, crate::specs::Logs::head_fault, crate::specs::Logs::log_fault, crate::specs::Logs::log_bins, crate::specs::Logs::is_logged, crate::specs::Logs::logged_count, crate::specs::Logs::next_logged, crate::specs::Logs::logged_place, crate::specs::Logs::logged, crate::specs::Logs::marks_of, crate::specs::Logs::counted_of, crate::specs::Logs::applies))]

ghost use Rattle.std.specs.Prelude.{◌≡◌, true, ◌++◌, ◌+◌, ◌/◌, ◌≤◌, ◌<◌, length, drop, Ok};
ghost use Rattle.sectors.specs.Sector.{stored};
ghost use Rattle.base.specs.Block.{sector};
ghost use Rattle.fields.specs.Number.{u32_at};
ghost use Rattle.log_entries.specs.Entries.{chain_of};
ghost use Rattle.new_log.specs.Tests as new_tests;
ghost use Rattle.old_log.specs.Layout as old_layout;
ghost use Rattle.old_log.specs.Tests as old_tests;
ghost use Rattle.logs.specs.declared.LogFormat.TheVariants as format;
ghost use Rattle.logs.specs.Logs.{is_new, read_of, head_fault, headed, log_fault, log_bins, page_count, is_logged, logged_count, counted_of, next_logged, logged_place, marks_of, facts_of, tested, applies as applies_to, all_in, all_put, closing_of};

use fields::{Flaw, Place};
use log_entries::Chain;

// What one pass over a log finds that every question needs: its format, and the entries of a new one.
#[derive(Clone, Copy)]
pub enum LogFormat {
    Old,
    New(Chain),
}

// What a log says of itself: how many entries count, the first and the last number, where the last entry ends, and the bins size that 24 reads.
// An old log has no entries: both numbers are its own, and its entries end where they would start.
#[derive(Clone, Copy)]
pub struct Facts {
    pub entries: usize,
    pub first: u32,
    pub last: u32,
    pub end: usize,
    pub bins: usize,
}

// ---- its own tests

#[tactic(auto, unfolding(crate::specs::Logs::is_new))]
fn is_new(log: &[u8]) -> bool
    ensures { result ≡ is_new log.now }
{
    512 <= log.len() && fields::u32_at(&log[0..512], 28) == 6
}

// Those after which its pages are known.
pub fn head_test(log: &[u8]) -> Result<LogFormat, Flaw>
    ensures { result ≡ headed (head_fault log.now) (read_of log.now) }
{
    if is_new(log) {
        Ok(LogFormat::New(new_log::read(log)?))
    } else {
        old_log::head_flaw(log)?;
        Ok(LogFormat::Old)
    }
}

// All of them. An old log's tell how many pages it has. A new one's are the same as above, for none counts a page.
pub fn log_test(log: &[u8]) -> Result<(LogFormat, usize), Flaw>
    ensures { result ≡ tested (log_fault log.now) (read_of log.now) (counted_of log.now) }
{
    if is_new(log) {
        Ok((LogFormat::New(new_log::read(log)?), 0))
    } else {
        Ok((LogFormat::Old, old_log::log_test(log)?))
    }
}

// ---- its pages, once the tests are passed

// The bins size that 24 reads.
#[tactic(auto, using(crate::proofs::Laws::log_long), unfolding(crate::specs::Logs::read_of, crate::specs::Logs::log_fault, crate::specs::Logs::log_bins))]
pub fn bins_size(log: &[u8], read: LogFormat) -> usize
    requires log_value { log_fault log.now ≡ Ok tt }
    requires read_value { read ≡ read_of log.now }
    ensures { (result ≡ log_bins log.now) × (result < 4294967296) }
{
    match read {
        LogFormat::Old => old_log::bins_size(log),
        LogFormat::New(chain) => chain.largest,
    }
}

pub fn is_logged(log: &[u8], read: LogFormat, page: usize) -> bool
    requires log_value { log_fault log.now ≡ Ok tt }
    requires read_value { read ≡ read_of log.now }
    ensures { result ≡ is_logged log.now page }
{
    match read {
        LogFormat::Old => old_log::is_logged(log, page),
        LogFormat::New(chain) => new_log::is_logged(log, chain, page),
    }
}

pub fn next_logged(log: &[u8], read: LogFormat, from: usize) -> Option<usize>
    requires log_value { head_fault log.now ≡ Ok tt }
    requires read_value { read ≡ read_of log.now }
    ensures { result ≡ next_logged log.now from }
{
    match read {
        LogFormat::Old => old_log::next_logged(log, from),
        LogFormat::New(chain) => new_log::next_logged(log, chain, from),
    }
}

// Where the last version of a logged page lies in the log.
pub fn logged_place(log: &[u8], read: LogFormat, page: usize) -> Place
    requires log_value { log_fault log.now ≡ Ok tt }
    requires read_value { read ≡ read_of log.now }
    requires page_value { is_logged log.now page ≡ true }
    ensures { result.0 ≡ logged_place log.now page }
{
    match read {
        LogFormat::Old => old_log::logged_place(log, page),
        LogFormat::New(chain) => new_log::logged_place(log, chain, page),
    }
}

// How many pages are logged: what the tests have counted, where they have.
pub fn logged_count(log: &[u8], read: LogFormat, counted: usize) -> usize
    requires read_value { read ≡ read_of log.now }
    requires counted_value { counted ≡ counted_of log.now }
    ensures { result ≡ logged_count log.now }
{
    match read {
        LogFormat::Old => counted,
        LogFormat::New(chain) => new_log::logged_count(log, chain),
    }
}

// Marks every logged page in a bitmap, and tells how many they are.
pub fn mark(log: &[u8], read: LogFormat, counted: usize, map: &mut [u8]) -> usize
    requires log_value { log_fault log.now ≡ Ok tt }
    requires read_value { read ≡ read_of log.now }
    requires counted_value { counted ≡ counted_of log.now }
    requires log_in_bounds { page_count log.now / 8 ≤ length map.old }
    ensures value { result ≡ logged_count log.now }
    ensures map_after { map.new ≡ marks_of log.now ++ drop (page_count log.now / 8) map.old }
{
    match read {
        LogFormat::Old => {
            old_log::mark(log, map);
            counted
        }
        LogFormat::New(chain) => new_log::mark(log, chain, map),
    }
}

// Both sequence fields of its base block have it.
fn number_of(log: &[u8]) -> u32
    requires { 512 ≤ length log.now }
    ensures { result ≡ u32_at (sector log.now) 4 }
{
    fields::u32_at(&log[0..512], 4)
}

#[tactic(auto, using(crate::proofs::Laws::log_long), unfolding(crate::specs::Logs::read_of, crate::specs::Logs::facts_of))]
pub fn facts_of(log: &[u8], read: LogFormat) -> Facts
    requires log_value { log_fault log.now ≡ Ok tt }
    requires read_value { read ≡ read_of log.now }
    ensures { result ≡ facts_of log.now }
{
    let first = number_of(log);
    let bins = bins_size(log, read);
    match read {
        LogFormat::Old => Facts {
            entries: 0,
            first,
            last: first,
            end: 512,
            bins,
        },
        LogFormat::New(chain) => Facts {
            entries: chain.entries,
            first,
            last: chain.last,
            end: chain.end,
            bins,
        },
    }
}

// ---- what it says of a hive that is long enough for it

// Whether it is a log of this hive.
pub fn applies(hive: &[u8], log: &[u8], read: LogFormat) -> bool
    requires log_value { log_fault log.now ≡ Ok tt }
    requires read_value { read ≡ read_of log.now }
    requires log_in_bounds { 4096 + log_bins log.now ≤ length hive.now }
    ensures { result ≡ applies_to hive.now log.now }
{
    match read {
        LogFormat::Old => old_log::stamps_agree(hive, log),
        LogFormat::New(chain) => new_log::applies(hive, log, chain),
    }
}

// Whether every logged page is in.
pub fn all_in(hive: &[u8], log: &[u8], read: LogFormat) -> bool
    requires log_value { log_fault log.now ≡ Ok tt }
    requires read_value { read ≡ read_of log.now }
    requires log_in_bounds { 4096 + log_bins log.now ≤ length hive.now }
    ensures { result ≡ all_in hive.now log.now }
{
    match read {
        LogFormat::Old => old_log::all_in(hive, log),
        LogFormat::New(chain) => new_log::all_in(hive, log, chain),
    }
}

// ---- the repair's stores

// Puts every logged page in.
pub fn put_all(hive: &mut [u8], log: &[u8], read: LogFormat)
    requires log_value { log_fault log.now ≡ Ok tt }
    requires read_value { read ≡ read_of log.now }
    requires log_in_bounds { 4096 + log_bins log.now ≤ length hive.old }
    ensures { hive.new ≡ all_put hive.old log.now }
{
    match read {
        LogFormat::Old => old_log::put_all(hive, log),
        LogFormat::New(chain) => new_log::put_all(hive, log, chain),
    }
}

// Writes the closing sector to the hive's first 512 bytes.
#[tactic(auto, using(crate::proofs::Laws::log_long), unfolding(crate::specs::Logs::read_of, crate::specs::Logs::log_fault))]
pub fn store_closing(hive: &mut [u8], log: &[u8], read: LogFormat)
    requires log_value { log_fault log.now ≡ Ok tt }
    requires read_value { read ≡ read_of log.now }
    requires in_bounds { 512 ≤ length hive.old }
    ensures { hive.new ≡ stored hive.old 0 (closing_of log.now) }
{
    match read {
        LogFormat::Old => sectors::store_closing(hive, log),
        LogFormat::New(chain) => new_log::store_closing(hive, log, chain),
    }
}
