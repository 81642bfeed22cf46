// Recovery from a log: start, one page or all of them, close; and which page comes next. No call keeps any state.
#![tactic(auto)]

ghost use Rattle.std.specs.Prelude.{◌≡◌, length, Ok};
ghost use Rattle.fields.specs.Faults.{flaw, nowhere, no_key, refusal_of};
ghost use Rattle.sectors.specs.Sector.{stored, page_place};
ghost use Rattle.logs.specs.Logs.{read_of, head_fault, log_fault, logged_count, counted_of, logged, next_logged, closing_of};
ghost use Rattle.recovery.specs.Terms.{begun_by};
ghost use Rattle.recovery.specs.Calls.{hive_fault, test_fault, started, start_answer, installed, closed, changed, page_answer, page_hive, close_answer, close_hive, next_of, next_answer};
ghost use Rattle.recovery.specs.AtOnce.{all_answer, all_hive, mark_of, mark_answer, marked_answer, marked_map, facts_answer};
ghost use Rattle.recovery.specs.Settling.{settle_answer, settle_hive};

use fields::{Fault, Flaw, Offset, Place, Refusal};
use logs::{Facts, LogFormat};

#[derive(Clone, Copy)]
pub enum Started {
    // The hive needs no repair.
    Clean,
    // The log is accepted, and has this many set bits.
    Pages(usize),
}

#[derive(Clone, Copy)]
pub enum Stepped {
    // The hive needs no repair, and nothing has changed.
    Clean,
    Done,
}

// A logged page, where its bytes lie in the log, and where they go in the hive.
#[derive(Clone, Copy)]
pub struct LoggedPage {
    pub page: usize,
    pub from: Place,
    pub to: Place,
}

// A logged page, and where its bytes go in the hive.
#[derive(Clone, Copy)]
pub struct LoggedMark {
    pub page: usize,
    pub to: Place,
}

// What the tests that every call makes first give to the rest of the call.
// It is no Option: None would not say that the hive is clean.
#[derive(Clone, Copy)]
enum Begun {
    Clean,
    Ready { read: LogFormat, counted: usize },
}

// A refusal of recovery: its place is always 0, and there is no key.
fn refuse(fault: Fault) -> Refusal
    ensures { result ≡ refusal_of no_key (flaw fault nowhere) }
{
    Refusal::from(Flaw {
        fault,
        place: Offset(0),
    })
}

// 24; 25.
#[tactic(auto, using(crate::proofs::Ways::ways))]
fn hive_flaw(hive: &[u8], log: &[u8], read: LogFormat) -> Result<(), Flaw>
    requires log_value { log_fault log.now ≡ Ok tt }
    requires read_value { read ≡ read_of log.now }
    ensures { result ≡ hive_fault hive.now log.now }
{
    if hive.len() < 4096 + logs::bins_size(log, read) {
        return fields::flawed(Fault::HiveCut, Offset(0));
    }
    if !logs::applies(hive, log, read) {
        return fields::flawed(Fault::Stamps, Offset(0));
    }
    Ok(())
}

// The tests that every call makes first: 1; 21; 22 for the bitmap; 23; 22 for the pages; 24; 25. The log is read once.
#[tactic(auto, using(crate::proofs::Ways::ways))]
fn begin(hive: &[u8], log: &[u8]) -> Result<Begun, Refusal>
    ensures { result ≡ begun_by (start_answer hive.now log.now) (read_of log.now) (counted_of log.now) }
{
    if hive.len() < 4096 {
        return Err(refuse(Fault::HiveShort));
    }
    if base::clean(&hive[0..512]) {
        return Ok(Begun::Clean);
    }
    let (read, counted) = logs::log_test(log)?;
    hive_flaw(hive, log, read)?;
    Ok(Begun::Ready { read, counted })
}

// These tests, and the count.
#[tactic(auto, unfolding(crate::specs::Calls::start_answer))]
pub fn start(hive: &[u8], log: &[u8]) -> Result<Started, Refusal>
    ensures { result ≡ start_answer hive.now log.now }
{
    let Begun::Ready { read, counted } = begin(hive, log)? else {
        return Ok(Started::Clean);
    };
    Ok(Started::Pages(logs::logged_count(log, read, counted)))
}

// A page call whose tests are passed.
#[tactic(auto, using(crate::proofs::Ways::in_place))]
fn install(hive: &mut [u8], log: &[u8], read: LogFormat, n: usize) -> Result<Stepped, Refusal>
    requires log_value { test_fault hive.old log.now ≡ Ok tt }
    requires read_value { read ≡ read_of log.now }
    ensures value { result ≡ installed log.now n }
    ensures hive_after { hive.new ≡ changed result (stored hive.old (page_place n) (logged log.now n)) hive.old }
{
    if !logs::is_logged(log, read, n) {
        return Err(refuse(Fault::NotDirty));
    }
    let to = sectors::page_place(n);
    let from = logs::logged_place(log, read, n);
    sectors::store(hive, to, log, from);
    Ok(Stepped::Done)
}

// A closing call whose tests are passed. The closing sector comes after the pages: before them "the file looks clean and is half old".
#[tactic(auto, using(crate::proofs::Ways::passes))]
fn seal(hive: &mut [u8], log: &[u8], read: LogFormat) -> Result<Stepped, Refusal>
    requires log_value { test_fault hive.old log.now ≡ Ok tt }
    requires read_value { read ≡ read_of log.now }
    ensures value { result ≡ closed hive.old log.now }
    ensures hive_after { hive.new ≡ changed result (stored hive.old 0 (closing_of log.now)) hive.old }
{
    if !logs::all_in(hive, log, read) {
        return Err(refuse(Fault::NotIn));
    }
    logs::store_closing(hive, log, read);
    Ok(Stepped::Done)
}

// Installs the logged page n, its 512 bytes and no others.
#[tactic(auto, using(crate::proofs::Called::ready_tests), unfolding(crate::specs::Calls::page_answer, crate::specs::Calls::page_hive))]
pub fn page(hive: &mut [u8], log: &[u8], n: usize) -> Result<Stepped, Refusal>
    ensures value { result ≡ page_answer hive.old log.now n }
    ensures hive_after { hive.new ≡ page_hive hive.old log.now n }
{
    let Begun::Ready { read, .. } = begin(hive, log)? else {
        return Ok(Stepped::Clean);
    };
    install(hive, log, read, n)
}

// Writes the closing sector, once every logged page is in.
#[tactic(auto, using(crate::proofs::Called::ready_tests), unfolding(crate::specs::Calls::close_answer, crate::specs::Calls::close_hive))]
pub fn close(hive: &mut [u8], log: &[u8]) -> Result<Stepped, Refusal>
    ensures value { result ≡ close_answer hive.old log.now }
    ensures hive_after { hive.new ≡ close_hive hive.old log.now }
{
    let Begun::Ready { read, .. } = begin(hive, log)? else {
        return Ok(Stepped::Clean);
    };
    seal(hive, log, read)
}

// The least logged page at or after `from`, so that a host need not ask every page number.
#[tactic(auto, unfolding(crate::specs::Calls::next_answer))]
pub fn next_page(log: &[u8], from: usize) -> Result<Option<LoggedPage>, Refusal>
    ensures { result ≡ next_answer log.now from }
{
    let (read, _) = logs::log_test(log)?;
    let Some(page) = logs::next_logged(log, read, from) else {
        return Ok(None);
    };
    Ok(Some(LoggedPage {
        page,
        from: logs::logged_place(log, read, page),
        to: sectors::page_place(page),
    }))
}

// ---- a repair in one pass

// Installs every logged page after one round of tests: what page calls do in a row.
#[tactic(auto, using(crate::proofs::Called::ready_tests, crate::proofs::Ways::passes), unfolding(crate::specs::AtOnce::all_answer, crate::specs::AtOnce::all_hive))]
pub fn all_pages(hive: &mut [u8], log: &[u8]) -> Result<Stepped, Refusal>
    ensures value { result ≡ all_answer hive.old log.now }
    ensures hive_after { hive.new ≡ all_hive hive.old log.now }
{
    let Begun::Ready { read, .. } = begin(hive, log)? else {
        return Ok(Stepped::Clean);
    };
    logs::put_all(hive, log, read);
    Ok(Stepped::Done)
}

// The least logged page at or after `from`, for a host that stores what `all_pages` made: no bit is counted.
#[tactic(auto, unfolding(crate::specs::AtOnce::mark_answer))]
pub fn next_mark(log: &[u8], from: usize) -> Result<Option<LoggedMark>, Refusal>
    ensures { result ≡ mark_answer log.now from }
{
    let read = logs::head_test(log)?;
    let Some(page) = logs::next_logged(log, read, from) else {
        return Ok(None);
    };
    let to = sectors::page_place(page);
    Ok(Some(LoggedMark { page, to }))
}

// Marks every logged page in a bitmap, for a host that stores what `all_pages` made: bins size / 4096 bytes, and those beyond stay.
#[tactic(auto, using(crate::proofs::Ways::marks), unfolding(crate::specs::AtOnce::marked_answer, crate::specs::AtOnce::marked_map))]
pub fn mark_pages(log: &[u8], map: &mut [u8]) -> Result<usize, Refusal>
    ensures value { result ≡ marked_answer log.now (length map.old) }
    ensures map_after { map.new ≡ marked_map log.now map.old }
{
    let (read, counted) = logs::log_test(log)?;
    if map.len() < logs::bins_size(log, read) / 4096 {
        return Err(refuse(Fault::MapSmall));
    }
    Ok(logs::mark(log, read, counted, map))
}

// What a log says of itself, for a host that has two.
#[tactic(auto, unfolding(crate::specs::AtOnce::facts_answer))]
pub fn log_facts(log: &[u8]) -> Result<Facts, Refusal>
    ensures { result ≡ facts_answer log.now }
{
    let (read, _) = logs::log_test(log)?;
    Ok(logs::facts_of(log, read))
}

// Without a log: for a dirty hive that is to be read as it is, in private memory. Where 7 is the only fault of 1 to 7 it is clean afterwards.
#[tactic(auto, using(crate::proofs::Settles::torn_long), unfolding(crate::specs::Settling::settle_answer, crate::specs::Settling::settle_hive))]
pub fn settle(hive: &mut [u8]) -> Result<Stepped, Refusal>
    ensures value { result ≡ settle_answer hive.old }
    ensures hive_after { hive.new ≡ settle_hive hive.old }
{
    match base::base_flaw(hive) {
        Ok(()) => Ok(Stepped::Clean),
        Err(f) if matches!(f.fault, Fault::Sequences) => {
            sectors::even(&mut hive[0..512]);
            Ok(Stepped::Done)
        }
        Err(f) => Err(Refusal::from(f)),
    }
}
