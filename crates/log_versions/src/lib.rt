// The pages that the counted entries of a new-format log hold, one after the other.
#![tactic(auto)]

ghost use Rattle.std.specs.Prelude.{◌≡◌, true, ◌<◌};
ghost use Rattle.log_entries.specs.Entries.{chain_of};
ghost use Rattle.log_versions.specs.Terms.{rest, is_between, Lies, Stands, Begins, Moves, Same};

use log_entries::Chain;

// A page's number, and where one version of its 512 bytes lies in the log.
#[derive(Clone, Copy)]
pub struct Version {
    pub page: usize,
    pub place: usize,
}

// What is left: `pages` pages from `page` on, whose bytes lie at `place`; behind these the bytes of `refs` references from `index` on, of the entry
// at `at`; and `left` entries, the first at `end`.
#[derive(Clone, Copy)]
pub struct Cursor {
    pub at: usize,
    pub index: usize,
    pub refs: usize,
    pub end: usize,
    pub left: usize,
    pub page: usize,
    pub place: usize,
    pub pages: usize,
}

// Whether no page is at hand, and there may be more.
fn is_between(c: Cursor) -> bool
    ensures { result ≡ is_between c }
{
    c.pages == 0 && (0 < c.refs || 0 < c.left)
}

// Into the next reference.
fn enter_reference(log: &[u8], c: Cursor) -> Cursor
    requires { (c.pages ≡ 0) × (0 < c.refs) × Lies log.now c }
    ensures { Same log.now c result }
{
    let field = c.at + 40 + 8 * c.index;
    Cursor {
        index: c.index + 1,
        refs: c.refs - 1,
        page: fields::u32_at(log, field) as usize / 512,
        pages: fields::u32_at(log, field + 4) as usize / 512,
        ..c
    }
}

// Into the next entry.
#[tactic(auto, using(crate::proofs::Steps::entries))]
fn enter_entry(log: &[u8], c: Cursor) -> Cursor
    requires { (c.pages ≡ 0) × (c.refs ≡ 0) × (0 < c.left) × Lies log.now c }
    ensures { Same log.now c result }
{
    let at = c.end;
    let count = fields::u32_at(log, at + 20) as usize;
    Cursor {
        at,
        index: 0,
        refs: count,
        end: at + fields::u32_at(log, at + 4) as usize,
        left: c.left - 1,
        page: 0,
        place: at + 40 + 8 * count,
        pages: 0,
    }
}

fn enter(log: &[u8], c: Cursor) -> Cursor
    requires { (is_between c ≡ true) × Lies log.now c }
    ensures { Same log.now c result }
{
    if 0 < c.refs {
        enter_reference(log, c)
    } else {
        enter_entry(log, c)
    }
}

// To the next page, or to the end.
#[tactic(auto, using(crate::proofs::Steps::settles))]
fn settle(log: &[u8], mut c: Cursor) -> Cursor
    requires { Lies log.now c }
    ensures { (rest log.now result ≡ rest log.now c) × Stands log.now result }
{
    while is_between(c) {
        c = enter(log, c);
    }
    c
}

#[tactic(auto, using(crate::proofs::Begin::begins))]
pub fn first(log: &[u8], chain: Chain) -> Cursor
    requires { chain ≡ chain_of log.now }
    ensures { Begins log.now result }
{
    settle(
        log,
        Cursor {
            at: 0,
            index: 0,
            refs: 0,
            end: 512,
            left: chain.entries,
            page: 0,
            place: 0,
            pages: 0,
        },
    )
}

// Past the page at hand.
#[tactic(auto, using(crate::proofs::Steps::pasts))]
pub fn next(log: &[u8], c: Cursor) -> Cursor
    requires { (0 < c.pages) × Stands log.now c }
    ensures { Moves log.now c result }
{
    settle(
        log,
        Cursor {
            page: c.page + 1,
            place: c.place + 512,
            pages: c.pages - 1,
            ..c
        },
    )
}
