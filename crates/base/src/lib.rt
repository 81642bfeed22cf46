// The base block: tests 1 to 7, *usable*, *clean*, and the checksum.
#![tactic(auto)]

ghost use Rattle.std.specs.Prelude.{◌≡◌, ◌+◌, ◌≤◌, ◌<◌, length, Ok};
ghost use Rattle.base.specs.Block.{is_regf, xors, as_stored, stored_checksum, is_summed, is_version, minor_of, bins_of, is_bins_size, usable as usable_as, is_settled, clean as clean_of, root_of, block_fault, base_fault, sector, bins_data};

use fields::{Fault, Flaw, Offset};

// The most bytes that bins data may have: a file of 2^31 bytes.
pub const BINS_LIMIT: u32 = 2147479552;

// Below, s is a file's first 512 bytes.

fn is_regf(s: &[u8]) -> bool
    requires { 512 ≤ length s.now }
    ensures { result ≡ is_regf s.now }
{
    fields::stands_at(s, 0, b"regf")
}

// The XOR of the 127 words before the checksum.
#[tactic(auto, unfolding(crate::specs::Block::xors))]
fn xor_of(s: &[u8]) -> u32
    requires { 512 ≤ length s.now }
    ensures { result ≡ xors s.now 127 }
{
    let mut sum = 0;
    for k in 0..127 {
        sum ^= fields::u32_at(s, k * 4);
    }
    sum
}

// "a XOR of 0 is stored as 1 and one of 0xFFFFFFFF as 0xFFFFFFFE"
#[tactic(auto, unfolding(crate::specs::Block::as_stored))]
fn as_stored(x: u32) -> u32
    ensures { result ≡ as_stored x }
{
    match x {
        0 => 1,
        4294967295 => 4294967294,
        _ => x,
    }
}

// The checksum that belongs at 508.
#[tactic(auto, unfolding(crate::specs::Block::stored_checksum))]
pub fn stored_checksum(s: &[u8]) -> u32
    requires { 512 ≤ length s.now }
    ensures { result ≡ stored_checksum s.now }
{
    as_stored(xor_of(s))
}

fn checksum_matches(s: &[u8]) -> bool
    requires { 512 ≤ length s.now }
    ensures { result ≡ is_summed s.now }
{
    fields::u32_at(s, 508) == stored_checksum(s)
}

#[tactic(auto, unfolding(crate::specs::Block::is_version))]
fn is_version(s: &[u8], kind: u32) -> bool
    requires { 512 ≤ length s.now }
    ensures { result ≡ is_version s.now kind }
{
    fields::u32_at(s, 20) == 1
        && (3..=5).contains(&fields::u32_at(s, 24))
        && fields::u32_at(s, 28) == kind
        && fields::u32_at(s, 32) == 1
        && fields::u32_at(s, 44) == 1
}

#[tactic(auto, unfolding(crate::specs::Block::is_bins_size))]
pub fn is_bins_size(n: u32) -> bool
    ensures { result ≡ is_bins_size n }
{
    n != 0 && n % 4096 == 0 && n <= BINS_LIMIT
}

// The tests 2 to 5 of a file's first sector, as a file of the given type: 0 for a hive, 1 or 2 for a log.
#[tactic(auto, using(crate::proofs::Tests::block_tests))]
fn block_flaw(s: &[u8], kind: u32) -> Result<(), Flaw>
    requires { 512 ≤ length s.now }
    ensures { result ≡ block_fault s.now kind }
{
    if !is_regf(s) {
        return fields::flawed(Fault::NoRegf, Offset(0));
    }
    if !checksum_matches(s) {
        return fields::flawed(Fault::Checksum, Offset(0));
    }
    if !is_version(s, kind) {
        return fields::flawed(Fault::Version, Offset(0));
    }
    if !is_bins_size(fields::u32_at(s, 40)) {
        return fields::flawed(Fault::BinsSize, Offset(0));
    }
    Ok(())
}

// "A base block is *usable* when all this holds"
#[tactic(auto, unfolding(crate::specs::Block::usable))]
pub fn usable(s: &[u8], kind: u32) -> bool
    requires { 512 ≤ length s.now }
    ensures { result ≡ usable_as s.now kind }
{
    block_flaw(s, kind).is_ok()
}

// "bins size at 40"
pub fn bins_size(s: &[u8]) -> usize
    requires { 512 ≤ length s.now }
    ensures { (result ≡ bins_of s.now) × (result < 4294967296) }
{
    fields::u32_at(s, 40) as usize
}

// Whether the two sequence numbers are equal.
pub fn sequences_equal(s: &[u8]) -> bool
    requires { 512 ≤ length s.now }
    ensures { result ≡ is_settled s.now }
{
    fields::u32_at(s, 4) == fields::u32_at(s, 8)
}

#[tactic(auto, unfolding(crate::specs::Block::clean))]
pub fn clean(s: &[u8]) -> bool
    requires { 512 ≤ length s.now }
    ensures { result ≡ clean_of s.now }
{
    usable(s, 0) && sequences_equal(s)
}

// The reader's tests 1 to 7.
#[tactic(auto, using(crate::proofs::Laws::whole_sector, crate::proofs::Tests::short))]
pub fn base_flaw(hive: &[u8]) -> Result<(), Flaw>
    ensures { result ≡ base_fault hive.now }
{
    if hive.len() < 4096 {
        return fields::flawed(Fault::HiveShort, Offset(0));
    }
    let s = &hive[..512];
    block_flaw(s, 0)?;
    if hive.len() - 4096 < bins_size(s) {
        return fields::flawed(Fault::BinsCut, Offset(0));
    }
    if !sequences_equal(s) {
        return fields::flawed(Fault::Sequences, Offset(0));
    }
    Ok(())
}

// The bins data of a hive that passed the tests 1 to 7.
#[tactic(auto, using(crate::proofs::Laws::whole_sector, crate::proofs::Laws::bins_inside))]
pub fn bins_of(hive: &[u8]) -> &[u8]
    requires { base_fault hive.now ≡ Ok tt }
    ensures { result.now ≡ bins_data hive.now }
{
    &hive[4096..4096 + bins_size(&hive[..512])]
}

// "minor 3, 4 or 5 at 24"
#[tactic(auto, using(crate::proofs::Laws::whole_sector, crate::proofs::Laws::bins_inside))]
pub fn minor_of(hive: &[u8]) -> u32
    requires { base_fault hive.now ≡ Ok tt }
    ensures { result ≡ minor_of (sector hive.now) }
{
    fields::u32_at(&hive[..512], 24)
}

// "root offset at 36"
#[tactic(auto, using(crate::proofs::Laws::whole_sector, crate::proofs::Laws::bins_inside))]
pub fn root_of(hive: &[u8]) -> Offset
    requires { base_fault hive.now ≡ Ok tt }
    ensures { result ≡ root_of (sector hive.now) }
{
    Offset(fields::u32_at(&hive[..512], 36))
}
