// A file's 512-byte sectors: the pages of the bins data, the store of one sector, and the closing sector.
#![tactic(auto)]

ghost use Rattle.std.specs.Prelude.{◌≡◌, ◌+◌, ◌*◌, ◌≤◌, ◌<◌, length};
ghost use Rattle.sectors.specs.Sector.{sector_at, stored, page_place};
ghost use Rattle.sectors.specs.Closing.{closing_sector};
ghost use Rattle.sectors.specs.Settling.{settled_sector};

use fields::{Offset, Place};

// Where a page of the bins data lies in the hive.
pub fn page_place(page: usize) -> Place
    requires { 512 * page < 4294967296 }
    ensures { result.0 ≡ page_place page }
{
    fields::to_place(Offset((512 * page) as u32))
}

// "writes its 512 bytes and no others": of the hive, only the part that is lent to the copy can change.
pub fn store(hive: &mut [u8], to: Place, log: &[u8], from: Place)
    requires to_in_bounds { to.0 + 512 ≤ length hive.old }
    requires from_in_bounds { from.0 + 512 ≤ length log.now }
    ensures { hive.new ≡ stored hive.old to.0 (sector_at log.now from.0) }
{
    hive[to.0..to.0 + 512].copy_from_slice(&log[from.0..from.0 + 512]);
}

// Makes a log's first sector the closing one, a hive's: type 0, then the checksum over what then stands there.
#[tactic(auto, unfolding(crate::specs::Closing::closing_sector))]
pub fn make_closing(dst: &mut [u8])
    requires { 512 ≤ length dst.old }
    ensures { dst.new ≡ closing_sector dst.old }
{
    fields::put_u32(dst, 28, 0);
    let sum = base::stored_checksum(dst);
    fields::put_u32(dst, 508, sum);
}

// Writes the closing sector of the log to the hive's first 512 bytes.
pub fn store_closing(hive: &mut [u8], log: &[u8])
    requires in_bounds { 512 ≤ length hive.old }
    requires in_bounds_2 { 512 ≤ length log.now }
    ensures { hive.new ≡ stored hive.old 0 (closing_sector (sector_at log.now 0)) }
{
    store(hive, Place(0), log, Place(0));
    make_closing(&mut hive[0..512]);
}

// Makes the sequence numbers of a hive's first sector equal: the second becomes the first, then the checksum over what then stands there.
#[tactic(auto, unfolding(crate::specs::Settling::settled_sector))]
pub fn even(dst: &mut [u8])
    requires { 512 ≤ length dst.old }
    ensures { dst.new ≡ settled_sector dst.old }
{
    let first = fields::u32_at(dst, 4);
    fields::put_u32(dst, 8, first);
    let renewed = base::stored_checksum(dst);
    fields::put_u32(dst, 508, renewed);
}
