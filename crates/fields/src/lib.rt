// Numbers and byte strings in the lent bytes, the two kinds of position, and the faults by name.
#![tactic(auto)]

ghost use Rattle.std.specs.Prelude.{◌≡◌, ◌+◌, ◌≤◌, length, Err};
ghost use Rattle.std.proofs.lemmas.List.Edits.{sets};
ghost use Rattle.std.specs.Int.{w32};
ghost use Rattle.std.proofs.Common.{to_z};
ghost use Rattle.fields.specs.Number.{u16_at, u32_at, u64_at, le16, le32, size_of, size_at};
ghost use Rattle.fields.specs.Bytes.{same_bytes, stands_at};
ghost use Rattle.fields.specs.Position.{place_of, offset_of};
ghost use Rattle.fields.specs.Faults.{number_of, flaw, no_key, refusal_of};

// "A place in the file and an offset in the bins data are two kinds of number (place = 4096 + offset) and must not be mixable."
#[derive(Clone, Copy)]
pub struct Place(pub usize);

#[derive(Clone, Copy, PartialEq, Eq)]
pub struct Offset(pub u32);

pub fn to_place(o: Offset) -> Place
    ensures { result.0 ≡ (place_of o).0 }
{
    Place(o.0 as usize + 4096)
}

// The offset of a place. The base block has none, and neither has what no 32-bit offset reaches.
#[tactic(auto, unfolding(crate::specs::Position::offset_of))]
pub fn to_offset(p: Place) -> Option<Offset>
    ensures { result ≡ offset_of p }
{
    let at = p.0.checked_sub(4096)?;
    Some(Offset(u32::try_from(at).ok()?))
}

// "All numbers are little-endian."
#[tactic(auto, unfolding(crate::specs::Number::u16_at))]
pub fn u16_at(s: &[u8], i: usize) -> u16
    requires { i + 2 ≤ length s.now }
    ensures { result ≡ u16_at s.now i }
{
    u16::from_le_bytes([s[i], s[i + 1]])
}

#[tactic(auto, unfolding(crate::specs::Number::u16_at, crate::specs::Number::u32_at))]
pub fn u32_at(s: &[u8], i: usize) -> u32
    requires { i + 4 ≤ length s.now }
    ensures { result ≡ u32_at s.now i }
{
    u32::from_le_bytes(s[i..i + 4].try_into().unwrap())
}

#[tactic(auto, unfolding(crate::specs::Number::u16_at, crate::specs::Number::u32_at, crate::specs::Number::u64_at))]
pub fn u64_at(s: &[u8], i: usize) -> u64
    requires { i + 8 ≤ length s.now }
    ensures { result ≡ u64_at s.now i }
{
    u64::from_le_bytes(s[i..i + 8].try_into().unwrap())
}

// The way back: a number's bytes, and no others.
#[tactic(auto, using(crate::proofs::Little::put_two))]
pub fn put_u16(dst: &mut [u8], i: usize, v: u16)
    requires { i + 2 ≤ length dst.old }
    ensures { dst.new ≡ sets dst.old i (le16 v) }
{
    dst[i..i + 2].copy_from_slice(&v.to_le_bytes());
}

#[tactic(auto, using(crate::proofs::Little::put_four))]
pub fn put_u32(dst: &mut [u8], i: usize, v: u32)
    requires { i + 4 ≤ length dst.old }
    ensures { dst.new ≡ sets dst.old i (le32 v) }
{
    dst[i..i + 4].copy_from_slice(&v.to_le_bytes());
}

pub fn i32_at(s: &[u8], i: usize) -> i32
    requires { i + 4 ≤ length s.now }
    ensures { result ≡ to_z w32 (u32_at s.now i) }
{
    u32_at(s, i).cast_signed()
}

// "A cell starts with a signed 32-bit size, negative when in use": whether it is, and the absolute value.
#[derive(Clone, Copy)]
pub struct Size {
    pub used: bool,
    pub bytes: u32,
}

// `unsigned_abs` never wraps, so the lowest number is no special case.
#[tactic(auto, unfolding(crate::specs::Number::size_at))]
pub fn size_at(s: &[u8], i: usize) -> Size
    requires { i + 4 ≤ length s.now }
    ensures { result ≡ size_at s.now i }
{
    let z = i32_at(s, i);
    Size {
        used: z < 0,
        bytes: z.unsigned_abs(),
    }
}

// Whether a and b hold the same bytes.
#[tactic(auto, using(crate::proofs::Same_bytes::pointwise_same))]
pub fn same(a: &[u8], b: &[u8]) -> bool
    ensures { result ≡ same_bytes a.now b.now }
{
    a == b
}

// Whether a byte string stands at a position.
#[tactic(auto, using(crate::proofs::Same_bytes::starts_same))]
pub fn stands_at(s: &[u8], i: usize, what: &[u8]) -> bool
    requires { i + length what.now ≤ length s.now }
    ensures { result ≡ stands_at s.now i what.now }
{
    s[i..].starts_with(what)
}

// The copying leaf: all of src over all of dst, which a caller lends as a part of what it may write.
pub fn copy_all(src: &[u8], dst: &mut [u8])
    requires { length dst.old ≡ length src.now }
    ensures { dst.new ≡ src.now }
{
    dst.copy_from_slice(src);
}

// The refusals' names, in the order of their numbers.
#[derive(Clone, Copy, PartialEq, Eq)]
pub enum Fault {
    // hive under 4096 bytes
    HiveShort = 1,
    // no "regf"
    NoRegf = 2,
    // checksum
    Checksum = 3,
    // version, type, format, clustering
    Version = 4,
    // bins size field
    BinsSize = 5,
    // hive ends before the bins do
    BinsCut = 6,
    // sequence numbers differ
    Sequences = 7,
    // work map too small
    MapSmall = 8,
    // bin header
    BinHeader = 9,
    // cell size
    CellSize = 10,
    // offset names no cell in use
    NoCell = 11,
    // wrong signature, length, count or name
    Record = 12,
    // order of names, `lh` hash or `lf` hint
    Order = 13,
    // parent, root listed, total count
    Parent = 14,
    // level over 512
    Level = 15,
    // path: empty part, part over 255 units, over 512 parts
    PathParts = 16,
    // no such key
    NoKey = 17,
    // no such value
    NoValue = 18,
    // view asked of segmented data
    Segmented = 19,
    // output too short
    OutputShort = 20,
    // log under 512 bytes, its base block not usable (type 1, 2 or 6), or its sequence numbers differ
    LogBase = 21,
    // log too short for bitmap or pages, or none of its entries counts
    LogShort = 22,
    // no "DIRT"
    NoDirt = 23,
    // hive shorter than 4096 + the log's bins size (type 6: the largest counted)
    HiveCut = 24,
    // stamps differ (type 6, usable hive: numbers)
    Stamps = 25,
    // page not marked dirty, or past the bitmap (type 6: in no counted entry)
    NotDirty = 26,
    // closing, but a logged page is not in yet
    NotIn = 27,
    // security items: the root's offset, an item's room, link or count, a key off the ring
    Security = 28,
    // a value with the name of one before it in its key
    Namesake = 29,
    // a frame that is not laid out as one
    NoFrame = 30,
    // a value after a subkey
    ValueLate = 31,
    // not one balanced root key
    Unbalanced = 32,
    // a subkey's name not above its elder sibling's
    Unsorted = 33,
    // a value with an earlier namesake in its key
    Repeated = 34,
    // a name of no characters, of too many, or with a backslash
    NameSize = 35,
    // data over 1,048,576 bytes
    DataSize = 36,
    // a key at level 513
    Depth = 37,
    // subkey 65,536 of a key
    Subkeys = 38,
    // bins size over the limit
    HiveSize = 39,
}

impl Fault {
    pub fn number(self) -> u32
        ensures { result ≡ number_of self }
    {
        self as u32
    }
}

// What a leaf test finds: a fault and its place.
#[derive(Clone, Copy)]
pub struct Flaw {
    pub fault: Fault,
    pub place: Offset,
}

pub fn flawed(fault: Fault, place: Offset) -> Result<(), Flaw>
    ensures { result ≡ Err (flaw fault place) }
{
    Err(Flaw { fault, place })
}

// No key is under examination: no cell starts there.
pub const NO_KEY: u32 = 4294967295;

// "Each refusal is a number and a place", and the key under examination: the record that every public answer carries.
#[derive(Clone, Copy)]
pub struct Refusal {
    pub fault: Fault,
    pub place: Offset,
    pub key: Offset,
}

// Where no key is under examination, `?` makes a refusal of a flaw.
impl From<Flaw> for Refusal {
    ghost from_gives = { λ f r. r ≡ refusal_of no_key f };

    fn from(f: Flaw) -> Refusal {
        refused(Offset(NO_KEY), f)
    }
}

// A flaw, found in the examination of a key.
pub fn refused(key: Offset, f: Flaw) -> Refusal
    ensures { result ≡ refusal_of key f }
{
    Refusal {
        fault: f.fault,
        place: f.place,
        key,
    }
}
