// A bitmap, lowest bit first.
#![tactic(auto)]

ghost use Rattle.std.specs.Prelude.{◌≡◌, ◌+◌, ◌*◌, ◌/◌, ◌%◌, ◌^◌, ◌≤◌, ◌<◌, length};
ghost use Rattle.bitmap.specs.Bits.{bit, is_marked, bits_before, next_marked, zeros, turned, with_bit};

// The bit at an index, 0 past the map's end.
pub fn bit_of(map: &[u8], index: usize) -> usize
    ensures { result ≡ bit map.now index }
{
    match map.get(index / 8) {
        Some(b) => usize::from(*b >> (index % 8)) % 2,
        None => 0,
    }
}

pub fn is_marked(map: &[u8], index: usize) -> bool
    ensures { result ≡ is_marked map.now index }
{
    bit_of(map, index) == 1
}

// The set bits of the bytes before `end`, eight bytes at once.
fn ones_of_words(map: &[u8], end: usize) -> usize
    requires end_in_bounds { end ≤ length map.now }
    requires end_bound { 8 * end < 2 ^ 64 }
    requires end_value { end % 8 ≡ 0 }
    ensures { result ≡ bits_before map.now (8 * end) }
{
    let mut n = 0;
    for k in 0..end / 8 {
        n += fields::u64_at(map, 8 * k).count_ones() as usize;
    }
    n
}

// The set bits of the bytes from `from` to `to`, bytewise.
fn ones_of_bytes(map: &[u8], from: usize, to: usize) -> usize
    requires from_le_to { from ≤ to }
    requires to_in_bounds { to ≤ length map.now }
    requires to_bound { 8 * to < 2 ^ 64 }
    ensures { bits_before map.now (8 * from) + result ≡ bits_before map.now (8 * to) }
{
    let mut n = 0;
    for b in &map[from..to] {
        n += b.count_ones() as usize;
    }
    n
}

// The set bits before an index in its own byte, none past the map's end.
#[tactic(auto, using(crate::proofs::Ones::own_byte, crate::proofs::Ones::no_byte))]
fn ones_in_byte(map: &[u8], index: usize) -> usize
    ensures { bits_before map.now (8 * (index / 8)) + result ≡ bits_before map.now index }
{
    match map.get(index / 8) {
        Some(b) => (*b % (1 << (index % 8))).count_ones() as usize,
        None => 0,
    }
}

// The bytes wholly before an index: past the map's end there are none.
#[tactic(auto, using(crate::proofs::Ones::whole_bytes))]
fn bytes_before(map: &[u8], index: usize) -> usize
    ensures { (result ≤ length map.now) × (8 * result ≤ index) × (bits_before map.now (8 * result) ≡ bits_before map.now (8 * (index / 8))) }
{
    (index / 8).min(map.len())
}

// How many bits before an index are set: all that is said of the count, so that its body can change alone.
// "Count eight bytes at once where they are there, by the language's own count of ones, and the tail bytewise."
pub fn bits_before(map: &[u8], index: usize) -> usize
    ensures { result ≡ bits_before map.now index }
{
    let whole = bytes_before(map, index);
    let words = whole / 8 * 8;
    ones_of_words(map, words) + ones_of_bytes(map, words, whole) + ones_in_byte(map, index)
}

// The least set index at or after `from`. A byte with no bit set is passed over whole.
#[tactic(auto, using(crate::proofs::Laws::next_here, crate::proofs::Laws::next_more, crate::proofs::Laws::next_byte, crate::proofs::Laws::next_end))]
pub fn next_marked(map: &[u8], from: usize) -> Option<usize>
    requires { 8 * length map.now < 2 ^ 64 }
    ensures { result ≡ next_marked map.now from }
{
    let mut index = from;
    while index / 8 < map.len() {
        let j = index / 8;
        if map[j] == 0 {
            index = 8 * j + 8;
        } else if is_marked(map, index) {
            return Some(index);
        } else {
            index += 1;
        }
    }
    None
}

// ---- maps that are made

// Clears the first n bytes of the map.
#[tactic(auto, unfolding(crate::specs::Bits::zeros))]
pub fn clear(map: &mut [u8], n: usize)
    requires { n ≤ length map.old }
    ensures { map.new ≡ zeros n map.old }
{
    map[..n].fill(0);
}

// Sets a bit, or clears it.
#[tactic(auto, using(crate::proofs::Marks::shifted), unfolding(crate::specs::Bits::turned, crate::specs::Bits::with_bit))]
pub fn put_bit(map: &mut [u8], index: usize, on: bool)
    requires { index < 8 * length map.old }
    ensures { map.new ≡ with_bit map.old index on }
{
    if on != is_marked(map, index) {
        map[index / 8] ^= 1 << (index % 8);
    }
}
