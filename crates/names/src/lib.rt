// Names: the codes of a stored name, upper case, order and hash. Names are read in place and never copied.
#![tactic(auto)]

ghost use Rattle.std.specs.Prelude.{◌≡◌, ◌+◌, ◌*◌, ◌%◌, ◌≤◌, ◌<◌, ◌||◌, eqb, ltb, length, get_or, drop};
ghost use Rattle.names.specs.Codes.{codes, characters_in, has_code, backslash};
ghost use Rattle.names.specs.Terms.{AmongFour};
ghost use Rattle.names.specs.Upper_case.{upper};
ghost use Rattle.names.specs.Comparison.{compare, same_name};
ghost use Rattle.names.specs.Hashing.{mixed, hash_of};
ghost use Rattle.names.specs.Hints.{fits_hint};

use std::cmp::Ordering;

// How many characters a name of so many bytes has.
#[tactic(auto, unfolding(crate::specs::Codes::characters_in))]
pub fn characters(len: usize, narrow: bool) -> usize
    ensures { result ≡ characters_in len narrow }
{
    if narrow { len } else { len / 2 }
}

#[tactic(auto, using(crate::proofs::LawsCodes::counted))]
fn count(s: &[u8], narrow: bool) -> usize
    ensures { result ≡ length (codes narrow s.now) }
{
    characters(s.len(), narrow)
}

// "One byte means its own code", else a character is two bytes, little-endian.
#[tactic(auto, using(crate::proofs::LawsCodes::reading))]
fn code_at(s: &[u8], narrow: bool, i: usize) -> u16
    requires { i < length (codes narrow s.now) }
    ensures { result ≡ get_or (codes narrow s.now) i 0 }
{
    if narrow {
        u16::from(s[i])
    } else {
        fields::u16_at(s, i * 2)
    }
}

// "upper-casing a to z, 0xE0 to 0xFE except 0xF7 (each 32 down) and 0xFF (to 0x0178)". Capitals and digits need one test, small letters two.
#[tactic(auto, unfolding(crate::specs::Upper_case::upper))]
fn upper(c: u16) -> u16
    ensures { result ≡ upper c }
{
    // No `match` on ranges: it takes twice as long.
    if c < 97 {
        c
    } else if c < 123 {
        c - 32
    } else if c < 224 || c == 247 {
        c
    } else if c < 255 {
        c - 32
    } else if c == 255 {
        376
    } else {
        c
    }
}

// Whether two codes have one capital. Most codes that are compared are equal, and need none.
fn same_letter(x: u16, y: u16) -> bool
    ensures { result ≡ eqb (upper x) (upper y) }
{
    x == y || upper(x) == upper(y)
}

fn capital_at(s: &[u8], narrow: bool, i: usize) -> u16
    requires { i < length (codes narrow s.now) }
    ensures { result ≡ upper (get_or (codes narrow s.now) i 0) }
{
    upper(code_at(s, narrow, i))
}

// Past the bytes that two names of one byte per character have in common from the start on, of so many: what is left of them decides.
#[tactic(auto, using(crate::proofs::Turns::turn_level))]
fn past_alike(a: &[u8], b: &[u8], end: usize) -> usize
    requires { (end ≤ length a.now) × (end ≤ length b.now) }
    ensures { (result ≤ end) × (compare a.now b.now ≡ compare (drop result a.now) (drop result b.now)) }
{
    for i in 0..end {
        if a[i] != b[i] {
            return i;
        }
    }
    end
}

// The same of any two names: most that are compared have one byte per character, and these need no test for each.
#[tactic(auto, unfolding(crate::specs::Codes::codes))]
fn past_shared(a: &[u8], a_narrow: bool, b: &[u8], b_narrow: bool, end: usize) -> usize
    requires { (end ≤ length (codes a_narrow a.now)) × (end ≤ length (codes b_narrow b.now)) }
    ensures { (result ≤ end) × (compare (codes a_narrow a.now) (codes b_narrow b.now) ≡ compare (drop result (codes a_narrow a.now)) (drop result (codes b_narrow b.now))) }
{
    if a_narrow && b_narrow {
        past_alike(a, b, end)
    } else {
        0
    }
}

// "Names, also of values, are compared by code after upper-casing a to z, 0xE0 to 0xFE except 0xF7 (each 32 down) and 0xFF (to 0x0178), a prefix before
// the longer name"
#[tactic(auto, using(crate::proofs::Turns::turns))]
pub fn compare_stored(a: &[u8], a_narrow: bool, b: &[u8], b_narrow: bool) -> Ordering
    ensures { result ≡ compare (codes a_narrow a.now) (codes b_narrow b.now) }
{
    let a_count = count(a, a_narrow);
    let b_count = count(b, b_narrow);
    let shared = a_count.min(b_count);
    let start = past_shared(a, a_narrow, b, b_narrow, shared);
    for i in start..shared {
        let x = code_at(a, a_narrow, i);
        let y = code_at(b, b_narrow, i);
        if !same_letter(x, y) {
            return upper(x).cmp(&upper(y));
        }
    }
    a_count.cmp(&b_count)
}

// A stored name against a given one, by the same comparison. The loop ends with the shorter of the two, so that it has one test of its own.
#[tactic(auto, using(crate::proofs::Turns::turns))]
pub fn compare_name(s: &[u8], narrow: bool, name: &[u16]) -> Ordering
    ensures { result ≡ compare (codes narrow s.now) name.now }
{
    let end = count(s, narrow);
    for i in 0..end.min(name.len()) {
        let x = code_at(s, narrow, i);
        let y = name[i];
        if !same_letter(x, y) {
            return upper(x).cmp(&upper(y));
        }
    }
    end.cmp(&name.len())
}

// Two given names, in UTF-16 units, by the same comparison: for whoever sorts names, or looks for one among those that a listing gave. std's comparison of two
// iterators took a third more instructions than the loop.
#[tactic(auto, using(crate::proofs::Turns::turns))]
pub fn compare_units(a: &[u16], b: &[u16]) -> Ordering
    ensures { result ≡ compare a.now b.now }
{
    for i in 0..a.len().min(b.len()) {
        let x = a[i];
        let y = b[i];
        if !same_letter(x, y) {
            return upper(x).cmp(&upper(y));
        }
    }
    a.len().cmp(&b.len())
}

// Whether a stored name is the given one, by the same comparison: names that are the same have as many characters.
#[tactic(auto, using(crate::proofs::LawsOrder::sameness), unfolding(crate::specs::Comparison::same_name))]
pub fn is_named(s: &[u8], narrow: bool, name: &[u16]) -> bool
    ensures { result ≡ same_name (codes narrow s.now) name.now }
{
    count(s, narrow) == name.len() && compare_name(s, narrow, name).is_eq()
}

// Whether two stored names are the same, by the same comparison. The loop is its own: by the order of the two, the check of values whose names have one hash
// took half as long again. It is a call, so that what its caller asks for one of the two names is done once for all others.
#[tactic(auto, using(crate::proofs::LawsOrder::sameness), unfolding(crate::specs::Comparison::same_name))]
#[inline(never)]
pub fn is_same(a: &[u8], a_narrow: bool, b: &[u8], b_narrow: bool) -> bool
    ensures { result ≡ same_name (codes a_narrow a.now) (codes b_narrow b.now) }
{
    let end = count(a, a_narrow);
    if count(b, b_narrow) != end {
        return false;
    }
    for i in 0..end {
        if !same_letter(code_at(a, a_narrow, i), code_at(b, b_narrow, i)) {
            return false;
        }
    }
    true
}

// "A name has .. no backslash", its characters one by one: of a short name, and of one in a stream, for `has_backslash` is laid into its caller as long as it
// has but one.
#[tactic(auto, using(crate::proofs::LawsCodes::searching))]
pub fn has_in_turn(s: &[u8], narrow: bool) -> bool
    ensures { result ≡ has_code backslash (codes narrow s.now) }
{
    for i in 0..count(s, narrow) {
        if code_at(s, narrow, i) == 92 {
            return true;
        }
    }
    false
}

// Four characters from one on.
#[tactic(auto, using(crate::proofs::LawsCodes::four))]
fn among_four(s: &[u8], narrow: bool, i: usize) -> bool
    requires { i + 4 ≤ length (codes narrow s.now) }
    ensures { AmongFour (codes narrow s.now) i result }
{
    code_at(s, narrow, i) == 92
        || code_at(s, narrow, i + 1) == 92
        || code_at(s, narrow, i + 2) == 92
        || code_at(s, narrow, i + 3) == 92
}

// "A name has .. no backslash". Four characters in each turn, so that the loop's own test is made for four; the last four are asked at the end, and some
// of them may be asked twice.
pub fn has_backslash(s: &[u8], narrow: bool) -> bool
    ensures { result ≡ has_code backslash (codes narrow s.now) }
{
    let end = count(s, narrow);
    if end < 4 {
        return has_in_turn(s, narrow);
    }
    let last = end - 4;
    for i in (0..last).step_by(4) {
        if among_four(s, narrow, i) {
            return true;
        }
    }
    among_four(s, narrow, last)
}

// A product modulo 2^32: "a helper built for it".
fn product(a: u32, b: u32) -> u32
    ensures { result ≡ (a * b) % 4294967296 }
{
    a.wrapping_mul(b)
}

// "H = 37H + code, wrapping at 32 bits": the product, then the sum.
#[tactic(auto, unfolding(crate::specs::Hashing::mixed))]
fn mix(h: u32, code: u16) -> u32
    ensures { result ≡ mixed h code }
{
    product(37, h).wrapping_add(u32::from(code))
}

// "The hash starts at 0; for each upper-cased code, H = 37H + code, wrapping at 32 bits."
#[tactic(auto, using(crate::proofs::LawsHash::turns), unfolding(crate::specs::Hashing::hash_of))]
pub fn hash(s: &[u8], narrow: bool) -> u32
    ensures { result ≡ hash_of (codes narrow s.now) }
{
    let mut h = 0;
    for i in 0..count(s, narrow) {
        h = mix(h, capital_at(s, narrow, i));
    }
    h
}

// The code at a position, 0 behind the name.
fn code_or_none(s: &[u8], narrow: bool, i: usize) -> u32
    ensures { result ≡ get_or (codes narrow s.now) i 0 }
{
    if i < count(s, narrow) {
        u32::from(code_at(s, narrow, i))
    } else {
        0
    }
}

// "a code above 255 among them"
fn is_wide(a: u32, b: u32, c: u32, d: u32) -> bool
    ensures { result ≡ (ltb 255 a || (ltb 255 b || (ltb 255 c || ltb 255 d))) }
{
    255 < a || 255 < b || 255 < c || 255 < d
}

// Whether a hint of an `lf` is that of a stored name: "against the first four characters as stored".
#[tactic(auto, using(crate::proofs::LawsHints::hints))]
pub fn is_hinted(s: &[u8], narrow: bool, hint: u32) -> bool
    ensures { result ≡ fits_hint hint (codes narrow s.now) }
{
    let a = code_or_none(s, narrow, 0);
    let b = code_or_none(s, narrow, 1);
    let c = code_or_none(s, narrow, 2);
    let d = code_or_none(s, narrow, 3);
    if is_wide(a, b, c, d) {
        hint % 256 == 0
    } else {
        hint == a + b * 256 + c * 65536 + d * 16777216
    }
}
