// All keys of a hive, one by one in pre-order, by a cursor that the caller lends: three words for each open key, and how many are open. A step opens
// the next child of the last open key, or closes that key, so it has no loop. The words and the depth are the caller's: whatever they are, no step
// reads outside.
#![tactic(auto)]

ghost use Rattle.std.specs.Prelude.{◌≡◌, [], ◌∷◌, ◌+◌, ◌*◌, ◌≤◌, ◌<◌, length, Ok, Some};
ghost use Rattle.std.proofs.lemmas.List.Edits.{sets};
ghost use Rattle.fields.specs.Faults.{flaw, nowhere, refusal_of};
ghost use Rattle.records.specs.Terms.{LeavesLie, leaves_named, ElementsLie, elements_of};
ghost use Rattle.listing.specs.Members.{entry_of};
ghost use Rattle.cells.specs.Rule.{Header};
ghost use Rattle.records.specs.Keys.{key_fault, key_of};
ghost use Rattle.walk.specs.Answers.{key_at, mark_after, next_of, next_in, next_below, entering, opening, step_at, step_in, answer_of, levels_after, step_answer, step_levels, root_fault, begun_where, begun_levels, begin_answer, begin_levels};

use fields::{Fault, Flaw, Offset, Refusal};
use listing::Entry;
use records::{Key, Leaf, Leaves};

#[derive(Clone, Copy)]
pub enum Walked {
    Opens(Entry),
    Closes(Offset),
}

// What a step would do: of a child that it opens, with the mark behind it; all else leaves the words.
#[derive(Clone, Copy)]
pub enum Offer {
    Opens(Entry, Mark),
    Closes(Offset),
}

// What comes next of an open key: the number of a leaf of its list, and of an element of that leaf.
#[derive(Clone, Copy)]
pub struct Mark {
    pub leaf: u32,
    pub element: u32,
}

// The mark behind an element of a leaf with so many.
#[tactic(auto, using(crate::proofs::Ways::leaf_ways))]
fn mark_after(m: Mark, count: usize) -> Mark
    requires { (m.leaf < 65536) × (m.element < 65536) }
    ensures { result ≡ mark_after m count }
{
    if m.element as usize + 1 < count {
        Mark {
            leaf: m.leaf,
            element: m.element + 1,
        }
    } else {
        Mark {
            leaf: m.leaf + 1,
            element: 0,
        }
    }
}

#[tactic(auto, using(crate::proofs::Ways::leaf_ways))]
fn next_of(bins: &[u8], leaf: Leaf, m: Mark) -> Result<Option<(Offset, Mark)>, Flaw>
    requires { (m.leaf < 65536) × (leaf.count < 65536) × ElementsLie bins.now leaf }
    ensures { result ≡ next_of (elements_of bins.now leaf) m }
{
    let i = m.element as usize;
    if leaf.count <= i {
        return Ok(None);
    }
    let at = records::child_offset(bins, leaf, i);
    Ok(Some((at, mark_after(m, leaf.count))))
}

// Only the leaf that the mark names is read.
#[tactic(auto, using(crate::proofs::Ways::leaf_ways))]
fn next_in(bins: &[u8], ls: Leaves, m: Mark) -> Result<Option<(Offset, Mark)>, Flaw>
    requires { (ls.count < 65536) × LeavesLie bins.now ls }
    ensures { result ≡ next_in bins.now (leaves_named bins.now ls) m }
{
    let j = m.leaf as usize;
    if ls.count <= j {
        return Ok(None);
    }
    let o = records::leaf_offset(bins, ls, j);
    let leaf = records::leaf_at(bins, None, o)?;
    next_of(bins, leaf, m)
}

// The subkey count is only asked whether it is 0, as in a search.
#[tactic(auto, using(crate::proofs::Ways::below_ways))]
fn next_below(bins: &[u8], k: Key, m: Mark) -> Result<Option<(Offset, Mark)>, Flaw>
    ensures { result ≡ next_below bins.now k m }
{
    if k.subkeys == 0 {
        return Ok(None);
    }
    let ls = records::head_at(bins, None, k.list)?;
    next_in(bins, ls, m)
}

// The words of a key that opens: nothing of it has come.
#[tactic(auto, using(crate::proofs::Ways::put_three))]
pub fn put_key(levels: &mut [u32], i: usize, o: Offset)
    requires { i + 3 ≤ length levels.old }
    ensures { levels.new ≡ sets levels.old i (o.0 ∷ 0 ∷ 0 ∷ []) }
{
    levels[i] = o.0;
    levels[i + 1] = 0;
    levels[i + 2] = 0;
}

#[tactic(auto, using(crate::proofs::Ways::put_two))]
fn put_mark(levels: &mut [u32], i: usize, m: Mark)
    requires { i + 2 ≤ length levels.old }
    ensures { levels.new ≡ sets levels.old i (m.leaf ∷ m.element ∷ []) }
{
    levels[i] = m.leaf;
    levels[i + 1] = m.element;
}

fn short(key: Offset) -> Refusal
    ensures { result ≡ refusal_of key (flaw Fault.OutputShort nowhere) }
{
    Refusal {
        fault: Fault::OutputShort,
        place: Offset(0),
        key,
    }
}

// The words are divided by three and the depth is not multiplied, so that nothing wraps.
#[tactic(auto, using(crate::proofs::Ways::enter_ways))]
fn enter(
    levels: &[u32],
    depth: usize,
    key: Offset,
    e: Entry,
    m: Mark,
) -> Result<Option<Offer>, Refusal>
    ensures { result ≡ entering levels.now depth key e m }
{
    if 513 <= depth {
        return Err(Refusal {
            fault: Fault::Level,
            place: e.at,
            key: e.at,
        });
    }
    if levels.len() / 3 < depth + 1 {
        return Err(short(key));
    }
    Ok(Some(Offer::Opens(e, m)))
}

// The child's own record is tested on behalf of the key that lists it.
#[tactic(auto, using(crate::proofs::Ways::enter_ways))]
fn open(
    bins: &[u8],
    levels: &[u32],
    depth: usize,
    key: Offset,
    c: Offset,
    m: Mark,
) -> Result<Option<Offer>, Refusal>
    ensures { result ≡ opening bins.now levels.now depth key c m }
{
    let name = records::name_at(bins, c).map_err(|f| fields::refused(key, f))?;
    enter(levels, depth, key, listing::entry_of(c, name), m)
}

// What a step would do at the last open key, of a caller who has tested its record.
#[tactic(auto, using(crate::proofs::Ways::step_ways))]
pub fn ahead_of(bins: &[u8], levels: &[u32], depth: usize) -> Result<Option<Offer>, Refusal>
    requires depth_nonzero { (0 < depth) × (3 * depth ≤ length levels.now) }
    requires depth_value { key_fault Header bins.now [] (key_at levels.now depth) ≡ Ok tt }
    ensures { result ≡ step_at bins.now levels.now depth }
{
    let i = 3 * (depth - 1);
    let key = Offset(levels[i]);
    let m = Mark {
        leaf: levels[i + 1],
        element: levels[i + 2],
    };
    let k = records::key_fields(bins, key);
    match next_below(bins, k, m).map_err(|f| fields::refused(key, f))? {
        None => Ok(Some(Offer::Closes(key))),
        Some((c, after)) => open(bins, levels, depth, key, c, after),
    }
}

// The same, with the key's own test before it.
#[tactic(auto, using(crate::proofs::Ways::step_ways))]
fn ahead_at(bins: &[u8], levels: &[u32], depth: usize) -> Result<Option<Offer>, Refusal>
    requires { (0 < depth) × (3 * depth ≤ length levels.now) }
    ensures { result ≡ step_at bins.now levels.now depth }
{
    let i = 3 * (depth - 1);
    records::name_at(bins, Offset(levels[i]))?;
    ahead_of(bins, levels, depth)
}

// What a step would do, in a hive whose base block was tested: its answer without the move.
#[tactic(auto, using(crate::proofs::Ways::step_ways))]
fn ahead(bins: &[u8], levels: &[u32], depth: usize) -> Result<Option<Offer>, Refusal>
    ensures { result ≡ step_in bins.now levels.now depth }
{
    if depth == 0 {
        return Ok(None);
    }
    if levels.len() / 3 < depth {
        return Err(short(Offset(fields::NO_KEY)));
    }
    ahead_at(bins, levels, depth)
}

// The move: the mark behind a child, and the child's own words.
pub fn go_below(levels: &mut [u32], depth: usize, e: Entry, m: Mark)
    requires { (0 < depth) × (3 * (depth + 1) ≤ length levels.old) }
    ensures { levels.new ≡ levels_after levels.old depth (Ok (Some (Offer.Opens e m))) }
{
    put_mark(levels, 3 * (depth - 1) + 1, m);
    put_key(levels, 3 * depth, e.at);
}

#[tactic(auto, using(crate::proofs::Moves::move_ways))]
fn step_in(bins: &[u8], levels: &mut [u32], depth: usize) -> Result<Option<Walked>, Refusal>
    ensures value { result ≡ answer_of (step_in bins.now levels.old depth) }
    ensures levels_after { levels.new ≡ levels_after levels.old depth (step_in bins.now levels.old depth) }
{
    match ahead(bins, levels, depth)? {
        None => Ok(None),
        Some(Offer::Closes(k)) => Ok(Some(Walked::Closes(k))),
        Some(Offer::Opens(e, m)) => {
            go_below(levels, depth, e, m);
            Ok(Some(Walked::Opens(e)))
        }
    }
}

// The next event of a walk: the words and the depth are as the last call left them, or as the caller pleases.
#[tactic(auto, unfolding(crate::specs::Answers::step_answer, crate::specs::Answers::step_levels, crate::specs::Answers::step_of))]
pub fn step(hive: &[u8], levels: &mut [u32], depth: usize) -> Result<Option<Walked>, Refusal>
    ensures value { result ≡ step_answer hive.now levels.old depth }
    ensures levels_after { levels.new ≡ step_levels hive.now levels.old depth }
{
    base::base_flaw(hive)?;
    step_in(base::bins_of(hive), levels, depth)
}

#[tactic(auto, using(crate::proofs::Ways::root_ways))]
fn begin_in(bins: &[u8], root: Offset, levels: &mut [u32]) -> Result<Option<Walked>, Refusal>
    ensures value { result ≡ begun_where (root_fault bins.now levels.old root) (entry_of root (key_of bins.now root).name) }
    ensures levels_after { levels.new ≡ begun_levels levels.old root (root_fault bins.now levels.old root) }
{
    let name = records::name_at(bins, root)?;
    if levels.len() < 3 {
        return Err(short(Offset(fields::NO_KEY)));
    }
    put_key(levels, 0, root);
    Ok(Some(Walked::Opens(listing::entry_of(root, name))))
}

// The first event of a walk: the root opens.
#[tactic(auto, unfolding(crate::specs::Answers::begin_answer, crate::specs::Answers::begin_levels, crate::specs::Answers::begin_fault), using(fields::proofs::Firsts::on, fields::proofs::Firsts::stop))]
pub fn begin(hive: &[u8], levels: &mut [u32]) -> Result<Option<Walked>, Refusal>
    ensures value { result ≡ begin_answer hive.now levels.old }
    ensures levels_after { levels.new ≡ begin_levels hive.now levels.old }
{
    base::base_flaw(hive)?;
    begin_in(base::bins_of(hive), base::root_of(hive), levels)
}
