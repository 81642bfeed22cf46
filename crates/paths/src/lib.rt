// The way to a key: a path, its parts, and the keys along it. There is no work map: an offset names a cell by the cell's own header.
#![tactic(auto)]

ghost use Rattle.std.specs.Prelude.{◌≡◌, true, [], ◌+◌, ◌≤◌, length, drop, Ok};
ghost use Rattle.cells.specs.Rule.{Header};
ghost use Rattle.records.specs.Keys.{key_fault};
ghost use Rattle.paths.specs.Paths.{first_part, parts_of, is_path};
ghost use Rattle.paths.specs.Descent.{descend_by, lookup_key_by};
ghost use Rattle.paths.specs.Answers.{ask_fault, key_look_by, key_found, find_by, find_answer, quick_answer};
ghost use Rattle.paths.specs.Children.{is_step, child_look_by, child_by};

use fields::{Fault, Flaw, Offset, Refusal};
use search::How;

const BACKSLASH: u16 = 92;

// "16: path: empty part, part over 255 units, over 512 parts", in one pass: the units of the part so far, and the backslashes before it.
fn is_path(path: &[u16]) -> bool
    ensures { result ≡ is_path path.now }
{
    if path.is_empty() {
        return true;
    }
    let mut units: usize = 0;
    let mut cuts: usize = 0;
    for u in path {
        if *u == BACKSLASH {
            if units == 0 {
                return false;
            }
            units = 0;
            cuts += 1;
        } else {
            if units == 255 {
                return false;
            }
            units += 1;
        }
    }
    units != 0 && cuts < 512
}

// Where the part that starts at a position ends.
fn part_end(path: &[u16], start: usize) -> usize
    requires { start ≤ length path.now }
    ensures { result ≡ start + length (first_part (drop start path.now)) }
{
    for i in start..path.len() {
        if path[i] == BACKSLASH {
            return i;
        }
    }
    path.len()
}

// Where the way along a path ends: at its key, at a key that has no child of the next name, or with a refusal.
#[derive(Clone, Copy)]
pub enum Way {
    Found(Offset),
    Missing(Offset),
}

// Along the parts of a path, from a key that was tested. Each search is made on behalf of the key that the way stands on.
#[tactic(auto, using(crate::proofs::Ways::descents))]
fn descend(bins: &[u8], from: Offset, path: &[u16], how: How) -> Result<Way, Refusal>
    requires path_value { is_path path.now ≡ true }
    requires from_value { key_fault Header bins.now [] from ≡ Ok tt }
    ensures { result ≡ descend_by how bins.now from (parts_of path.now) }
{
    let mut key = from;
    let mut start: usize = 0;
    while start < path.len() {
        let end = part_end(path, start);
        let k = records::key_fields(bins, key);
        // with `map_err` and `?` the proof finds no name for the flaw
        match search::below(bins, &path[start..end], k, how) {
            Ok(Some(o)) => key = o,
            Ok(None) => return Ok(Way::Missing(key)),
            Err(f) => return Err(fields::refused(key, f)),
        }
        start = end;
        if start < path.len() {
            start += 1;
        }
    }
    Ok(Way::Found(key))
}

// The key of a path. The root's own record is read for every path.
#[tactic(auto, unfolding(crate::specs::Descent::lookup_key_by), using(crate::proofs::Ways::key_ways))]
fn lookup_key(bins: &[u8], root: Offset, path: &[u16], how: How) -> Result<Way, Refusal>
    requires { is_path path.now ≡ true }
    ensures { result ≡ lookup_key_by how bins.now root (parts_of path.now) }
{
    records::key_at(bins, None, root)?;
    descend(bins, root, path, how)
}

// 1 to 7, then 16 where a path, or a name for a step, is not good.
#[tactic(auto, unfolding(crate::specs::Answers::ask_fault), using(fields::proofs::Firsts::on, fields::proofs::Firsts::stop))]
fn ask_flaw(hive: &[u8], good: bool) -> Result<(), Flaw>
    ensures { result ≡ ask_fault hive.now good }
{
    base::base_flaw(hive)?;
    if good {
        Ok(())
    } else {
        fields::flawed(Fault::PathParts, Offset(0))
    }
}

// The key of a path in a hive, by either search.
#[tactic(auto, unfolding(crate::specs::Answers::key_look_by), using(crate::proofs::Ways::path_ways))]
pub fn key_look(hive: &[u8], path: &[u16], how: How) -> Result<Way, Refusal>
    ensures { result ≡ key_look_by how hive.now path.now }
{
    ask_flaw(hive, is_path(path))?;
    lookup_key(base::bins_of(hive), base::root_of(hive), path, how)
}

// "17: no such key", with the last key that the way stood on.
fn key_on(w: Result<Way, Refusal>) -> Result<Offset, Refusal>
    ensures { result ≡ key_found w }
{
    match w? {
        Way::Found(o) => Ok(o),
        Way::Missing(key) => Err(Refusal {
            fault: Fault::NoKey,
            place: Offset(0),
            key,
        }),
    }
}

#[tactic(auto, unfolding(crate::specs::Answers::find_by))]
fn key_by(hive: &[u8], path: &[u16], how: How) -> Result<Offset, Refusal>
    ensures { result ≡ find_by how hive.now path.now }
{
    key_on(key_look(hive, path, how))
}

// The offset of the key under a path.
pub fn find_key(hive: &[u8], path: &[u16]) -> Result<Offset, Refusal>
    ensures { result ≡ find_answer hive.now path.now }
{
    key_by(hive, path, How::InTurn)
}

// The same by halves: a few dozen key records for each part of the path, however many siblings there are. It answers as `find_key` in every hive that
// the check accepts.
pub fn quick_key(hive: &[u8], path: &[u16]) -> Result<Offset, Refusal>
    ensures { result ≡ quick_answer hive.now path.now }
{
    key_by(hive, path, How::Halving)
}

// A name that a path can have as one part.
#[tactic(auto, using(crate::proofs::Ways::step_tests))]
fn is_step(name: &[u16]) -> bool
    ensures { result ≡ is_step name.now }
{
    !name.is_empty() && name.len() <= 255 && part_end(name, 0) == name.len()
}

// A step is a path of one part, from any key.
#[tactic(auto, unfolding(crate::specs::Children::child_look_by), using(crate::proofs::Ways::step_ways))]
fn child_look(hive: &[u8], key: Offset, name: &[u16], how: How) -> Result<Way, Refusal>
    ensures { result ≡ child_look_by how hive.now key name.now }
{
    ask_flaw(hive, is_step(name))?;
    lookup_key(base::bins_of(hive), key, name, how)
}

// The child of the key at an offset by its name, by either search.
#[tactic(auto, unfolding(crate::specs::Children::child_by))]
pub fn child_by(hive: &[u8], key: Offset, name: &[u16], how: How) -> Result<Offset, Refusal>
    ensures { result ≡ child_by how hive.now key name.now }
{
    key_on(child_look(hive, key, name, how))
}
