// A hive from frames: how long it will be, or why there is none. The frames are tested and measured, and nothing is written.
#![tactic(auto)]

ghost use Rattle.std.specs.Prelude.{◌≡◌, ℕ, ◌≤◌, length};
ghost use Rattle.fields.specs.Faults.{flaw, nowhere, no_key, refusal_of};
ghost use Rattle.base.specs.Block.{bins_limit};
ghost use Rattle.build_measure.specs.Terms.{cap};
ghost use Rattle.build_answers.specs.Answers.{unbuilt, size_answer, measure_answer, build_answer, build_out};
ghost use Rattle.build.specs.Terms.{bins_size, PutFits, with_hive};

use build_answers::{Spot, Unbuilt};
use fields::{Fault, Flaw, Offset, Refusal};

// A refusal: "The key of ticket 9 is 0xFFFFFFFF here."
fn refuse(f: Flaw, at: usize) -> Unbuilt
    ensures { result ≡ record { refusal = refusal_of no_key f; at = record { 0 = at } } }
{
    Unbuilt {
        refusal: Refusal::from(f),
        at: Spot(at),
    }
}

// 39 and 20: "sizes come last, at place 0".
fn refuse_size(fault: Fault) -> Result<usize, Unbuilt>
    ensures { result ≡ unbuilt (flaw fault nowhere) 0 }
{
    Err(refuse(
        Flaw {
            fault,
            place: Offset(0),
        },
        0,
    ))
}

// The bins size is 32 + size + cell(20 + n), rounded up to a multiple of 4096: neither is above the limit by itself, so that no sum wraps.
fn bins_size(size: usize, n: usize) -> usize
    requires { (size ≤ bins_limit) × (n ≤ bins_limit) }
    ensures { result ≡ bins_size size n }
{
    (32 + size + build_frames::cell_size(20 + n)).next_multiple_of(4096)
}

// The length of the hive, by the sizes of the cells of its keys, a sum that may have stopped above the limit, and by the descriptor's length.
fn size_answer(size: usize, n: usize) -> Result<usize, Unbuilt>
    ensures { (t : ℕ) → size ≡ cap t → result ≡ size_answer (bins_size t n) }
{
    if 2147479552 < size || 2147479552 < n {
        return refuse_size(Fault::HiveSize);
    }
    let bins = bins_size(size, n);
    if 2147479552 < bins {
        return refuse_size(Fault::HiveSize);
    }
    Ok(4096 + bins)
}

// How long a buffer must be for the hive that is built from a stream, with a descriptor of so many bytes.
pub fn measure(stream: &[u8], descriptor_len: usize) -> Result<usize, Unbuilt>
    ensures { result ≡ measure_answer stream.now descriptor_len }
{
    let w = build_measure::measure_stream(stream).map_err(|x| refuse(x.flaw, x.at))?;
    size_answer(w.size, descriptor_len)
}

// The second pass.
fn put_hive(stream: &[u8], descriptor: &[u8], out: &mut [u8], keys: usize, size: usize)
    requires { PutFits stream.now descriptor.now (length out.old) keys size }
    ensures { out.new ≡ with_hive stream.now descriptor.now out.old }
{
    build_write::put_hive(stream, descriptor, keys, size, out);
}

// The hive that is built from a stream, with this descriptor, into the lent buffer: for a stream without a fault 39, then 20, and then the hive is written.
pub fn build(stream: &[u8], descriptor: &[u8], out: &mut [u8]) -> Result<usize, Unbuilt>
    ensures value { result ≡ build_answer stream.now descriptor.now (length out.old) }
    ensures out_after { out.new ≡ build_out stream.now descriptor.now out.old }
{
    let w = build_measure::measure_stream(stream).map_err(|x| refuse(x.flaw, x.at))?;
    let k = size_answer(w.size, descriptor.len())?;
    if out.len() < k {
        return refuse_size(Fault::OutputShort);
    }
    put_hive(stream, descriptor, out, w.keys, w.size);
    Ok(k)
}
