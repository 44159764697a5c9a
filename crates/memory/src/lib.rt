// Lent memory: bytes laid into a buffer one after another, and a work area that is cleared.
#![tactic(auto)]

ghost use Rattle.std.specs.Prelude.{◌≡◌, ◌+◌, ◌≤◌, length, replicate, take, drop};
ghost use Rattle.memory.specs.Inner.Laid.{Writes};

// Bytes are stored from an offset on; the next offset.
pub fn put(out: &mut [u8], at: usize, bytes: &[u8]) -> usize
    requires { at + length bytes.now ≤ length out.old }
    ensures { Writes out.old at bytes.now result out.new }
{
    let next = at + bytes.len();
    out[at..next].copy_from_slice(bytes);
    next
}

// Bytes that stand before an offset are stored again from it on, one by one, which takes less time than the library's `copy_within`; the next
// offset.
pub fn copy(out: &mut [u8], from: usize, at: usize, count: usize) -> usize
    requires { (from + count ≤ at) × (at + count ≤ length out.old) }
    ensures { Writes out.old at (take count (drop from out.old)) result out.new }
{
    for i in 0..count {
        out[at + i] = out[from + i];
    }
    at + count
}

// Every word becomes 0.
pub fn clear(words: &mut [u64])
    ensures { words.new ≡ replicate (length words.old) 0 }
{
    words.fill(0);
}
