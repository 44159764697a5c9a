// The outcome for a script that was read into a buffer (document 02, F-1); apart from the verdicts of buffers, so that the check does not
// stand on the inference. As there, `outcome` speaks of the whole buffer and of how many bytes were read into it.
#![tactic(auto)]

ghost use Rattle.std.specs.Prelude.{ℕ, ◌≤◌, ◌≡◌, List, length};
ghost use Rattle.verdicts.specs.Printed.{bytes_written};
ghost use Rattle.verdicts.specs.TheVerdict.{TheVerdict};
ghost use Rattle.jobs.specs.Inference.{outcome, Infers};
ghost use Rattle.buffers.specs.Inputs.{ReadInto};

use verdicts::Writing;

// The outcome for the script of which n bytes were read; its proposal stands from the start of the buffer that is lent for it.
pub fn infer_script(script: &[u8], n: usize, work: &mut [u64], buffer: &mut [u8]) -> Writing
    requires { (length script.now ≡ 65536) × (n ≤ length script.now) }
    ensures outcome { (job : List ℕ) → ReadInto script.now n job → TheVerdict (Infers job work.old buffer.old 0) (outcome result work.new buffer.new) }
    ensures within { bytes_written result ≤ length buffer.new }
    ensures untouched { script.now ≡ script.now }
{
    inference::infer(&script[..n], work, buffer, 0)
}
