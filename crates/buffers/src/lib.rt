// The answers for what was read into a buffer (document 01, "Verdicts"). Buffers of input are lent as `&`: `untouched` holds
// by their type. They hold a byte more than a job or a slice may have, so that what fills one is too long, whatever follows: `verdict`
// speaks of the whole buffer and of how many bytes were read into it, which the slice of those bytes would not tell.
#![tactic(auto)]

ghost use Rattle.std.specs.Prelude.{ℕ, ◌≤◌, ◌≡◌, List, length};
ghost use Rattle.verdicts.specs.TheVerdict.{TheVerdict};
ghost use Rattle.pages.specs.PageVerdict.{PageVerdict};
ghost use Rattle.jobs.specs.JobVerdict.{JobVerdict};
ghost use Rattle.buffers.specs.Inputs.{ReadInto};

use verdicts::Numbers;

// The numbers of the job of which n bytes were read.
pub fn job_numbers(buffer: &[u8], n: usize) -> Numbers
    requires { (length buffer.now ≡ 65536) × (n ≤ length buffer.now) }
    ensures verdict { (job : List ℕ) → ReadInto buffer.now n job → TheVerdict (JobVerdict job) result }
    ensures untouched { buffer.now ≡ buffer.now }
{
    verdicts::numbers_of(checker::check(&buffer[..n]))
}

// The numbers of the page of which m bytes were read, under the vocabulary of which n were.
pub fn page_numbers(vocabulary: &[u8], n: usize, page: &[u8], m: usize) -> Numbers
    requires vocabulary_len { (length vocabulary.now ≡ 65536) × (n ≤ length vocabulary.now) }
    requires page_len { (length page.now ≡ 65536) × (m ≤ length page.now) }
    ensures verdict { (v p : List ℕ) → ReadInto vocabulary.now n v → ReadInto page.now m p → TheVerdict (PageVerdict v p) result }
    ensures untouched { (vocabulary.now ≡ vocabulary.now) × (page.now ≡ page.now) }
{
    verdicts::numbers_of(judge::judge(&vocabulary[..n], &page[..m]))
}
