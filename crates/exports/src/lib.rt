// The calls for C: each tells the four numbers of a verdict, one that writes also the bytes written. Bytes that are lent as `&` stay as they
// are: `untouched` holds by their type.
#![tactic(auto)]

ghost use Rattle.std.specs.Prelude.{◌≡◌};
ghost use Rattle.exports.specs.Calls.{Judged, Checked, Inferred};

// Judges one page under one vocabulary.
#[unsafe(no_mangle)]
pub extern "C" fn page_check_judge(vocabulary: &[u8], page: &[u8], verdict: &mut [usize; 4])
    ensures verdict { Judged vocabulary.now page.now verdict.new }
    ensures untouched { (vocabulary.now ≡ vocabulary.now) × (page.now ≡ page.now) }
{
    let judged = verdicts::numbers_of(judge::judge(vocabulary, page));
    *verdict = [judged.n, judged.a, judged.b, judged.c];
}

// Checks a job.
#[unsafe(no_mangle)]
pub extern "C" fn page_check_job(job: &[u8], verdict: &mut [usize; 4])
    ensures verdict { Checked job.now verdict.new }
    ensures untouched { job.now ≡ job.now }
{
    let checked = verdicts::numbers_of(checker::check(job));
    *verdict = [checked.n, checked.a, checked.b, checked.c];
}

// Works out the proposal of a script and writes it into the buffer from a place on.
#[unsafe(no_mangle)]
pub extern "C" fn page_check_infer(
    job: &[u8],
    work: &mut [u64],
    buffer: &mut [u8],
    place: usize,
    answer: &mut [usize; 5],
)
    ensures answer { Inferred job.now work.old buffer.old place answer.new work.new buffer.new }
    ensures untouched { job.now ≡ job.now }
{
    let inferred = inference::infer(job, work, buffer, place);
    let verdict = verdicts::numbers_of(verdicts::verdict_of(inferred));
    *answer = [
        verdict.n,
        verdict.a,
        verdict.b,
        verdict.c,
        verdicts::bytes_written(inferred),
    ];
}
