// The sets of fact patterns that decide a show exactly; and wrong elements as the search for them answers.
#![tactic(auto)]

ghost use Rattle.std.specs.Prelude.{◌≡◌};
ghost use Rattle.patterns.specs.Inner.LowestWrong.{lower_wrong};

use verdicts::Breach;

// An element that is wrong in some page (document 01, verdict 12; document 02, F-6), by its template, the offset of its `23`, and what it
// breaks of its rule.
#[derive(Clone, Copy)]
pub struct Wrong {
    pub template: usize,
    pub at: usize,
    pub breach: Breach,
}

// The lower of two wrong elements. Where both are the same one, the first stays.
pub fn lower(a: Option<Wrong>, b: Option<Wrong>) -> Option<Wrong>
    ensures { result ≡ lower_wrong a b }
{
    let (Some(first), Some(second)) = (a, b) else {
        return a.or(b);
    };
    if first.at <= second.at {
        return a;
    }
    b
}
