ghost use Rattle.guide.specs.Judged.{EveryListIsJudged, LawfulRows};

// The rows of a lawful guide keep what the theory of derivations asks of a set.
#[tactic(auto, using(crate::proofs::Sets::lawful_rows))]
pub fn lawful_guides_have_lawful_rows()
    ensures { LawfulRows }
{}

// Under every lawful guide every list of marks has exactly one derivation, or a first mark that does not fit, or only begins a derivation.
pub fn lawful_guides_judge_every_list()
    ensures { EveryListIsJudged }
{}
