//! The worked interchanges of the rule book: what reading promises of them under guide B, and the lines that tell it.
#![tactic(auto)]

ghost use Rattle.worked.specs.Worked.{WorkedCases, worked_lines, ToldBy};

// Under guide B, with 4,096 segment rows and 4,096 loop rows, each worked interchange has the verdict of the rule book.
pub fn worked_interchanges_have_their_verdicts()
    ensures { WorkedCases 4096 4096 }
{}

// The lines of these verdicts are those of the rule book.
pub fn worked_verdicts_have_their_lines()
    ensures { ToldBy worked_lines }
{}
