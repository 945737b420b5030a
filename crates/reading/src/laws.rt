ghost use Rattle.reading.specs.Laws.{OneAnswer, OneVerdict, NoTwoVerdicts};

// Under a lawful guide every interchange is regular, or it has one first fault of the layers 1 to 4.
pub fn every_interchange_has_one_answer()
    ensures { OneAnswer }
{}

// Under a lawful guide every interchange is accepted or refused: it is regular and the rows are enough, or its reading has one first fault.
pub fn every_reading_has_one_verdict()
    ensures { OneVerdict }
{}

// No reading has two verdicts: neither two faults, nor two totals, nor a fault where it is accepted.
pub fn no_reading_has_two_verdicts()
    ensures { NoTwoVerdicts }
{}
