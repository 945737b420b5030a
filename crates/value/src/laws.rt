ghost use Rattle.value.specs.Means.{TypesMean};

// The tests mean what the rules say: for each form, its test decides whether a value is of the form, in the words of the rule.
pub fn types_mean_what_they_say()
    ensures { TypesMean }
{}
