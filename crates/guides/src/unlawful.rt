ghost use Rattle.guides.specs.Unlawful.{BothRefused, BothBreakTheLaw};

// The test of the law refuses guide B with CTP renamed PID, and guide B with PO102 of type N0.
pub fn unlawful_meanings_are_refused()
    ensures { BothRefused }
{}

// Both break the law, so it is not the test alone that refuses them.
pub fn unlawful_meanings_break_the_law()
    ensures { BothBreakTheLaw }
{}
