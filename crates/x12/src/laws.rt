ghost use Rattle.x12.specs.Laws.{OneSplit, OneFirstFault};

// Elements and segments are found by splitting a list at a delimiter: there is one way to do so and no second.
pub fn every_list_is_split_in_one_way()
    ensures { OneSplit }
{}

// No interchange has two first byte faults, so the answer of a scan is the only one.
pub fn first_byte_fault_is_one()
    ensures { OneFirstFault }
{}
