// What holds of the meaning of every table. Each function does nothing: its contract is one law, so that the check asks for its proof.
ghost use Rattle.math_table.specs.Laws.{KnownKeysAreReadOffTheTable, WhatTheTableOffersIsKnown, FaultsAreWhereTheySay, UnknownKeysHaveNothing, WhatHasNothingIsUnknown, AnEmptyTableKnowsNoKey};

// Every construction that a table is said to have stands in it, word by word.
pub fn known_keys_are_read_off_the_table()
    ensures { KnownKeysAreReadOffTheTable }
{}

// Every construction that stands in a table is the one that it is said to have.
pub fn what_the_table_offers_is_known()
    ensures { WhatTheTableOffersIsKnown }
{}

// The table has what a fault says of it at the place of the fault.
pub fn faults_are_where_they_say()
    ensures { FaultsAreWhereTheySay }
{}

// A table has nothing for a key that it is said not to know: no fault makes a key unknown.
pub fn unknown_keys_have_nothing()
    ensures { UnknownKeysHaveNothing }
{}

// A key for which a table has nothing is one that it is said not to know.
pub fn what_has_nothing_is_unknown()
    ensures { WhatHasNothingIsUnknown }
{}

pub fn an_empty_table_knows_no_key()
    ensures { AnEmptyTableKnowsNoKey }
{}
