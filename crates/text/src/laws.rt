// What the definitions behind the contracts say together. Each function does nothing: its contract is a law, so that the check asks for its proof.
ghost use Rattle.text.specs.Laws.{ACutJoinedAgainIsTheBytes, WhatIsJoinedIsCutThere, LinesJoinedAgainAreTheText, LinesAreReadAsTheyAreWritten, ANumberIsReadAsItIsWritten};

pub fn a_cut_joined_again_is_the_bytes()
    ensures { ACutJoinedAgainIsTheBytes }
{}

pub fn what_is_joined_is_cut_there()
    ensures { WhatIsJoinedIsCutThere }
{}

pub fn lines_joined_again_are_the_text()
    ensures { LinesJoinedAgainAreTheText }
{}

pub fn lines_are_read_as_they_are_written()
    ensures { LinesAreReadAsTheyAreWritten }
{}

pub fn a_number_is_read_as_it_is_written()
    ensures { ANumberIsReadAsItIsWritten }
{}
