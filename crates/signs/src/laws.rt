// What holds of every pile and of every question. Each function does nothing: its contract is a law, so that the check asks for its proof.
ghost use Rattle.signs.specs.Laws.{APileIsReadAsItIsWritten, AQuestionIsReadAsItIsWritten};

pub fn a_pile_is_read_as_it_is_written()
    ensures { APileIsReadAsItIsWritten }
{}

pub fn a_question_is_read_as_it_is_written()
    ensures { AQuestionIsReadAsItIsWritten }
{}
