// Laws of the comparison of type texts.

ghost use Rattle.gx_subtype.specs.Comparison.{AnAnswerTextExists, AnswerTextsAreOne};

/// Two texts have one answer.
pub fn answer_texts_are_one()
    ensures { AnswerTextsAreOne }
{}

/// Two texts have an answer, unless one of them stands for no type.
pub fn an_answer_text_exists()
    ensures { AnAnswerTextExists }
{}
