// Laws of restrictions.

ghost use Rattle.gx_schema_restriction.specs.Laws.{AJudgementExists, JudgementsAreOne, YesMeansSound};

use gx_include::laws::{an_answer_exists, answers_are_one, too_many_pairs_exclude_verdicts};

/// There is one judgement on the restrictions of schemas under a limit: the number of the type and its list are one.
pub fn judgements_are_one()
    ensures { JudgementsAreOne }
{
    answers_are_one();
    too_many_pairs_exclude_verdicts();
}

/// The restrictions of schemas have a judgement under each limit on the pairs.
pub fn a_judgement_exists()
    ensures { AJudgementExists }
{
    an_answer_exists();
}

/// A restriction that is answered with Yes is sound: its content is included in that of its base, each of its attributes is one of the
/// base's with a derived type, and each that the base requires is required.
pub fn yes_means_sound()
    ensures { YesMeansSound }
{}
