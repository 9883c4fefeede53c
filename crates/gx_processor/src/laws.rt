// Laws of the answer.

ghost use Rattle.gx_processor.specs.Answer.{AnAnswerExists, AnswersAreAlike, ChecksRefuseForRuns, PlansRefuseAsChecks};
ghost use Rattle.gx_processor.specs.Loading.{AnswersLookAtTheirLoads};
ghost use Rattle.gx_processor.specs.ExternalDocuments.{NamedQueriesHaveDocuments};
ghost use Rattle.gx_processor.specs.JudgedQueries.{NamedQueriesAreJudgedByInclusion, NamedQueriesNameWrittenTypes};

use gx_rewrite::laws::plans_can_be_rewritten;
use gx_schema::laws::{an_import_exists, imports_are_one, imports_are_schema_sets};

/// The words and the files have an answer.
pub fn an_answer_exists()
    ensures { AnAnswerExists }
{
    imports_are_schema_sets();
    an_import_exists();
    plans_can_be_rewritten();
}

/// The words and the files have at most one answer; where the words ask for a plan, its answers differ in nothing but the text of the plan.
pub fn one_answer()
    ensures { AnswersAreAlike }
{
    imports_are_one();
}

/// What a check of a file refuses, a run of it refuses with the same line.
pub fn checks_refuse_for_runs()
    ensures { ChecksRefuseForRuns }
{}

/// For the plan of a file the same is refused as for a check of it, with the same line.
pub fn plans_refuse_as_checks()
    ensures { PlansRefuseAsChecks }
{}

/// An answer looks at no other files than those that its steps load.
pub fn answers_look_at_their_loads()
    ensures { AnswersLookAtTheirLoads }
{
    imports_are_one();
}

/// Each external variable of a query is a document without types, or one whose element is global and has its declared type.
pub fn named_queries_have_documents()
    ensures { NamedQueriesHaveDocuments }
{}

/// The types of cases and of `treat as` in a query whose names are resolved are such as can be written (XQuery 1.0, section 2.5.3).
pub fn named_queries_name_written_types()
    ensures { NamedQueriesNameWrittenTypes }
{}

/// Each operator in a query whose names are resolved, and whose cases and `treat as` name normal types, has the type, or the code, that
/// the static rules give it which demand inclusion of the types of its operands.
pub fn named_queries_are_judged_by_inclusion()
    ensures { NamedQueriesAreJudgedByInclusion }
{}
