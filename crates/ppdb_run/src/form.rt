// What answers are put as.
ghost use Rattle.std.specs.Prelude.{◌≡◌};
ghost use Rattle.ppdb_run.specs.Outcome.{form_of};
ghost use Rattle.ppdb_run_words.specs.Task.{json_of, question_of};

use ppdb_run_words::Question;
use ppdb_show_lines::Form;

/// What the answer to a question is put as.
pub fn answer_form(question: Question<'_>) -> Form
    ensures { result ≡ form_of (json_of (question_of question.entry)) }
{
    match question {
        Question::Verify => Form::Text,
        Question::Id { json }
        | Question::Show { json }
        | Question::Query { json, .. }
        | Question::Links { json }
        | Question::Breaks { json, .. } => form(json),
    }
}

/// What an answer is put as.
pub fn form(json: bool) -> Form
    ensures { result ≡ form_of json }
{
    if json { Form::Json } else { Form::Text }
}
