//! Laws of scripts and outputs. A call of one tells its caller the law.
ghost use Rattle.std.specs.Prelude.{◌≡◌, ℕ, List};
ghost use Rattle.std.specs.List.{AllByRecursion};
ghost use Rattle.java_model.specs.ScriptText.{IsScriptDoc};
ghost use Rattle.script_text.specs.Replies.{Output};
ghost use Rattle.script_text.specs.Scripts as scripts;
ghost use Rattle.search_main.specs.Accepted.{AnswersScript};
ghost use Rattle.search_main.specs.Legal.{IsLegal};

use java_document::one_outline;
use java_laws::occurrences_of_documents_are_unique;
use java_unit_reading::one_unit;
use script_text::one_script;

/// A script has one legal output at most.
pub fn one_output()
    ensures { (script : scripts.Script) (a b : Output) → AllByRecursion IsScriptDoc script.docs → IsLegal script a → IsLegal script b → a ≡ b }
{
    one_outline();
    one_unit();
    occurrences_of_documents_are_unique();
}

/// Bytes have one answer at most.
pub fn one_answer()
    ensures { (bytes a b : List ℕ) → AnswersScript bytes a → AnswersScript bytes b → a ≡ b }
{
    one_outline();
    one_unit();
    occurrences_of_documents_are_unique();
    one_script();
}
