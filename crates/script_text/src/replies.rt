//! The bytes of replies.

ghost use Rattle.std.specs.Prelude.{◌≡◌, ◌++◌, ◌∷◌, [], string_bytes, OnOk, codes};
ghost use Rattle.std.specs.Fmt.{decimal};
ghost use Rattle.java_model.specs.OutputText.{report_text};
ghost use Rattle.script_text.specs.Replies.{cause_words, refusal_text};
ghost use Rattle.script_text.specs.Views.{fault_of, report_of};

use crate::printing::{push_matches, push_number};
use crate::refusal::Refusal;
use java_tree::Match;
use std::alloc::AllocError;

/// Appends a label and a number in digits.
fn push_count(out: &mut String, label: &str, n: u64) -> Result<(), AllocError>
    ensures { OnOk result (string_bytes out.new ≡ string_bytes out.old ++ label.now ++ decimal n) }
{
    out.push_str(label)?;
    push_number(out, n)
}

/// Appends the number of a line in digits.
fn push_line(out: &mut String, line: u32) -> Result<(), AllocError>
    ensures { OnOk result (string_bytes out.new ≡ string_bytes out.old ++ decimal line) }
{
    push_number(out, u64::from(line))
}

/// Appends the first line of a report at version 0 that passed no document over.
fn push_head(out: &mut String, line: u32, matches: usize, resolved: usize) -> Result<(), AllocError>
    ensures { OnOk result (string_bytes out.new ≡ string_bytes out.old ++ decimal line ++ codes " search " ++ decimal 0 ++ codes " matches " ++ decimal matches
        ++ codes " resolved " ++ decimal resolved ++ codes " newer " ++ decimal 0 ++ codes " skipped " ++ decimal 0 ++ 10 ∷ []) }
{
    push_line(out, line)?;
    push_count(out, " search ", 0)?;
    push_count(out, " matches ", matches as u64)?;
    push_count(out, " resolved ", resolved as u64)?;
    push_count(out, " newer ", 0)?;
    push_count(out, " skipped ", 0)?;
    out.push_str("\n")
}

/// Appends the report of a search at version 0 that read so many documents and passed none over.
pub fn push_report(
    out: &mut String,
    line: u32,
    resolved: usize,
    matches: &[Match],
) -> Result<(), AllocError>
    ensures { OnOk result (string_bytes out.new ≡ string_bytes out.old ++ report_text (report_of line resolved matches.now)) }
{
    push_head(out, line, matches.len(), resolved)?;
    push_matches(out, matches)
}

/// Appends why a pattern is refused.
fn push_cause(out: &mut String, cause: Refusal) -> Result<(), AllocError>
    ensures { OnOk result (string_bytes out.new ≡ string_bytes out.old ++ cause_words (fault_of cause)) }
{
    match cause {
        Refusal::WrongLimit => out.push_str("WrongLimit"),
        Refusal::BadParens(at) => push_count(out, "BadParens ", at as u64),
        Refusal::Empty => out.push_str("Empty"),
    }
}

/// Appends the reply to a search whose pattern is refused.
pub fn push_refusal(out: &mut String, line: u32, cause: Refusal) -> Result<(), AllocError>
    ensures { OnOk result (string_bytes out.new ≡ string_bytes out.old ++ refusal_text line (fault_of cause)) }
{
    push_line(out, line)?;
    out.push_str(" search pattern ")?;
    push_cause(out, cause)?;
    out.push_str("\n")
}

/// Appends the line of a journal without entries.
pub fn push_journal(out: &mut String) -> Result<(), AllocError>
    ensures { OnOk result (string_bytes out.new ≡ string_bytes out.old ++ codes "journal " ++ decimal 0 ++ 10 ∷ []) }
{
    push_count(out, "journal ", 0)?;
    out.push_str("\n")
}
