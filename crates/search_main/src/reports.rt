//! The replies to searches.

ghost use Rattle.std.specs.Prelude.{◌≡◌, string_bytes, Ok, Err, OnOk, IfOk};
ghost use Rattle.std.specs.List.{AllByRecursion};
ghost use Rattle.script_text.specs.Spelling.{IsScriptSearch};
ghost use Rattle.script_text.specs.Views.{fault_of};
ghost use Rattle.search_main.specs.Inner.Replied.{IsOpening, IsOutputOf, IsReplied};
ghost use Rattle.search_main.specs.Inner.Views.{documents_read};
ghost use Rattle.search_main.specs.Legal.{pattern_in};

use crate::locating::{count_in_scope, matches_among};
use crate::opening::Opened;
use java_env::Env;
use script_text::{Refusal, Search, push_journal, push_refusal, push_report};
use search_pattern::{Pattern, PatternFault};
use std::alloc::{AllocError, Global};

/// Appends the report of a search: its documents are scanned.
fn push_found(
    alloc: Global,
    out: &mut String,
    env: &Env,
    opened: &[Opened],
    search: &Search,
    pattern: &Pattern,
) -> Result<(), AllocError>
    requires opening { IsOpening env.now opened.now }
    requires search { IsScriptSearch search.now }
    requires read { pattern_in search.now ≡ Ok pattern.now }
    ensures { OnOk result (IsReplied (documents_read opened.now) search.now (string_bytes out.old) (string_bytes out.new)) }
{
    let matches = matches_among(alloc, env, &search.scope, pattern, opened)?;
    let resolved = count_in_scope(&search.scope, opened);
    push_report(out, search.line, resolved, &matches)?;
    Ok(())
}

/// Appends why the pattern of a search is refused.
fn push_cause(
    out: &mut String,
    opened: &[Opened],
    search: &Search,
    cause: Refusal,
) -> Result<(), AllocError>
    requires { pattern_in search.now ≡ Err (fault_of cause) }
    ensures { OnOk result (IsReplied (documents_read opened.now) search.now (string_bytes out.old) (string_bytes out.new)) }
{
    push_refusal(out, search.line, cause)?;
    Ok(())
}

/// Appends the reply to a search.
fn push_reply(
    alloc: Global,
    out: &mut String,
    env: &Env,
    opened: &[Opened],
    search: &Search,
) -> Result<(), AllocError>
    requires opening { IsOpening env.now opened.now }
    requires search { IsScriptSearch search.now }
    ensures { OnOk result (IsReplied (documents_read opened.now) search.now (string_bytes out.old) (string_bytes out.new)) }
{
    let text = search.pattern.as_str();
    match Pattern::read(
        alloc,
        text,
        search.what,
        search.limit,
        search.rule,
        search.case,
    ) {
        Ok(pattern) => push_found(alloc, out, env, opened, search, &pattern),
        Err(PatternFault::WrongLimit) => push_cause(out, opened, search, Refusal::WrongLimit),
        Err(PatternFault::BadParens(at)) => {
            push_cause(out, opened, search, Refusal::BadParens(at))
        }
        Err(PatternFault::Empty) => push_cause(out, opened, search, Refusal::Empty),
        Err(PatternFault::NoMemory) => Err(AllocError),
    }
}

/// The output: no journal entry, a reply to each search, and the end.
pub(crate) fn output(
    alloc: Global,
    env: &Env,
    opened: &[Opened],
    searches: &[Search],
) -> Result<String, AllocError>
    requires opening { IsOpening env.now opened.now }
    requires searches { AllByRecursion IsScriptSearch searches.now }
    ensures { IfOk result (λ out. IsOutputOf (documents_read opened.now) searches.now (string_bytes out)) }
{
    let mut out = String::new(alloc);
    push_journal(&mut out)?;
    for search in searches {
        push_reply(alloc, &mut out, env, opened, search)?;
    }
    out.push_str("end\n")?;
    Ok(out)
}
