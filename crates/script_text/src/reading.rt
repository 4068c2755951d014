ghost use Rattle.std.specs.Prelude.{◌≡◌, ◌≤◌, ◌-◌, length, ◌<◌, ◌^◌, ◌+◌, ◌==◌};
ghost use Rattle.std.specs.List.{list_all};
ghost use Rattle.java_model.specs.ScriptText.{newlines};
ghost use Rattle.script_text.specs.declared.script.TheConstants.{MAX_SCRIPT};
ghost use Rattle.script_text.specs.Spelling.{is_word, is_word_byte};
ghost use Rattle.script_text.specs.Inner.Reading.{Gives, doc_at, search_at, docs_at, searches_at, lines_at};
ghost use Rattle.script_text.specs.Views.{document_of, documents_of, script_of};

use crate::fault::ScriptFault;
use crate::fields::{after_literal, number_field, text_field, text_of};
use crate::script::{Script, ScriptDoc, Search};
use crate::words::{case_field, limit_field, rule_field, scope_field, what_field};
use java_tree::{LF, MAX_OPENING_STAMP, MAX_TEXT, is_container, is_name, is_source_path};
use memchr::memchr_iter;
use std::alloc::Global;

fn is_word_byte(b: u8) -> bool
    ensures { result ≡ is_word_byte b }
{
    !(b == b' ' || b == LF)
}

fn are_word_bytes(bytes: &[u8]) -> bool
    ensures { result ≡ list_all is_word_byte bytes.now }
{
    bytes.iter().all(|b| is_word_byte(*b))
}

/// Whether these bytes are a word: one or more, none of which is a space or ends the line.
fn is_word(bytes: &[u8]) -> bool
    ensures { result ≡ is_word bytes.now }
{
    match bytes {
        [] => false,
        [first, rest @ ..] => is_word_byte(*first) && are_word_bytes(rest),
    }
}

/// A `doc` line with its text, and what follows.
#[tactic(auto, unfolding(crate::specs::Inner::Reading::doc_at))]
fn doc(alloc: Global, bytes: &[u8]) -> Result<(ScriptDoc, &[u8]), ScriptFault>
    ensures { Gives (λ d. (document_of d.0, d.1.now)) result (doc_at bytes.now) }
{
    let rest = after_literal(bytes, b"doc ")?;
    let (container, rest) = text_field(alloc, rest, b' ')?;
    let (path, rest) = text_field(alloc, rest, b' ')?;
    let (stamp, rest) = number_field(rest, b' ', MAX_OPENING_STAMP)?;
    let (len, rest) = number_field(rest, LF, MAX_TEXT as u64)?;
    let (text, rest) = text_of(alloc, rest, len as usize)?;
    if !is_container(container.as_str()) || !is_source_path(path.as_str()) {
        return Err(ScriptFault::NotBuilt);
    }
    Ok((
        ScriptDoc {
            container,
            path,
            stamp,
            text,
        },
        rest,
    ))
}

/// A search line, and what follows.
#[tactic(auto, unfolding(crate::specs::Inner::Reading::search_at))]
fn search(alloc: Global, line: u32, bytes: &[u8]) -> Result<(Search, &[u8]), ScriptFault>
    ensures { Gives (λ s. (s.0, s.1.now)) result (search_at line bytes.now) }
{
    let rest = after_literal(bytes, b"@1 search ")?;
    let (name, rest) = text_field(alloc, rest, b' ')?;
    let rest = after_literal(rest, b"wait ")?;
    let (what, rest) = what_field(rest)?;
    let (limit, rest) = limit_field(rest)?;
    let (rule, rest) = rule_field(rest)?;
    let (case, rest) = case_field(rest)?;
    let (scope, rest) = scope_field(alloc, rest)?;
    let (pattern, rest) = text_field(alloc, rest, LF)?;
    if !is_name(name.as_str()) || !is_word(pattern.as_str().as_bytes()) {
        return Err(ScriptFault::NotBuilt);
    }
    Ok((
        Search {
            line,
            name,
            what,
            limit,
            rule,
            case,
            scope,
            pattern,
        },
        rest,
    ))
}

/// The `doc` lines at the front, at most so many, and what follows.
fn docs(alloc: Global, limit: usize, bytes: &[u8]) -> Result<(Vec<ScriptDoc>, &[u8]), ScriptFault>
    ensures { Gives (λ d. (documents_of d.0.items, d.1.now)) result (docs_at limit bytes.now) }
{
    let mut docs = Vec::new(alloc);
    let mut rest = bytes;
    for _ in 0..limit {
        if !rest.starts_with(b"doc ") {
            return Ok((docs, rest));
        }
        let (next, after) = doc(alloc, rest)?;
        docs.push(next)?;
        rest = after;
    }
    Ok((docs, rest))
}

/// The search lines from a line on, which are all of the bytes.
fn searches(alloc: Global, first: u32, bytes: &[u8]) -> Result<Vec<Search>, ScriptFault>
    requires { first + length bytes.now < 2 ^ 32 }
    ensures { Gives (λ s. s.items) result (searches_at (length bytes.now) first bytes.now) }
{
    let mut searches = Vec::new(alloc);
    let mut line = first;
    let mut rest = bytes;
    for _ in 0..bytes.len() {
        if rest.is_empty() {
            return Ok(searches);
        }
        let (next, after) = search(alloc, line, rest)?;
        searches.push(next)?;
        line += 1;
        rest = after;
    }
    if rest.is_empty() {
        Ok(searches)
    } else {
        Err(ScriptFault::NotBuilt)
    }
}

/// The number of LF bytes.
fn newlines(bytes: &[u8]) -> usize
    ensures { result ≡ newlines bytes.now }
{
    memchr_iter(LF, bytes).count()
}

/// All lines of a script.
pub(crate) fn lines(alloc: Global, bytes: &[u8]) -> Result<Script, ScriptFault>
    requires { length bytes.now ≤ MAX_SCRIPT }
    ensures { Gives script_of result (lines_at bytes.now) }
{
    let (docs, rest) = docs(alloc, bytes.len(), bytes)?;
    let first = 1 + newlines(&bytes[..bytes.len() - rest.len()]);
    let searches = searches(alloc, first as u32, rest)?;
    Ok(Script { docs, searches })
}
