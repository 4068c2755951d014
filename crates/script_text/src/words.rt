//! The words of a search line.

ghost use Rattle.std.specs.Prelude.{◌≡◌, IfOk};
ghost use Rattle.std.specs.List.{list_all};
ghost use Rattle.java_tree.specs.Names.{is_container};
ghost use Rattle.java_model.specs.SearchPattern.Texts.{separated};
ghost use Rattle.script_text.specs.Inner.Reading.{Gives, what_in, limit_in, rule_in, case_in, scope_in, word_at, scope_at};

use crate::fault::ScriptFault;
use crate::fields::{field, text_field};
use java_tree::{Items, Limit, Rule, Scope, Text, What, is_container};
use std::alloc::{AllocError, Global};

#[tactic(auto, unfolding(crate::specs::Inner::Reading::what_in))]
fn what_in(word: &[u8]) -> Result<What, ScriptFault>
    ensures { Gives (λ what. what) result (what_in word.now) }
{
    if word == b"type".as_slice() {
        Ok(What::Class)
    } else if word == b"package".as_slice() {
        Ok(What::Package)
    } else {
        Err(ScriptFault::NotBuilt)
    }
}

#[tactic(auto, unfolding(crate::specs::Inner::Reading::limit_in))]
fn limit_in(word: &[u8]) -> Result<Limit, ScriptFault>
    ensures { Gives (λ limit. limit) result (limit_in word.now) }
{
    if word == b"declarations".as_slice() {
        Ok(Limit::Declarations)
    } else if word == b"references".as_slice() {
        Ok(Limit::References)
    } else if word == b"implementors".as_slice() {
        Ok(Limit::Implementors)
    } else if word == b"all".as_slice() {
        Ok(Limit::All)
    } else if word == b"reads".as_slice() {
        Ok(Limit::Reads)
    } else if word == b"writes".as_slice() {
        Ok(Limit::Writes)
    } else {
        Err(ScriptFault::NotBuilt)
    }
}

#[tactic(auto, unfolding(crate::specs::Inner::Reading::rule_in))]
fn rule_in(word: &[u8]) -> Result<Rule, ScriptFault>
    ensures { Gives (λ rule. rule) result (rule_in word.now) }
{
    if word == b"exact".as_slice() {
        Ok(Rule::Exact)
    } else if word == b"prefix".as_slice() {
        Ok(Rule::Prefix)
    } else if word == b"wild".as_slice() {
        Ok(Rule::Wild)
    } else if word == b"camel".as_slice() {
        Ok(Rule::Camel)
    } else {
        Err(ScriptFault::NotBuilt)
    }
}

#[tactic(auto, unfolding(crate::specs::Inner::Reading::case_in))]
fn case_in(word: &[u8]) -> Result<bool, ScriptFault>
    ensures { Gives (λ case. case) result (case_in word.now) }
{
    if word == b"case".as_slice() {
        Ok(true)
    } else if word == b"nocase".as_slice() {
        Ok(false)
    } else {
        Err(ScriptFault::NotBuilt)
    }
}

/// The kind of element before the first space, and the bytes after it.
#[tactic(auto, unfolding(crate::specs::Inner::Reading::word_at))]
pub(crate) fn what_field(bytes: &[u8]) -> Result<(What, &[u8]), ScriptFault>
    ensures { Gives (λ f. (f.0, f.1.now)) result (word_at what_in bytes.now) }
{
    let (word, rest) = field(bytes, b' ')?;
    Ok((what_in(word)?, rest))
}

/// What the search is limited to.
#[tactic(auto, unfolding(crate::specs::Inner::Reading::word_at))]
pub(crate) fn limit_field(bytes: &[u8]) -> Result<(Limit, &[u8]), ScriptFault>
    ensures { Gives (λ f. (f.0, f.1.now)) result (word_at limit_in bytes.now) }
{
    let (word, rest) = field(bytes, b' ')?;
    Ok((limit_in(word)?, rest))
}

/// The match rule.
#[tactic(auto, unfolding(crate::specs::Inner::Reading::word_at))]
pub(crate) fn rule_field(bytes: &[u8]) -> Result<(Rule, &[u8]), ScriptFault>
    ensures { Gives (λ f. (f.0, f.1.now)) result (word_at rule_in bytes.now) }
{
    let (word, rest) = field(bytes, b' ')?;
    Ok((rule_in(word)?, rest))
}

/// Whether case counts.
#[tactic(auto, unfolding(crate::specs::Inner::Reading::word_at))]
pub(crate) fn case_field(bytes: &[u8]) -> Result<(bool, &[u8]), ScriptFault>
    ensures { Gives (λ f. (f.0, f.1.now)) result (word_at case_in bytes.now) }
{
    let (word, rest) = field(bytes, b' ')?;
    Ok((case_in(word)?, rest))
}

fn are_containers(word: &str) -> bool
    ensures { result ≡ list_all is_container (separated 44 word.now) }
{
    word.split(',').all(|container| is_container(container))
}

/// The containers that commas separate.
fn containers_in(alloc: Global, word: &str) -> Result<Items<Text>, AllocError>
    ensures { IfOk result (λ containers. containers ≡ separated 44 word.now) }
{
    let mut containers = Items::new(alloc);
    for container in word.split(',') {
        containers.push(Text::from_str(alloc, container)?)?;
    }
    Ok(containers)
}

#[tactic(auto, unfolding(crate::specs::Inner::Reading::scope_in))]
fn scope_in(alloc: Global, word: &str) -> Result<Scope, ScriptFault>
    ensures { Gives (λ scope. scope) result (scope_in word.now) }
{
    if word == "*" {
        return Ok(Scope::All);
    }
    if !are_containers(word) {
        return Err(ScriptFault::NotBuilt);
    }
    Ok(Scope::Containers(containers_in(alloc, word)?))
}

/// Where the search looks.
#[tactic(auto, unfolding(crate::specs::Inner::Reading::scope_at))]
pub(crate) fn scope_field(alloc: Global, bytes: &[u8]) -> Result<(Scope, &[u8]), ScriptFault>
    ensures { Gives (λ f. (f.0, f.1.now)) result (scope_at bytes.now) }
{
    let (word, rest) = text_field(alloc, bytes, b' ')?;
    Ok((scope_in(alloc, word.as_str())?, rest))
}
