//! The parts of a pattern's text.

ghost use Rattle.std.specs.Prelude.{◌≡◌, None};
ghost use Rattle.std.specs.Option.{option_copied, option_map};
ghost use Rattle.java_tree.specs.declared.search.What.TheVariants.{Class};
ghost use Rattle.java_model.specs.SearchPattern.Parts.{before_params, inside_params, has_empty_part, name_in, paren_fault};
ghost use Rattle.search_pattern.specs.Params.{params_between};

use crate::params::has_empty_param;
use crate::trimming::trimmed;
use java_tree::What;

/// The parts of a pattern, as they stand in its text.
#[derive(Drop)]
pub(crate) struct Parts<'a> {
    pub(crate) name: &'a str,
    pub(crate) qualification: Option<&'a str>,
    /// What stands between the parentheses, if there are any.
    pub(crate) inside: Option<&'a str>,
}

/// What stands before the parameters, and between their parentheses.
fn around_params(what: What, text: &str) -> (&str, Option<&str>)
    requires { paren_fault what text.now ≡ None }
    ensures before { result.0.now ≡ before_params text.now }
    ensures inside { option_copied result.1 ≡ inside_params text.now }
{
    match text.split_once('(') {
        Some((before, rest)) => (before, rest.strip_suffix(')')),
        None => (text, None),
    }
}

/// The qualification before the last dot, and the name.
fn around_dot(text: &str) -> (Option<&str>, &str)
    ensures qualification { option_copied result.0 ≡ (name_in Class text.now).0 }
    ensures name { result.1.now ≡ (name_in Class text.now).1 }
{
    match text.rsplit_once('.') {
        Some((qualification, name)) => (Some(trimmed(qualification)), trimmed(name)),
        None => (None, trimmed(text)),
    }
}

/// The same of a kind of element. A package is its name as a whole.
fn name_in(what: What, text: &str) -> (Option<&str>, &str)
    ensures qualification { option_copied result.0 ≡ (name_in what text.now).0 }
    ensures name { result.1.now ≡ (name_in what text.now).1 }
{
    match what {
        What::Package => (None, trimmed(text)),
        What::Class | What::Method | What::Constructor | What::Field => around_dot(text),
    }
}

impl<'a> Parts<'a> {
    /// The parts of a text whose parentheses stand right.
    pub(crate) fn of(what: What, text: &'a str) -> Parts<'a>
        requires { paren_fault what text.now ≡ None }
        ensures name { result.name.now ≡ (name_in what (before_params text.now)).1 }
        ensures qualification { option_copied result.qualification ≡ (name_in what (before_params text.now)).0 }
        ensures inside { option_copied result.inside ≡ inside_params text.now }
    {
        let (before, inside) = around_params(what, text);
        let (qualification, name) = name_in(what, before);
        Parts {
            name,
            qualification,
            inside,
        }
    }

    /// Whether the name, a qualification that is given, or one of several parameters is empty.
    pub(crate) fn has_empty(&self) -> bool
        ensures { result ≡ has_empty_part (option_copied self.now.qualification) self.now.name.now
            (option_map params_between (option_copied self.now.inside)) }
    {
        self.name.is_empty()
            || self.qualification.is_some_and(|text| text.is_empty())
            || self.inside.is_some_and(|inside| has_empty_param(inside))
    }
}
