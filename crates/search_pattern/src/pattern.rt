ghost use Rattle.std.specs.Prelude.{◌≡◌, ℕ, ◌↔◌, Ok, Err, IfOk, IsErrOf};
ghost use Rattle.std.specs.Option.{option_copied};
ghost use Rattle.java_model.specs.SearchPattern.NameMatch.{name_matches};
ghost use Rattle.java_model.specs.SearchPattern.Parts.{pattern_of, wrong_limit, bad_parens, empty};

use crate::fault::PatternFault;
use crate::limits::has_limit;
use crate::names::name_matches;
use crate::params::params_in;
use crate::parens::paren_fault;
use crate::parts::Parts;
use java_tree::{Items, Limit, Rule, Text, What};
use std::alloc::{AllocError, Global};
use std::marker::Model;

/// What a search looks for (JDT `SearchPattern`).
#[derive(Debug, Drop)]
pub struct Pattern {
    what: What,
    limit: Limit,
    rule: Rule,
    case: bool,
    name: Text,
    qualification: Option<Text>,
    params: Option<Items<Text>>,
}

impl Model for Pattern {
    ghost use Rattle.java_model.specs.SearchPattern.Parts.{Pattern as SearchPattern};

    ghost Value = { SearchPattern };

    ghost view = { λ p. record {
      what = p.what;
      limit = p.limit;
      rule = p.rule;
      case = p.case;
      name = p.name;
      qualification = p.qualification;
      params = p.params;
    } };
}

fn copied(alloc: Global, text: Option<&str>) -> Result<Option<Text>, AllocError>
    ensures { IfOk result (λ copy. copy ≡ option_copied text.entry) }
{
    match text {
        Some(text) => Ok(Some(Text::from_str(alloc, text)?)),
        None => Ok(None),
    }
}

impl Pattern {
    /// The pattern that a text is (JDT `SearchPattern.createPattern`): a name, for a type or a constructor with the
    /// package and the enclosing types before it, for a method or a field with the declaring type, and for a method or
    /// a constructor with the types of its parameters in parentheses. Spaces at the ends of a part count for nothing.
    pub fn read(
        alloc: Global,
        text: &str,
        what: What,
        limit: Limit,
        rule: Rule,
        case: bool,
    ) -> Result<Pattern, PatternFault>
        ensures pattern { IfOk result (λ p. pattern_of what limit rule case text.now ≡ Ok p) }
        ensures wrong_limit { IsErrOf result PatternFault.WrongLimit ↔ (pattern_of what limit rule case text.now ≡ Err wrong_limit) }
        ensures bad_parens { (at : ℕ) → IsErrOf result (PatternFault.BadParens at)
            ↔ (pattern_of what limit rule case text.now ≡ Err (bad_parens at)) }
        ensures empty { IsErrOf result PatternFault.Empty ↔ (pattern_of what limit rule case text.now ≡ Err empty) }
    {
        if !has_limit(what, limit) {
            return Err(PatternFault::WrongLimit);
        }
        if let Some(at) = paren_fault(what, text) {
            return Err(PatternFault::BadParens(at));
        }
        let parts = Parts::of(what, text);
        if parts.has_empty() {
            return Err(PatternFault::Empty);
        }
        let name = Text::from_str(alloc, parts.name)?;
        let qualification = copied(alloc, parts.qualification)?;
        let params = match parts.inside {
            Some(inside) => Some(params_in(alloc, inside)?),
            None => None,
        };
        Ok(Pattern {
            what,
            limit,
            rule,
            case,
            name,
            qualification,
            params,
        })
    }

    /// The kind of element.
    pub fn what(&self) -> What
        ensures { result ≡ self.now.what }
    {
        self.what
    }

    /// What the search is limited to.
    pub fn limit(&self) -> Limit
        ensures { result ≡ self.now.limit }
    {
        self.limit
    }

    /// The match rule.
    pub fn rule(&self) -> Rule
        ensures { result ≡ self.now.rule }
    {
        self.rule
    }

    /// Whether case counts.
    pub fn case(&self) -> bool
        ensures { result ≡ self.now.case }
    {
        self.case
    }

    /// The name.
    pub fn name(&self) -> &str
        ensures { result.now ≡ self.now.name }
    {
        self.name.as_str()
    }

    /// The qualification, if one is given: of a method and a field the declaring type.
    pub fn qualification(&self) -> Option<&str>
        ensures { option_copied result ≡ self.now.qualification }
    {
        match &self.qualification {
            Some(text) => Some(text.as_str()),
            None => None,
        }
    }

    /// The types of the parameters, if they are given.
    pub fn params(&self) -> Option<&[Text]>
        ensures { option_copied result ≡ self.now.params }
    {
        match &self.params {
            Some(params) => Some(params.as_slice()),
            None => None,
        }
    }

    /// Whether a name matches the pattern's, by its match rule. It takes no memory.
    pub fn name_matches(&self, name: &str) -> bool
        ensures { result ≡ name_matches self.now.rule self.now.case self.now.name name.now }
    {
        name_matches(self.rule, self.case, self.name.as_str(), name)
    }
}
