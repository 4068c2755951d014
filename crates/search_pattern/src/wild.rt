//! Names compared with wild cards: `*` stands for any text, and `?` for any one character.

ghost use Rattle.std.specs.Prelude.{◌≡◌, [], ◌∷◌, chars, MatchOption};
ghost use Rattle.std.specs.List.{list_any};
ghost use Rattle.java_model.specs.SearchPattern.NameMatch.{is_wild, ends_of};
ghost use Rattle.search_pattern.specs.Wild.{IsStep, IsText};

use crate::same::is_same_char;

/// What a pattern and a name begin with.
#[derive(Drop)]
enum Step<'a> {
    /// The pattern with a `*`. What follows it.
    Star(&'a str),
    /// Both with a character that matches. What follows them.
    Both(&'a str, &'a str),
    /// Nothing: they are empty.
    End,
    /// What doesn't match.
    Stuck,
}

/// The first character of a text, and what follows it.
fn split_first(text: &str) -> Option<(char, &str)>
    ensures { MatchOption result (chars text.now ≡ []) (λ p. chars text.now ≡ p.0 ∷ chars p.1.now) }
{
    let mut rest = text.chars();
    let first = rest.next()?;
    Some((first, rest.as_str()))
}

fn next_step<'a>(case: bool, pattern: &'a str, name: &'a str) -> Step<'a>
    ensures step { IsStep case (chars pattern.now) (chars name.now) result }
    ensures text { IsText result }
{
    let Some((wanted, after)) = split_first(pattern) else {
        return match split_first(name) {
            None => Step::End,
            Some(_) => Step::Stuck,
        };
    };
    if wanted == '*' {
        return Step::Star(after);
    }
    match split_first(name) {
        Some((first, rest)) if wanted == '?' || is_same_char(case, wanted, first) => {
            Step::Both(after, rest)
        }
        _ => Step::Stuck,
    }
}

/// Whether some end of a name matches what follows a `*`. Where a later part doesn't match, the last `*` alone is
/// made longer: whatever an earlier one could take, the last one can take too.
fn matches_end(case: bool, pattern: &str, name: &str) -> bool
    ensures { result ≡ list_any (is_wild case (chars pattern.now)) (ends_of (chars name.now)) }
{
    let mut after_star = pattern;
    let mut tried = name;
    let mut wanted = pattern;
    let mut left = name;
    loop {
        match next_step(case, wanted, left) {
            Step::Star(after) => {
                after_star = after;
                tried = left;
                wanted = after;
            }
            Step::Both(after, rest) => {
                wanted = after;
                left = rest;
            }
            Step::End => return true,
            Step::Stuck => {
                let Some((_, rest)) = split_first(tried) else {
                    return false;
                };
                tried = rest;
                left = rest;
                wanted = after_star;
            }
        }
    }
}

/// Whether a name matches a pattern as a whole (JDT `R_PATTERN_MATCH`). It takes no memory, and no more steps than
/// the product of both lengths.
pub(crate) fn is_wild(case: bool, pattern: &str, name: &str) -> bool
    ensures { result ≡ is_wild case (chars pattern.now) (chars name.now) }
{
    let mut wanted = pattern;
    let mut left = name;
    loop {
        match next_step(case, wanted, left) {
            Step::Star(after) => return matches_end(case, after, left),
            Step::Both(after, rest) => {
                wanted = after;
                left = rest;
            }
            Step::End => return true,
            Step::Stuck => return false,
        }
    }
}
