//! The trees of texts.

ghost use Rattle.std.specs.Prelude.{◌≡◌, ◌≤◌, ◌<◌, ◌^◌, ◌+◌, List, length};
ghost use Rattle.java_tree.specs.declared.limits.TheConstants.{MAX_TEXT};
ghost use Rattle.java_tree.specs.declared.outline.Level.TheVariants.{Java14};
ghost use Rattle.java_tree.specs.declared.token.Token.{Token};
ghost use Rattle.java_tree.specs.declared.unit.Unit.{Unit as CompilationUnit};
ghost use Rattle.java_model.specs.Lexical.Faults.{LexicalFault, HasFault};
ghost use Rattle.java_model.specs.Lexical.Tokens.{HasTokens};
ghost use Rattle.java_model.specs.Grammar.Units.{HasNoTree};
ghost use Rattle.java_model.specs.Texts.{IsUnitOfText};
ghost use Rattle.java_parse_unit.specs.Parsed.{Parses, ParsesTokens, TellsUnit, TellsFault, TellsNoTree, Refuses};

use crate::units::read_unit;
use crate::unreadable::Unreadable;
use java_expr_reading::Marked;
use java_scan::scan_at;
use java_tree::{Level, MAX_TEXT, Token, Unit};
use jx_io::Steps;
use std::alloc::Global;

/// The tree of tokens.
fn parse_tokens(alloc: Global, tokens: &[Token]) -> Result<Unit, Unreadable>
    requires { length tokens.now < 2 ^ 32 }
    ensures { ParsesTokens tokens.now result }
{
    let marked = Marked::of(alloc, tokens)?;
    let unit = read_unit(alloc, &marked)?;
    Ok(unit)
}

/// The tree of a text at a source level.
fn parse_text(alloc: Global, level: Level, text: &str) -> Result<Unit, Unreadable>
    requires { length text.now ≤ MAX_TEXT }
    ensures { Parses level text.now result }
{
    let tokens = scan_at(alloc, level, text)?;
    parse_tokens(alloc, tokens.as_slice())
}

/// The tree of a text at a source level (JLS 7.3), or why it has none. It counts the text's bytes as steps.
pub fn parse_at<L>(
    alloc: Global,
    level: Level,
    text: &str,
    steps: &mut Steps<L>,
) -> Result<Unit, Unreadable>
    requires { length text.now ≤ MAX_TEXT }
    ensures answer { Parses level text.now result }
    ensures refused { Refuses level text.now result }
    ensures unit_exactly { (u : CompilationUnit) → IsUnitOfText level text.now u → TellsUnit u result }
    ensures fault_exactly { (fault : LexicalFault) → HasFault level text.now fault → TellsFault fault result }
    ensures no_tree_exactly { (tokens : List Token) → HasTokens level text.now tokens → HasNoTree tokens → TellsNoTree result }
    ensures steps { steps.new ≡ steps.old + length text.now }
{
    steps.add(text.len() as u64);
    parse_text(alloc, level, text)
}

/// The tree of a text of Java 1.4 (JLS 7.3), or why it has none. It counts the text's bytes as steps.
pub fn parse<L>(alloc: Global, text: &str, steps: &mut Steps<L>) -> Result<Unit, Unreadable>
    requires { length text.now ≤ MAX_TEXT }
    ensures answer { Parses Java14 text.now result }
    ensures refused { Refuses Java14 text.now result }
    ensures unit_exactly { (u : CompilationUnit) → IsUnitOfText Java14 text.now u → TellsUnit u result }
    ensures fault_exactly { (fault : LexicalFault) → HasFault Java14 text.now fault → TellsFault fault result }
    ensures no_tree_exactly { (tokens : List Token) → HasTokens Java14 text.now tokens → HasNoTree tokens → TellsNoTree result }
    ensures steps { steps.new ≡ steps.old + length text.now }
{
    parse_at(alloc, Level::Java14, text, steps)
}
