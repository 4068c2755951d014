ghost use Rattle.std.specs.Prelude.{ℕ, List};
ghost use Rattle.java_model.specs.Grammar.Signs.{Sign};
ghost use Rattle.java_model.specs.Grammar.Runs.{AtMostOneExpr};
ghost use Rattle.java_expr_reading.specs.ReadingLaws.{ReadsEachExpr, ReadsNoOther, ReadsEachQualifier, ReadsNoOtherQualifier};

/// No two expressions stand at a place.
pub fn one_expr()
    ensures { (tokens : List Sign) (at depth : ℕ) → AtMostOneExpr tokens at depth }
{}

/// The function that reads finds each expression that stands at a place, and nothing else there.
pub fn reads_expressions()
    ensures each { ReadsEachExpr }
    ensures no_other { ReadsNoOther }
{}

/// The same of primary expressions before the `super` of an explicit constructor call (JLS 8.8.5.1).
pub fn reads_qualifiers()
    ensures each { ReadsEachQualifier }
    ensures no_other { ReadsNoOtherQualifier }
{}
