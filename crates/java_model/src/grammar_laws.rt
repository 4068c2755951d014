//! Laws of the grammar, each as the contract of a function that does nothing.

ghost use Rattle.std.specs.Prelude.{◌≡◌, ℕ, true, List};
ghost use Rattle.java_tree.specs.declared.expr.Expr.{Expr};
ghost use Rattle.java_tree.specs.declared.stmt.IfArm.{IfArm};
ghost use Rattle.java_tree.specs.declared.stmt.Stmt.TheVariants as stmts;
ghost use Rattle.java_tree.specs.declared.unit.Unit.{Unit as CompilationUnit};
ghost use Rattle.java_model.specs.Grammar.Signs.{Sign};
ghost use Rattle.java_model.specs.Grammar.Pieces.{Around};
ghost use Rattle.java_model.specs.Grammar.YieldExpr.{yield_expr};
ghost use Rattle.java_model.specs.Grammar.Forms.{IsNonEmpty};
ghost use Rattle.java_model.specs.Grammar.Expressions.{IsExpr};
ghost use Rattle.java_model.specs.Grammar.Runs.{Reads, ends_expr};
ghost use Rattle.java_model.specs.Grammar.Statements.{no_short, IsStmt};
ghost use Rattle.java_model.specs.Grammar.Follows.{goes_on, nothing_goes_on};
ghost use Rattle.java_model.specs.Grammar.Units.{Stage, Spells, IsUnitOf};
ghost use Rattle.java_model.specs.Outlines.{IsOutline};
ghost use Rattle.java_tree.specs.declared.outline.Outline.{Outline};
ghost use Rattle.java_model.specs.Grammar.Braces.{left_braces, braces_of, IsSublist};

/// An expression yields a token or more.
pub fn expression_has_tokens()
    ensures { (d : ℕ) (x : Expr) (a : Around) → IsExpr d x → IsNonEmpty (yield_expr x a) }
{}

/// No expression goes on with what may follow one in a unit.
pub fn expression_ends()
    ensures { (tokens : List Sign) → ends_expr tokens ≡ true → goes_on tokens ≡ nothing_goes_on }
{}

/// An expression that stands in a unit stands by itself too: the body of an anonymous class is the run
/// from its `{` to the matching `}`.
pub fn expression_stands_alone()
    ensures { (d : ℕ) (x : Expr) (a : Around) (s t : Stage) → IsExpr d x → Spells (yield_expr x a) s t → Reads (yield_expr x a) s.tokens t.tokens }
{}

/// Before an `else` no statement is an `if` without one (JLS 14.9).
pub fn no_short_if_before_else()
    ensures { (d : ℕ) (arms : List IfArm) → IsStmt d no_short (stmts.If arms None) → ⊥ }
{}

/// The `{` of the bodies of a unit's types stand among its tokens, each once and in the order of the types.
pub fn unit_has_each_brace()
    ensures { (tokens : List Sign) (u : CompilationUnit) → IsUnitOf tokens u → IsSublist (braces_of u.types) (left_braces tokens) }
{}

/// A unit has an outline.
pub fn unit_has_outline()
    ensures { (tokens : List Sign) (u : CompilationUnit) → IsUnitOf tokens u → (o : Outline) × IsOutline u o }
{}
