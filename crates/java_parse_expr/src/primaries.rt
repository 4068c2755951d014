//! Primary expressions (JLS 15.8).

ghost use Rattle.std.specs.Prelude.{◌≡◌, ◌∷◌, [], ◌≢◌, ◌&&◌, not, ℕ, IfOk};
ghost use Rattle.java_tree.specs.declared.mark.Mark.TheVariants as marks;
ghost use Rattle.java_tree.specs.declared.names.ElementType.TheVariants as elements;
ghost use Rattle.java_tree.specs.declared.expr.First.TheVariants as firsts;
ghost use Rattle.java_tree.specs.declared.expr.Selector.TheVariants as selectors;
ghost use Rattle.java_expr_reading.specs.Input.{Gives, many, sees, next, shape};
ghost use Rattle.java_expr_reading.specs.declared.shape.Shape.TheVariants as shapes;
ghost use Rattle.java_expr_reading.specs.Reading.Primaries as spec;
ghost use Rattle.java_expr_reading.specs.Reading.Expressions.{read_nest};
ghost use Rattle.java_parse_expr.specs.Nests.{ParsesBy};

use crate::grammar::Grammar;
use java_expr_reading::names::{dims, element, name, only, sees_dim, type_use};
use java_expr_reading::{Cursor, ExprFault, Shape, primitive_of};
use java_tree::{
    ArrayInitializer, Boxed, Creation, ElementType, Expr, First, Ident, Initializer, Items, Mark,
    Name, Primary, Primitive, Selector, Span, TypeUse,
};
use std::alloc::{AllocError, Global};

/// `.class` after a type (JLS 15.8.2).
fn class_literal(cursor: &mut Cursor<'_>, of: TypeUse) -> Result<First, ExprFault>
    ensures { Gives (spec.class_literal of cursor.old) result cursor.new }
{
    cursor.expect(Mark::Dot)?;
    cursor.expect(Mark::Class)?;
    Ok(First::ClassLiteral(of))
}

fn named_type(name: Name, dims: u32) -> TypeUse
    ensures { result ≡ record { element = elements.Named name; dims = dims } }
{
    TypeUse {
        element: ElementType::Named(name),
        dims,
    }
}

fn sees_size(cursor: &Cursor<'_>) -> bool
    ensures { result ≡ (sees marks.LeftBracket cursor.now && not (sees marks.RightBracket (next cursor.now))) }
{
    cursor.sees(Mark::LeftBracket) && !cursor.second_is(Mark::RightBracket)
}

fn sees_more(cursor: &Cursor<'_>) -> bool
    ensures { result ≡ (sees marks.Comma cursor.now && not (sees marks.RightBrace (next cursor.now))) }
{
    cursor.sees(Mark::Comma) && !cursor.second_is(Mark::RightBrace)
}

fn parenthesized(alloc: Global, inside: Expr) -> Result<First, AllocError>
    ensures { IfOk result (λ f. f ≡ firsts.Parenthesized inside) }
{
    Ok(First::Parenthesized(Boxed::new(alloc, inside)?))
}

fn index(alloc: Global, inside: Expr) -> Result<Selector, AllocError>
    ensures { IfOk result (λ s. s ≡ selectors.Index inside) }
{
    Ok(Selector::Index(Boxed::new(alloc, inside)?))
}

fn is_new_array(first: &First) -> bool
    ensures { result ≡ spec.is_new_array first.now }
{
    match first {
        First::NewArray(..) => true,
        _ => false,
    }
}

/// The `}` of an array initializer, and the comma that may stand before it.
#[tactic(auto, using(java_expr_reading::proofs::Seen::sees_some), unfolding(java_expr_reading::specs::Reading::Primaries::last_comma))]
fn last_comma(cursor: &mut Cursor<'_>) -> Result<bool, ExprFault>
    ensures { (depth_left : ℕ) (N : spec.Nest) → Gives (spec.last_comma depth_left N cursor.old) result cursor.new }
{
    if cursor.sees(Mark::Comma) {
        cursor.take();
        Ok(true)
    } else {
        Ok(false)
    }
}

impl<
    E: Fn(Global, &mut Cursor<'_>, usize) -> Result<Expr, ExprFault>,
    P: Fn(Global, &mut Cursor<'_>, usize) -> Result<Expr, ExprFault>,
    B: Fn(Global, &mut Cursor<'_>, usize) -> Result<ArrayInitializer, ExprFault>,
> Grammar<E, P, B> {
    /// A comma and an expression, if a comma comes next.
    #[tactic(auto, using(java_expr_reading::proofs::Seen::sees_some), unfolding(java_expr_reading::specs::Reading::Primaries::comma_expr))]
    fn comma_expr(&self, cursor: &mut Cursor<'_>) -> Result<Option<Expr>, ExprFault>
        requires { ParsesBy (read_nest self.now.depth).expr self.now.depth (E.pre self.now.expr) (E.post self.now.expr) }
        ensures { Gives (spec.comma_expr self.now.depth (read_nest self.now.depth) cursor.old) result cursor.new }
    {
        if cursor.sees(Mark::Comma) {
            cursor.take();
            Ok(Some(self.expr(cursor)?))
        } else {
            Ok(None)
        }
    }

    /// The arguments of a call, of which there are some, with the `)`.
    #[tactic(auto, unfolding(java_expr_reading::specs::Reading::Primaries::some_arguments))]
    fn some_arguments(&self, cursor: &mut Cursor<'_>) -> Result<Items<Expr>, ExprFault>
        requires { ParsesBy (read_nest self.now.depth).expr self.now.depth (E.pre self.now.expr) (E.post self.now.expr) }
        ensures { Gives (spec.some_arguments self.now.depth (read_nest self.now.depth) cursor.old) result cursor.new }
    {
        let first = self.expr(cursor)?;
        let found = only(self.alloc, first)?;
        let all = self.comma_exprs(cursor, found)?;
        cursor.expect(Mark::RightParen)?;
        Ok(all)
    }

    /// The arguments of a call in parentheses (JLS 15.12).
    #[tactic(auto, using(java_expr_reading::proofs::Seen::sees_some), unfolding(java_expr_reading::specs::Reading::Primaries::arguments))]
    fn arguments(&self, cursor: &mut Cursor<'_>) -> Result<Items<Expr>, ExprFault>
        requires { ParsesBy (read_nest self.now.depth).expr self.now.depth (E.pre self.now.expr) (E.post self.now.expr) }
        ensures { Gives (spec.arguments self.now.depth (read_nest self.now.depth) cursor.old) result cursor.new }
    {
        cursor.expect(Mark::LeftParen)?;
        if cursor.sees(Mark::RightParen) {
            cursor.take();
            Ok(Items::new(self.alloc))
        } else {
            self.some_arguments(cursor)
        }
    }

    /// An expression in brackets.
    #[tactic(auto, unfolding(java_expr_reading::specs::Reading::Primaries::in_brackets))]
    fn in_brackets(&self, cursor: &mut Cursor<'_>) -> Result<Expr, ExprFault>
        requires { ParsesBy (read_nest self.now.depth).expr self.now.depth (E.pre self.now.expr) (E.post self.now.expr) }
        ensures { Gives (spec.in_brackets self.now.depth (read_nest self.now.depth) cursor.old) result cursor.new }
    {
        cursor.expect(Mark::LeftBracket)?;
        let inside = self.expr(cursor)?;
        cursor.expect(Mark::RightBracket)?;
        Ok(inside)
    }

    #[tactic(auto, unfolding(java_expr_reading::specs::Reading::Primaries::size))]
    fn size(&self, cursor: &mut Cursor<'_>) -> Result<Option<Expr>, ExprFault>
        requires { ParsesBy (read_nest self.now.depth).expr self.now.depth (E.pre self.now.expr) (E.post self.now.expr) }
        ensures { Gives (spec.size self.now.depth (read_nest self.now.depth) cursor.old) result cursor.new }
    {
        if sees_size(cursor) {
            Ok(Some(self.in_brackets(cursor)?))
        } else {
            Ok(None)
        }
    }

    /// The body of an anonymous class, which is passed, if one comes next.
    #[tactic(auto, unfolding(java_expr_reading::specs::Reading::Primaries::optional_body))]
    fn optional_body(&self, cursor: &mut Cursor<'_>) -> Result<Option<u32>, ExprFault>
        ensures { Gives (spec.optional_body self.now.depth (read_nest self.now.depth) cursor.old) result cursor.new }
    {
        if cursor.shape().is_left_brace() {
            Ok(Some(cursor.body(self.depth)?))
        } else {
            Ok(None)
        }
    }

    /// What follows the class of a creation (JLS 15.9).
    #[tactic(auto, unfolding(java_expr_reading::specs::Reading::Primaries::creation_of))]
    fn creation_of(&self, cursor: &mut Cursor<'_>, class: Name) -> Result<Creation, ExprFault>
        requires { ParsesBy (read_nest self.now.depth).expr self.now.depth (E.pre self.now.expr) (E.post self.now.expr) }
        ensures { Gives (spec.creation_of self.now.depth (read_nest self.now.depth) class cursor.old) result cursor.new }
    {
        let arguments = self.arguments(cursor)?;
        let body = self.optional_body(cursor)?;
        Ok(Creation {
            class,
            arguments,
            body,
        })
    }

    fn new_class(&self, cursor: &mut Cursor<'_>, of: ElementType) -> Result<First, ExprFault>
        requires { ParsesBy (read_nest self.now.depth).expr self.now.depth (E.pre self.now.expr) (E.post self.now.expr) }
        ensures { Gives (spec.new_class self.now.depth (read_nest self.now.depth) of cursor.old) result cursor.new }
    {
        match of {
            ElementType::Named(class) => Ok(First::New(self.creation_of(cursor, class)?)),
            ElementType::Primitive(_) => Err(ExprFault::NoExpr),
        }
    }

    /// `[]`s and an initializer after the element type of an array creation (JLS 15.10).
    #[tactic(auto, unfolding(java_expr_reading::specs::Reading::Primaries::new_array_of))]
    fn new_array_of(&self, cursor: &mut Cursor<'_>, of: ElementType) -> Result<First, ExprFault>
        requires { ParsesBy (read_nest self.now.depth).braces self.now.depth (B.pre self.now.braces) (B.post self.now.braces) }
        ensures { Gives (spec.new_array_of self.now.depth (read_nest self.now.depth) of cursor.old) result cursor.new }
    {
        let dims = dims(cursor)?;
        let array = self.braces(cursor)?;
        Ok(First::NewArrayOf(of, dims, array))
    }

    /// Sizes and `[]`s after the element type of an array creation (JLS 15.10).
    #[tactic(auto, unfolding(java_expr_reading::specs::Reading::Primaries::new_array))]
    fn new_array(&self, cursor: &mut Cursor<'_>, of: ElementType) -> Result<First, ExprFault>
        requires { ParsesBy (read_nest self.now.depth).expr self.now.depth (E.pre self.now.expr) (E.post self.now.expr) }
        ensures { Gives (spec.new_array self.now.depth (read_nest self.now.depth) of cursor.old) result cursor.new }
    {
        let first = self.in_brackets(cursor)?;
        let found = only(self.alloc, first)?;
        let sizes = self.sizes(cursor, found)?;
        let dims = dims(cursor)?;
        Ok(First::NewArray(of, sizes, dims))
    }

    #[tactic(auto, unfolding(java_expr_reading::specs::Reading::Primaries::new_with))]
    fn new_with(&self, cursor: &mut Cursor<'_>, of: ElementType) -> Result<First, ExprFault>
        requires expr { ParsesBy (read_nest self.now.depth).expr self.now.depth (E.pre self.now.expr) (E.post self.now.expr) }
        requires braces { ParsesBy (read_nest self.now.depth).braces self.now.depth (B.pre self.now.braces) (B.post self.now.braces) }
        ensures { Gives (spec.new_with self.now.depth (read_nest self.now.depth) of cursor.old) result cursor.new }
    {
        if sees_dim(cursor) {
            self.new_array_of(cursor, of)
        } else if cursor.sees(Mark::LeftBracket) {
            self.new_array(cursor, of)
        } else {
            self.new_class(cursor, of)
        }
    }

    /// What follows `new` (JLS 15.9, 15.10).
    #[tactic(auto, unfolding(java_expr_reading::specs::Reading::Primaries::new_first))]
    fn new_first(&self, cursor: &mut Cursor<'_>) -> Result<First, ExprFault>
        requires expr { ParsesBy (read_nest self.now.depth).expr self.now.depth (E.pre self.now.expr) (E.post self.now.expr) }
        requires braces { ParsesBy (read_nest self.now.depth).braces self.now.depth (B.pre self.now.braces) (B.post self.now.braces) }
        ensures { Gives (spec.new_first self.now.depth (read_nest self.now.depth) cursor.old) result cursor.new }
    {
        let of = element(self.alloc, cursor)?;
        self.new_with(cursor, of)
    }

    fn super_end(
        &self,
        cursor: &mut Cursor<'_>,
        qualifier: Option<Name>,
        word: Span,
        member: Ident,
    ) -> Result<First, ExprFault>
        requires { ParsesBy (read_nest self.now.depth).expr self.now.depth (E.pre self.now.expr) (E.post self.now.expr) }
        ensures { Gives (spec.super_end self.now.depth (read_nest self.now.depth) qualifier word member cursor.old) result cursor.new }
    {
        if cursor.sees(Mark::LeftParen) {
            let arguments = self.arguments(cursor)?;
            Ok(First::SuperCall(qualifier, word, member, arguments))
        } else {
            Ok(First::SuperField(qualifier, word, member))
        }
    }

    /// A field or a method of the superclass (JLS 15.11.2, 15.12).
    #[tactic(auto, unfolding(java_expr_reading::specs::Reading::Primaries::super_first))]
    fn super_first(
        &self,
        cursor: &mut Cursor<'_>,
        qualifier: Option<Name>,
    ) -> Result<First, ExprFault>
        requires { ParsesBy (read_nest self.now.depth).expr self.now.depth (E.pre self.now.expr) (E.post self.now.expr) }
        ensures { Gives (spec.super_first self.now.depth (read_nest self.now.depth) qualifier cursor.old) result cursor.new }
    {
        let word = cursor.super_word()?;
        cursor.expect(Mark::Dot)?;
        let member = cursor.ident(self.alloc)?;
        self.super_end(cursor, qualifier, word, member)
    }

    /// What follows a name before a dot.
    #[tactic(auto, using(crate::proofs::Steps::second_this, crate::proofs::Steps::second_super), unfolding(java_expr_reading::specs::Reading::Primaries::qualified_first))]
    fn qualified_first(&self, cursor: &mut Cursor<'_>, name: Name) -> Result<First, ExprFault>
        requires { ParsesBy (read_nest self.now.depth).expr self.now.depth (E.pre self.now.expr) (E.post self.now.expr) }
        ensures { Gives (spec.qualified_first self.now.depth (read_nest self.now.depth) name cursor.old) result cursor.new }
    {
        match cursor.second() {
            Shape::This => {
                cursor.take();
                Ok(First::QualifiedThis(name, cursor.this()?))
            }
            Shape::Super => {
                if cursor.third_is(Mark::Dot) {
                    cursor.take();
                    self.super_first(cursor, Some(name))
                } else {
                    Ok(First::Name(name))
                }
            }
            Shape::Mark(Mark::Class) => class_literal(cursor, named_type(name, 0)),
            _ => Ok(First::Name(name)),
        }
    }

    fn array_class(&self, cursor: &mut Cursor<'_>, name: Name) -> Result<First, ExprFault>
        ensures { Gives (spec.array_class self.now.depth (read_nest self.now.depth) name cursor.old) result cursor.new }
    {
        let dims = dims(cursor)?;
        class_literal(cursor, named_type(name, dims))
    }

    /// What follows a name.
    #[tactic(auto, unfolding(java_expr_reading::specs::Reading::Primaries::named_first))]
    fn named_first(&self, cursor: &mut Cursor<'_>, name: Name) -> Result<First, ExprFault>
        requires { ParsesBy (read_nest self.now.depth).expr self.now.depth (E.pre self.now.expr) (E.post self.now.expr) }
        ensures { Gives (spec.named_first self.now.depth (read_nest self.now.depth) name cursor.old) result cursor.new }
    {
        if cursor.sees(Mark::LeftParen) {
            let arguments = self.arguments(cursor)?;
            Ok(First::Call(name, arguments))
        } else if cursor.sees(Mark::Dot) {
            self.qualified_first(cursor, name)
        } else if sees_dim(cursor) {
            self.array_class(cursor, name)
        } else {
            Ok(First::Name(name))
        }
    }

    fn primitive_first(
        &self,
        cursor: &mut Cursor<'_>,
        primitive: Option<Primitive>,
    ) -> Result<First, ExprFault>
        ensures { Gives (spec.primitive_first self.now.depth (read_nest self.now.depth) primitive cursor.old) result cursor.new }
    {
        match primitive {
            Some(_) => {
                let of = type_use(self.alloc, cursor)?;
                class_literal(cursor, of)
            }
            None => Err(ExprFault::NoExpr),
        }
    }

    /// A primary expression that begins with a keyword or a symbol.
    fn first_at(&self, cursor: &mut Cursor<'_>, mark: Mark) -> Result<First, ExprFault>
        requires some { shape cursor.old ≢ shapes.End }
        requires expr { ParsesBy (read_nest self.now.depth).expr self.now.depth (E.pre self.now.expr) (E.post self.now.expr) }
        requires braces { ParsesBy (read_nest self.now.depth).braces self.now.depth (B.pre self.now.braces) (B.post self.now.braces) }
        ensures { Gives (spec.first_at self.now.depth (read_nest self.now.depth) mark cursor.old) result cursor.new }
    {
        match mark {
            Mark::LeftParen => {
                cursor.take();
                let inside = self.expr(cursor)?;
                cursor.expect(Mark::RightParen)?;
                Ok(parenthesized(self.alloc, inside)?)
            }
            Mark::New => {
                cursor.take();
                self.new_first(cursor)
            }
            Mark::Void => {
                cursor.take();
                cursor.expect(Mark::Dot)?;
                cursor.expect(Mark::Class)?;
                Ok(First::VoidClass)
            }
            _ => self.primitive_first(cursor, primitive_of(mark)),
        }
    }

    /// What a primary expression begins with.
    #[tactic(auto, unfolding(java_expr_reading::specs::Reading::Primaries::first))]
    fn first(&self, cursor: &mut Cursor<'_>) -> Result<First, ExprFault>
        requires expr { ParsesBy (read_nest self.now.depth).expr self.now.depth (E.pre self.now.expr) (E.post self.now.expr) }
        requires braces { ParsesBy (read_nest self.now.depth).braces self.now.depth (B.pre self.now.braces) (B.post self.now.braces) }
        ensures { Gives (spec.first self.now.depth (read_nest self.now.depth) cursor.old) result cursor.new }
    {
        match cursor.shape() {
            Shape::Literal => Ok(First::Literal(cursor.literal(self.alloc)?)),
            Shape::This => Ok(First::This(cursor.this()?)),
            Shape::Super => self.super_first(cursor, None),
            Shape::Word => {
                let name = name(self.alloc, cursor)?;
                self.named_first(cursor, name)
            }
            Shape::Mark(mark) => self.first_at(cursor, mark),
            _ => Err(ExprFault::NoExpr),
        }
    }

    /// A field or a method after a dot (JLS 15.11.1, 15.12).
    #[tactic(auto, unfolding(java_expr_reading::specs::Reading::Primaries::member))]
    fn member(&self, cursor: &mut Cursor<'_>) -> Result<Selector, ExprFault>
        requires { ParsesBy (read_nest self.now.depth).expr self.now.depth (E.pre self.now.expr) (E.post self.now.expr) }
        ensures { Gives (spec.member self.now.depth (read_nest self.now.depth) cursor.old) result cursor.new }
    {
        let member = cursor.ident(self.alloc)?;
        if cursor.sees(Mark::LeftParen) {
            let arguments = self.arguments(cursor)?;
            Ok(Selector::MemberCall(member, arguments))
        } else {
            Ok(Selector::Field(member))
        }
    }

    /// The creation of an inner class after a dot and `new` (JLS 15.9).
    #[tactic(auto, unfolding(java_expr_reading::specs::Reading::Primaries::inner_creation))]
    fn inner_creation(&self, cursor: &mut Cursor<'_>) -> Result<Selector, ExprFault>
        requires { ParsesBy (read_nest self.now.depth).expr self.now.depth (E.pre self.now.expr) (E.post self.now.expr) }
        ensures { Gives (spec.inner_creation self.now.depth (read_nest self.now.depth) cursor.old) result cursor.new }
    {
        let class = cursor.ident(self.alloc)?;
        let class = only(self.alloc, class)?;
        Ok(Selector::QualifiedNew(self.creation_of(cursor, class)?))
    }

    /// A selector, if one comes next.
    #[tactic(auto, using(java_expr_reading::proofs::Seen::sees_some), unfolding(java_expr_reading::specs::Reading::Primaries::selector))]
    fn selector(&self, cursor: &mut Cursor<'_>) -> Result<Option<Selector>, ExprFault>
        requires { ParsesBy (read_nest self.now.depth).expr self.now.depth (E.pre self.now.expr) (E.post self.now.expr) }
        ensures { Gives (spec.selector self.now.depth (read_nest self.now.depth) cursor.old) result cursor.new }
    {
        if cursor.sees(Mark::LeftBracket) {
            let inside = self.in_brackets(cursor)?;
            return Ok(Some(index(self.alloc, inside)?));
        }
        if !cursor.sees(Mark::Dot) {
            return Ok(None);
        }
        match cursor.second() {
            Shape::Word => {
                cursor.take();
                Ok(Some(self.member(cursor)?))
            }
            Shape::Mark(Mark::New) => {
                cursor.take();
                cursor.take();
                Ok(Some(self.inner_creation(cursor)?))
            }
            _ => Ok(None),
        }
    }

    /// The selectors of a primary expression, as many as there are.
    #[tactic(auto, unfolding(java_expr_reading::specs::Reading::Primaries::selectors_of))]
    fn selectors_of(
        &self,
        cursor: &mut Cursor<'_>,
        first: &First,
    ) -> Result<Items<Selector>, ExprFault>
        requires { ParsesBy (read_nest self.now.depth).expr self.now.depth (E.pre self.now.expr) (E.post self.now.expr) }
        ensures { Gives (spec.selectors_of self.now.depth (read_nest self.now.depth) first.now cursor.old) result cursor.new }
    {
        if is_new_array(first) && cursor.sees(Mark::LeftBracket) {
            Err(ExprFault::NoExpr)
        } else {
            self.selectors(cursor, Items::new(self.alloc))
        }
    }

    /// A primary expression (JLS 15.8).
    #[tactic(auto, unfolding(java_expr_reading::specs::Reading::Primaries::primary))]
    pub(crate) fn primary(&self, cursor: &mut Cursor<'_>) -> Result<Primary, ExprFault>
        requires expr { ParsesBy (read_nest self.now.depth).expr self.now.depth (E.pre self.now.expr) (E.post self.now.expr) }
        requires braces { ParsesBy (read_nest self.now.depth).braces self.now.depth (B.pre self.now.braces) (B.post self.now.braces) }
        ensures { Gives (spec.primary self.now.depth (read_nest self.now.depth) cursor.old) result cursor.new }
    {
        let first = self.first(cursor)?;
        let selectors = self.selectors_of(cursor, &first)?;
        Ok(Primary { first, selectors })
    }

    /// The initializer of an element of an array (JLS 10.6).
    #[tactic(auto, unfolding(java_expr_reading::specs::Reading::Primaries::initializer))]
    fn initializer(&self, cursor: &mut Cursor<'_>) -> Result<Initializer, ExprFault>
        requires expr { ParsesBy (read_nest self.now.depth).expr self.now.depth (E.pre self.now.expr) (E.post self.now.expr) }
        requires braces { ParsesBy (read_nest self.now.depth).braces self.now.depth (B.pre self.now.braces) (B.post self.now.braces) }
        ensures { Gives (spec.initializer self.now.depth (read_nest self.now.depth) cursor.old) result cursor.new }
    {
        if cursor.shape().is_left_brace() {
            Ok(Initializer::Array(self.braces(cursor)?))
        } else {
            Ok(Initializer::Value(self.expr(cursor)?))
        }
    }

    #[tactic(auto, using(crate::proofs::Steps::more_some), unfolding(java_expr_reading::specs::Reading::Primaries::comma_initializer))]
    fn comma_initializer(&self, cursor: &mut Cursor<'_>) -> Result<Option<Initializer>, ExprFault>
        requires expr { ParsesBy (read_nest self.now.depth).expr self.now.depth (E.pre self.now.expr) (E.post self.now.expr) }
        requires braces { ParsesBy (read_nest self.now.depth).braces self.now.depth (B.pre self.now.braces) (B.post self.now.braces) }
        ensures { Gives (spec.comma_initializer self.now.depth (read_nest self.now.depth) cursor.old) result cursor.new }
    {
        if sees_more(cursor) {
            cursor.take();
            Ok(Some(self.initializer(cursor)?))
        } else {
            Ok(None)
        }
    }

    /// The elements of an array initializer, as many as there are.
    #[tactic(auto, unfolding(java_expr_reading::specs::Reading::Primaries::elements_of))]
    fn elements_of(&self, cursor: &mut Cursor<'_>) -> Result<Items<Initializer>, ExprFault>
        requires expr { ParsesBy (read_nest self.now.depth).expr self.now.depth (E.pre self.now.expr) (E.post self.now.expr) }
        requires braces { ParsesBy (read_nest self.now.depth).braces self.now.depth (B.pre self.now.braces) (B.post self.now.braces) }
        ensures { Gives (spec.elements_of self.now.depth (read_nest self.now.depth) cursor.old) result cursor.new }
    {
        if cursor.sees(Mark::RightBrace) || cursor.sees(Mark::Comma) {
            Ok(Items::new(self.alloc))
        } else {
            let first = self.initializer(cursor)?;
            let found = only(self.alloc, first)?;
            self.comma_initializers(cursor, found)
        }
    }

    /// An array initializer (JLS 10.6).
    #[tactic(auto, unfolding(java_expr_reading::specs::Reading::Primaries::braces_over))]
    pub(crate) fn braces_over(&self, cursor: &mut Cursor<'_>) -> Result<ArrayInitializer, ExprFault>
        requires expr { ParsesBy (read_nest self.now.depth).expr self.now.depth (E.pre self.now.expr) (E.post self.now.expr) }
        requires braces { ParsesBy (read_nest self.now.depth).braces self.now.depth (B.pre self.now.braces) (B.post self.now.braces) }
        ensures { Gives (spec.braces_over self.now.depth (read_nest self.now.depth) cursor.old) result cursor.new }
    {
        let brace = cursor.brace()?;
        let elements = self.elements_of(cursor)?;
        let comma = last_comma(cursor)?;
        cursor.expect(Mark::RightBrace)?;
        Ok(ArrayInitializer {
            brace,
            elements,
            comma,
        })
    }

    /// The expressions that follow, each after a comma, behind those that were found.
    fn comma_exprs(
        &self,
        cursor: &mut Cursor<'_>,
        mut found: Items<Expr>,
    ) -> Result<Items<Expr>, ExprFault>
        requires { ParsesBy (read_nest self.now.depth).expr self.now.depth (E.pre self.now.expr) (E.post self.now.expr) }
        ensures { Gives (many (spec.comma_expr self.now.depth (read_nest self.now.depth)) found cursor.old) result cursor.new }
    {
        for _turn in 0..cursor.turns() {
            match self.comma_expr(cursor)? {
                Some(item) => found.push(item)?,
                None => return Ok(found),
            }
        }
        Err(ExprFault::NoExpr)
    }

    /// The sizes that follow, behind those that were found.
    fn sizes(
        &self,
        cursor: &mut Cursor<'_>,
        mut found: Items<Expr>,
    ) -> Result<Items<Expr>, ExprFault>
        requires { ParsesBy (read_nest self.now.depth).expr self.now.depth (E.pre self.now.expr) (E.post self.now.expr) }
        ensures { Gives (many (spec.size self.now.depth (read_nest self.now.depth)) found cursor.old) result cursor.new }
    {
        for _turn in 0..cursor.turns() {
            match self.size(cursor)? {
                Some(item) => found.push(item)?,
                None => return Ok(found),
            }
        }
        Err(ExprFault::NoExpr)
    }

    /// The selectors that follow, behind those that were found.
    fn selectors(
        &self,
        cursor: &mut Cursor<'_>,
        mut found: Items<Selector>,
    ) -> Result<Items<Selector>, ExprFault>
        requires { ParsesBy (read_nest self.now.depth).expr self.now.depth (E.pre self.now.expr) (E.post self.now.expr) }
        ensures { Gives (many (spec.selector self.now.depth (read_nest self.now.depth)) found cursor.old) result cursor.new }
    {
        for _turn in 0..cursor.turns() {
            match self.selector(cursor)? {
                Some(item) => found.push(item)?,
                None => return Ok(found),
            }
        }
        Err(ExprFault::NoExpr)
    }

    /// The initializers that follow, each after a comma, behind those that were found.
    fn comma_initializers(
        &self,
        cursor: &mut Cursor<'_>,
        mut found: Items<Initializer>,
    ) -> Result<Items<Initializer>, ExprFault>
        requires expr { ParsesBy (read_nest self.now.depth).expr self.now.depth (E.pre self.now.expr) (E.post self.now.expr) }
        requires braces { ParsesBy (read_nest self.now.depth).braces self.now.depth (B.pre self.now.braces) (B.post self.now.braces) }
        ensures { Gives (many (spec.comma_initializer self.now.depth (read_nest self.now.depth)) found cursor.old) result cursor.new }
    {
        for _turn in 0..cursor.turns() {
            match self.comma_initializer(cursor)? {
                Some(item) => found.push(item)?,
                None => return Ok(found),
            }
        }
        Err(ExprFault::NoExpr)
    }
}
