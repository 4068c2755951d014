//! Laws of places, of what names mean there, and of what they name, each as the contract of a function that does nothing.

ghost use Rattle.std.specs.Prelude.{◌≡◌, ℕ, List, Some, slice_get};
ghost use Rattle.java_tree.specs.declared.names.Ident.{Ident};
ghost use Rattle.java_tree.specs.declared.occurrence.Binding.TheVariants.{Field, Method};
ghost use Rattle.java_tree.specs.declared.occurrence.FieldId.{FieldId};
ghost use Rattle.java_tree.specs.declared.occurrence.MethodId.{MethodId};
ghost use Rattle.java_tree.specs.declared.bound.Bound.{Bound};
ghost use Rattle.java_tree.specs.declared.occurrence.Occurrence.{Occurrence};
ghost use Rattle.java_tree.specs.declared.types.DocPath.{DocPath};
ghost use Rattle.java_tree.specs.declared.types.JType.{JType};
ghost use Rattle.java_tree.specs.declared.types.NameKind.{NameKind};
ghost use Rattle.java_tree.specs.declared.unit.TypeDecl.{TypeDecl};
ghost use Rattle.java_tree.specs.declared.unit.Unit.{Unit as CompilationUnit};
ghost use Rattle.java_model.specs.Names.Lists.{Identifiers};
ghost use Rattle.std.specs.List.{AllByRecursion};
ghost use Rattle.std.specs.List.Sorted.{IsPermutation};
ghost use Rattle.java_model.specs.Bindings.Chains.{Types};
ghost use Rattle.java_model.specs.Places.{HaveValues, Name};
ghost use Rattle.java_model.specs.Scopes.Scoping.{Spot, inside};
ghost use Rattle.java_model.specs.Tree.Nodes.{Node};
ghost use Rattle.java_model.specs.Names.Environments.{Env};
ghost use Rattle.java_model.specs.Outlines.{IsOutline};
ghost use Rattle.java_model.specs.Scopes.Contexts.{Context, context_of};
ghost use Rattle.java_model.specs.Occurrences.Declarations.{field_declaration, method_declaration, constructor_declaration};
ghost use Rattle.java_model.specs.Occurrences.Laws.{FieldDeclared, IsCounted, IsNamed, MethodDeclared, TypeDeclared};
ghost use Rattle.java_model.specs.Occurrences.Occurrences.{Occurrences, java_rules, node_names, spot_at, MeansType, MeansKind, HasType};

/// A type name means one type at a place.
pub fn type_names_are_unique()
    ensures { (C : Context) (u : CompilationUnit) (place : List ℕ) (name : Identifiers) (s t : JType)
        → MeansType C u place name s → MeansType C u place name t → s ≡ t }
{}

/// An ambiguous name means one thing at a place.
pub fn kinds_are_unique()
    ensures { (C : Context) (u : CompilationUnit) (place : List ℕ) (name : Identifiers) (k l : NameKind)
        → MeansKind C u place name k → MeansKind C u place name l → k ≡ l }
{}

/// A place has one type and one list of occurrences.
pub fn types_are_unique()
    ensures typed { (C : Context) (u : CompilationUnit) (place : List ℕ) (s t : JType) (os ps : List Occurrence)
        → HasType C u place s os → HasType C u place t ps → s ≡ t }
    ensures named { (C : Context) (u : CompilationUnit) (place : List ℕ) (s t : JType) (os ps : List Occurrence)
        → HasType C u place s os → HasType C u place t ps → os ≡ ps }
{}

/// A list of places names one list of occurrences.
pub fn names_are_unique()
    ensures { (C : Context) (u : CompilationUnit) (places : List (List ℕ)) (os ps : List Occurrence)
        → Name (java_rules C) (spot_at C u) places os → Name (java_rules C) (spot_at C u) places ps
        → os ≡ ps }
{}

/// What a field's own occurrence is bound to has its name and stands where it is declared (JLS 8.3).
pub fn field_is_declared()
    ensures { (C : Context) (number : ℕ) (i : Ident) (f : FieldId) → (field_declaration C number i).binding ≡ Field f → FieldDeclared C.env i f }
{}

/// What a method's own occurrence is bound to has its name, its span and as many parameters (JLS 8.4).
pub fn method_is_declared()
    ensures { (C : Context) (number : ℕ) (i : Ident) (parameters : ℕ) (m : MethodId)
        → (method_declaration C number i parameters).binding ≡ Method m
        → MethodDeclared C.env i parameters m }
{}

/// What a constructor's own occurrence is bound to has its name, its span and as many parameters (JLS 8.8).
pub fn constructor_is_declared()
    ensures { (C : Context) (number : ℕ) (i : Ident) (parameters : ℕ) (m : MethodId)
        → (constructor_declaration C number i parameters).binding ≡ Method m
        → MethodDeclared C.env i parameters m }
{}

/// What a call is bound to has as many parameters as the call has arguments (JLS 15.12.2.1).
pub fn calls_are_counted()
    ensures { (C : Context) (x : Spot) (parts : List Types) → HaveValues (java_rules C) (inside C x) parts
        → AllByRecursion (IsCounted C.env) (node_names C x.scope x.node parts) }
{}

/// What a reference to a type, a field or a method is bound to has the simple name that is spelled there.
pub fn references_name_what_they_mean()
    ensures { (C : Context) (s : List Bound) (n : Node) (parts : List Types) → AllByRecursion (IsNamed C.env) (node_names C s n parts) }
{}

/// A type of a unit is declared in the environment under its number, with its simple name (JLS 8.1, 9.1).
pub fn type_is_declared()
    ensures { (env : Env) (path : DocPath) (u : CompilationUnit) (C : Context) (number : ℕ) (t : TypeDecl)
        → context_of env path u ≡ Some C → IsOutline u C.outline → slice_get u.types number ≡ Some t
        → TypeDeclared C number t }
{}

/// A unit has the same occurrences, however its places are gone to.
pub fn occurrences_are_alike()
    ensures { (C : Context) (u : CompilationUnit) (os us : List Occurrence) → Occurrences C u os → Occurrences C u us → IsPermutation os us }
{}
