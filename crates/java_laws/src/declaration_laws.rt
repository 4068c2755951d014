//! Laws of what declared names are bound to. A call of one tells its caller the law.
ghost use Rattle.java_laws.specs.Bindings.{BindingsAreThere, DeclarationsAreBound};
ghost use Rattle.java_laws.specs.Constructors.{ConstructorsAreOfTheirClass};
ghost use Rattle.java_laws.specs.Declarations.{FieldsAreBound, MethodsAreBound, ConstructorsAreBound};

use java_model::{chosen_method_fits, member_types_have_their_name};

/// A declared field is bound to a field of its type (JLS 8.3, 9.3).
pub fn fields_are_bound()
    ensures { FieldsAreBound }
{}

/// A declared method is bound to a method of its type (JLS 8.4, 9.4).
pub fn methods_are_bound()
    ensures { MethodsAreBound }
{}

/// A declared constructor is bound to a constructor of its class (JLS 8.8).
pub fn constructors_are_bound()
    ensures { ConstructorsAreBound }
{}

/// A reference to a constructor is bound to one of the class that it spells (JLS 8.8.5, 8.8.7, 15.9).
pub fn constructors_are_of_their_class()
    ensures { ConstructorsAreOfTheirClass }
{
    chosen_method_fits();
    member_types_have_their_name();
}

/// What an occurrence is bound to is in the environment.
pub fn bindings_are_there()
    ensures { BindingsAreThere }
{
    chosen_method_fits();
    member_types_have_their_name();
}

/// The occurrence of a declared name is bound.
pub fn declarations_are_bound()
    ensures { DeclarationsAreBound }
{
    chosen_method_fits();
    member_types_have_their_name();
}
