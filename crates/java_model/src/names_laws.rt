//! Laws of supertypes, members and overloads (JLS 8, 9, 15.12). A call of one tells its caller the law.
ghost use Rattle.java_model.specs.Names.Laws.{
  SubIsTransitive,
  SupertypesHaveNoCycle,
  InheritedTypesAreOfSupers,
  InheritedFieldsAreOfSupers,
  InheritedMethodsAreOfSupers,
  FieldsHaveTheirName,
  MethodsHaveTheirName,
  MemberTypesHaveTheirName,
  ResolvedTypesHaveTheirName,
  HeaderTypesHaveTheirName,
  OverriddenMethodsAreAlike,
  ChosenMethodFits,
};

/// A subtype of a subtype is a subtype.
pub fn sub_is_transitive()
    ensures { SubIsTransitive }
{}

/// No type is its own known supertype.
pub fn supertypes_have_no_cycle()
    ensures { SupertypesHaveNoCycle }
{}

/// A member type that is inherited is one of a direct supertype (JLS 8.5).
pub fn inherited_types_are_of_supers()
    ensures { InheritedTypesAreOfSupers }
{}

/// A field that is inherited is one of a direct supertype (JLS 8.3).
pub fn inherited_fields_are_of_supers()
    ensures { InheritedFieldsAreOfSupers }
{}

/// A method that is inherited is one of a direct supertype, or of Object in an interface (JLS 8.4.6, 9.2).
pub fn inherited_methods_are_of_supers()
    ensures { InheritedMethodsAreOfSupers }
{}

/// A field that is found by a name has that name.
pub fn fields_have_their_name()
    ensures { FieldsHaveTheirName }
{}

/// A method that is found by a name has that name.
pub fn methods_have_their_name()
    ensures { MethodsHaveTheirName }
{}

/// A member type that is found by a name has that name.
pub fn member_types_have_their_name()
    ensures { MemberTypesHaveTheirName }
{}

/// A type that a name means has the name's last identifier as its own name (JLS 6.5.5).
pub fn resolved_types_have_their_name()
    ensures { ResolvedTypesHaveTheirName }
{}

/// So has a type that a name in a header means (JLS 8.1.3, 8.1.4, 9.1.2).
pub fn header_types_have_their_name()
    ensures { HeaderTypesHaveTheirName }
{}

/// A method has the name and the number of parameters of each method that it overrides (JLS 8.4.6.1).
pub fn overridden_methods_are_alike()
    ensures { OverriddenMethodsAreAlike }
{}

/// The method that is chosen for a call is one of those given, and has a parameter for each argument (JLS 15.12.2).
pub fn chosen_method_fits()
    ensures { ChosenMethodFits }
{}
