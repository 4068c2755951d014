use java_tree::TypeId;

/// What brings types into scope around a place: a local class, or the body of a type (JLS 6.3, 14.3).
#[derive(Clone, Copy, Debug, PartialEq, Eq)]
pub enum TypeBound {
    LocalClass(TypeId),
    Body(TypeId),
}
