use crate::occurrence::TypeId;
use crate::text::Text;
use crate::types::JType;

/// What a part of a unit brings into scope (JLS 6.3).
#[derive(Debug, Drop)]
pub enum Bound {
    /// A local variable or a parameter, with its type (JLS 8.4.1, 14.4).
    Variable(Text, JType),
    /// A local class (JLS 14.3).
    Class(TypeId),
    /// The members of a type (JLS 8.2, 9.2).
    Members(TypeId),
    /// No name: the arguments in the creation of this anonymous class, from which protected members
    /// can be reached as from its body (JLS 6.6.2).
    Arguments(TypeId),
}
