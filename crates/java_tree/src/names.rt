use crate::text::Text;
use crate::token::Span;
use sqlite_items::Items;

/// An identifier (JLS 3.8), and where it stands.
#[derive(Debug, Drop)]
pub struct Ident {
    pub name: Text,
    pub span: Span,
}

/// A name (JLS 6.2): its identifiers.
pub type Name = Items<Ident>;

/// A literal (JLS 3.10). A number, a character and a string keep their spelling.
#[derive(Debug, Drop)]
pub enum Literal {
    Int(Text),
    Long(Text),
    Float(Text),
    Double(Text),
    Char(Text),
    String(Text),
    True,
    False,
    Null,
}

/// A primitive type (JLS 4.2).
#[derive(Clone, Copy, Debug, PartialEq, Eq)]
pub enum Primitive {
    Boolean,
    Byte,
    Short,
    Char,
    Int,
    Long,
    Float,
    Double,
}

/// The type of which an array type is made (JLS 10.1), or which stands alone.
#[derive(Debug, Drop)]
pub enum ElementType {
    Primitive(Primitive),
    Named(Name),
}

/// A type as a program spells it (JLS 4.1): an element type and the number of `[]` behind it.
#[derive(Debug, Drop)]
pub struct TypeUse {
    pub element: ElementType,
    pub dims: u32,
}

/// A modifier (JLS 8.1.1, 8.3.1, 8.4.3), in alphabetical order.
#[derive(Clone, Copy, Debug, PartialEq, Eq)]
pub enum Modifier {
    Abstract,
    Final,
    Native,
    Private,
    Protected,
    Public,
    Static,
    StrictFp,
    Synchronized,
    Transient,
    Volatile,
}
