//! Why the bytes of a graph are refused.

/// Why a declaration, or a whole graph, is refused.
#[derive(Clone, Copy, PartialEq, Eq, Debug)]
pub enum GraphWhy {
    /// The bytes aren't a text of JSON.
    NotJson,
    /// It is of none of the forms.
    Shape,
    /// The name isn't of a name's shape.
    NameShape,
    /// An earlier declaration has the name.
    NameTaken,
    /// An input isn't the name of an earlier declaration.
    UnknownInput,
    /// An input isn't a set.
    WrongKind,
    /// The library has no such function.
    UnknownFunction,
    /// Its values are too wide.
    TooWide,
    /// So many declarations stand before it that it has no room.
    TooMany,
}
