//! Why the bytes of a script are refused.

/// Why a command, or a whole script, is refused.
#[derive(Clone, Copy, PartialEq, Eq, Debug)]
pub enum ScriptWhy {
    /// The bytes aren't a text of JSON.
    NotJson,
    /// It is of none of the forms.
    Shape,
    /// There is no such node.
    NoSuchNode,
    /// The graph has no such variable.
    UnknownVar,
    /// The variable isn't one that the word works on.
    WrongOp,
    /// The value is none that a set may hold, or a number is out of its range.
    ValueRefused,
    /// No such message was sent.
    NotSent,
    /// No earlier command makes the mark.
    UnknownMark,
    /// So many commands, marks, reads or variables stand before it that it has no room.
    TooMany,
    /// An earlier command makes the mark.
    MarkTaken,
    /// The declared name isn't of a name's shape.
    NameShape,
    /// An earlier declaration has the declared name.
    NameTaken,
    /// An input of the declared variable isn't the name of an earlier declaration.
    UnknownInput,
    /// An input of the declared variable isn't a set.
    WrongKind,
    /// The library has no such function.
    UnknownFunction,
    /// The values of the declared variable are too wide.
    TooWide,
}
