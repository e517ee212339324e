//! What can be wrong with a text whose tokens follow the grammar.

/// Why a name is refused. Where several reasons hold, the first of these is given.
#[derive(Clone, Copy, Debug)]
pub enum NameWhy {
    /// Nothing visible has the name.
    Unknown,
    /// It is declared while a thing of that name is visible, or given a range by a second line.
    Twice,
    /// C or the prelude keeps the name for itself.
    Reserved,
    /// A store to an input.
    Const,
    /// A thing of another kind, another number of subscripts, or a second or third word of a `for` that is visible and
    /// isn't its iterator.
    Kind,
    /// A number parameter without a line that gives its range.
    NoRange,
}

/// A limit that a text passes. Where several are passed at one place, the first of these is given.
#[derive(Clone, Copy, Debug)]
pub enum LimitName {
    Size,
    Tokens,
    Run,
    Depth,
    Items,
    Parameters,
    Range,
    Loops,
    Statements,
    Empty,
    Accesses,
    Dimensions,
    Comparisons,
    Literal,
    Coefficient,
    Pieces,
}
