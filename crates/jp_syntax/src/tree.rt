//! The syntax tree of a query (RFC 9535, sections 2.1 to 2.4).

/// A step from nodes to nodes (RFC 9535, section 2.5).
#[cycle(query)]
#[derive(Drop)]
pub enum Segment {
    /// To children.
    Child(Vec<Selector>),
    /// To the node and all below it, and from each of them to children.
    Descendant(Vec<Selector>),
}

/// Which children are selected (RFC 9535, section 2.3).
#[cycle(query)]
#[derive(Drop)]
pub enum Selector {
    /// The member of this name.
    Name(String),
    /// Every child.
    Wildcard,
    /// The element at this index, from 0, or, below 0, counted from the end.
    Index(i64),
    /// The elements from an index on, up to another, at a stride.
    Slice {
        first: Option<i64>,
        last: Option<i64>,
        step: Option<i64>,
    },
    /// The children for which the expression is true.
    Filter(Box<Logical>),
}

/// An expression that is true or false of a node (RFC 9535, section 2.3.5).
#[cycle(query)]
#[derive(Drop)]
pub enum Logical {
    /// One of the parts is true; there are at least two.
    Or(Vec<Logical>),
    /// All of the parts are true; there are at least two.
    And(Vec<Logical>),
    /// It is not true.
    Not(Box<Logical>),
    /// The two sides compare so.
    Compare {
        left: Comparable,
        op: CompareOp,
        right: Comparable,
    },
    /// The query selects a node.
    Exists(Path),
    /// The function answers true, or some nodes.
    Test(Call),
}

/// A side of a comparison (RFC 9535, section 2.3.5.1).
#[cycle(query)]
#[derive(Drop)]
pub enum Comparable {
    Constant(Literal),
    /// A singular query, which selects at most one node.
    Single(Path),
    Result(Call),
}

/// An argument of a function (RFC 9535, section 2.4).
#[cycle(query)]
#[derive(Drop)]
pub enum Argument {
    Constant(Literal),
    Nodes(Path),
    Condition(Box<Logical>),
    Result(Call),
}

/// A query within a filter (RFC 9535, section 2.3.5.1).
#[cycle(query)]
#[derive(Drop)]
pub struct Path {
    pub origin: Origin,
    pub segments: Vec<Segment>,
}

/// A call of a function (RFC 9535, section 2.4).
#[cycle(query)]
#[derive(Drop)]
pub struct Call {
    pub name: String,
    pub arguments: Vec<Argument>,
}

/// Where a query within a filter begins (RFC 9535, section 2.3.5.1).
#[derive(Clone, Copy, Debug, PartialEq, Eq)]
pub enum Origin {
    /// `$`, the root of the line.
    Root,
    /// `@`, the node that is filtered.
    Current,
}

/// A value that is written in the query (RFC 9535, section 2.3.5.1).
#[derive(Drop)]
pub enum Literal {
    Null,
    False,
    True,
    /// The bytes that spell the number.
    Number(Vec<u8>),
    /// The scalars that the quoted text spells.
    Text(String),
}

/// An operator of a comparison (RFC 9535, section 2.3.5.1).
#[derive(Clone, Copy, Debug, PartialEq, Eq)]
pub enum CompareOp {
    Equal,
    NotEqual,
    Less,
    LessEqual,
    Greater,
    GreaterEqual,
}
