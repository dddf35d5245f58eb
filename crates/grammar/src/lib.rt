// Typed text. specs/ says how each sign is spelt, which trees the signs of a text are read as, and what a tree means; proofs/ that a
// text has at most one tree, and how a reader finds it. The code is a lexer.
#![tactic(auto)]

pub mod lexer;

// A sign that stands alone: `T`, `F`, `n12`.
#[derive(Clone, Copy)]
pub enum Leaf {
    True,
    False,
    Fact(u32),
}

// A sign that stands before its operand: `!`, and a counting pair, `>=2 r7` or `<=2 r7`, with grade and relation.
#[derive(Clone, Copy)]
pub enum Prefix {
    Not,
    AtLeast(u32, u32),
    AtMost(u32, u32),
}

// A sign that stands between its operands: `&`, `|`.
#[derive(Clone, Copy)]
pub enum Join {
    And,
    Or,
}

// A sign, or a round bracket.
#[derive(Clone, Copy)]
pub enum Sign {
    Alone(Leaf),
    Before(Prefix),
    Between(Join),
    Open,
    Close,
}
