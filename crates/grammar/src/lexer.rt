// The next sign of a text.
ghost use Rattle.std.specs.Prelude.{◌≡◌, ◌||◌, ◌+◌, ◌<◌, ◌≤◌, ltb, length, get_or};
ghost use Rattle.grammar.specs.Lexed.{Skipped, RelationIs, PairIs, lead_of, counting_of, StandsIs, LexedIs};

use crate::{Join, Leaf, Prefix, Sign};
use numerals::number_at;
use packed::item_or;

// The largest number that a table's entry has room for.
const MAX_NUMBER: u32 = 255;

// A sign that was read: the place behind it, and whether it has a number over 255.
#[derive(Clone, Copy)]
pub struct Found {
    pub sign: Sign,
    pub next: usize,
    pub over: bool,
}

// What stands at a place behind spaces: a sign, the text's end, or what begins no sign.
#[derive(Clone, Copy)]
pub enum Lexed {
    Found(Found),
    End,
    Bad,
}

// A counting pair's grade and relation, with the place behind them.
#[derive(Clone, Copy)]
pub struct Pair {
    pub grade: u32,
    pub relation: u32,
    pub end: usize,
}

impl Pair {
    // Whether one of its numbers is over 255.
    fn is_over(self) -> bool
        ensures { result ≡ ltb 255 self.grade || ltb 255 self.relation }
    {
        MAX_NUMBER < self.grade || MAX_NUMBER < self.relation
    }
}

// The first place from `from` on that has no space.
#[tactic(auto, using(crate::proofs::Text::another_space))]
fn skip(text: &[u8], from: usize) -> usize
    requires { from ≤ length text.now }
    ensures { Skipped text.now from result }
{
    let mut at = from;
    while item_or(text, at, 0) == b' ' {
        at += 1;
    }
    at
}

// The relation of a pair whose grade has been read.
fn relation_at(text: &[u8], grade: u32, at: usize) -> Option<Pair>
    requires { at ≤ length text.now }
    ensures { RelationIs text.now at grade result }
{
    if item_or(text, at, 0) != b'r' {
        return None;
    }
    let relation = number_at(text, at + 1, MAX_NUMBER)?;
    Some(Pair {
        grade,
        relation: relation.value,
        end: relation.end,
    })
}

// The counting pair whose first byte, `>` or `<`, stands at a place.
#[tactic(auto, using(crate::proofs::Text::pair))]
fn pair_at(text: &[u8], at: usize) -> Option<Pair>
    requires { at < length text.now }
    ensures { PairIs text.now at result }
{
    if item_or(text, at + 1, 0) != b'=' {
        return None;
    }
    let grade = number_at(text, at + 2, MAX_NUMBER)?;
    relation_at(text, grade.value, skip(text, grade.end))
}

// The fact whose `n` stands at a place.
#[tactic(auto, using(crate::proofs::Text::fact))]
fn fact_at(text: &[u8], at: usize) -> Lexed
    requires { (at < length text.now) × (get_or text.now at 0 ≡ 110) }
    ensures { StandsIs text.now at result }
{
    let Some(name) = number_at(text, at + 1, MAX_NUMBER) else {
        return Lexed::Bad;
    };
    Lexed::Found(Found {
        sign: Sign::Alone(Leaf::Fact(name.value)),
        next: name.end,
        over: MAX_NUMBER < name.value,
    })
}

// The prefix of a counting pair, "at least" or "at most".
fn counting(least: bool, grade: u32, relation: u32) -> Prefix
    ensures { result ≡ counting_of least grade relation }
{
    if least {
        Prefix::AtLeast(grade, relation)
    } else {
        Prefix::AtMost(grade, relation)
    }
}

// The counting pair whose `>` or `<` stands at a place.
fn counted_at(text: &[u8], at: usize, least: bool) -> Lexed
    requires { (at < length text.now) × (get_or text.now at 0 ≡ lead_of least) }
    ensures { StandsIs text.now at result }
{
    let Some(pair) = pair_at(text, at) else {
        return Lexed::Bad;
    };
    Lexed::Found(Found {
        sign: Sign::Before(counting(least, pair.grade, pair.relation)),
        next: pair.end,
        over: pair.is_over(),
    })
}

// The sign at a place that has no space.
fn stands_at(text: &[u8], at: usize) -> Lexed
    requires { at < length text.now }
    ensures { StandsIs text.now at result }
{
    let b = item_or(text, at, 0);
    let sign = match b {
        b'T' => Sign::Alone(Leaf::True),
        b'F' => Sign::Alone(Leaf::False),
        b'!' => Sign::Before(Prefix::Not),
        b'&' => Sign::Between(Join::And),
        b'|' => Sign::Between(Join::Or),
        b'(' => Sign::Open,
        b')' => Sign::Close,
        b'n' => return fact_at(text, at),
        // One call for both: then it is compiled into this function, and no sign is handed on in memory.
        b'>' | b'<' => return counted_at(text, at, b == b'>'),
        _ => return Lexed::Bad,
    };
    Lexed::Found(Found {
        sign,
        next: at + 1,
        over: false,
    })
}

// The sign at a place from `from` on, behind spaces.
#[tactic(auto, using(crate::proofs::Text::to_end, crate::proofs::Text::ended, crate::proofs::Text::lexed))]
pub fn sign_at(text: &[u8], from: usize) -> Lexed
    requires { from ≤ length text.now }
    ensures { LexedIs text.now from result }
{
    let at = skip(text, from);
    if text.len() <= at {
        return Lexed::End;
    }
    stands_at(text, at)
}
