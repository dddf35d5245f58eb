// Whether a text has a tree, and what is counted in it: one pass over the signs, with the open brackets as a number, so that a text of any
// length is decided and nothing is as deep as the text.
#![tactic(auto)]

ghost use Rattle.std.specs.Prelude.{◌≡◌};
ghost use Rattle.grammar.specs.declared.Sign.{Sign};
ghost use Rattle.grammar.specs.Measure.{weight};
ghost use Rattle.survey.specs.Survey.{Shallow, operand_step, operator_step, stepped, finished, SurveyIs};

use grammar::Sign;
use grammar::lexer::{Found, Lexed, sign_at};

// Whether an operand comes next, and how many brackets are open.
#[derive(Clone, Copy)]
pub struct Mode {
    pub operand: bool,
    pub depth: usize,
}

// What is counted in a text that has a tree: how many entries it makes, and whether one of its numbers is over 255.
#[derive(Clone, Copy)]
pub struct Counted {
    pub entries: usize,
    pub over: bool,
}

// How many entries a sign makes.
fn entries_of(sign: Sign) -> usize
    ensures { result ≡ weight sign }
{
    match sign {
        Sign::Alone(_) | Sign::Before(_) | Sign::Between(_) => 1,
        Sign::Open | Sign::Close => 0,
    }
}

// Where a sign leads that comes where an operand is expected: on, or out of the grammar.
fn at_operand(depth: usize, sign: Sign) -> Option<Mode>
    requires { Shallow depth }
    ensures { result ≡ operand_step depth sign }
{
    match sign {
        Sign::Alone(_) => Some(Mode {
            operand: false,
            depth,
        }),
        Sign::Before(_) => Some(Mode {
            operand: true,
            depth,
        }),
        Sign::Open => Some(Mode {
            operand: true,
            depth: depth + 1,
        }),
        Sign::Between(_) | Sign::Close => None,
    }
}

// Where a sign leads that comes behind an operand.
fn at_operator(depth: usize, sign: Sign) -> Option<Mode>
    ensures { result ≡ operator_step depth sign }
{
    match sign {
        Sign::Between(_) => Some(Mode {
            operand: true,
            depth,
        }),
        Sign::Close if depth != 0 => Some(Mode {
            operand: false,
            depth: depth - 1,
        }),
        Sign::Alone(_) | Sign::Before(_) | Sign::Open | Sign::Close => None,
    }
}

impl Mode {
    // Where a sign leads from here.
    fn step(self, sign: Sign) -> Option<Mode>
        requires { Shallow self.depth }
        ensures { result ≡ stepped self sign }
    {
        if self.operand {
            at_operand(self.depth, sign)
        } else {
            at_operator(self.depth, sign)
        }
    }
}

// What is counted in the text where no sign follows: it has a tree if its end is reached behind an operand, with no bracket open.
fn finish(lexed: Lexed, mode: Mode, counted: Counted) -> Option<Counted>
    ensures { result ≡ finished lexed mode counted }
{
    match lexed {
        Lexed::End if !mode.operand && mode.depth == 0 => Some(counted),
        Lexed::End | Lexed::Found(_) | Lexed::Bad => None,
    }
}

// What is counted in a text, if it has a tree.
pub fn survey(text: &[u8]) -> Option<Counted>
    ensures { SurveyIs text.now result }
{
    let mut at = 0;
    let mut mode = Mode {
        operand: true,
        depth: 0,
    };
    let mut counted = Counted {
        entries: 0,
        over: false,
    };
    loop {
        let lexed = sign_at(text, at);
        let Lexed::Found(Found { sign, next, over }) = lexed else {
            return finish(lexed, mode, counted);
        };
        mode = mode.step(sign)?;
        counted.entries += entries_of(sign);
        counted.over |= over;
        at = next;
    }
}
