// The line that the mark sheet prints.
ghost use Rattle.std.specs.Prelude.{◌≡◌, Some, ◌<◌, ◌∷◌, [], ◌++◌, ◌+◌};
ghost use Rattle.arrayvec.specs.ArrayString.{array_string_len};
ghost use Rattle.sheet.specs.Line.{refused_text, filled_text, text_of};

use crate::Sheet;
use arrayvec::ArrayString;
use faults::{Fault, Numbered};
use std::fmt;

// The line for a sheet, or for why there is none.
#[derive(Clone, Copy)]
pub struct Line(pub Result<Sheet, Fault>);

// Puts a digit behind a text. A refusal may have any number, so more than 9 is taken too, as far as ASCII goes.
fn put_digit(text: &mut ArrayString<24>, digit: u8)
    requires { (digit < 80) × (array_string_len text.old < 24) }
    ensures { text.new.bytes ≡ text.old.bytes ++ ((48 + digit) ∷ []) }
{
    text.push(char::from(b'0' + digit));
}

fn refused(number: u8) -> ArrayString<24>
    ensures { result.bytes ≡ refused_text number }
{
    let mut text = ArrayString::new();
    text.push_str("refused ");
    if 10 <= number {
        put_digit(&mut text, number / 10);
    }
    put_digit(&mut text, number % 10);
    text.push_str("\n");
    text
}

fn filled(model: u8, answer: u8, mark: u8) -> ArrayString<24>
    requires { (model < 10) × (answer < 10) × (mark < 10) }
    ensures { result.bytes ≡ filled_text model answer mark }
{
    let mut line = ArrayString::new();
    line.push_str("model ");
    put_digit(&mut line, model);
    line.push_str(" answer ");
    put_digit(&mut line, answer);
    line.push_str(" mark ");
    put_digit(&mut line, mark);
    line.push_str("\n");
    line
}

// The line's text, whatever the sheet says: there is always one.
pub fn line_of(sheet: Result<Sheet, Fault>) -> ArrayString<24>
    ensures { result.bytes ≡ text_of sheet }
{
    match sheet {
        Ok(sheet) => filled(
            sheet.model.number(),
            sheet.answer.number(),
            sheet.mark.number(),
        ),
        Err(fault) => refused(fault.number()),
    }
}

impl fmt::Display for Line {
    ghost output = { λ line. Some (text_of line.0) };

    // All at once: what is written in pieces can mix with what others write.
    fn fmt<W: fmt::Write>(&self, f: &mut fmt::Formatter<W>) -> fmt::Result {
        f.write_str(line_of(self.0).as_str())
    }
}
