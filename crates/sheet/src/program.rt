// The mark sheet as a program: reads the standard input and prints one line. What it reads and prints is proved of every
// reader and writer whose bytes a contract can name. Of the standard input and output none can: programs compare what is
// printed.
ghost use Rattle.std.specs.Prelude.{◌≡◌, ◌≤◌, length, take, IfOk, OnOk, IfSome};
ghost use Rattle.std.specs.Io.KnownBytes.{Appends};
ghost use Rattle.sheet.specs.Line.{text_of};
ghost use Rattle.sheet.specs.Program.{Prints};

use crate::text::{Line, line_of};
use std::io;
use std::io::{Read, Write};

// Reads into the room and says how many bytes: the input's first, as many as the room takes.
fn read<R: Read>(input: &mut R, room: &mut [u8]) -> io::Result<usize>
    ensures within { IfOk result (λ n. n ≤ length room.new) }
    ensures bytes { IfOk result (λ n. IfSome (R.remaining input.old) (λ xs. take n room.new ≡ take (length room.new) xs)) }
{
    let mut n = 0;
    while n < room.len() {
        let more = input.read(&mut room[n..])?;
        if more == 0 {
            break;
        }
        n += more;
    }
    Ok(n)
}

// The line for an input, which is 259 bytes at the most: one byte more tells a longer one, which is refused.
pub fn line_for<R: Read>(input: &mut R) -> io::Result<Line>
    ensures { IfOk result (λ line. Prints (R.remaining input.old) line) }
{
    let mut room = [0u8; 260];
    let length = read(input, &mut room)?;
    Ok(Line(crate::sheet_of(&room[..length])))
}

// Prints the bytes.
pub fn print<W: Write>(output: &mut W, bytes: &[u8]) -> io::Result<()>
    ensures { OnOk result (Appends (W.contents output.old) (W.contents output.new) bytes.now) }
{
    output.write_all(bytes)
}

// Prints the line, all of it at once, so that the lines of several sheets in one file do not mix.
pub fn print_line<W: Write>(output: &mut W, line: Line) -> io::Result<()>
    ensures { OnOk result (Appends (W.contents output.old) (W.contents output.new) (text_of line.0)) }
{
    print(output, line_of(line.0).as_bytes())
}

// What fails is said on the standard error.
pub fn run(rt: &(impl Input + Print + Eprint)) -> io::Result<()> {
    let line = match line_for(&mut rt.reader()) {
        Ok(line) => line,
        Err(e) => {
            eprintln!(rt; "the input cannot be read")?;
            return Err(e);
        }
    };
    let printed = print_line(&mut io::writer(rt), line);
    if printed.is_err() {
        eprintln!(rt; "the line cannot be printed")?;
    }
    printed
}
