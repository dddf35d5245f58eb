// How many cases were run, and how many came out as expected.
use std::io;
use std::io::Stdout;

// `case` is the number of the last case run. Each subject counts from a thousand of its own, so that the number says
// where the case stands. What came out differently is reported to `out`.
#[derive(Clone, Copy)]
pub struct Tally {
    out: Stdout,
    case: u32,
    run: u32,
    right: u32,
}

impl Tally {
    pub fn new(out: Stdout) -> Tally {
        Tally {
            out,
            case: 0,
            run: 0,
            right: 0,
        }
    }

    // Opens a subject with its thousand.
    pub fn subject(self, thousand: u32) -> Tally {
        Tally {
            case: thousand,
            ..self
        }
    }

    // Opens the report of the next case with the word that came out differently.
    pub fn word(self, i: usize) {
        let _ = print!(self.out; "word {i}, ");
    }

    // Counts a case, and reports it if it came out differently: a report that cannot be printed leaves the count of the
    // last line. The counts stay far below where they would wrap.
    pub fn case(self, got: u64, expected: u64) -> Tally {
        let case = self.case.wrapping_add(1);
        let is_right = got == expected;
        if !is_right {
            let _ = println!(self.out; "case {case}: got {got}, expected {expected}");
        }
        Tally {
            out: self.out,
            case,
            run: self.run.wrapping_add(1),
            right: self.right.wrapping_add(u32::from(is_right)),
        }
    }

    // The last line, which opens with the program's name.
    pub fn print(self, name: &str) -> io::Result<()> {
        let right = self.right;
        let run = self.run;
        println!(self.out; "{name}: {right} of {run} as expected")
    }
}
