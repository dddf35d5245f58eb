// Faults: which written limit an input breaks, and the number that a refused call returns for it.
// Document 01, "Numbers by who can cause them".
#![tactic(auto)]

ghost use Rattle.std.specs.Prelude.{◌≡◌, ◌<◌, ℕ};
ghost use Rattle.faults.specs.Verdict.{number_of, yes_or_no, answer_number, FirstOf};

// One case for each number of document 01, in its order, and of document 02 from 11 on. 5 is no fault's number: document 02, P4,
// took it out. 13 to 15 wait for their requests.
#[derive(Clone, Copy, Debug, PartialEq, Eq)]
pub enum Fault {
    TableLength = 1,
    Kind = 2,
    UnusedField = 3,
    Reference = 4,
    StructureLength = 6,
    Record = 7,
    World = 8,
    EntryNumber = 9,
    Space = 10,
    TextGrammar = 11,
    TextLimit = 12,
    Draft = 16,
}

// What a check answers: the input is within the limits, or the first fault in document 01's order.
pub type Verdict = Result<(), Fault>;

// Makes n checks in order, up to the first that finds a fault.
pub fn first_fault<F: Fn(usize) -> Verdict>(n: usize, check: F) -> Verdict
    requires { (i : ℕ) → i < n → F.pre check i }
    ensures { FirstOf (F.post check) n result }
{
    for i in 0..n {
        check(i)?;
    }
    Ok(())
}

// What a call answers with: the documents give each case of it a number.
pub trait Numbered {
    ghost number_of: { Self → ℕ };

    // The number of the case.
    fn number(self) -> u8
        ensures { result ≡ number_of self };
}

impl Numbered for Fault {
    ghost number_of = { number_of };

    fn number(self) -> u8 {
        self as u8
    }
}

// A check that finds no fault has nothing more to say.
impl Numbered for () {
    ghost number_of = { λ _. 0 };

    fn number(self) -> u8 {
        0
    }
}

impl Numbered for bool {
    ghost number_of = { yes_or_no };

    fn number(self) -> u8 {
        u8::from(self)
    }
}

// The number of the answer, or of the fault of a refusal.
impl<T: Numbered> Numbered for Result<T, Fault> {
    ghost number_of = { answer_number T.number_of };

    fn number(self) -> u8 {
        match self {
            Ok(answer) => answer.number(),
            Err(fault) => fault.number(),
        }
    }
}
