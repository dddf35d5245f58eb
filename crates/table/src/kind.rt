// The kinds of entries.
ghost use Rattle.std.specs.Prelude.{◌≡◌, ◌≤◌, IfSome, IfNone};
ghost use Rattle.table.specs.Kind.{kind_number};

// In the order of their numbers, from 0.
#[derive(Clone, Copy, Debug, PartialEq, Eq)]
pub enum Kind {
    True,
    False,
    Fact,
    Not,
    And,
    Or,
    AtLeast,
    AtMost,
}

impl Kind {
    // The kind that a packed entry names by a number, if there is one.
    pub fn of(number: u32) -> Option<Kind>
        ensures known { IfSome result (λ kind. number ≡ kind_number kind) }
        ensures unknown { IfNone result (8 ≤ number) }
    {
        match number {
            0 => Some(Kind::True),
            1 => Some(Kind::False),
            2 => Some(Kind::Fact),
            3 => Some(Kind::Not),
            4 => Some(Kind::And),
            5 => Some(Kind::Or),
            6 => Some(Kind::AtLeast),
            7 => Some(Kind::AtMost),
            _ => None,
        }
    }

    // Its number.
    pub fn number(self) -> u32
        ensures { result ≡ kind_number self }
    {
        self as u32
    }
}
