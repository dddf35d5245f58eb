// Signs that wait for an operand while the entries of a text are written.
ghost use Rattle.std.specs.Prelude.{◌≡◌, ◌+◌, ◌*◌, ◌<◌, ◌≤◌, length};
ghost use Rattle.table.specs.Entry.{Packable, PutEntry};
ghost use Rattle.typed.specs.Held.{rank_of};
ghost use Rattle.typed.specs.Steps.{Blank, takes_now, closed_entry, Pushed, Room, Closed, Settled};

use table::entry;
use table::entry::Entry;
use table::kind::Kind;

// A sign that waits for an operand: its packed entry, and how many brackets are open where it stands.
#[derive(Clone, Copy)]
pub struct Waiting {
    pub word: u32,
    pub depth: u32,
}

// What a writer holds: how many entries are written, the signs that wait for an operand, how many these are, and how many brackets are
// open. For a table 64 signs are the most that wait; there is a place for one behind them.
#[derive(Clone, Copy)]
pub struct Writer {
    pub entries: usize,
    pub stack: [Waiting; 65],
    pub pending: usize,
    pub depth: u32,
}

// How closely the sign of an entry binds: 0 for `|`, 1 for `&`, 2 for the prefixes.
pub fn rank_of(kind: u32) -> u32
    ensures { result ≡ rank_of kind }
{
    match Kind::of(kind) {
        Some(Kind::And) => 1,
        Some(Kind::Or) => 0,
        Some(Kind::True | Kind::False | Kind::Fact | Kind::Not | Kind::AtLeast | Kind::AtMost)
        | None => 2,
    }
}

// A waiting entry with its last operand: the second of `&` and `|`, the first of a prefix.
fn with_operand(e: Entry, last: u32) -> Entry
    ensures { result ≡ closed_entry e last }
{
    match Kind::of(e.kind) {
        Some(Kind::And | Kind::Or) => Entry { second: last, ..e },
        Some(Kind::True | Kind::False | Kind::Fact | Kind::Not | Kind::AtLeast | Kind::AtMost)
        | None => Entry { first: last, ..e },
    }
}

impl Writer {
    // Nothing is written yet.
    pub fn new() -> Writer
        ensures { Blank result }
    {
        Writer {
            entries: 0,
            stack: [Waiting { word: 0, depth: 0 }; 65],
            pending: 0,
            depth: 0,
        }
    }

    // Whether the last waiting sign takes an operand now: it stands at this depth, and binds at least as closely as `rank`.
    fn takes(&self, rank: u32) -> bool
        requires { self.now.pending ≤ 64 }
        ensures { result ≡ takes_now self.now.stack self.now.pending self.now.depth rank }
    {
        if self.pending == 0 {
            return false;
        }
        let last = self.stack[self.pending - 1];
        last.depth == self.depth && rank <= rank_of(Entry::unpack(last.word).kind)
    }

    // One more sign waits.
    pub fn push(&mut self, e: Entry)
        requires { Packable e × (self.old.pending ≤ 64) }
        ensures { Pushed e self.old self.new }
    {
        self.stack[self.pending] = Waiting {
            word: e.pack(),
            depth: self.depth,
        };
        self.pending += 1;
    }

    // An entry is written behind the others.
    pub fn put(&mut self, table: &mut [u8], e: Entry)
        requires { Packable e × (self.old.entries < 64) × (4 * self.old.entries + 4 ≤ length table.old) }
        ensures put { PutEntry self.old.entries e table.old table.new }
        ensures is { self.new ≡ record { entries = self.old.entries + 1; stack = self.old.stack; pending = self.old.pending; depth = self.old.depth } }
    {
        entry::put(table, self.entries, e);
        self.entries += 1;
    }

    // The last waiting sign takes its operand, the last entry: its own entry is written.
    fn close(&mut self, table: &mut [u8])
        requires { Room table.old self.old × (1 ≤ self.old.pending) × (1 ≤ self.old.entries) }
        ensures { Closed table.old table.new self.old self.new }
    {
        self.pending -= 1;
        let last = (self.entries - 1) as u32;
        self.put(
            table,
            with_operand(Entry::unpack(self.stack[self.pending].word), last),
        );
    }

    // The waiting signs of this depth that bind at least as closely as `rank` take their operands.
    pub fn settle(&mut self, table: &mut [u8], rank: u32)
        requires { Room table.old self.old × (1 ≤ self.old.entries) × (rank ≤ 2) }
        ensures { Settled rank table.old table.new self.old self.new }
    {
        while self.takes(rank) {
            self.close(table);
        }
    }
}
