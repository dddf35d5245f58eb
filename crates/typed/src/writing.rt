// The entries of a text that has a tree, written to a table: operands before their sign, left before right.
ghost use Rattle.std.specs.Prelude.{◌≡◌, ◌+◌, ◌≤◌, length};
ghost use Rattle.table.specs.Kind.{kind_number};
ghost use Rattle.grammar.specs.declared.Sign.{Sign};
ghost use Rattle.typed.specs.Held.{entry_of_leaf, entry_of_prefix, entry_of_join};
ghost use Rattle.typed.specs.Steps.{Ready, Took, Goes};
ghost use Rattle.typed.specs.Writing.{Writable, WrittenFor};

use crate::pending::{Writer, rank_of};
use grammar::lexer::{Found, Lexed, sign_at};
use grammar::{Join, Leaf, Prefix, Sign};
use table::entry;
use table::entry::Entry;
use table::kind::Kind;

// The entry of `T`, `F` or a fact.
fn leaf_entry(leaf: Leaf) -> Entry
    ensures { result ≡ entry_of_leaf leaf }
{
    match leaf {
        Leaf::True => new_entry(Kind::True, 0, 0, 0),
        Leaf::False => new_entry(Kind::False, 0, 0, 0),
        Leaf::Fact(name) => new_entry(Kind::Fact, name, 0, 0),
    }
}

// The entry of a prefix, which waits for its operand.
fn prefix_entry(prefix: Prefix) -> Entry
    ensures { result ≡ entry_of_prefix prefix 0 }
{
    match prefix {
        Prefix::Not => new_entry(Kind::Not, 0, 0, 0),
        Prefix::AtLeast(grade, relation) => new_entry(Kind::AtLeast, relation, 0, grade),
        Prefix::AtMost(grade, relation) => new_entry(Kind::AtMost, relation, 0, grade),
    }
}

// The entry of `&` or `|`, which waits for its second operand.
fn join_entry(join: Join, first: u32) -> Entry
    ensures { result ≡ entry_of_join join first 0 }
{
    match join {
        Join::And => new_entry(Kind::And, 0, first, 0),
        Join::Or => new_entry(Kind::Or, 0, first, 0),
    }
}

// An entry without a second operand.
fn new_entry(kind: Kind, name: u32, first: u32, grade: u32) -> Entry
    ensures { result ≡ record { kind = kind_number kind; name = name; first = first; second = 0; grade = grade } }
{
    Entry {
        kind: kind.number(),
        name,
        first,
        second: 0,
        grade,
    }
}

impl Writer {
    // `T`, `F` or a fact is written, and prefixes before it take it.
    fn take_leaf(&mut self, table: &mut [u8], leaf: Leaf)
        requires { Ready (Sign.Alone leaf) table.old self.old }
        ensures { Took (Sign.Alone leaf) table.old table.new self.old self.new }
    {
        self.put(table, leaf_entry(leaf));
        self.settle(table, 2);
    }

    // Signs before `&` or `|` that bind at least as closely take their operands, and the sign waits with what they come to.
    fn take_join(&mut self, table: &mut [u8], join: Join)
        requires { Ready (Sign.Between join) table.old self.old × (1 ≤ self.old.entries) }
        ensures { Took (Sign.Between join) table.old table.new self.old self.new }
    {
        self.settle(table, rank_of(join_entry(join, 0).kind));
        let first = (self.entries - 1) as u32;
        self.push(join_entry(join, first));
    }

    // Signs inside a bracket take their operands, and prefixes before the bracket take what they come to.
    fn take_close(&mut self, table: &mut [u8])
        requires { Ready Sign.Close table.old self.old × (1 ≤ self.old.entries) × (1 ≤ self.old.depth) }
        ensures { Took Sign.Close table.old table.new self.old self.new }
    {
        self.settle(table, 0);
        self.depth -= 1;
        self.settle(table, 2);
    }

    // One sign more.
    pub fn take(&mut self, table: &mut [u8], sign: Sign)
        requires { Ready sign table.old self.old × Goes sign table.old self.old }
        ensures { Took sign table.old table.new self.old self.new }
    {
        match sign {
            Sign::Alone(leaf) => self.take_leaf(table, leaf),
            Sign::Before(prefix) => self.push(prefix_entry(prefix)),
            Sign::Between(join) => self.take_join(table, join),
            Sign::Open => self.depth += 1,
            Sign::Close => self.take_close(table),
        }
    }
}

// Writes the entries of a text that has a tree. At most 64 signs wait at a time, since each of them makes an entry.
pub fn write(text: &[u8], table: &mut [u8])
    requires { Writable text.now table.old }
    ensures { WrittenFor text.now table.old table.new }
{
    let mut writer = Writer::new();
    let mut at = 0;
    while let Lexed::Found(Found { sign, next, .. }) = sign_at(text, at) {
        writer.take(table, sign);
        at = next;
    }
    writer.settle(table, 0);
}
