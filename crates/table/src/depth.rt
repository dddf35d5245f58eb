// Depths of a table's entries.
ghost use Rattle.std.specs.Prelude.{◌≡◌, ◌≤◌};
ghost use Rattle.table.specs.Entry.{entry_in};
ghost use Rattle.table.specs.Formed.{WellFormed};
ghost use Rattle.table.specs.Formulas.{depth_of, Depths};

use crate::entry;
use crate::kind::Kind;

// The depth of an entry of a kind, given those of its first and second part.
fn depth_of(first: u64, second: u64, kind: u32) -> u64
    requires { first ≤ 64 }
    ensures { result ≡ depth_of first second kind }
{
    match Kind::of(kind) {
        Some(Kind::Not) => first,
        Some(Kind::And | Kind::Or) => first.max(second),
        Some(Kind::AtLeast | Kind::AtMost) => first + 1,
        Some(Kind::True | Kind::False | Kind::Fact) | None => 0,
    }
}

// The depth of each of the first n entries, and 0 behind them.
pub fn depths(table: &[u8], n: usize) -> [u64; 64]
    requires { (n ≤ 64) × WellFormed (entry_in table.now) n }
    ensures { Depths (entry_in table.now) n result }
{
    let mut depth = [0u64; 64];
    for i in 0..n {
        let e = entry::entry_at(table, i);
        depth[i] = depth_of(depth[e.first as usize], depth[e.second as usize], e.kind);
    }
    depth
}
