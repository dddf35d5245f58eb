// The words of work space that a decision needs: document 01's G and W.
ghost use Rattle.std.specs.Prelude.{◌≡◌, ◌<◌, ◌≤◌};
ghost use Rattle.table.specs.Entry.{entry_in, size};
ghost use Rattle.table.specs.Space.{weight, sum_of_grades, table_work};

use crate::entry;
use crate::entry::Entry;
use crate::kind::Kind;

// What an entry adds to G.
fn weight_of(e: Entry) -> usize
    requires { e.grade < 256 }
    ensures { result ≡ weight e }
{
    match Kind::of(e.kind) {
        Some(Kind::AtLeast | Kind::AtMost) => e.grade as usize + 1,
        Some(Kind::True | Kind::False | Kind::Fact | Kind::Not | Kind::And | Kind::Or) | None => 0,
    }
}

// G over the first n entries.
#[tactic(auto, unfolding(crate::specs::Space::sum_of_grades))]
fn grade_sum(table: &[u8], n: usize) -> usize
    requires { n ≤ 64 }
    ensures { result ≡ sum_of_grades (entry_in table.now) n }
{
    let mut sum: usize = 0;
    for i in 0..n {
        sum += weight_of(entry::entry_at(table, i));
    }
    sum
}

// W for a decision at this depth.
pub fn work_words(table: &[u8], depth: usize) -> usize
    requires { (size table.now ≤ 64) × (depth ≤ 63) }
    ensures { result ≡ table_work table.now depth }
{
    let n = table.len() / 4;
    let g = grade_sum(table, n);
    8 * (depth + 1) * (2 * n + g + 4)
}
