// The counting entries that are wanted, and the question that one of them asks about its relation.
ghost use Rattle.std.specs.Prelude.{◌≡◌, ◌<◌, length};
ghost use Rattle.sets.specs.Set.{member};
ghost use Rattle.tableau.specs.Wants.{added_if};
ghost use Rattle.wide.specs.Wide.{wide_in};
ghost use Rattle.promises.specs.Relation.{counting, Bounded, QuestionOf};

use counting::question::{Question, asks};
use sets::Set;
use table::entry::Entry;
use wants::{Wants, with_if};
use wide::wide_at;

// The question of the relation that an entry counts.
fn question(e: Entry, w: Wants) -> Question
    ensures { QuestionOf e w result }
{
    Question {
        yes: w.yes,
        no: w.no,
        relation: e.name,
    }
}

// The question that entry i asks about its relation.
pub fn question_of(entries: &[u64], w: Wants, i: usize) -> Question
    ensures { QuestionOf (wide_in entries.now i) w result }
{
    question(wide_at(entries, i), w)
}

// The set with entry i, if that is a need or a limit.
fn with_counting(found: Set, e: Entry, w: Wants, i: usize) -> Set
    requires { i < 64 }
    ensures { member result ≡ added_if (counting w e i) (member found) i }
{
    let q = question(e, w);
    with_if(found, i, asks(e, q, i, true) || asks(e, q, i, false))
}

// All the needs and limits, of every relation.
pub fn counted(entries: &[u64], w: Wants) -> Set
    requires { Bounded (length entries.now) w }
    ensures { member result ≡ (λ i. counting w (wide_in entries.now i) i) }
{
    let mut found = Set::empty();
    for i in 0..entries.len() {
        found = with_counting(found, wide_at(entries, i), w, i);
    }
    found
}
