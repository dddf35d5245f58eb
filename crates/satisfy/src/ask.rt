// The question through two sets of entries: one wanted true, one wanted false.
ghost use Rattle.std.specs.Prelude.{length};
ghost use Rattle.sets.specs.Set.{member};
ghost use Rattle.wide.specs.Wide.{wide_in};
ghost use Rattle.semantics.specs.Answer.{Answers};
ghost use Rattle.tableau.specs.Wants.{Sat};
ghost use Rattle.cases.specs.Levels.{Remembers};
ghost use Rattle.satisfy.specs.Sets.{SetAsked, TakenIs, SetsAsked, SettlingIs, QuestionAsked};

use crate::world::{ALL, world};
use cases::level::Level;
use sets::Set;
use wants::{Wants, want};

// Wants every entry of a set to be so.
fn want_all(entries: &[u64], set: Set, w: Wants, truth: bool) -> Option<Wants>
    requires { SetAsked (wide_in entries.now) (length entries.now) (member set) w }
    ensures { TakenIs (wide_in entries.now) (length entries.now) truth (member set) w result }
{
    let mut v = w;
    let mut rest = set;
    while let Some(i) = rest.highest() {
        v = want(entries, i, v, truth)?;
        rest = rest.without(i);
    }
    Some(v)
}

// Wants the entries of one set true and those of the other false. None is deeper than the depth.
fn settle(entries: &[u64], yes: Set, no: Set, depth: usize) -> Option<Wants>
    requires { SetsAsked (wide_in entries.now) (length entries.now) (member yes) (member no) depth }
    ensures { SettlingIs (wide_in entries.now) (length entries.now) (member yes) (member no) depth result }
{
    let v = want_all(entries, yes, Wants::nothing(), true)?;
    want_all(entries, no, v, false)
}

// Whether some world makes every entry of one set true and every entry of the other false. What is remembered stays right.
pub fn satisfiable(entries: &[u64], yes: Set, no: Set, level: Level, work: &mut [u64]) -> bool
    requires { QuestionAsked (wide_in entries.now) (length entries.now) (member yes) (member no) level.depth level.size work.old }
    ensures { Answers result (Sat (wide_in entries.now) (member yes) (member no))
        × Remembers (wide_in entries.now) level.depth level.size work.new }
{
    let Some(v) = settle(entries, yes, no, level.depth) else {
        return false;
    };
    world(entries, v, ALL, level, work)
}
