// The split of a pending entry into two cases.
ghost use Rattle.std.specs.Prelude.{length};
ghost use Rattle.sets.specs.Set.{member};
ghost use Rattle.sets.specs.Word.{Greatest};
ghost use Rattle.wide.specs.Wide.{wide_in};
ghost use Rattle.cases.specs.World.{Ready, BranchIs};

use crate::serves;
use table::kind::Kind;
use wants::{Wants, want};
use wide::wide_at;

// What is wanted in a case of the split of the highest pending entry d: its first part is as it serves, or it is not and
// the second part is (known as semantic branching). Of the second case the second part alone may be wanted.
pub fn branch(entries: &[u64], w: Wants, d: usize, case: bool, depth: usize) -> Option<Wants>
    requires { Ready (wide_in entries.now) (length entries.now) w 64 depth × Greatest (member w.pending) d }
    ensures { BranchIs (wide_in entries.now) (length entries.now) case d w depth result }
{
    let e = wide_at(entries, d);
    let serving = serves(e);
    let first = e.first as usize;
    let second = e.second as usize;
    if case {
        return Some(want(entries, first, w, serving)?.lighten(d));
    }
    // That a counting entry is not so would be a need or a limit more, and a larger problem.
    let other = Kind::of(wide_at(entries, first).kind);
    if matches!(other, Some(Kind::AtLeast | Kind::AtMost)) {
        return Some(want(entries, second, w, serving)?.lighten(d));
    }
    let v = want(entries, first, w, !serving)?;
    Some(want(entries, second, v, serving)?.lighten(d))
}
