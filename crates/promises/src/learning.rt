// What is learnt while worlds are looked for: a world that was found, and needs and limits that have no solution. Either tells
// of other questions too.
ghost use Rattle.std.specs.Prelude.{length};
ghost use Rattle.wide.specs.Wide.{wide_in};
ghost use Rattle.counting.specs.Question.{problem_of};
ghost use Rattle.cases.specs.Levels.{Remembers};
ghost use Rattle.promises.specs.Learning.{WorldFound, NoneFound, Learnt};

use crate::listing::narrowed;
use cases::level::Level;
use counting::question::{Question, asking};
use memory::learnt::learn;
use wants::Wants;

// Learns that some world is as wanted.
pub fn learn_world(entries: &[u64], w: Wants, level: Level, work: &mut [u64])
    requires { WorldFound (wide_in entries.now) (length entries.now) w level.depth level.size work.old }
    ensures { Remembers (wide_in entries.now) level.depth level.size work.new }
{
    let from = level.memory();
    learn(work, from, w.yes, w.no, true);
}

// Learns that the needs and limits of a question have no solution: no world is as they alone want.
pub fn learn_refuted(entries: &[u64], q: Question, level: Level, work: &mut [u64])
    requires { NoneFound (problem_of entries.now q) level.depth level.size work.old }
    ensures { Learnt (wide_in entries.now) level.depth level.size work.old work.new }
{
    let from = level.memory();
    let alone = narrowed(q, asking(entries, q));
    learn(work, from, alone.yes, alone.no, false);
}
