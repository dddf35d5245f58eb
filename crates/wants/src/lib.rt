// What is wanted at a world, as sets of entry numbers, and the rules for one entry more.
// `want` wants an entry besides what is wanted: it answers the sets that this comes to once every rule has been applied that
// leaves no choice, or that no world can be so (known as the non-branching rules of a tableau).
#![tactic(auto)]

ghost use Rattle.std.specs.Prelude.{◌≡◌, true, cond, ℕ, ◌<◌, length};
ghost use Rattle.sets.specs.Set.{member};
ghost use Rattle.table.specs.Kind.{kind_number};
ghost use Rattle.semantics.specs.Answer.{Answers};
ghost use Rattle.tableau.specs.Wants.{added_if};
ghost use Rattle.wide.specs.Wide.{wide_in};
ghost use Rattle.wants.specs.Outcome.{wanted_w, NothingWanted, Asked, OutcomeIs, Lightened};
ghost use Rattle.wants.specs.Step.{Put, names_fact, HasFact, ClashIs, StepIs};

use sets::Set;
use table::kind::Kind;
use wide::wide_at;

// The entries wanted true, and those wanted false. Pending are those of them of which one part is enough, while it is open which.
#[derive(Clone, Copy)]
pub struct Wants {
    pub yes: Set,
    pub no: Set,
    pub pending: Set,
}

impl Wants {
    // Nothing is wanted.
    pub fn nothing() -> Wants
        ensures { NothingWanted result }
    {
        Wants {
            yes: Set::empty(),
            no: Set::empty(),
            pending: Set::empty(),
        }
    }

    // The entries wanted to be so.
    pub fn wanted(self, truth: bool) -> Set
        ensures { member result ≡ wanted_w self truth }
    {
        if truth { self.yes } else { self.no }
    }

    // Entry d is pending no more.
    pub fn lighten(self, d: usize) -> Wants
        ensures { Lightened d self result }
    {
        Wants {
            yes: self.yes,
            no: self.no,
            pending: self.pending.without(d),
        }
    }

    // Entry e is wanted to be so besides, and pending if `pending` says so.
    fn put(self, e: usize, truth: bool, pending: bool) -> Wants
        requires { e < 64 }
        ensures { Put truth pending e self result }
    {
        Wants {
            yes: with_if(self.yes, e, truth),
            no: with_if(self.no, e, !truth),
            pending: with_if(self.pending, e, pending),
        }
    }
}

// What wanting an entry starts with.
#[derive(Clone, Copy)]
enum Step {
    // No part comes first, or the entry was wanted before.
    Done(Option<Wants>),
    // The part is wanted the other way first.
    Turned(usize),
    // Both parts are wanted the same way first.
    Both(usize, usize),
}

// Wants entry e to be so besides: what is wanted once every rule has been applied, or nothing, if no world is as wanted.
pub fn want(entries: &[u64], e: usize, w: Wants, truth: bool) -> Option<Wants>
    requires { Asked (wide_in entries.now) (length entries.now) e w }
    ensures { OutcomeIs (wide_in entries.now) (length entries.now) truth e w result }
{
    match first_step(entries, e, w, truth) {
        Step::Done(outcome) => outcome,
        Step::Turned(part) => {
            let parts = want(entries, part, w, !truth)?;
            Some(parts.put(e, truth, false))
        }
        Step::Both(first, second) => {
            let one = want(entries, first, w, truth)?;
            let both = want(entries, second, one, truth)?;
            Some(both.put(e, truth, false))
        }
    }
}

// What wanting entry e to be so starts with. Parts come before the entry itself, so that what is wanted is settled at any time.
fn first_step(entries: &[u64], e: usize, w: Wants, truth: bool) -> Step
    requires { Asked (wide_in entries.now) (length entries.now) e w }
    ensures { StepIs (wide_in entries.now) (length entries.now) truth e w result }
{
    if w.wanted(truth).contains(e) {
        return Step::Done(Some(w));
    }
    if clashes(entries, e, w, truth) {
        return Step::Done(None);
    }
    let at = wide_at(entries, e);
    let kind = Kind::of(at.kind);
    if kind == Some(Kind::Not) {
        return Step::Turned(at.first as usize);
    }
    if kind == Some(both_kind(truth)) {
        return Step::Both(at.first as usize, at.second as usize);
    }
    // One part is enough, and which is left open.
    let pending = kind == Some(both_kind(!truth));
    Step::Done(Some(w.put(e, truth, pending)))
}

// The kind that is so exactly where both parts are so: an and for true, an or for false.
fn both_kind(truth: bool) -> Kind
    ensures { kind_number result ≡ cond truth 4 5 }
{
    if truth { Kind::And } else { Kind::Or }
}

// Whether what is wanted, or its kind alone, stands against entry e being so.
fn clashes(entries: &[u64], e: usize, w: Wants, truth: bool) -> bool
    requires { Asked (wide_in entries.now) (length entries.now) e w }
    ensures { ClashIs (wide_in entries.now) truth e w result }
{
    let opposite = w.wanted(!truth);
    if opposite.contains(e) {
        return true;
    }
    let at = wide_at(entries, e);
    match Kind::of(at.kind) {
        Some(Kind::True) => !truth,
        Some(Kind::False) => truth,
        Some(Kind::Fact) => has_fact(entries, opposite, at.name),
        Some(Kind::AtLeast) => !truth && at.grade == 0,
        Some(Kind::Not | Kind::And | Kind::Or | Kind::AtMost) | None => false,
    }
}

// Whether an entry of the set is the fact of this name.
fn has_fact(entries: &[u64], set: Set, name: u32) -> bool
    requires { (i : ℕ) → member set i ≡ true → i < length entries.now }
    ensures { Answers result (HasFact (wide_in entries.now) (member set) name) }
{
    let mut rest = set;
    while let Some(i) = rest.highest() {
        if is_fact(entries, i, name) {
            return true;
        }
        rest = rest.without(i);
    }
    false
}

// Whether entry i is the fact of this name.
fn is_fact(entries: &[u64], i: usize, name: u32) -> bool
    ensures { result ≡ names_fact (wide_in entries.now i) name }
{
    let at = wide_at(entries, i);
    Kind::of(at.kind) == Some(Kind::Fact) && at.name == name
}

// The set with i, if `more` says so.
pub fn with_if(set: Set, i: usize, more: bool) -> Set
    requires { i < 64 }
    ensures { member result ≡ added_if more (member set) i }
{
    if more { set.with(i) } else { set }
}
