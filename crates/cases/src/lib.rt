// What is wanted at a world, without its successors: what follows at once, and the two cases of a split.
#![tactic(auto)]

pub mod branch;
pub mod force;
pub mod level;

ghost use Rattle.std.specs.Prelude.{◌≡◌, eqb};

use table::entry::Entry;
use table::kind::Kind;

// How the parts of a pending entry serve: an or is pending where it is wanted true, and an and where it is wanted false.
fn serves(e: Entry) -> bool
    ensures { result ≡ eqb e.kind 5 }
{
    Kind::of(e.kind) == Some(Kind::Or)
}
