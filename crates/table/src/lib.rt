// The description table of document 01: its entries, what it is refused for, the depths of its entries, and the work
// space that a decision on it needs. `checking::check` refuses bad tables; the other calls are for tables that it accepts,
// or say what they answer for any bytes.
#![tactic(auto)]

pub mod checking;
pub mod depth;
pub mod entry;
pub mod kind;
pub mod space;
