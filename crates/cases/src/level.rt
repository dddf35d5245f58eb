// How deep a world may be, and how many words are lent for it and for each depth below. Behind all these levels stand the
// answers that are kept.
ghost use Rattle.std.specs.Prelude.{◌≡◌, ◌<◌, ◌*◌, ◌-◌, suc};
ghost use Rattle.cases.specs.Levels.{Reckoned};

#[derive(Clone, Copy)]
pub struct Level {
    pub depth: usize,
    pub size: usize,
}

impl Level {
    // Where the answers that are kept begin.
    pub fn memory(self) -> usize
        requires { Reckoned self.depth self.size }
        ensures { result ≡ suc self.depth * self.size }
    {
        (self.depth + 1) * self.size
    }

    // One less deep.
    pub fn deeper(self) -> Level
        requires { 0 < self.depth }
        ensures { (result.depth ≡ self.depth - 1) × (result.size ≡ self.size) }
    {
        Level {
            depth: self.depth - 1,
            size: self.size,
        }
    }
}
