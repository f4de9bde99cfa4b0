// Words that have their turns.
ghost use Rattle.std.specs.Prelude.{◌≡◌, ◌≤◌, ◌<◌};
ghost use Rattle.encoding.specs.Turns.{NextWord};

// The word whose turn it is, of at most eight.
#[derive(Clone, Copy)]
pub(crate) struct Turn {
    pub(crate) word: usize,
    pub(crate) depth: usize,
    ghost within: { word < depth },
    ghost few: { depth ≤ 8 },
}

impl Turn {
    pub(crate) fn first(depth: usize) -> Turn
        requires { (0 < depth) × (depth ≤ 8) }
        ensures depth { result.depth ≡ depth }
        ensures word { result.word ≡ 0 }
    {
        Turn { word: 0, depth }
    }

    // A number that starts anew spares a division for each symbol.
    pub(crate) fn next(self) -> Turn
        ensures depth { result.depth ≡ self.depth }
        ensures word { NextWord self.depth self.word result.word }
    {
        let next = self.word + 1;
        Turn {
            word: if next == self.depth { 0 } else { next },
            depth: self.depth,
        }
    }
}
