// A semiautomaton by its successor sets: the one form in which code has it, wherever its sets stand.
ghost use Rattle.std.specs.Prelude.{◌^◌, ◌<◌};
ghost use Rattle.semiautomata.specs.Successors.{Fit};

// Letter a leads from state s to the set `sets[s * m + a]`; the sets are lent.
#[derive(Clone, Copy)]
pub struct Successors<'a> {
    pub n: usize,
    pub m: usize,
    pub starts: u64,
    pub sets: &'a [u64],
    pub ghost fit: { Fit n m sets.now },
    pub ghost starts_fit: { starts < 2 ^ n },
}

impl<'a> Successors<'a> {
    ghost use Rattle.std.specs.Prelude.{◌≡◌};
    ghost use Rattle.semiautomata.specs.Successors.{set_at};

    // The states that a letter leads to from a state.
    #[inline(always)]
    pub fn of(&self, s: usize, letter: usize) -> u64
        requires { (s < self.now.n) × (letter < self.now.m) }
        ensures { result ≡ set_at self.now.m self.now.sets.now s letter }
    {
        self.sets[s * self.m + letter]
    }
}
