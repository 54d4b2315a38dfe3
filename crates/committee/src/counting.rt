// How many rounds and signatures a committee takes, counted on plain numbers: they depend on its size alone.
ghost use Rattle.std.specs.Prelude.{◌≡◌, ◌+◌, ◌*◌, ◌≤◌};
ghost use Rattle.committee.specs.Tree.{committees, bound as bound_of};
ghost use Rattle.committee.specs.Numbers.{total_of, Parties};

use crate::sizes::Sizes;

impl Sizes {
    // How many rounds a committee of so many parties takes.
    pub fn total(&self, size: u32) -> u32
        requires { Parties size }
        ensures is { result ≡ total_of self.now size }
        ensures few { result + 10 ≤ 26 * size }
    {
        if size <= self.most {
            return self.rounds[size as usize - 1];
        }
        let halves = self.total(size - size / 2) + self.total(size / 2);
        2 * (self.graded + 1) + halves
    }

    // The most signatures that a committee of so many parties sends.
    pub fn bound(&self, size: u32) -> u32
        requires { Parties size }
        ensures is { result ≡ bound_of (committees self.now.most 0 size) }
        ensures few { result + 11 ≤ 22 * (size * size) }
    {
        let square = size * size;
        if size <= self.most {
            return 22 * square - 11;
        }
        let halves = self.bound(size - size / 2) + self.bound(size / 2);
        11 * square + halves
    }
}
