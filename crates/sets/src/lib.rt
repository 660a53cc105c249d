// Sets of numbers as bits, by value: a number is in the set where that bit is 1, one word for numbers below 64 and two for 128.
// Contracts speak of membership alone, so that no caller sees bits, and the laws hold of any number of words.
#![tactic(auto)]

ghost use Rattle.std.specs.Prelude.{◌≡◌, ℕ, ◌≤◌, ◌<◌};
ghost use Rattle.sets.specs.Label.{In, Marked, Cleared, ClearedIf, Lowered, Union, But, Common, Below, From, Lowest, Upto, is_in};
ghost use Rattle.sets.specs.Wide.{numbers_of};

// Every number of a word.
const EVERY: u64 = 0xffff_ffff_ffff_ffff;

// What a set of numbers does, whatever it is made of.
pub trait NumberSet: Copy {
    // Every number of a set is below this.
    ghost SIZE: { ℕ };

    const SIZE: usize;

    // The set as a number, the j-th binary digit of which is 1 where j is in the set.
    ghost numbers: { Self → ℕ };

    // No number.
    fn none() -> Self
        ensures { (k : ℕ) → In (numbers result) k → ⊥ };

    // Every number.
    fn every() -> Self
        ensures { Upto SIZE (numbers result) };

    // Is j in the set?
    fn has(self, j: usize) -> bool
        requires { j < SIZE }
        ensures { result ≡ is_in (numbers self) j };

    // The set and j besides.
    fn mark(self, j: usize) -> Self
        requires { j < SIZE }
        ensures { Marked (numbers self) j (numbers result) };

    // The set without j.
    fn without(self, j: usize) -> Self
        requires { j < SIZE }
        ensures { Cleared (numbers self) j (numbers result) };

    // The set without j, where that is gone. No branch waits for the answer.
    fn without_if(self, j: usize, gone: bool) -> Self
        requires { j < SIZE }
        ensures { ClearedIf gone (numbers self) j (numbers result) };

    // The set without its lowest number, in a step that need not know which it is.
    fn without_lowest(self) -> Self
        ensures { Lowered (numbers self) (numbers result) };

    // The numbers of both sets.
    fn with(self, other: Self) -> Self
        ensures { Union (numbers self) (numbers other) (numbers result) };

    // The numbers of the set but those of the other.
    fn but(self, other: Self) -> Self
        ensures { But (numbers self) (numbers other) (numbers result) };

    // The numbers that both sets have.
    fn common(self, other: Self) -> Self
        ensures { Common (numbers self) (numbers other) (numbers result) };

    // The numbers of the set that are lower than j.
    fn below(self, j: usize) -> Self
        requires { j < SIZE }
        ensures { Below (numbers self) j (numbers result) };

    // The numbers of the set that are not lower than j.
    fn from(self, j: usize) -> Self
        requires { j < SIZE }
        ensures { From (numbers self) j (numbers result) };

    // The lowest number of the set.
    fn lowest(self) -> Option<usize>
        ensures { Lowest SIZE (numbers self) result };
}

// A set of numbers below 64.
#[derive(Clone, Copy)]
pub struct Label(pub u64);

// A set of numbers below 128.
#[derive(Clone, Copy)]
pub struct Wide {
    pub low: Label,
    pub high: Label,
}

impl NumberSet for Label {
    ghost SIZE = { 64 };

    const SIZE: usize = 64;

    ghost numbers = { λ s. s.0 };

    fn none() -> Label {
        Label(0)
    }

    fn every() -> Label {
        Label(EVERY)
    }

    fn has(self, j: usize) -> bool {
        (self.0 >> j) & 1 == 1
    }

    fn mark(self, j: usize) -> Label {
        Label(self.0 | (1u64 << j))
    }

    fn without(self, j: usize) -> Label {
        Label(self.0 ^ (self.0 & (1u64 << j)))
    }

    fn without_if(self, j: usize, gone: bool) -> Label {
        Label(self.0 ^ (self.0 & (u64::from(gone) << j)))
    }

    fn without_lowest(self) -> Label {
        Label(self.0 & self.0.wrapping_sub(1))
    }

    fn with(self, other: Label) -> Label {
        Label(self.0 | other.0)
    }

    fn but(self, other: Label) -> Label {
        Label(self.0 ^ (self.0 & other.0))
    }

    fn common(self, other: Label) -> Label {
        Label(self.0 & other.0)
    }

    fn below(self, j: usize) -> Label {
        Label(self.0 % (1u64 << j))
    }

    fn from(self, j: usize) -> Label {
        Label(self.0 - self.0 % (1u64 << j))
    }

    fn lowest(self) -> Option<usize> {
        if self.0 == 0 {
            return None;
        }
        Some(self.0.trailing_zeros() as usize)
    }
}

impl NumberSet for Wide {
    ghost SIZE = { 128 };

    const SIZE: usize = 128;

    ghost numbers = { λ w. numbers_of w };

    fn none() -> Wide {
        Wide {
            low: Label::none(),
            high: Label::none(),
        }
    }

    fn every() -> Wide {
        Wide {
            low: Label::every(),
            high: Label::every(),
        }
    }

    fn has(self, j: usize) -> bool {
        if j < 64 {
            return self.low.has(j);
        }
        self.high.has(j - 64)
    }

    fn mark(self, j: usize) -> Wide {
        if j < 64 {
            return Wide {
                low: self.low.mark(j),
                ..self
            };
        }
        Wide {
            high: self.high.mark(j - 64),
            ..self
        }
    }

    fn without(self, j: usize) -> Wide {
        if j < 64 {
            return Wide {
                low: self.low.without(j),
                ..self
            };
        }
        Wide {
            high: self.high.without(j - 64),
            ..self
        }
    }

    fn without_if(self, j: usize, gone: bool) -> Wide {
        if j < 64 {
            return Wide {
                low: self.low.without_if(j, gone),
                ..self
            };
        }
        Wide {
            high: self.high.without_if(j - 64, gone),
            ..self
        }
    }

    fn without_lowest(self) -> Wide {
        if self.low.0 == 0 {
            return Wide {
                high: self.high.without_lowest(),
                ..self
            };
        }
        Wide {
            low: self.low.without_lowest(),
            ..self
        }
    }

    fn with(self, other: Wide) -> Wide {
        Wide {
            low: self.low.with(other.low),
            high: self.high.with(other.high),
        }
    }

    fn but(self, other: Wide) -> Wide {
        Wide {
            low: self.low.but(other.low),
            high: self.high.but(other.high),
        }
    }

    fn common(self, other: Wide) -> Wide {
        Wide {
            low: self.low.common(other.low),
            high: self.high.common(other.high),
        }
    }

    fn below(self, j: usize) -> Wide {
        if j < 64 {
            return Wide {
                low: self.low.below(j),
                high: Label::none(),
            };
        }
        Wide {
            high: self.high.below(j - 64),
            ..self
        }
    }

    fn from(self, j: usize) -> Wide {
        if j < 64 {
            return Wide {
                low: self.low.from(j),
                ..self
            };
        }
        Wide {
            low: Label::none(),
            high: self.high.from(j - 64),
        }
    }

    fn lowest(self) -> Option<usize> {
        match self.low.lowest() {
            None => Some(64 + self.high.lowest()?),
            Some(j) => Some(j),
        }
    }
}
