// Labels: sets of ports, each a set of numbers under a type of its own, so that no function takes inputs for outputs; and a label of
// outputs for each input. This is the fast set of the planners; what a port's being in a set means is left to the callers.
#![tactic(auto)]

ghost use Rattle.std.specs.Prelude.{◌≡◌, ℕ, ◌≤◌, ◌<◌, length};
ghost use Rattle.sets.specs.Label.{In, Marked, Cleared, ClearedIf, Lowered, Union, But, Common, Below, From, Upto, Lowest, is_in};
ghost use Rattle.labels.specs.Ports.{found, outputs_of, UntriedBy};
ghost use Rattle.labels.specs.Rows.{row_of, RowPut};

use sets::{NumberSet, Wide};
use std::marker::PhantomData;
use switch::{InputPort, OutputPort};

// A port, which stands in a set by its number.
pub trait Port: Copy {
    ghost number: { Self → ℕ };

    fn number(self) -> usize
        ensures { result ≡ number self };

    // The port of this number.
    fn at(k: usize) -> Self
        ensures { number result ≡ k };
}

impl Port for InputPort {
    ghost number = { λ i. i.0 };

    fn number(self) -> usize {
        self.0
    }

    fn at(k: usize) -> InputPort {
        InputPort(k)
    }
}

impl Port for OutputPort {
    ghost number = { λ j. j.0 };

    fn number(self) -> usize {
        self.0
    }

    fn at(k: usize) -> OutputPort {
        OutputPort(k)
    }
}

// A set of ports of one side, P, as the set of their numbers.
#[derive(Clone, Copy)]
pub struct PortSet<P, S> {
    pub numbers: S,
    of: PhantomData<P>,
}

// A set of outputs.
pub type Outputs = PortSet<OutputPort, Wide>;

// A set of inputs.
pub type Inputs = PortSet<InputPort, Wide>;

impl<P: Port, S: NumberSet> PortSet<P, S> {
    // The ports of these numbers.
    pub fn of(numbers: S) -> PortSet<P, S>
        ensures { result.numbers ≡ numbers }
    {
        PortSet {
            numbers,
            of: PhantomData,
        }
    }

    // No port.
    pub fn none() -> PortSet<P, S>
        ensures { (k : ℕ) → In (S.numbers result.numbers) k → ⊥ }
    {
        PortSet::of(S::none())
    }

    // Every port.
    pub fn every() -> PortSet<P, S>
        ensures { (k : ℕ) → k < S.SIZE → In (S.numbers result.numbers) k }
    {
        PortSet::of(S::every())
    }

    // The first n ports.
    pub fn first(n: usize) -> PortSet<P, S>
        requires { n ≤ S.SIZE }
        ensures { Upto n (S.numbers result.numbers) }
    {
        let every = S::every();
        if n == S::SIZE {
            return PortSet::of(every);
        }
        PortSet::of(every.below(n))
    }

    // Is port p in the set?
    pub fn has(self, p: P) -> bool
        requires { P.number p < S.SIZE }
        ensures { result ≡ is_in (S.numbers self.numbers) (P.number p) }
    {
        self.numbers.has(p.number())
    }

    // The set and port p besides.
    pub fn mark(self, p: P) -> PortSet<P, S>
        requires { P.number p < S.SIZE }
        ensures { Marked (S.numbers self.numbers) (P.number p) (S.numbers result.numbers) }
    {
        PortSet::of(self.numbers.mark(p.number()))
    }

    // The set without port p.
    pub fn without(self, p: P) -> PortSet<P, S>
        requires { P.number p < S.SIZE }
        ensures { Cleared (S.numbers self.numbers) (P.number p) (S.numbers result.numbers) }
    {
        PortSet::of(self.numbers.without(p.number()))
    }

    // The set without port p, where that is gone.
    pub fn without_if(self, p: P, gone: bool) -> PortSet<P, S>
        requires { P.number p < S.SIZE }
        ensures { ClearedIf gone (S.numbers self.numbers) (P.number p) (S.numbers result.numbers) }
    {
        PortSet::of(self.numbers.without_if(p.number(), gone))
    }

    // The set without its lowest port.
    pub fn without_lowest(self) -> PortSet<P, S>
        ensures { Lowered (S.numbers self.numbers) (S.numbers result.numbers) }
    {
        PortSet::of(self.numbers.without_lowest())
    }

    // The ports of both sets.
    pub fn with(self, other: PortSet<P, S>) -> PortSet<P, S>
        ensures { Union (S.numbers self.numbers) (S.numbers other.numbers) (S.numbers result.numbers) }
    {
        PortSet::of(self.numbers.with(other.numbers))
    }

    // The ports of the set but those of the other.
    pub fn but(self, other: PortSet<P, S>) -> PortSet<P, S>
        ensures { But (S.numbers self.numbers) (S.numbers other.numbers) (S.numbers result.numbers) }
    {
        PortSet::of(self.numbers.but(other.numbers))
    }

    // The ports that both sets have.
    pub fn common(self, other: PortSet<P, S>) -> PortSet<P, S>
        ensures { Common (S.numbers self.numbers) (S.numbers other.numbers) (S.numbers result.numbers) }
    {
        PortSet::of(self.numbers.common(other.numbers))
    }

    // The ports of the set that are lower than p.
    pub fn below(self, p: P) -> PortSet<P, S>
        requires { P.number p < S.SIZE }
        ensures { Below (S.numbers self.numbers) (P.number p) (S.numbers result.numbers) }
    {
        PortSet::of(self.numbers.below(p.number()))
    }

    // The ports of the set that are not lower than p.
    pub fn from(self, p: P) -> PortSet<P, S>
        requires { P.number p < S.SIZE }
        ensures { From (S.numbers self.numbers) (P.number p) (S.numbers result.numbers) }
    {
        PortSet::of(self.numbers.from(p.number()))
    }

    // The lowest port of the set.
    pub fn lowest(self) -> Option<P>
        ensures { Lowest S.SIZE (S.numbers self.numbers) (found P.number result) }
    {
        Some(P::at(self.numbers.lowest()?))
    }

    // The lowest port of the set that is not tried.
    pub fn lowest_untried(self, tried: PortSet<P, S>) -> Option<P>
        ensures { UntriedBy P.number S.SIZE (S.numbers self.numbers) (S.numbers tried.numbers) result }
    {
        let new = self.but(tried);
        new.lowest()
    }
}

// The label of input i.
pub fn row_of(rows: &[Outputs], i: InputPort) -> Outputs
    requires { i.0 < length rows.now }
    ensures { outputs_of result ≡ row_of rows.now i.0 }
{
    rows[i.0]
}

// Input i gets this label.
pub fn put_row(rows: &mut [Outputs], i: InputPort, row: Outputs)
    requires { i.0 < length rows.old }
    ensures { RowPut i.0 (outputs_of row) rows.old rows.new }
{
    rows[i.0] = row;
}
