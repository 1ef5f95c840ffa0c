// A list of calls in a slice that a host lends, of numbers or of records. The numbers one after another are the rows of which the definitions
// speak, so a function over a `CallList` serves hosts of either form.
#![tactic(auto)]

mod numbers;
mod records;
mod told;

ghost use Rattle.std.specs.Prelude.{◌≡◌, List, ℕ, length, replicate};
ghost use Rattle.context.specs.Context.{call_row};
ghost use Rattle.context.specs.Blocks.{is_destination};
ghost use Rattle.rows.specs.Map.{map_in, in_order, Held, Entering};
ghost use Rattle.calls.specs.Records.{row_of};

use base::refusal::Refusal;
pub use told::{Edit, Entry, Told, clear, enter, put, tell};

// A record as a host lends it: four numbers, of which any may stand in it, the mode too.
#[derive(Clone, Copy, PartialEq, Eq, Default)]
pub struct Call {
    pub address: u32,
    pub word: u32,
    pub destination: u32,
    pub mode: u32,
}

// Every method but `in_order` and `zero` requires that the list holds a map of `count` calls.
pub trait CallList {
    // the list's numbers
    ghost numbers: { Self → List ℕ };

    // that it is the same slice, with whatever values
    ghost is_same: { Self → Self → Type 0 };

    // Whether the list holds a map of `count` calls.
    fn in_order(&self, count: usize) -> bool
        ensures { result ≡ in_order call_row count (numbers self.now) };

    // function_calls.values().any(..): one goes to the address.
    fn is_destination(&self, count: usize, address: u32) -> bool
        requires { Held call_row count (numbers self.now) }
        ensures { result ≡ is_destination address (map_in call_row count (numbers self.now)) };

    // function_calls.insert(..). A held address is replaced in place, and needs no free place.
    fn enter(&mut self, count: usize, call: Call) -> Result<usize, Refusal>
        requires { Held call_row count (numbers self.old) }
        ensures same { is_same self.old self.new }
        ensures places { length (numbers self.new) ≡ length (numbers self.old) }
        ensures entered { Entering call_row count (numbers self.old) (row_of call) result (numbers self.new) };

    // The calls zeroed: every place is zero, since those after them were.
    fn clear(&mut self, count: usize)
        requires { Held call_row count (numbers self.old) }
        ensures same { is_same self.old self.new }
        ensures zeros { numbers self.new ≡ replicate (length (numbers self.old)) 0 };

    // Zeros in every place.
    fn zero(&mut self)
        ensures same { is_same self.old self.new }
        ensures zeros { numbers self.new ≡ replicate (length (numbers self.old)) 0 };

    // it is the same list where nothing was done, and after two calls in turn
    ghost unmoved: { (s : Self) → is_same s s };

    ghost twice: { (s t u : Self) → is_same s t → is_same t u → is_same s u };
}
