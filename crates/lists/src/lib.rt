// The five lists that a host lends a walk, and the same to be read alone.
#![tactic(auto)]

mod shared;

ghost use Rattle.std.specs.Prelude.{◌≡◌};
ghost use Rattle.context.specs.Lists.{AllHeld, zeroed, Lists as Numbers};
ghost use Rattle.lists.specs.Lists.{lists_of, are_in_order, IsSame};

use calls::CallList;
use context::{Labels, Pools, Tables};
use rows::order::zero;
pub use shared::SharedLists;
use walk::Counts;

// What five lists hold, to whoever only reads them.
pub trait LentLists {
    // their numbers
    ghost numbers: { Self → Numbers };

    // Whether each list holds a map of its count.
    fn in_order(&self, n: Counts) -> bool
        ensures { result ≡ are_in_order n (numbers self.now) };

    fn pools(&self) -> &[u32]
        ensures { result.now ≡ (numbers self.now).pools };
}

#[derive(Drop)]
pub struct Lists<'a, C: CallList> {
    pub labels: &'a mut [u32],
    pub pools: &'a mut [u32],
    pub jump_tables: &'a mut [u32],
    pub inline_tables: &'a mut [u32],
    pub calls: C,
}

impl<'a, C: CallList> Lists<'a, C> {
    // Whether each list holds a map of its count.
    #[tactic(auto, unfolding(crate::specs::Lists::are_in_order))]
    pub fn in_order(&self, n: Counts) -> bool
        ensures { result ≡ are_in_order n (lists_of C.numbers self.now) }
    {
        Labels::in_order(self.labels, n.labels)
            && Pools::in_order(self.pools, n.pools)
            && Tables::in_order(self.jump_tables, n.jump_tables)
            && Tables::in_order(self.inline_tables, n.inline_tables)
            && self.calls.in_order(n.calls)
    }

    // Zeros in every place of every list.
    pub fn zero(&mut self)
        ensures same { IsSame C.is_same self.old self.new }
        ensures zeros { lists_of C.numbers self.new ≡ zeroed (lists_of C.numbers self.old) }
    {
        zero(self.labels);
        zero(self.pools);
        zero(self.jump_tables);
        zero(self.inline_tables);
        self.calls.zero();
    }

    // Every list without its entries: all else is zero already.
    pub fn clear(&mut self, n: Counts)
        requires { AllHeld n (lists_of C.numbers self.old) }
        ensures same { IsSame C.is_same self.old self.new }
        ensures zeros { lists_of C.numbers self.new ≡ zeroed (lists_of C.numbers self.old) }
    {
        Labels::clear(self.labels, n.labels);
        Pools::clear(self.pools, n.pools);
        Tables::clear(self.jump_tables, n.jump_tables);
        Tables::clear(self.inline_tables, n.inline_tables);
        self.calls.clear(n.calls);
    }
}

impl<'a, C: CallList> LentLists for Lists<'a, C> {
    ghost numbers = { λ l. lists_of C.numbers l };

    fn in_order(&self, n: Counts) -> bool {
        Lists::in_order(self, n)
    }

    fn pools(&self) -> &[u32] {
        self.pools
    }
}
