// Five lists of numbers that a host lends to be read, by one or by many at once.
ghost use Rattle.lists.specs.Lists.{rows_of};

use crate::LentLists;
use context::{Calls, Labels, Pools, Tables};
use walk::Counts;

#[derive(Clone, Copy)]
pub struct SharedLists<'a> {
    pub labels: &'a [u32],
    pub pools: &'a [u32],
    pub jump_tables: &'a [u32],
    pub inline_tables: &'a [u32],
    pub calls: &'a [u32],
}

impl<'a> LentLists for SharedLists<'a> {
    ghost numbers = { λ s. rows_of s };

    #[tactic(auto, unfolding(crate::specs::Lists::are_in_order))]
    fn in_order(&self, n: Counts) -> bool {
        Labels::in_order(self.labels, n.labels)
            && Pools::in_order(self.pools, n.pools)
            && Tables::in_order(self.jump_tables, n.jump_tables)
            && Tables::in_order(self.inline_tables, n.inline_tables)
            && Calls::in_order(self.calls, n.calls)
    }

    fn pools(&self) -> &[u32] {
        self.pools
    }
}
