// A list of calls as rows of numbers.
ghost use Rattle.std.specs.Prelude.{◌≡◌, refl};
ghost use Rattle.base.proofs.Prelude.{◌∙◌};

use crate::{Call, CallList};
use base::refusal::Refusal;
use context::Calls;
use rows::order::zero;

impl CallList for &mut [u32] {
    ghost numbers = { λ s. s.now };

    ghost is_same = { λ s t. t.ghost_name ≡ s.ghost_name };

    ghost unmoved = { λ s. refl };

    ghost twice = { λ s t u p q. q ∙ p };

    fn in_order(&self, count: usize) -> bool {
        Calls::in_order(self, count)
    }

    fn is_destination(&self, count: usize, address: u32) -> bool {
        Calls::new(self, count)
            .rows
            .iter()
            .any(|call| call[2] == address)
    }

    fn enter(&mut self, count: usize, call: Call) -> Result<usize, Refusal> {
        let row = [call.address, call.word, call.destination, call.mode];
        Calls::enter(self, count, row)
    }

    fn clear(&mut self, count: usize) {
        Calls::clear(self, count);
    }

    fn zero(&mut self) {
        zero(self);
    }
}
