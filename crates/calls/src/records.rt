// A list of calls as records: their numbers one after another are the rows.
//
// `enter_call` and `clear_calls` are functions over the slice itself, which the methods call: through `self`, a borrow of a borrow, their proofs
// did not close.
ghost use Rattle.std.specs.Prelude.{◌≡◌, refl, map, length, replicate};
ghost use Rattle.base.proofs.Prelude.{◌∙◌};
ghost use Rattle.context.specs.Context.{call_row};
ghost use Rattle.rows.specs.Map.{key_of, Held, Entering};
ghost use Rattle.rows.specs.Order.{ascending, zeros};
ghost use Rattle.calls.specs.Records.{row_of, numbers_of};

use crate::{Call, CallList};
use base::refusal::Refusal;

// Whether the calls ascend strictly by address.
fn is_ascending(calls: &[Call]) -> bool
    ensures { result ≡ ascending (map key_of (map row_of calls.now)) }
{
    calls.is_sorted_by(|a, b| a.address < b.address)
}

// Whether every record is zeros.
fn are_zero(calls: &[Call]) -> bool
    ensures { result ≡ zeros (numbers_of calls.now) }
{
    calls.iter().all(|&call| call == Call::default())
}

// The address's place among the calls is found by halves. A new call moves the later ones up.
#[tactic(auto, using(crate::proofs::RecordLaws::places))]
fn enter_call(calls: &mut [Call], count: usize, call: Call) -> Result<usize, Refusal>
    requires { Held call_row count (numbers_of calls.old) }
    ensures { Entering call_row count (numbers_of calls.old) (row_of call) result (numbers_of calls.new) }
{
    match calls[..count].binary_search_by_key(&call.address, |held| held.address) {
        Ok(at) => {
            calls[at] = call;
            Ok(count)
        }
        Err(at) => {
            if count == calls.len() {
                return Err(Refusal::ListFull);
            }
            calls.copy_within(at..count, at + 1);
            calls[at] = call;
            Ok(count + 1)
        }
    }
}

#[tactic(auto, using(crate::proofs::RecordLaws::places))]
fn clear_calls(calls: &mut [Call], count: usize)
    requires { Held call_row count (numbers_of calls.old) }
    ensures { numbers_of calls.new ≡ replicate (length (numbers_of calls.old)) 0 }
{
    calls[..count].fill(Call::default());
}

impl CallList for &mut [Call] {
    ghost numbers = { λ s. numbers_of s.now };

    ghost is_same = { λ s t. t.ghost_name ≡ s.ghost_name };

    ghost unmoved = { λ s. refl };

    ghost twice = { λ s t u p q. q ∙ p };

    fn in_order(&self, count: usize) -> bool {
        match self.split_at_checked(count) {
            Some((calls, others)) => is_ascending(calls) && are_zero(others),
            None => false,
        }
    }

    #[tactic(auto, using(crate::proofs::RecordLaws::places))]
    fn is_destination(&self, count: usize, address: u32) -> bool {
        self[..count].iter().any(|call| call.destination == address)
    }

    fn enter(&mut self, count: usize, call: Call) -> Result<usize, Refusal> {
        enter_call(self, count, call)
    }

    fn clear(&mut self, count: usize) {
        clear_calls(self, count);
    }

    fn zero(&mut self) {
        self.fill(Call::default());
    }
}
