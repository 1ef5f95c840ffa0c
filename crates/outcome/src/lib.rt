// What a step comes to: the walk after it.
#![tactic(auto)]

ghost use Rattle.std.specs.Prelude.{◌≡◌, ◌+◌, ◌<◌, ◌^◌};
ghost use Rattle.context.specs.Context.{pool_row};
ghost use Rattle.context.specs.Turn.{key_or0, no_maps, counts_of, bytes_to_end};
ghost use Rattle.rows.specs.Map.{Held, map_in, first_key};
ghost use Rattle.outcome.specs.Outcome.{state_of, walk_in, with_counts, refused_walk, ends_at, settles, is_refused};

use base::refusal::Refusal;
use context::{Handled, Pools, State, Then};
use registers::Registers;
use walk::into_function::into_function;
use walk::{Answer, Counts, Options, Progress, Walk};

// The bytes of an ARM instruction.
const ARM_SIZE: u32 = 4;

// The state before a step.
pub fn state_of(w: Walk) -> State
    ensures { result ≡ state_of w }
{
    State {
        next: w.progress.address,
        progress: w.progress,
        machines: w.machines,
        counts: w.counts,
        call: None,
    }
}

fn walk_in(s: State, registers: Registers, answer: Answer) -> Walk
    ensures { result ≡ walk_in answer registers s }
{
    Walk {
        progress: s.progress,
        machines: s.machines,
        registers,
        counts: s.counts,
        result: answer,
    }
}

pub fn with_counts(w: Walk, counts: Counts) -> Walk
    ensures { result ≡ with_counts counts w }
{
    Walk { counts, ..w }
}

// The walk as it was, but for these counts and its result.
pub fn refused_walk(w: Walk, counts: Counts, refusal: Refusal, address: u32, register: u8) -> Walk
    ensures { result ≡ refused_walk w counts refusal address register }
{
    Walk {
        counts,
        result: Answer::Refused {
            refusal,
            address,
            register,
        },
        ..w
    }
}

// The first pool, 0 where there is none, as the walk's state has a missing address.
fn first_pool(pools: &Pools) -> u32
    ensures { result ≡ key_or0 (first_key pools.now.rows.now) }
{
    pools.first().unwrap_or(0)
}

// The sum with the last instruction, but not where the walk stops before it, as the entry of the next function, nor where it is refused.
fn bytes_to_end(answer: Answer, end: u32, p: Progress) -> u32
    requires { p.instruction_bytes + 4 < 2 ^ 32 }
    ensures { result ≡ bytes_to_end answer end p }
{
    match answer {
        Answer::Accepted(_) if end != p.address => p.instruction_bytes + ARM_SIZE,
        _ => p.instruction_bytes,
    }
}

// into_function, from the last instruction's end, for a walk that stood at `before`.
fn end_at(
    o: Options,
    before: Progress,
    s: State,
    registers: Registers,
    end: u32,
    pools: &Pools,
) -> Walk
    requires { before.instruction_bytes + 4 < 2 ^ 32 }
    ensures { result ≡ ends_at o before (key_or0 (first_key pools.now.rows.now)) end registers s }
{
    let p = s.progress;
    let pool = first_pool(pools);
    let result = into_function(
        o,
        p.start,
        end,
        p.last_pool_address,
        pool,
        p.saved_registers,
    );
    let mut ended = s;
    ended.progress.address = end;
    ended.progress.instruction_bytes = bytes_to_end(result, end, before);
    walk_in(ended, registers, result)
}

// What a step comes to; a refused one leaves the walk as it was, but for its result and the counts, by which the lists are cleared.
pub fn settle(o: Options, w: Walk, h: Handled, pools: &[u32]) -> Walk
    requires { Held pool_row h.stepped.state.counts.pools pools.now × (w.progress.instruction_bytes + 4 < 2 ^ 32) }
    ensures { result ≡ settles o w (key_or0 (first_key (map_in pool_row h.stepped.state.counts.pools pools.now))) h.stepped.then h.registers h.stepped.state }
{
    let s = h.stepped.state;
    match h.stepped.then {
        Then::On | Then::Goes => walk_in(s, h.registers, Answer::Going),
        Then::Ends(end) => {
            let pools = Pools::new(pools, s.counts.pools);
            end_at(o, w.progress, s, h.registers, end, &pools)
        }
        Then::Refuses { refusal, register } => {
            refused_walk(w, s.counts, refusal, w.progress.address, register)
        }
    }
}

pub fn is_refused(answer: Answer) -> bool
    ensures { result ≡ is_refused answer }
{
    matches!(answer, Answer::Refused { .. })
}

pub fn no_counts() -> Counts
    ensures { result ≡ counts_of no_maps }
{
    Counts::default()
}
