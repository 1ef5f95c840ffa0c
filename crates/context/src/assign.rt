// The assignments of a step's blocks to the walk's state, and what a block comes to. Functions, not methods: they are the source's
// assignments under the names of their definitions, and methods would say the same.
ghost use Rattle.std.specs.Prelude.{◌≡◌};
ghost use Rattle.context.specs.Context.{raising, table_to, pool_to, defining, saving, counting, moving, jump_table_to, function_branch_to, inline_table_to, illegal_code_to};
ghost use Rattle.context.specs.State.{headed, progressed, machined, counted, putting, count_labels, count_pools, count_jump_tables, count_inline_tables, count_calls};

use crate::{NewCall, State, Stepped, Then};
use analysis::function_branch::FunctionBranchState;
use analysis::illegal_code::IllegalCodeState;
use analysis::inline_table::InlineTableState;
use analysis::jump_table::JumpTableStateArm;
use base::refusal::Refusal;
use predicates::Previous;
use walk::{Counts, Machines, Progress};

pub fn goto(s: State, next: u32) -> State
    ensures { result ≡ headed next s }
{
    State { next, ..s }
}

fn with_progress(s: State, progress: Progress) -> State
    ensures { result ≡ progressed progress s }
{
    State { progress, ..s }
}

pub fn raise(s: State, destination: u32) -> State
    ensures { result ≡ progressed (raising destination s.progress) s }
{
    let p = s.progress;
    let last_conditional_destination = p.last_conditional_destination.max(destination);
    with_progress(
        s,
        Progress {
            last_conditional_destination,
            ..p
        },
    )
}

pub fn table_to(s: State, end: u32) -> State
    ensures { result ≡ progressed (table_to end s.progress) s }
{
    let p = s.progress;
    with_progress(
        s,
        Progress {
            jump_table_end_address: end,
            ..p
        },
    )
}

pub fn pool_to(s: State, address: u32) -> State
    ensures { result ≡ progressed (pool_to address s.progress) s }
{
    let p = s.progress;
    let last_pool_address = p.last_pool_address.max(address);
    with_progress(
        s,
        Progress {
            last_pool_address,
            ..p
        },
    )
}

pub fn define(s: State, defined: u16) -> State
    ensures { result ≡ progressed (defining defined s.progress) s }
{
    let p = s.progress;
    with_progress(
        s,
        Progress {
            defined_registers: defined,
            ..p
        },
    )
}

pub fn save(s: State, saved: u32) -> State
    ensures { result ≡ progressed (saving saved s.progress) s }
{
    let p = s.progress;
    with_progress(
        s,
        Progress {
            saved_registers: saved,
            ..p
        },
    )
}

pub fn count(s: State, bytes: u32) -> State
    ensures { result ≡ progressed (counting bytes s.progress) s }
{
    let p = s.progress;
    with_progress(
        s,
        Progress {
            instruction_bytes: bytes,
            ..p
        },
    )
}

// The next turn is at the parser's address.
pub fn move_on(s: State, previous: Previous) -> State
    ensures { result ≡ progressed (moving s.next previous s.progress) s }
{
    let p = s.progress;
    with_progress(
        s,
        Progress {
            address: s.next,
            previous,
            ..p
        },
    )
}

pub fn count_labels(s: State, n: usize) -> State
    ensures { result ≡ counted (count_labels n s.counts) s }
{
    let counts = Counts {
        labels: n,
        ..s.counts
    };
    State { counts, ..s }
}

pub fn count_pools(s: State, n: usize) -> State
    ensures { result ≡ counted (count_pools n s.counts) s }
{
    let counts = Counts {
        pools: n,
        ..s.counts
    };
    State { counts, ..s }
}

pub fn count_jump_tables(s: State, n: usize) -> State
    ensures { result ≡ counted (count_jump_tables n s.counts) s }
{
    let counts = Counts {
        jump_tables: n,
        ..s.counts
    };
    State { counts, ..s }
}

pub fn count_inline_tables(s: State, n: usize) -> State
    ensures { result ≡ counted (count_inline_tables n s.counts) s }
{
    let counts = Counts {
        inline_tables: n,
        ..s.counts
    };
    State { counts, ..s }
}

pub fn count_calls(s: State, n: usize) -> State
    ensures { result ≡ counted (count_calls n s.counts) s }
{
    let counts = Counts {
        calls: n,
        ..s.counts
    };
    State { counts, ..s }
}

pub fn with_call(s: State, call: Option<NewCall>) -> State
    ensures { result ≡ putting call s }
{
    State { call, ..s }
}

pub fn jump_table_to(s: State, jump_table: JumpTableStateArm) -> State
    ensures { result ≡ machined (jump_table_to jump_table s.machines) s }
{
    let machines = Machines {
        jump_table,
        ..s.machines
    };
    State { machines, ..s }
}

pub fn function_branch_to(s: State, function_branch: FunctionBranchState) -> State
    ensures { result ≡ machined (function_branch_to function_branch s.machines) s }
{
    let machines = Machines {
        function_branch,
        ..s.machines
    };
    State { machines, ..s }
}

pub fn inline_table_to(s: State, inline_table: InlineTableState) -> State
    ensures { result ≡ machined (inline_table_to inline_table s.machines) s }
{
    let machines = Machines {
        inline_table,
        ..s.machines
    };
    State { machines, ..s }
}

pub fn illegal_code_to(s: State, illegal_code: IllegalCodeState) -> State
    ensures { result ≡ machined (illegal_code_to illegal_code s.machines) s }
{
    let machines = Machines {
        illegal_code,
        ..s.machines
    };
    State { machines, ..s }
}

pub fn on(state: State) -> Stepped
    ensures { result ≡ record { then = Then.On; state = state } }
{
    Stepped {
        then: Then::On,
        state,
    }
}

pub fn go(state: State) -> Stepped
    ensures { result ≡ record { then = Then.Goes; state = state } }
{
    Stepped {
        then: Then::Goes,
        state,
    }
}

pub fn end(state: State, at: u32) -> Stepped
    ensures { result ≡ record { then = Then.Ends at; state = state } }
{
    Stepped {
        then: Then::Ends(at),
        state,
    }
}

pub fn refuse(state: State, refusal: Refusal) -> Stepped
    ensures { result ≡ record { then = Then.Refuses refusal 0; state = state } }
{
    Stepped {
        then: Then::Refuses {
            refusal,
            register: 0,
        },
        state,
    }
}
