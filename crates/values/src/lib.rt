// The blocks of a step about registers and the values that they hold: illegal code, pool words loaded and called, registers used undefined.
#![tactic(auto)]

ghost use Rattle.std.specs.Prelude.{◌≡◌};
ghost use Rattle.rows.specs.Map.{Held, map_in};
ghost use Rattle.context.specs.Context.{pool_row};
ghost use Rattle.context.specs.Blocks.{illegal_code, marked, mark_pool, pool_load, check_defined};
ghost use Rattle.context.specs.State.{Does, same, pools_in, code_in, options_in, registers_in, loaded_in};
ghost use Rattle.values.specs.Usage.{usage_no};

use analysis::illegal_code::IllegalCodeState;
use arm::Ins;
use base::refusal::Refusal;
use base::word::word_from;
use context::{Load, Loaded, Module, Pools, State, Stepped, Then, assign};
use registers::Registers;
use walk::{Options, checking};

// How the function uses a pool word, with its number in a row of the pools.
#[derive(Clone, Copy)]
enum PoolConstantUsage {
    Other = 0,
    Call = 1,
}

impl From<PoolConstantUsage> for u32 {
    ghost from_gives = { λ usage n. n ≡ usage_no usage };

    fn from(usage: PoolConstantUsage) -> u32 {
        usage as u32
    }
}

pub fn illegal_code(s: State, ins: Ins) -> Stepped
    ensures { Does same same (illegal_code ins) s result }
{
    let next = s.machines.illegal_code.handle(ins);
    let t = assign::illegal_code_to(s, next);
    if let IllegalCodeState::Illegal { reason } = next {
        return assign::refuse(t, reason);
    }
    assign::on(t)
}

// The pool at that address is used by a call.
fn mark(pools: &mut [u32], count: usize, address: u32)
    requires { Held pool_row count pools.old }
    ensures { Held pool_row count pools.new × (map_in pool_row count pools.new ≡ marked address (map_in pool_row count pools.old)) }
{
    let held = Pools::new(pools, count);
    if let Some(k) = held.index_of(address) {
        let value = held.rows[k][1];
        let row = [address, value, PoolConstantUsage::Call.into()];
        // It is held, so it has its place.
        let _ = Pools::enter(pools, count, row);
    }
}

// An unconditional Bx marks the pool that its register came from.
pub fn mark_pool(s: State, registers: &Registers, ins: Ins, pools: &mut [u32])
    requires { Held pool_row s.counts.pools pools.old }
    ensures { Does (λ l. registers_in registers.now (pools_in pools.old l)) (λ l. registers_in registers.now (pools_in pools.new l)) (mark_pool ins) s (record { then = Then.On; state = s }) }
{
    if !predicates::is_bx(ins) {
        return;
    }
    if let Some(source) = registers.source_of(ins.rm) {
        mark(pools, s.counts.pools, source);
    }
}

// The word goes into its register behind the blocks: none of those that follow asks for it.
pub fn pool_load(m: Module, s: State, ins: Ins, pools: &mut [u32]) -> Loaded
    requires { Held pool_row s.counts.pools pools.old }
    ensures { Does (λ l. code_in m.entry.code.now (options_in m.entry.options (pools_in pools.old l))) (λ l. loaded_in result.load (code_in m.entry.code.now (options_in m.entry.options (pools_in pools.new l)))) (pool_load ins) s result.stepped }
{
    let n = s.counts;
    let p = s.progress;
    if !predicates::is_pool_load(ins) {
        return Loaded {
            stepped: assign::on(s),
            load: None,
        };
    }
    let address = predicates::pool_address(p.address, ins);
    let Some(value) = word_from(m.code, m.options.base, address) else {
        return Loaded {
            stepped: assign::refuse(s, Refusal::PoolOutside),
            load: None,
        };
    };
    let row = [address, value, PoolConstantUsage::Other.into()];
    match Pools::enter(pools, n.pools, row) {
        Ok(count) => Loaded {
            stepped: assign::on(assign::pool_to(assign::count_pools(s, count), address)),
            load: Some(Load {
                register: ins.rd,
                value,
                address,
            }),
        },
        Err(refusal) => Loaded {
            stepped: assign::refuse(s, refusal),
            load: None,
        },
    }
}

pub fn check_defined(o: Options, s: State, ins: Ins, returns: bool) -> Stepped
    ensures { Does (options_in o) (options_in o) (check_defined ins returns) s result }
{
    let p = s.progress;
    if let Some(register) = checking::undefined_register(o.check, p.defined_registers, ins) {
        return Stepped {
            then: Then::Refuses {
                refusal: Refusal::UndefinedRegister,
                register,
            },
            state: s,
        };
    }
    let defined = checking::defined_after(o.check, p.defined_registers, ins, returns);
    assign::on(assign::define(s, defined))
}
