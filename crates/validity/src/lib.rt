// The first four refusals: whether what a host hands in is valid. `begin` and `step` give the first check that fails.
#![tactic(auto)]

ghost use Rattle.std.specs.Prelude.{◌≡◌, length};
ghost use Rattle.context.specs.Turn.{key_or0};
ghost use Rattle.rows.specs.Map.{last_key};
ghost use Rattle.validity.specs.Validity.{is_window, is_in_code, are_starts, begin_check, is_whole, are_whole, are_held, are_pools, are_bytes, are_lists, step_check};

use base::refusal::Refusal;
use context::{Pools, Starts};
use lists::LentLists;
use walk::{Options, Progress, Walk};

// The addresses of a program.
const LOW: u32 = 0x01FF_8000;

const HIGH: u32 = 0x0300_0000;

#[tactic(auto, using(std::proofs::lemmas::Bool::Decides::nat_tests), unfolding(crate::specs::Validity::is_window))]
fn is_window(o: Options, length: usize) -> bool
    ensures { result ≡ is_window o length }
{
    (LOW..=HIGH).contains(&o.base)
        && length <= (HIGH - o.base) as usize
        && o.module_end <= HIGH
        && o.module_start <= o.module_end
}

#[tactic(auto, using(std::proofs::lemmas::Bool::Decides::nat_tests), unfolding(crate::specs::Validity::is_in_code))]
fn is_in_code(base: u32, length: usize, start: u32) -> bool
    ensures { result ≡ is_in_code base length start }
{
    base <= start && (start - base) as usize <= length
}

#[tactic(auto, unfolding(crate::specs::Validity::are_starts))]
fn are_starts(starts: &[u32]) -> bool
    ensures { result ≡ are_starts starts.now }
{
    Starts::in_order(starts, starts.len())
}

#[tactic(auto, using(std::proofs::lemmas::Bool::Decides::nat_tests), unfolding(crate::specs::Validity::begin_check))]
pub fn begin(o: Options, start: u32, length: usize, starts: &[u32]) -> Result<(), Refusal>
    ensures { result ≡ begin_check o start length starts.now }
{
    if !is_window(o, length) {
        return Err(Refusal::BadWindow);
    }
    if !is_in_code(o.base, length, start) {
        return Err(Refusal::BadStart);
    }
    if start % 4 != 0 {
        return Err(Refusal::UnalignedStart);
    }
    if !are_starts(starts) {
        return Err(Refusal::BadLists);
    }
    Ok(())
}

#[tactic(auto, using(std::proofs::lemmas::Bool::Decides::nat_tests), unfolding(crate::specs::Validity::is_whole))]
fn is_whole(base: u32, length: usize, pool: u32) -> bool
    ensures { result ≡ is_whole base length pool }
{
    base <= pool && (pool - base) as usize + 4 <= length
}

fn are_whole(base: u32, length: usize, pools: &Pools) -> bool
    ensures { result ≡ are_whole base length pools.now.rows.now }
{
    pools
        .rows
        .iter()
        .all(|pool| is_whole(base, length, pool[0]))
}

fn are_held(sources: [u32; 16], pools: &Pools) -> bool
    ensures { result ≡ are_held sources pools.now.rows.now }
{
    sources.iter().all(|&at| at == 0 || pools.contains(at))
}

// The last pool, 0 where there is none, as the walk's state has a missing address.
fn last_pool(pools: &Pools) -> u32
    ensures { result ≡ key_or0 (last_key pools.now.rows.now) }
{
    pools.last().unwrap_or(0)
}

#[tactic(auto, unfolding(crate::specs::Validity::are_pools))]
fn are_pools(
    base: u32,
    length: usize,
    last_pool_address: u32,
    sources: [u32; 16],
    pools: &Pools,
) -> bool
    ensures { result ≡ are_pools base length last_pool_address sources pools.now.rows.now }
{
    are_whole(base, length, pools)
        && last_pool_address == last_pool(pools)
        && are_held(sources, pools)
}

#[tactic(auto, using(std::proofs::lemmas::Bool::Decides::nat_tests), unfolding(crate::specs::Validity::are_bytes))]
fn are_bytes(p: Progress) -> bool
    ensures { result ≡ are_bytes p }
{
    p.start as u64 + p.instruction_bytes as u64 <= p.address as u64
}

#[tactic(auto, unfolding(crate::specs::Validity::are_lists))]
fn are_lists<L: LentLists>(o: Options, length: usize, w: Walk, lists: &L) -> bool
    ensures { result ≡ are_lists o length w (L.numbers lists.now) }
{
    let n = w.counts;
    let last_pool_address = w.progress.last_pool_address;
    let sources = w.registers.sources;
    lists.in_order(n)
        && are_pools(
            o.base,
            length,
            last_pool_address,
            sources,
            &Pools::new(lists.pools(), n.pools),
        )
}

#[tactic(auto, using(std::proofs::lemmas::Bool::Decides::nat_tests), unfolding(crate::specs::Validity::step_check))]
pub fn step<L: LentLists>(
    o: Options,
    length: usize,
    starts: &[u32],
    w: Walk,
    lists: &L,
) -> Result<(), Refusal>
    ensures { result ≡ step_check o length starts.now w (L.numbers lists.now) }
{
    let p = w.progress;
    if !is_window(o, length) {
        return Err(Refusal::BadWindow);
    }
    if !is_in_code(o.base, length, p.start) || p.address < o.base {
        return Err(Refusal::BadStart);
    }
    if p.start % 4 != 0 {
        return Err(Refusal::UnalignedStart);
    }
    if !are_starts(starts) || !are_bytes(p) || !are_lists(o, length, w, lists) {
        return Err(Refusal::BadLists);
    }
    Ok(())
}
