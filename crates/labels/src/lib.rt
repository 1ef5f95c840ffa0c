// `handle_label`: a branch to a label of the function, with the jump past pools.
#![tactic(auto)]

ghost use Rattle.std.specs.Prelude.{◌≡◌, ◌+◌, ◌<◌, ◌^◌};
ghost use Rattle.rows.specs.Map.{Held};
ghost use Rattle.context.specs.Context.{label_row, pool_row};
ghost use Rattle.context.specs.Blocks.{past_pools, handle_label};
ghost use Rattle.context.specs.State.{Does, labels_in, pools_in};
ghost use Rattle.labels.specs.Labels.{DoesOver, raises_by, raised_by};

use arm::Ins;
use base::refusal::Refusal;
use context::{Labels, Parsed, Pools, State, Stepped, assign};
use walk::Progress;

// handle_label: the jump past pools
fn past_pools(s: State, parsed: Parsed, labels: &Labels, pools: &Pools) -> Stepped
    requires { s.progress.address + parsed.size < 2 ^ 32 }
    ensures { DoesOver labels.now.rows.now pools.now.rows.now (past_pools parsed.ins parsed.size) s result }
{
    let pc = s.next;
    let next = s.progress.address + parsed.size;
    if !pools.contains(next) {
        return assign::on(s);
    }
    match labels.at_or_above(pc) {
        Some(k) => assign::on(assign::goto(s, labels.rows[k][0])),
        None if s.progress.address < parsed.ins.target => assign::end(s, next),
        None => match pools.first_gap(next) {
            Some(after) => assign::on(assign::goto(s, after)),
            None => assign::refuse(s, Refusal::Beyond32Bits),
        },
    }
}

// A branch to a label raises the last conditional destination within a conditional block, under a condition, or in a jump table.
fn raises_label(p: Progress, ins: Ins, inside: bool) -> bool
    ensures { result ≡ raises_by ins inside p }
{
    inside || ins.is_conditional() || p.address < p.jump_table_end_address
}

fn label_raised(s: State, ins: Ins, inside: bool) -> State
    ensures { result ≡ raised_by ins inside s }
{
    if raises_label(s.progress, ins, inside) {
        assign::raise(s, ins.target)
    } else {
        s
    }
}

pub fn handle_label(
    s: State,
    parsed: Parsed,
    inside: bool,
    labels: &mut [u32],
    pools: &[u32],
) -> Stepped
    requires { Held label_row s.counts.labels labels.old × Held pool_row s.counts.pools pools.now × (s.progress.address + parsed.size < 2 ^ 32) }
    ensures { Does (λ l. labels_in labels.old (pools_in pools.now l)) (λ l. labels_in labels.new (pools_in pools.now l)) (handle_label parsed.ins parsed.size inside) s result }
{
    match Labels::enter(labels, s.counts.labels, [parsed.ins.target]) {
        Ok(count) => {
            let t = assign::count_labels(s, count);
            let labels = Labels::new(labels, count);
            let pools = Pools::new(pools, s.counts.pools);
            past_pools(label_raised(t, parsed.ins, inside), parsed, &labels, &pools)
        }
        Err(refusal) => assign::refuse(s, refusal),
    }
}
