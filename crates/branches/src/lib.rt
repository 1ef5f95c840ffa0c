// The blocks of a step about branches, returns and calls.
#![tactic(auto)]

ghost use Rattle.std.specs.Prelude.{◌≡◌, not, ℕ, ◌+◌, ◌<◌, ◌^◌, ltb, leb, length};
ghost use Rattle.analysis.specs.FunctionBranch.{function_branch, is_function_branch};
ghost use Rattle.base.specs.Choice.{both, either};
ghost use Rattle.std.specs.Prelude.{Some};
ghost use Rattle.predicates.specs.Predicates.{is_branch, is_entry_instruction};
ghost use Rattle.rows.specs.Map.{Held, map_in, stands-in};
ghost use Rattle.context.specs.Context.{label_row, pool_row, function_branch_to};
ghost use Rattle.context.specs.Blocks.{branch_outside, saved_by_word, saved_at, is_entry_at, final_return, entry_after_branch, branch, function_call};
ghost use Rattle.context.specs.State.{Does, Puts, PutsIf, ToldOfCalls, same, machined, labels_in, pools_in, code_in, options_in, starts_in};

use arm::Ins;
use base::refusal::Refusal;
use base::word::word_from;
use context::{Module, NewCall, Parsed, Starts, State, Stepped, assign, call_to, is_in};
use labels::handle_label;
use predicates::Mode;
use walk::Progress;

pub fn branch_outside(s: State, ins: Ins) -> Stepped
    ensures { Does same same (branch_outside ins) s result }
{
    if predicates::is_branch(ins) && !is_in(0x01FF_8000, 0x0300_0000, ins.target) {
        return assign::refuse(s, Refusal::BranchOutside);
    }
    assign::on(s)
}

// How many registers STMDB SP!, {.., LR, ..} and STR LR, [SP, #-4]! save: the word's fields are tested, since a second use of the decoder is slow.
fn saved_by_word(word: u32) -> u32
    ensures { (a : ℕ) → result ≡ saved_by_word (Some word) a }
{
    if word / 0x1_0000 == 0xE92D {
        let list = word % 0x1_0000;
        if list / 0x4000 % 2 == 1 {
            list.count_ones()
        } else {
            0
        }
    } else if word == 0xE52D_E004 {
        1
    } else {
        0
    }
}

fn saved_at(code: &[u8], base: u32, address: u32) -> u32
    ensures { result ≡ saved_at code.now base address }
{
    word_from(code, base, address).map_or(0, saved_by_word)
}

// is_long_branch_destination of the address behind the instruction
#[tactic(auto, using(std::proofs::lemmas::Bool::Decides::nat_tests))]
fn is_long_branch(m: Module, end: u32, last_pool_address: u32, is_called: bool) -> bool
    ensures { result ≡ both (ltb end last_pool_address) (both is_called (not (is_entry_at m.entry.code.now m.entry.options.base end))) }
{
    end < last_pool_address && is_called && saved_at(m.code, m.options.base, end) == 0
}

#[tactic(auto, using(std::proofs::lemmas::Bool::Decides::nat_tests))]
fn is_tail_call(start: u32, end: u32, ins: Ins) -> bool
    ensures { result ≡ both (is_branch ins) (either (ltb ins.target start) (leb end ins.target)) }
{
    predicates::is_branch(ins) && (ins.target < start || end <= ins.target)
}

// `is_called_next` is asked of the calls before (`ToldOfCalls`). No struct of it with the source's two locals, `inside` and `returns`: it would
// be made once and taken apart in the next call.
pub fn final_return(
    m: Module,
    s: State,
    parsed: Parsed,
    inside: bool,
    returns: bool,
    is_called_next: bool,
) -> Stepped
    requires { s.progress.address + parsed.size < 2 ^ 32 }
    ensures { PutsIf (ToldOfCalls parsed.size inside returns is_called_next s) (λ l. code_in m.entry.code.now (options_in m.entry.options l)) (λ l. code_in m.entry.code.now (options_in m.entry.options l)) (final_return parsed.ins parsed.word parsed.size inside returns) s result }
{
    if inside || !returns {
        return assign::on(s);
    }
    let end = s.progress.address + parsed.size;
    if is_long_branch(m, end, s.progress.last_pool_address, is_called_next) {
        return assign::on(assign::raise(s, end));
    }
    if is_tail_call(s.progress.start, end, parsed.ins) {
        let call = NewCall {
            word: parsed.word,
            destination: parsed.ins.target,
            mode: Mode::Arm,
        };
        return assign::end(assign::with_call(s, Some(call)), end);
    }
    assign::end(s, end)
}

#[tactic(auto, using(std::proofs::lemmas::Bool::Decides::nat_tests))]
fn is_entry_after_branch(p: Progress, ins: Ins, inside: bool) -> bool
    ensures { result ≡ both (ltb p.start p.address) (both (is_entry_instruction ins) (both p.previous.is_branch (either inside p.previous.is_conditional))) }
{
    p.start < p.address
        && predicates::saved_registers(ins) > 0
        && p.previous.is_branch
        && (inside || p.previous.is_conditional)
}

pub fn entry_after_branch(s: State, ins: Ins, inside: bool) -> Stepped
    ensures { Does same same (entry_after_branch ins inside) s result }
{
    let p = s.progress;
    if is_entry_after_branch(p, ins, inside) {
        return assign::end(s, p.address);
    }
    assign::on(s)
}

// self.function_branch_state = self.function_branch_state.handle(ins)
fn branched(s: State, ins: Ins) -> State
    ensures { result ≡ machined (function_branch_to (function_branch s.machines.function_branch ins) s.machines) s }
{
    assign::function_branch_to(s, s.machines.function_branch.handle(ins))
}

// A branch goes to a label where the destination is in the module and no other function's.
#[tactic(auto, using(std::proofs::lemmas::Bool::Decides::nat_tests))]
fn is_label(s: State, ins: Ins, in_module: bool, starts: &[u32]) -> bool
    requires { Held 1 (length starts.now) starts.now }
    ensures { result ≡ both in_module (not (either (is_function_branch s.machines.function_branch) (stands-in (map_in 1 (length starts.now) starts.now) ins.target))) }
{
    in_module
        && !s.machines.function_branch.is_function_branch()
        && !Starts::new(starts, starts.len()).contains(ins.target)
}

// One to another function is the last instruction, where that is in the module and no condition passes the branch over.
fn is_last(in_module: bool, conditional: bool, inside: bool) -> bool
    ensures { result ≡ both in_module (both (not conditional) (not inside)) }
{
    in_module && !conditional && !inside
}

// The label is asked for first and the end before the call, so that each arm stands once; the source asks for the module, another function and
// the label in turn.
pub fn branch(
    m: Module,
    s: State,
    parsed: Parsed,
    inside: bool,
    labels: &mut [u32],
    pools: &[u32],
) -> Stepped
    requires { Held 1 (length m.starts.now) m.starts.now × Held label_row s.counts.labels labels.old × Held pool_row s.counts.pools pools.now × (s.progress.address + parsed.size < 2 ^ 32) }
    ensures { Puts (λ l. starts_in m.entry.starts.now (options_in m.entry.options (labels_in labels.old (pools_in pools.now l)))) (λ l. starts_in m.entry.starts.now (options_in m.entry.options (labels_in labels.new (pools_in pools.now l)))) (branch parsed.ins parsed.word parsed.size inside) s result }
{
    let ins = parsed.ins;
    let t = branched(s, ins);
    if !predicates::is_branch(ins) {
        return assign::on(t);
    }
    let in_module = is_in(m.options.module_start, m.options.module_end, ins.target);
    let conditional = ins.is_conditional();
    if is_label(t, ins, in_module, m.starts) {
        return handle_label(t, parsed, inside, labels, pools);
    }
    if is_last(in_module, conditional, inside) {
        return assign::end(t, s.progress.address + parsed.size);
    }
    call_to(t, parsed, Mode::Arm)
}

pub fn function_call(s: State, parsed: Parsed) -> Stepped
    ensures { Puts same same (function_call parsed.ins parsed.word) s result }
{
    match predicates::is_function_call(parsed.ins) {
        Some(mode) => call_to(s, parsed, mode),
        None => assign::on(s),
    }
}
