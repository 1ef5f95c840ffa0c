// The walk within a step (functions.rs of ds-decomp, ParseFunctionContext): its state, what a block of the step comes to, and the
// assignments that the blocks make. The definition of the step stands in specs/Blocks.antt.
//
// An address that may be missing is 0 where it is: no address of a program is 0, and the source's `max` and `<` on options then are those
// of numbers.
#![tactic(auto)]

pub mod assign;

ghost use Rattle.std.specs.Prelude.{◌≡◌, ◌+◌, ◌<◌, ◌^◌, ltb};
ghost use Rattle.base.specs.Choice.{pick};
ghost use Rattle.context.specs.Blocks.{is_in, call_to};
ghost use Rattle.context.specs.Context.{saving};
ghost use Rattle.context.specs.State.{is_on, loaded_by, Puts, same, progressed, asks_calls, passes};
ghost use Rattle.context.specs.Turn.{saved_first};
ghost use Rattle.predicates.specs.Predicates.{mode_no};

use arm::Ins;
use base::refusal::Refusal;
use predicates::Mode;
use registers::Registers;
use rows::Rows;
use walk::{Counts, Machines, Options, Progress};

// The numbers in a row of each list. A label: address. A pool: address, value, mark. A table: address, size. A call: address, word,
// destination, mode.
pub const LABEL_ROW: usize = 1;

pub const POOL_ROW: usize = 3;

pub const TABLE_ROW: usize = 2;

pub const CALL_ROW: usize = 4;

pub type Labels<'a> = Rows<'a, LABEL_ROW>;

pub type Pools<'a> = Rows<'a, POOL_ROW>;

pub type Tables<'a> = Rows<'a, TABLE_ROW>;

pub type Calls<'a> = Rows<'a, CALL_ROW>;

// The starts of the known functions are addresses too.
pub type Starts<'a> = Rows<'a, 1>;

// What a walk is over: a host's choices, the module's code, and the starts of its known functions.
#[derive(Clone, Copy)]
pub struct Module<'a> {
    pub options: Options,
    pub code: &'a [u8],
    pub starts: &'a [u32],
}

// An instruction as the source's parser hands it on: what its word decodes to, the word, and how many bytes that has.
#[derive(Clone, Copy)]
pub struct Parsed {
    pub ins: Ins,
    pub word: u32,
    pub size: u32,
}

// The call from the walk's address that a step is to put in the list of calls.
#[derive(Clone, Copy)]
pub struct NewCall {
    pub word: u32,
    pub destination: u32,
    pub mode: Mode,
}

// `next` is the parser's address, where the walk goes on. The walk's registers stand beside the state, not in it: a block that touches none of
// them does not move their two arrays.
#[derive(Clone, Copy)]
pub struct State {
    pub next: u32,
    pub progress: Progress,
    pub machines: Machines,
    pub counts: Counts,
    pub call: Option<NewCall>,
}

// The pool word that a step is to put in a register.
#[derive(Clone, Copy)]
pub struct Load {
    pub register: u8,
    pub value: u32,
    pub address: u32,
}

// What a block comes to: on to the next block, on at the next instruction, the last instruction ended, or a refusal.
#[derive(Clone, Copy)]
pub enum Then {
    On,
    Goes,
    Ends(u32),
    Refuses { refusal: Refusal, register: u8 },
}

// What a block comes to, with the state after it. No `Result`: each of its arms would hold a whole state, and the compiler copies both
// (docs/SPEED.md).
#[derive(Clone, Copy)]
pub struct Stepped {
    pub then: Then,
    pub state: State,
}

// A step, with the pool word that it is to load.
#[derive(Clone, Copy)]
pub struct Loaded {
    pub stepped: Stepped,
    pub load: Option<Load>,
}

// A step, with the registers after it.
#[derive(Clone, Copy)]
pub struct Handled {
    pub stepped: Stepped,
    pub registers: Registers,
}

pub fn is_on(r: Stepped) -> bool
    ensures { result ≡ is_on r.then }
{
    matches!(r.then, Then::On)
}

#[tactic(auto, using(std::proofs::lemmas::Bool::Decides::nat_tests), unfolding(crate::specs::Blocks::is_in))]
pub fn is_in(from: u32, to: u32, address: u32) -> bool
    ensures { result ≡ is_in from to address }
{
    (from..to).contains(&address)
}

// The call from this address. Whether it has a place is asked behind the blocks.
pub fn call_to(s: State, parsed: Parsed, mode: Mode) -> Stepped
    ensures { Puts same same (call_to parsed.ins parsed.word (mode_no mode)) s result }
{
    let call = NewCall {
        word: parsed.word,
        destination: parsed.ins.target,
        mode,
    };
    assign::on(assign::with_call(s, Some(call)))
}

pub fn load_into(registers: &mut Registers, load: Option<Load>)
    ensures { registers.new ≡ loaded_by load registers.old }
{
    if let Some(load) = load {
        registers.hold(load.register, load.value, load.address);
    }
}

pub fn in_conditional_block(s: State) -> bool
    ensures { result ≡ ltb s.progress.address s.progress.last_conditional_destination }
{
    s.progress.address < s.progress.last_conditional_destination
}

// A return asks the calls only where a pool lies further on.
#[tactic(auto, unfolding(crate::specs::State::asks_calls))]
pub fn asks_calls(s: State, size: u32, inside: bool, returns: bool) -> bool
    requires { s.progress.address + size < 2 ^ 32 }
    ensures { result ≡ asks_calls size inside returns s.progress }
{
    !inside && returns && s.progress.address + size < s.progress.last_pool_address
}

// What the first instruction saves: at the start it is this one, and from then on it stays.
fn saved_first(p: Progress, ins: Ins) -> u32
    ensures { result ≡ saved_first ins p }
{
    if p.address == p.start {
        predicates::saved_registers(ins)
    } else {
        p.saved_registers
    }
}

pub fn with_saved(s: State, ins: Ins) -> State
    ensures { result ≡ progressed (saving (saved_first ins s.progress) s.progress) s }
{
    assign::save(s, saved_first(s.progress, ins))
}

// The sum behind a step that goes on: `bytes` behind an instruction, which has come past every block; skipped data adds none.
fn sum_behind(r: Stepped, bytes: u32) -> u32
    ensures { result ≡ pick (is_on r.then) bytes r.state.progress.instruction_bytes }
{
    if is_on(r) {
        bytes
    } else {
        r.state.progress.instruction_bytes
    }
}

// handle_ins: the word becomes the previous instruction, and the walk goes on at the parser's address. `bytes` is the sum with this instruction.
pub fn pass(r: Stepped, ins: Ins, bytes: u32) -> Stepped
    ensures { result ≡ passes ins bytes r }
{
    match r.then {
        Then::On | Then::Goes => {
            let s = assign::count(r.state, sum_behind(r, bytes));
            assign::go(assign::move_on(s, predicates::as_previous(ins)))
        }
        Then::Ends(_) | Then::Refuses { .. } => r,
    }
}
