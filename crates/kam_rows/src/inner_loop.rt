// The loop over the instructions that are made within it.
ghost use Rattle.std.specs.Prelude.{◌≡◌, ◌+◌, ◌^◌, ◌<◌, ◌≤◌, length};
ghost use Rattle.kam_store.specs.Store.{words_in};
ghost use Rattle.kam_rows.specs.Charged.{given_back};

use crate::number_rows::{
    add, boxed, div, greater, greater_equal, less, less_equal, modulo, mul, neg, same, sub,
};
use crate::registers::{Frame, Registers};
use crate::row::Row;
use crate::stack_rows::{jump, jump_if, jump_not, local, pick, pop, push, put_local, slide};
use crate::store_rows::{allocate, call, env, field, leave, region_end, region_new, set_field};
use kam_code::Instr;
use kam_store::RegionStore;

// One instruction; its 1 is charged, and the address is the next one's.
#[tactic(auto, using(crate::proofs::Charged::given_back_at_most))]
#[inline]
fn step<R: RegionStore>(
    instr: Instr,
    r: &mut Registers,
    stack: &mut [u64],
    frames: &mut Vec<Frame>,
    store: &mut R,
) -> Row
    requires top { r.old.top ≤ length stack.old }
    requires words { words_in (R.store store.old).live + r.old.left + 1 ≤ 1000000000 }
    requires made { (R.store store.old).made + r.old.left + 1 ≤ 1000000001 }
    ensures top { r.new.top ≤ length stack.old }
    ensures left { r.new.left ≤ r.old.left }
    ensures words { words_in (R.store store.new).live + r.new.left + given_back result ≤ 1000000000 }
    ensures made { (R.store store.new).made + r.new.left + given_back result ≤ 1000000001 }
{
    match instr {
        Instr::Const(k) => push(r, stack, k.cast_unsigned()),
        Instr::Local(i) => local(r, stack, i),
        Instr::PutLocal(i) => put_local(r, stack, i),
        Instr::Env(i) => env(r, stack, store, i),
        Instr::SelfPointer => {
            let closure = r.closure;
            push(r, stack, closure)
        }
        Instr::Pop(n) => pop(r, n),
        Instr::Slide(n) => slide(r, stack, n),
        Instr::Pick(n) => pick(r, stack, n),
        Instr::Add => add(r, stack),
        Instr::Sub => sub(r, stack),
        Instr::Mul => mul(r, stack),
        Instr::Div => div(r, stack),
        Instr::Mod => modulo(r, stack),
        Instr::Neg => neg(r, stack),
        Instr::Less => less(r, stack),
        Instr::LessEqual => less_equal(r, stack),
        Instr::Greater => greater(r, stack),
        Instr::GreaterEqual => greater_equal(r, stack),
        Instr::Same => same(r, stack),
        Instr::Jump(a) => jump(r, a),
        Instr::JumpIf(a) => jump_if(r, stack, a),
        Instr::JumpNot(a, k) => jump_not(r, stack, a, k),
        Instr::Call(n) => call(r, stack, frames, store, n),
        Instr::Return => leave(r, stack, frames),
        Instr::Halt => Row::Halted,
        Instr::RegionNew => region_new(r, stack, store),
        Instr::RegionEnd => region_end(r, stack, store),
        Instr::Alloc(n) => allocate(r, stack, store, n),
        Instr::Field(i) => field(r, stack, store, i),
        Instr::SetField(i) => set_field(r, stack, store, i),
        Instr::Boxed => boxed(r, stack),
        _ => Row::Slow,
    }
}

// Gives the 1 and the address back that an instruction took that isn't made.
#[inline(always)]
fn give_back(r: &mut Registers, row: Row)
    requires { r.old.left < 2 ^ 63 }
    ensures left { r.new.left ≡ r.old.left + given_back row }
    ensures top { r.new.top ≡ r.old.top }
{
    match row {
        Row::Going | Row::Halted => {}
        Row::Full
        | Row::Slow
        | Row::Overflow
        | Row::DivByZero
        | Row::Stuck
        | Row::Budget
        | Row::StackFull
        | Row::NoPage
        | Row::NoMemory => {
            r.left += 1;
            r.address = r.address.wrapping_sub(1);
        }
    }
}

/// Makes steps until an instruction isn't made within the loop. A used-up budget comes before all else.
#[inline(never)]
pub fn make_turns<R: RegionStore>(
    code: &[Instr],
    registers: &mut Registers,
    stack: &mut [u64],
    frames: &mut Vec<Frame>,
    store: &mut R,
) -> Row
    requires top { registers.old.top ≤ length stack.old }
    requires words { words_in (R.store store.old).live + registers.old.left ≤ 1000000000 }
    requires made { (R.store store.old).made + registers.old.left ≤ 1000000001 }
    ensures top { registers.new.top ≤ length stack.old }
    ensures left { registers.new.left ≤ registers.old.left }
    ensures words { words_in (R.store store.new).live + registers.new.left ≤ 1000000000 }
    ensures made { (R.store store.new).made + registers.new.left ≤ 1000000001 }
    ensures used_up { registers.old.left ≡ 0 → result ≡ Row.Budget }
{
    let mut r = *registers;
    let mut row = Row::Budget;
    'turn: while r.left > 0 {
        let Some(instr) = code.get(r.address) else {
            row = Row::Stuck;
            break;
        };
        r.left -= 1;
        r.address = r.address.wrapping_add(1);
        let now = step(*instr, &mut r, stack, frames, store);
        match now {
            Row::Going => {}
            _ => {
                give_back(&mut r, now);
                row = now;
                break;
            }
        }
    }
    *registers = r;
    row
}
