// Instructions that move words of the stack, and jumps: a function each.
ghost use Rattle.std.specs.Prelude.{◌≡◌, ℕ, ◌+◌, ◌≤◌, ◌==◌, List, [], ◌∷◌, length, Some, IfSome, IfNone, not, slice_get, option_map};
ghost use Rattle.kam_rows.specs.Stacked.{words_on};
ghost use Rattle.kam_rows.specs.Rows.{RowGives, RowJumps};
ghost use Rattle.kam_code.specs.Word.{word_of};
ghost use Rattle.kam_code.specs.Step.{word_at, put_at, without, slid};

use crate::registers::Registers;
use crate::row::Row;

/// Puts a word onto the stack.
#[inline]
pub(crate) fn push(r: &mut Registers, stack: &mut [u64], word: u64) -> Row
    requires { r.old.top ≤ length stack.old }
    ensures top { r.new.top ≤ length stack.old }
    ensures left { r.new.left ≡ r.old.left }
    ensures row { RowGives (Some (word ∷ words_on r.old.top stack.old)) r.old stack.old result r.new stack.new }
{
    if r.top >= r.room {
        return Row::StackFull;
    }
    if r.top >= stack.len() {
        return Row::Full;
    }
    stack[r.top] = word;
    r.top += 1;
    Row::Going
}

#[inline]
pub(crate) fn local(r: &mut Registers, stack: &mut [u64], i: u64) -> Row
    requires { r.old.top ≤ length stack.old }
    ensures top { r.new.top ≤ length stack.old }
    ensures left { r.new.left ≡ r.old.left }
    ensures row { RowGives (option_map (λ w. w ∷ words_on r.old.top stack.old) (word_at (r.old.base + i) (words_on r.old.top stack.old))) r.old stack.old result r.new stack.new }
{
    let Some(at) = r.base.checked_add(i as usize) else {
        return Row::Stuck;
    };
    if at >= r.top {
        return Row::Stuck;
    }
    let word = stack[at];
    push(r, stack, word)
}

#[inline]
pub(crate) fn put_local(r: &mut Registers, stack: &mut [u64], i: u64) -> Row
    requires { r.old.top ≤ length stack.old }
    ensures top { r.new.top ≤ length stack.old }
    ensures left { r.new.left ≡ r.old.left }
    ensures row { RowGives (put_at (r.old.base + i) (words_on r.old.top stack.old)) r.old stack.old result r.new stack.new }
{
    let Some(at) = r.base.checked_add(i as usize) else {
        return Row::Stuck;
    };
    if r.top == 0 || at >= r.top - 1 {
        return Row::Stuck;
    }
    r.top -= 1;
    stack[at] = stack[r.top];
    Row::Going
}

#[inline]
pub(crate) fn pop(r: &mut Registers, n: u64) -> Row
    ensures top { r.new.top ≤ r.old.top }
    ensures left { r.new.left ≡ r.old.left }
    ensures row { (slots : List ℕ) → r.old.top ≤ length slots → RowGives (without n (words_on r.old.top slots)) r.old slots result r.new slots }
{
    let n = n as usize;
    if n > r.top {
        return Row::Stuck;
    }
    r.top -= n;
    Row::Going
}

#[inline]
pub(crate) fn slide(r: &mut Registers, stack: &mut [u64], n: u64) -> Row
    requires { r.old.top ≤ length stack.old }
    ensures top { r.new.top ≤ length stack.old }
    ensures left { r.new.left ≡ r.old.left }
    ensures row { RowGives (slid n (words_on r.old.top stack.old)) r.old stack.old result r.new stack.new }
{
    let n = n as usize;
    if n >= r.top {
        return Row::Stuck;
    }
    stack[r.top - 1 - n] = stack[r.top - 1];
    r.top -= n;
    Row::Going
}

#[inline]
pub(crate) fn pick(r: &mut Registers, stack: &mut [u64], n: u64) -> Row
    requires { r.old.top ≤ length stack.old }
    ensures top { r.new.top ≤ length stack.old }
    ensures left { r.new.left ≡ r.old.left }
    ensures row { RowGives (option_map (λ w. w ∷ words_on r.old.top stack.old) (slice_get (words_on r.old.top stack.old) n)) r.old stack.old result r.new stack.new }
{
    let n = n as usize;
    if n >= r.top {
        return Row::Stuck;
    }
    let word = stack[r.top - 1 - n];
    push(r, stack, word)
}

#[inline]
pub(crate) fn jump(r: &mut Registers, a: u32) -> Row
    ensures top { r.new.top ≡ r.old.top }
    ensures left { r.new.left ≡ r.old.left }
    ensures row { r.new ≡ record r.old { address = a } }
{
    r.address = a as usize;
    Row::Going
}

// The word on top, which leaves.
#[inline]
fn taken(r: &mut Registers, stack: &[u64]) -> Option<u64>
    requires { r.old.top ≤ length stack.now }
    ensures top { r.new.top ≤ length stack.now }
    ensures left { r.new.left ≡ r.old.left }
    ensures word { IfSome result (λ v. (words_on r.old.top stack.now ≡ v ∷ words_on r.new.top stack.now) × (r.new ≡ record r.old { top = r.new.top })) }
    ensures none { IfNone result ((words_on r.old.top stack.now ≡ []) × (r.new ≡ r.old)) }
{
    if r.top == 0 {
        return None;
    }
    r.top -= 1;
    Some(stack[r.top])
}

#[inline]
pub(crate) fn jump_if(r: &mut Registers, stack: &[u64], a: u32) -> Row
    requires { r.old.top ≤ length stack.now }
    ensures top { r.new.top ≤ length stack.now }
    ensures left { r.new.left ≡ r.old.left }
    ensures row { RowJumps (λ v. not (v == 0)) a r.old stack.now result r.new }
{
    let Some(v) = taken(r, stack) else {
        return Row::Stuck;
    };
    if v != 0 {
        r.address = a as usize;
    }
    Row::Going
}

#[inline]
pub(crate) fn jump_not(r: &mut Registers, stack: &[u64], a: u32, k: i64) -> Row
    requires { r.old.top ≤ length stack.now }
    ensures top { r.new.top ≤ length stack.now }
    ensures left { r.new.left ≡ r.old.left }
    ensures row { RowJumps (λ v. not (v == word_of k)) a r.old stack.now result r.new }
{
    let Some(v) = taken(r, stack) else {
        return Row::Stuck;
    };
    if v != k.cast_unsigned() {
        r.address = a as usize;
    }
    Row::Going
}
