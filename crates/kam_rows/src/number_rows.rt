// Instructions on numbers and words: a function each.
ghost use Rattle.std.specs.Prelude.{◌≡◌, ◌-◌, ◌≤◌, ◌<◌, ◌∷◌, ◌+ℤ◌, ◌-ℤ◌, ◌*ℤ◌, ◌==◌, int_lt, int_le, neg_ℤ, nat_le, ◌^◌, [], length, IfSome, IfNone, OnSome};
ghost use Rattle.kam_rows.specs.Stacked.{words_on};
ghost use Rattle.kam_rows.specs.Rows.{HasWords, IsKept, RowOfOne, RowOfTwo};
ghost use Rattle.kam_code.specs.Word.{number_of, word_of};
ghost use Rattle.kam_code.specs.Memory.{number_of_bool};
ghost use Rattle.kam_code.specs.Step.{Word, number_result};

use crate::registers::Registers;
use crate::row::Row;

// The word on top.
#[inline]
fn one(r: &Registers, stack: &[u64]) -> Option<u64>
    requires { r.now.top ≤ length stack.now }
    ensures top { OnSome result (1 ≤ r.now.top) }
    ensures word { IfSome result (λ a. words_on r.now.top stack.now ≡ a ∷ words_on (r.now.top - 1) stack.now) }
    ensures none { IfNone result (words_on r.now.top stack.now ≡ []) }
{
    if r.top == 0 {
        return None;
    }
    Some(stack[r.top - 1])
}

// The two words on top, the topmost last.
#[inline]
fn two(r: &Registers, stack: &[u64]) -> Option<(u64, u64)>
    requires { r.now.top ≤ length stack.now }
    ensures top { OnSome result (2 ≤ r.now.top) }
    ensures words { IfSome result (λ ab. words_on r.now.top stack.now ≡ ab.1 ∷ ab.0 ∷ words_on (r.now.top - 2) stack.now) }
    ensures few { IfNone result (r.now.top < 2) }
{
    if r.top < 2 {
        return None;
    }
    Some((stack[r.top - 2], stack[r.top - 1]))
}

// A word in place of the one on top.
#[inline]
fn put_one(r: &Registers, stack: &mut [u64], word: u64) -> Row
    requires top { r.now.top ≤ length stack.old }
    requires one { 1 ≤ r.now.top }
    ensures row { result ≡ Row.Going }
    ensures words { words_on r.now.top stack.new ≡ word ∷ words_on (r.now.top - 1) stack.old }
{
    stack[r.top - 1] = word;
    Row::Going
}

// A word in place of the two on top.
#[inline]
fn put_two(r: &mut Registers, stack: &mut [u64], word: u64) -> Row
    requires top { r.old.top ≤ length stack.old }
    requires two { 2 ≤ r.old.top }
    ensures top { r.new.top ≤ length stack.old }
    ensures left { r.new.left ≡ r.old.left }
    ensures row { result ≡ Row.Going }
    ensures words { HasWords (word ∷ words_on (r.old.top - 2) stack.old) r.old r.new stack.new }
{
    r.top -= 1;
    stack[r.top - 1] = word;
    Row::Going
}

// A number in place of the two on top, or `Overflow`.
#[inline]
fn put_number(r: &mut Registers, stack: &mut [u64], number: Option<i64>) -> Row
    requires top { r.old.top ≤ length stack.old }
    requires two { 2 ≤ r.old.top }
    ensures top { r.new.top ≤ length stack.old }
    ensures left { r.new.left ≡ r.old.left }
    ensures number { IfSome number (λ z. (result ≡ Row.Going) × HasWords (word_of z ∷ words_on (r.old.top - 2) stack.old) r.old r.new stack.new) }
    ensures none { IfNone number ((result ≡ Row.Overflow) × IsKept r.old stack.old r.new stack.new) }
{
    match number {
        Some(number) => put_two(r, stack, number.cast_unsigned()),
        None => Row::Overflow,
    }
}

#[inline]
pub(crate) fn add(r: &mut Registers, stack: &mut [u64]) -> Row
    requires { r.old.top ≤ length stack.old }
    ensures row { RowOfTwo (λ a b. number_result (number_of a +ℤ number_of b)) r.old stack.old result r.new stack.new }
    ensures top { r.new.top ≤ length stack.old }
    ensures left { r.new.left ≡ r.old.left }
{
    let Some((a, b)) = two(r, stack) else {
        return Row::Stuck;
    };
    put_number(r, stack, a.cast_signed().checked_add(b.cast_signed()))
}

#[inline]
pub(crate) fn sub(r: &mut Registers, stack: &mut [u64]) -> Row
    requires { r.old.top ≤ length stack.old }
    ensures top { r.new.top ≤ length stack.old }
    ensures left { r.new.left ≡ r.old.left }
    ensures row { RowOfTwo (λ a b. number_result (number_of a -ℤ number_of b)) r.old stack.old result r.new stack.new }
{
    let Some((a, b)) = two(r, stack) else {
        return Row::Stuck;
    };
    put_number(r, stack, a.cast_signed().checked_sub(b.cast_signed()))
}

#[inline]
pub(crate) fn mul(r: &mut Registers, stack: &mut [u64]) -> Row
    requires { r.old.top ≤ length stack.old }
    ensures top { r.new.top ≤ length stack.old }
    ensures left { r.new.left ≡ r.old.left }
    ensures row { RowOfTwo (λ a b. number_result (number_of a *ℤ number_of b)) r.old stack.old result r.new stack.new }
{
    let Some((a, b)) = two(r, stack) else {
        return Row::Stuck;
    };
    put_number(r, stack, a.cast_signed().checked_mul(b.cast_signed()))
}

// The quotient, rounded towards minus infinity, unless it has more than 64 bits.
fn quotient(a: i64, b: i64) -> Option<i64> {
    let toward_zero = a.checked_div(b)?;
    if a.wrapping_rem(b) != 0 && (a < 0) != (b < 0) {
        return toward_zero.checked_sub(1);
    }
    Some(toward_zero)
}

// What the quotient leaves, with the divisor's sign.
fn modulus(a: i64, b: i64) -> i64 {
    if b == 0 {
        return 0;
    }
    let rest = a.wrapping_rem(b);
    if rest != 0 && (rest < 0) != (b < 0) {
        return rest.wrapping_add(b);
    }
    rest
}

#[inline]
pub(crate) fn div(r: &mut Registers, stack: &mut [u64]) -> Row
    requires { r.old.top ≤ length stack.old }
    ensures top { r.new.top ≤ length stack.old }
    ensures left { r.new.left ≡ r.old.left }
{
    let Some((a, b)) = two(r, stack) else {
        return Row::Stuck;
    };
    if b == 0 {
        return Row::DivByZero;
    }
    put_number(r, stack, quotient(a.cast_signed(), b.cast_signed()))
}

#[inline]
pub(crate) fn modulo(r: &mut Registers, stack: &mut [u64]) -> Row
    requires { r.old.top ≤ length stack.old }
    ensures top { r.new.top ≤ length stack.old }
    ensures left { r.new.left ≡ r.old.left }
{
    let Some((a, b)) = two(r, stack) else {
        return Row::Stuck;
    };
    if b == 0 {
        return Row::DivByZero;
    }
    put_two(
        r,
        stack,
        modulus(a.cast_signed(), b.cast_signed()).cast_unsigned(),
    )
}

#[inline]
pub(crate) fn neg(r: &Registers, stack: &mut [u64]) -> Row
    requires { r.now.top ≤ length stack.old }
    ensures row { RowOfOne (λ a. number_result (neg_ℤ (number_of a))) r.now stack.old result stack.new }
{
    let Some(a) = one(r, stack) else {
        return Row::Stuck;
    };
    match 0i64.checked_sub(a.cast_signed()) {
        Some(number) => put_one(r, stack, number.cast_unsigned()),
        None => Row::Overflow,
    }
}

#[inline]
pub(crate) fn less(r: &mut Registers, stack: &mut [u64]) -> Row
    requires { r.old.top ≤ length stack.old }
    ensures top { r.new.top ≤ length stack.old }
    ensures left { r.new.left ≡ r.old.left }
    ensures row { RowOfTwo (λ a b. Word (number_of_bool (int_lt (number_of a) (number_of b)))) r.old stack.old result r.new stack.new }
{
    let Some((a, b)) = two(r, stack) else {
        return Row::Stuck;
    };
    put_two(r, stack, (a.cast_signed() < b.cast_signed()) as u64)
}

#[inline]
pub(crate) fn less_equal(r: &mut Registers, stack: &mut [u64]) -> Row
    requires { r.old.top ≤ length stack.old }
    ensures top { r.new.top ≤ length stack.old }
    ensures left { r.new.left ≡ r.old.left }
    ensures row { RowOfTwo (λ a b. Word (number_of_bool (int_le (number_of a) (number_of b)))) r.old stack.old result r.new stack.new }
{
    let Some((a, b)) = two(r, stack) else {
        return Row::Stuck;
    };
    put_two(r, stack, (a.cast_signed() <= b.cast_signed()) as u64)
}

#[inline]
pub(crate) fn greater(r: &mut Registers, stack: &mut [u64]) -> Row
    requires { r.old.top ≤ length stack.old }
    ensures top { r.new.top ≤ length stack.old }
    ensures left { r.new.left ≡ r.old.left }
    ensures row { RowOfTwo (λ a b. Word (number_of_bool (int_lt (number_of b) (number_of a)))) r.old stack.old result r.new stack.new }
{
    let Some((a, b)) = two(r, stack) else {
        return Row::Stuck;
    };
    put_two(r, stack, (b.cast_signed() < a.cast_signed()) as u64)
}

#[inline]
pub(crate) fn greater_equal(r: &mut Registers, stack: &mut [u64]) -> Row
    requires { r.old.top ≤ length stack.old }
    ensures top { r.new.top ≤ length stack.old }
    ensures left { r.new.left ≡ r.old.left }
    ensures row { RowOfTwo (λ a b. Word (number_of_bool (int_le (number_of b) (number_of a)))) r.old stack.old result r.new stack.new }
{
    let Some((a, b)) = two(r, stack) else {
        return Row::Stuck;
    };
    put_two(r, stack, (b.cast_signed() <= a.cast_signed()) as u64)
}

#[inline]
pub(crate) fn same(r: &mut Registers, stack: &mut [u64]) -> Row
    requires { r.old.top ≤ length stack.old }
    ensures top { r.new.top ≤ length stack.old }
    ensures left { r.new.left ≡ r.old.left }
    ensures row { RowOfTwo (λ a b. Word (number_of_bool (a == b))) r.old stack.old result r.new stack.new }
{
    let Some((a, b)) = two(r, stack) else {
        return Row::Stuck;
    };
    put_two(r, stack, (a == b) as u64)
}

#[inline]
pub(crate) fn boxed(r: &Registers, stack: &mut [u64]) -> Row
    requires { r.now.top ≤ length stack.old }
    ensures row { RowOfOne (λ a. Word (number_of_bool (nat_le (2 ^ 32) a))) r.now stack.old result stack.new }
{
    let Some(word) = one(r, stack) else {
        return Row::Stuck;
    };
    put_one(r, stack, (word >= 4294967296) as u64)
}
