// Instructions on frames and on the store: a function each.
ghost use Rattle.std.specs.Prelude.{◌≡◌, ◌+◌, ◌≤◌, length};
ghost use Rattle.kam_store.specs.Store.{words_in};
ghost use Rattle.kam_rows.specs.Charged.{given_back};

use crate::registers::{Frame, Registers};
use crate::row::Row;
use crate::stack_rows::push;
use crate::stored::{append, close, open, put_field};
use kam_store::{RegionStore, StoreRefusal};

#[inline]
pub(crate) fn env<R: RegionStore>(r: &mut Registers, stack: &mut [u64], store: &R, i: u64) -> Row
    requires { r.old.top ≤ length stack.old }
    ensures top { r.new.top ≤ length stack.old }
    ensures left { r.new.left ≡ r.old.left }
{
    let Ok(word) = store.get(r.closure, i) else {
        return Row::Stuck;
    };
    push(r, stack, word)
}

#[inline]
pub(crate) fn call<R: RegionStore>(
    r: &mut Registers,
    stack: &[u64],
    frames: &mut Vec<Frame>,
    store: &R,
    n: u64,
) -> Row
    requires { r.old.top ≤ length stack.now }
    ensures top { r.new.top ≡ r.old.top }
    ensures left { r.new.left ≡ r.old.left }
{
    let n = n as usize;
    if n >= r.top {
        return Row::Stuck;
    }
    let closure = stack[r.top - 1 - n];
    let Ok(address) = store.get(closure, 0) else {
        return Row::Stuck;
    };
    if r.room < 3 || r.top > r.room - 3 {
        return Row::StackFull;
    }
    let frame = Frame {
        address: r.address,
        base: r.base,
        closure: r.closure,
    };
    if frames.push(frame).is_err() {
        return Row::NoMemory;
    }
    r.room -= 3;
    r.base = r.top - n;
    r.closure = closure;
    r.address = address as usize;
    Row::Going
}

#[inline]
pub(crate) fn leave(r: &mut Registers, stack: &mut [u64], frames: &mut Vec<Frame>) -> Row
    requires { r.old.top ≤ length stack.old }
    ensures top { r.new.top ≤ length stack.old }
    ensures left { r.new.left ≡ r.old.left }
{
    let base = r.base;
    if base == 0 || base >= r.top {
        return Row::Stuck;
    }
    let Some(frame) = frames.pop() else {
        return Row::Stuck;
    };
    stack[base - 1] = stack[r.top - 1];
    r.top = base;
    r.room = r.room.wrapping_add(3);
    r.address = frame.address;
    r.base = frame.base;
    r.closure = frame.closure;
    Row::Going
}

// More words than the budget has left go into a region: none do, and there is no step where it isn't live.
#[inline(never)]
fn over_budget<R: RegionStore>(store: &mut R, serial: u64) -> Row
    requires { words_in (R.store store.old).live ≤ 1000000000 }
    ensures row { given_back result ≡ 1 }
    ensures made { (R.store store.new).made ≤ (R.store store.old).made }
    ensures words { words_in (R.store store.new).live ≤ words_in (R.store store.old).live }
{
    match append(store, serial, &[]) {
        Err(StoreRefusal::Dead) => Row::Stuck,
        _ => Row::Budget,
    }
}

#[inline]
pub(crate) fn allocate<R: RegionStore>(
    r: &mut Registers,
    stack: &mut [u64],
    store: &mut R,
    n: u64,
) -> Row
    requires top { r.old.top ≤ length stack.old }
    requires words { words_in (R.store store.old).live + r.old.left + 1 ≤ 1000000000 }
    requires made { (R.store store.old).made + r.old.left + 1 ≤ 1000000001 }
    ensures top { r.new.top ≤ length stack.old }
    ensures left { r.new.left ≤ r.old.left }
    ensures words { words_in (R.store store.new).live + r.new.left + given_back result ≤ 1000000000 }
    ensures made { (R.store store.new).made + r.new.left + given_back result ≤ 1000000001 }
    ensures going { result ≡ Row.Going → (r.new.left + n ≡ r.old.left) × (r.new.top + n ≡ r.old.top) }
{
    let count = n as usize;
    if count >= r.top {
        return Row::Stuck;
    }
    let end = r.top - 1;
    let start = end - count;
    let serial = stack[end];
    if n > r.left {
        return over_budget(store, serial);
    }
    match append(store, serial, &stack[start..end]) {
        Ok(pointer) => {
            r.left -= n;
            stack[start] = pointer;
            r.top = start + 1;
            Row::Going
        }
        Err(StoreRefusal::NoPage) => Row::NoPage,
        Err(StoreRefusal::Dead) => Row::Stuck,
        Err(StoreRefusal::NoMemory) => Row::NoMemory,
    }
}

#[inline]
pub(crate) fn field<R: RegionStore>(r: &Registers, stack: &mut [u64], store: &R, i: u64) -> Row
    requires { r.now.top ≤ length stack.old }
{
    if r.top == 0 {
        return Row::Stuck;
    }
    let Ok(word) = store.get(stack[r.top - 1], i) else {
        return Row::Stuck;
    };
    stack[r.top - 1] = word;
    Row::Going
}

#[inline]
pub(crate) fn set_field<R: RegionStore>(
    r: &mut Registers,
    stack: &[u64],
    store: &mut R,
    i: u64,
) -> Row
    requires top { r.old.top ≤ length stack.now }
    requires words { words_in (R.store store.old).live + r.old.left + 1 ≤ 1000000000 }
    requires made { (R.store store.old).made + r.old.left + 1 ≤ 1000000001 }
    ensures top { r.new.top ≤ length stack.now }
    ensures left { r.new.left ≤ r.old.left }
    ensures words { words_in (R.store store.new).live + r.new.left + given_back result ≤ 1000000000 }
    ensures made { (R.store store.new).made + r.new.left + given_back result ≤ 1000000001 }
    ensures going { result ≡ Row.Going → (r.new.left + 1 ≡ r.old.left) × (r.new.top + 2 ≡ r.old.top) }
{
    if r.top < 2 {
        return Row::Stuck;
    }
    let pointer = stack[r.top - 2];
    if r.left == 0 {
        return match store.get(pointer, i) {
            Ok(_) => Row::Budget,
            Err(_) => Row::Stuck,
        };
    }
    if put_field(store, pointer, i, stack[r.top - 1]).is_err() {
        return Row::Stuck;
    }
    r.left -= 1;
    r.top -= 2;
    Row::Going
}

#[inline]
pub(crate) fn region_new<R: RegionStore>(r: &mut Registers, stack: &mut [u64], store: &mut R) -> Row
    requires top { r.old.top ≤ length stack.old }
    requires words { words_in (R.store store.old).live + r.old.left + 1 ≤ 1000000000 }
    requires made { (R.store store.old).made + r.old.left + 1 ≤ 1000000001 }
    ensures top { r.new.top ≤ length stack.old }
    ensures left { r.new.left ≡ r.old.left }
    ensures words { words_in (R.store store.new).live + r.new.left + given_back result ≤ 1000000000 }
    ensures made { (R.store store.new).made + r.new.left + given_back result ≤ 1000000001 }
{
    if r.top >= r.room {
        return Row::StackFull;
    }
    if r.top >= stack.len() {
        return Row::Full;
    }
    match open(store) {
        Ok(serial) => {
            stack[r.top] = serial;
            r.top += 1;
            Row::Going
        }
        Err(_) => Row::NoMemory,
    }
}

#[inline]
pub(crate) fn region_end<R: RegionStore>(r: &mut Registers, stack: &mut [u64], store: &mut R) -> Row
    requires top { r.old.top ≤ length stack.old }
    requires words { words_in (R.store store.old).live + r.old.left + 1 ≤ 1000000000 }
    requires made { (R.store store.old).made + r.old.left + 1 ≤ 1000000001 }
    ensures top { r.new.top ≤ length stack.old }
    ensures left { r.new.left ≡ r.old.left }
    ensures words { words_in (R.store store.new).live + r.new.left + given_back result ≤ 1000000000 }
    ensures made { (R.store store.new).made + r.new.left + given_back result ≤ 1000000001 }
{
    if r.top < 2 {
        return Row::Stuck;
    }
    if !close(store, stack[r.top - 2]) {
        return Row::Stuck;
    }
    stack[r.top - 2] = stack[r.top - 1];
    r.top -= 1;
    Row::Going
}
