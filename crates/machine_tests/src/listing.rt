// The listing of code.
use kam_code::{Code, Instr, list_code};
use sml_syntax::Listed;
use std::alloc::AllocGlobal;
use std::process::Abort;

fn lists(rt: &(impl Abort + AllocGlobal)) {
    let alloc = rt.alloc();
    let instrs = [
        Instr::Const(-1),
        Instr::JumpNot(7, 3),
        Instr::CacheLook(0, 12),
        Instr::Local(2),
        Instr::GreaterEqual,
        Instr::SelfPointer,
        Instr::Halt,
    ];
    let code = Code {
        instrs: Listed::of(Vec::from_slice(alloc, &instrs).expect(rt, "memory")),
        texts: Listed::of(Vec::new(alloc)),
        descs: Listed::of(Vec::new(alloc)),
        names: Listed::of(Vec::new(alloc)),
    };
    let listing = list_code(alloc, &code).expect(rt, "memory");
    let lines: &[u8] =
        b"0 const ~1\n1 jump_not 3 7\n2 cache_look 0 12\n3 local 2\n4 ge\n5 self\n6 halt\n";
    assert!(rt; listing.as_bytes() == lines);
}

// A line for each form of operands, by the format of a listing.
#[test]
fn codes_are_listed(rt: HostRuntime) {
    lists(&rt);
}
