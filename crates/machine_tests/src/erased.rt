// The erasure of a program.
use crate::region_terms::region_program;
use crate::specialised_terms::ground_program;
use region_erase::erase;
use std::process::Abort;

fn erases(rt: &(impl Abort + AllocGlobal)) {
    let erased = erase(rt.alloc(), &region_program(rt)).expect(rt, "memory");
    assert!(rt; erased == ground_program(rt));
}

#[test]
fn erases_a_program(rt: HostRuntime) {
    erases(&rt);
}
