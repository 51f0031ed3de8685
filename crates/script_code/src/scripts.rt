// The code of one script.
use crate::loaded::{LoadedScript, Regions};
use crate::refusal::CodeRefusal;
use kam_code::Code;
use kam_compile::{CompileRefusal, compile};
use mono::{MonoRefusal, specialise};
use region_global::all_global;
use region_syntax::RProgram;
use script_loader::FrontScript;
use sml_syntax::{NoMemory, Text};
use std::alloc::Global;

/// The code of a script whose types are known. Its terms are dropped when it returns.
pub(crate) fn script_code(alloc: Global, script: FrontScript) -> Result<LoadedScript, CodeRefusal> {
    let FrontScript {
        path,
        file,
        typed,
        ..
    } = script;
    let program = match specialise(alloc, &typed) {
        Ok(program) => program,
        Err(MonoRefusal::InstanceLimit) => return Err(CodeRefusal::InstanceLimit(file)),
        Err(MonoRefusal::NoMemory) => return Err(CodeRefusal::NoMemory),
    };
    let terms = all_global(alloc, &program)?;
    let code = compiled(alloc, &file, &terms)?;
    Ok(LoadedScript {
        path,
        file,
        code,
        regions: Regions::Global,
    })
}

fn compiled(alloc: Global, file: &Text, program: &RProgram) -> Result<Code, CodeRefusal> {
    match compile(alloc, program) {
        Ok(code) => Ok(code),
        Err(CompileRefusal::CodeFull) => Err(CodeRefusal::CodeFull(file.try_copy(alloc)?)),
        Err(CompileRefusal::NoMemory) => Err(CodeRefusal::NoMemory),
    }
}
