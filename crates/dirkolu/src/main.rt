//! The program: `run` over the files and the standard output of the system.
#![tactic(auto)]

use merlin::run;
use merlin_base::{Status, StdFiles, StdSink};
use packet_model::Packet;
use packet_trace::declared;
use std::alloc::AllocError;
use std::process::ExitCode;
use std::rt::Env;
use std::{env, io};
use topology::FnDecl;

// The words after the program's name. Words that are no text count as none, which is no form of a command.
fn words_of(rt: &(impl Env + AllocGlobal)) -> Result<Vec<String>, AllocError> {
    match env::args(rt) {
        Ok(args) => args.skip(1).collect(rt.alloc()),
        Err(fault) if fault.kind() == io::ErrorKind::OutOfMemory => Err(AllocError),
        Err(_) => Ok(Vec::new(rt.alloc())),
    }
}

fn main(rt: HostRuntime) -> ExitCode {
    let Ok(words) = words_of(&rt) else {
        return ExitCode::from(Status::Memory.code());
    };
    let mut files = StdFiles::new(&rt);
    let mut out = StdSink::new(&rt);
    let status = run(
        rt.alloc(),
        &words,
        &mut files,
        &mut out,
        |decl: &FnDecl, packet: Packet| declared(decl, packet),
    );
    ExitCode::from(status.code())
}
