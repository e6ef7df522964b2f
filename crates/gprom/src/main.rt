//! The program gprom: it runs a script of transactions, each under snapshot isolation or read committed, writes the dump of their
//! history, and answers questions from such a dump. All that it does is [`gprom_cli::gprom`], called here on the files and the standard output of the
//! system. No proof shows that these are the real ones, nor that the arguments are passed on: this file is read by eye, like the module `edge` of `gp_io`.
#![tactic(auto)]

use gp_base::NoMemory;
use gp_io::{DiskShelf, OutSink};
use gprom_cli::{Status, gprom};
use std::env;
use std::io::ErrorKind;
use std::process::ExitCode;
use std::rt::Env;

/// The arguments after the program's name. Arguments that are not valid UTF-8 are a usage error, like missing arguments.
fn arguments(rt: &(impl Env + AllocGlobal)) -> Result<Vec<String>, NoMemory> {
    let mut arguments = Vec::new(rt.alloc());
    match env::args(rt) {
        Ok(args) => {
            // One by one: `collect` asks for less memory after a refusal, and each refusal is to be reported.
            for argument in args.skip(1) {
                arguments.push(argument)?;
            }
        }
        Err(error) if error.kind() == ErrorKind::OutOfMemory => return Err(NoMemory),
        Err(_) => (),
    }
    Ok(arguments)
}

fn main(rt: HostRuntime) -> ExitCode {
    let alloc = rt.alloc();
    let Ok(arguments) = arguments(&rt) else {
        return ExitCode::from(Status::OutOfMemory.number());
    };
    let mut shelf = DiskShelf::new(rt, alloc);
    let mut out = OutSink::new(rt);
    ExitCode::from(gprom(alloc, &arguments, &mut shelf, &mut out))
}
