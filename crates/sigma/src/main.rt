//! `sigma`: sums nested sums and products, and prints only what is proved.
#![tactic(auto)]

use sg_io::{StdSink, StdSource};
use sg_top::sigma;
use std::alloc::Global;
use std::env::Env;
use std::process::ExitCode;
use std::{env, io};

// Running out of memory for the words ends with the status 5, and any other refusal of them with 8, which no answer has.
fn main(rt: HostRuntime) -> ExitCode {
    match words_of(&rt) {
        Ok(words) => {
            let mut source = StdSource::new(rt.reader());
            let mut sink = StdSink::new(io::writer(&rt));
            let status = sigma(rt.alloc(), words.as_slice(), &mut source, &mut sink);
            ExitCode::from(status.code())
        }
        Err(e) if e.kind() == io::ErrorKind::OutOfMemory => ExitCode::from(5),
        Err(_) => ExitCode::from(8),
    }
}

// The words after the program's name.
fn words_of<R: Env + AllocGlobal>(rt: &R) -> io::Result<Vec<String>> {
    let mut words = Vec::new(rt.alloc());
    let mut args = env::args(rt)?;
    let _ = args.next();
    for word in args {
        words.push(word)?;
    }
    Ok(words)
}
