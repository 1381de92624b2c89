//! The program `specparse`.
#![tactic(auto)]

mod words;

use outside::{DiskFiles, OpenGate, StdoutSink};
use page_runner::{Status, run};
use std::alloc::AllocError;
use std::env;
use std::io::{self, ErrorKind};
use std::process::ExitCode;
use std::sync::{Arc, Wait};
use std::thread::Threads;
use words::{Ended, tell, tell_why};

// The most helpers that the command uses.
const HELPERS: usize = 8;

// Words that aren't UTF-8 are none of the command's.
fn words_of(rt: HostRuntime) -> Result<Vec<String>, Status> {
    match env::args(&rt) {
        Ok(words) => match words.collect(rt.alloc()) {
            Ok(words) => Ok(words),
            Err(_) => Err(Status::NoMemory),
        },
        Err(error) => Err(if error.kind() == ErrorKind::InvalidData {
            Status::Usage
        } else {
            Status::NoMemory
        }),
    }
}

// As many as the command may use.
fn helpers_of(rt: HostRuntime) -> Result<Vec<DiskFiles<HostRuntime>>, AllocError> {
    let mut helpers = Vec::with_capacity(rt.alloc(), HELPERS)?;
    for _ in 0..HELPERS {
        helpers.push(DiskFiles::new(rt))?;
    }
    Ok(helpers)
}

// No memory for what a run begins with.
fn without_memory() -> Ended {
    Ended {
        status: Status::NoMemory,
        reading: None,
        writing: None,
    }
}

// Runs the command of the words over the real files and the standard output.
fn run_words<R: Threads + Wait + Copy + Send + Sync + 'static>(
    threads: R,
    rt: HostRuntime,
    words: &[String],
) -> Ended {
    let Ok(gate) = Arc::new(rt.alloc(), OpenGate) else {
        return without_memory();
    };
    let Ok(mut helpers) = helpers_of(rt) else {
        return without_memory();
    };
    let mut files = DiskFiles::new(rt);
    let mut out = StdoutSink::new(io::writer(&rt));
    let status = run(
        &threads,
        rt.alloc(),
        words,
        &mut files,
        &mut out,
        &gate,
        &mut helpers,
    );
    Ended {
        status,
        reading: files.trouble(),
        writing: out.trouble(),
    }
}

fn main(rt: HostRuntime) -> ExitCode {
    match words_of(rt) {
        Ok(words) => {
            let ended = run_words(rt, rt, &words);
            tell(rt, ended.status);
            tell_why(rt, &ended, &words);
            ExitCode::from(ended.status.exit())
        }
        Err(status) => {
            tell(rt, status);
            ExitCode::from(status.exit())
        }
    }
}
