//! The program `atspi`: the top call over the command line, standard input, standard output and the system's sockets.
#![tactic(auto)]

use atspi_live_sockets::NetHost;
use atspi_run::{longest_rest, run};
use atspi_standard_streams::{StandardInput, StandardOutput};
use std::env;
use std::io::ErrorKind;
use std::process::ExitCode;

fn main(rt: HostRuntime) -> ExitCode {
    let mut words = Vec::new(rt.alloc());
    match env::args(&rt) {
        Ok(args) => {
            for word in args.skip(1) {
                if words.push(word).is_err() {
                    return ExitCode::from(5);
                }
            }
        }
        Err(error) => {
            // words that are no text are none of a command
            if error.kind() == ErrorKind::OutOfMemory {
                return ExitCode::from(5);
            }
        }
    }
    let alloc = rt.alloc();
    let mut source = StandardInput::new(rt.stdin(), &rt);
    let mut sink = StandardOutput::new(rt.stdout(), &rt);
    let mut host = NetHost::new(alloc, &rt, longest_rest(&words));
    let status = run(alloc, &words, &mut source, &mut sink, &mut host);
    host.leave();
    ExitCode::from(status)
}
