//! The program `atspi-desktop`: its top call over the command line, standard output and the system's sockets.
#![tactic(auto)]

use atspi_live_sockets::NetHost;
use atspi_run_desktop::run;
use atspi_standard_streams::StandardOutput;
use std::env;
use std::io::ErrorKind;
use std::process::ExitCode;

/// So long the host may rest where nothing is ready, in milliseconds.
const REST: u64 = 500;

fn main(rt: HostRuntime) -> ExitCode {
    let mut words = Vec::new(rt.alloc());
    match env::args(&rt) {
        Ok(args) => {
            for word in args.skip(1) {
                if words.push(word).is_err() {
                    return ExitCode::from(5);
                }
            }
        }
        Err(error) => {
            // words that are no text are none of a command
            if error.kind() == ErrorKind::OutOfMemory {
                return ExitCode::from(5);
            }
        }
    }
    let alloc = rt.alloc();
    let mut sink = StandardOutput::new(rt.stdout(), &rt);
    let mut host = NetHost::new(alloc, &rt, Some(REST));
    let status = run(alloc, &words, &mut sink, &mut host);
    host.leave();
    ExitCode::from(status)
}
