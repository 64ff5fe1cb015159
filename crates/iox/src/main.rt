//! The program serves standard input on a new hub, and writes to standard output.
//!
//! It ends with status 0 at the end of the input, with 1 after a read or write fault, and with 2 if memory runs out for a reply or for the
//! buffers of the run; after an error one line on standard error says which. Arguments are ignored.
//!
//! The stack that the program needs is touched before the first line is read. So a program whose stack is too small ends there, and never
//! later, however much the heap takes.
#![tactic(auto)]

use iox_script::{HubConfig, Input, Output, serve, status};
use std::process::ExitCode;

/// The maximum number of connections of closed publishers that a subscriber keeps; if a service's borrow limit is larger, the borrow limit
/// applies instead.
const EXPIRED_CONNECTION_BUFFER: u32 = 128;

/// The part of the stack that is touched, in words: more than the deepest call takes, which is some 140 kB in a proved program and
/// some 375 kB in one that was built without its proofs.
const STACK: usize = (512 << 10) / 8;

/// Writes to each word of a part of the stack of this size, and returns one of them, which is an odd number. A compiler can't know which
/// one, so it can't leave words out.
#[inline(never)]
fn reached() -> u64 {
    let mut room = [1u64; STACK];
    let mut last = 1u64;
    for word in &mut room {
        last = last.wrapping_mul(5).wrapping_mul(*word);
        *word = last;
    }
    room[STACK / 2]
}

fn main(rt: HostRuntime) -> ExitCode {
    if reached() == 0 {
        return ExitCode::FAILURE;
    }
    let config = HubConfig {
        expired_connection_buffer: EXPIRED_CONNECTION_BUFFER,
        id: 0,
    };
    let mut input = Input::new(rt.stdin());
    let mut output = Output::new(rt.stdout());
    let ending = serve(rt.alloc(), config, &mut input, &mut output);
    if let Err(error) = ending {
        let _ = rt.eprintln(&error);
    }
    ExitCode::from(status(ending))
}
