// A session for a program in C: `int nizgulk_session(void)`, as the three handles take no bytes. What it does stands in
// `serve`, and what it answers is the program's exit status.
#![tactic(auto)]

ghost use Rattle.serve.specs.Ends.{IsStatus};

use std::io::{Stderr, Stdin, Stdout};

// A whole session on standard input and output: 0 where all input was read and all answers were written, and else 1.
#[unsafe(no_mangle)]
pub extern "C" fn nizgulk_session(input: Stdin, output: Stdout, errors: Stderr) -> i32
    ensures { IsStatus result }
{
    serve::nizgulk_session(input, output, errors)
}
