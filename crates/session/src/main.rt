// A session as a program of the kit, whose status is 0 however it ends: what it does stands in `serve`. tools/session
// runs the same function, and ends with the status that it answers (docs/DECISIONS.md D45).
// stdin is 01's worked session and more: lines that are no call, answers and input of more than one buffer, lines of
// 16,384 bytes and more, a line over the end of each buffer, and a last line without an end. stdout is what the model
// answers: cargo build --release --offline --locked --manifest-path model/Cargo.toml --target-dir target/cargo, then
// target/cargo/release/session <crates/session/stdin >crates/session/stdout.
#![tactic(auto)]

fn main(rt: HostRuntime) {
    serve::nizgulk_session(rt.stdin(), rt.stdout(), rt.stderr());
}
