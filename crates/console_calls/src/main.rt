// Every command, and every refusal that the console can give; rounds of 4,095.
#![tactic(auto)]

// The same three lines in every program of the console: each is a crate of its own, with its own input.
fn main(rt: HostRuntime) {
    let mut board = [0; 4095];
    let mut list = [0u64; 259];
    console_loop::serve(&rt, &mut board, &mut list);
}
