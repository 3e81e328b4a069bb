// What the programs in bench/ call from Rust, as a static library: each export calls the function of `bench` that has its name.
#![tactic(auto)]

use bench::run;

// The sum over a walk along a chain in a single table.
#[unsafe(no_mangle)]
pub extern "C" fn bench_walk_table(edges: u16, steps: u32) -> i64 {
    bench::bench_walk_table(edges, steps)
}

// The sum over a walk along a chain that is laid out in 32 strips; 0 where it finds no room there.
#[unsafe(no_mangle)]
pub extern "C" fn bench_walk_sheet(edges: u16, steps: u32) -> i64 {
    bench::bench_walk_sheet(edges, steps)
}

// Reads the file into a sheet of its own, carries out the calls, and writes the sheet.
#[unsafe(no_mangle)]
pub extern "C" fn engine_run(file: &[u8], calls: &[u8], answers: &mut [u8], out: &mut [u8]) -> i64 {
    run::engine_run(file, calls, answers, out)
}
