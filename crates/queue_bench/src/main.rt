// Plays the run file on standard input and prints its report.
#![tactic(auto)]

use host::call::queue_bench_play;
use runfile::file::LONGEST;
use std::io::{Read, Write};

// Longer than any report.
const AREA_LENGTH: usize = 65_536;

// One byte more than the longest lawful file is enough to tell that a file is too long. `list_run` reads its file by the
// same three lines, for which a crate of their own would be no plainer.
fn run(rt: &HostRuntime) -> anyhow::Result<()> {
    let mut file = Vec::new(rt.alloc());
    rt.stdin().take(LONGEST as u64 + 1).read_to_end(&mut file)?;
    let mut area = vec![in rt.alloc(); 0; AREA_LENGTH]?;
    let answer = queue_bench_play(&file, &mut area);
    // The call answers as C reads it: a negative number would say that the area has no room for any text.
    let length = usize::try_from(answer).unwrap_or(0).min(area.len());
    rt.stdout().write_all(&area[0..length])?;
    Ok(())
}

fn main(rt: HostRuntime) -> anyhow::Result<()> {
    run(&rt)
}
