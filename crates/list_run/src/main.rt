// Lists the run file on standard input.
#![tactic(auto)]

use listing::lister::list_file;
use runfile::file::LONGEST;
use std::io::{Read, Write};

// One byte more than the longest lawful file is enough to tell that a file is too long.
fn run(rt: &HostRuntime) -> anyhow::Result<()> {
    let mut file = Vec::new(rt.alloc());
    rt.stdin().take(LONGEST as u64 + 1).read_to_end(&mut file)?;
    let listing = list_file(rt.alloc(), &file)?;
    rt.stdout().write_all(&listing)?;
    Ok(())
}

fn main(rt: HostRuntime) -> anyhow::Result<()> {
    run(&rt)
}
