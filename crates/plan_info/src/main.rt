// Tells what the file plan.bin in the current folder is. What it prints is the text of
// `plan_report::report`, which is proved; reading the file and printing are only tested.
#![tactic(auto)]

use plan_report::report;
use std::fs::File;
use std::io;
use std::io::{ErrorKind, Read};

// No more of the file is read: `plan_format::reads_no_further` says that nothing depends on it.
const MOST: u64 = 65_536;

// The first bytes of plan.bin; none where there is no such file.
fn read_plan(rt: &HostRuntime) -> io::Result<Vec<u8>> {
    let mut bytes = Vec::new(rt.alloc());
    match File::open(rt, "plan.bin") {
        Ok(file) => {
            file.take(MOST).read_to_end(&mut bytes)?;
        }
        Err(e) if e.kind() == ErrorKind::NotFound => {}
        Err(e) => return Err(e),
    }
    Ok(bytes)
}

fn main(rt: HostRuntime) -> io::Result<()> {
    let file = read_plan(&rt)?;
    rt.print(report(rt.alloc(), file.as_slice())?)
}
