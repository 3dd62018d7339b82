// Prints what a schedule on standard input contains.
#![tactic(auto)]

use listing::whole::list;
use schedule::whole::MOST_BYTES;
use std::io;
use std::io::Read;

// One byte more than a schedule may have is read, so that the listing can tell a longer input.
fn main(rt: HostRuntime) -> io::Result<()> {
    let mut input = Vec::new(rt.alloc());
    rt.stdin()
        .take(MOST_BYTES as u64 + 1)
        .read_to_end(&mut input)?;
    let text = list(rt.alloc(), input.as_slice())?;
    print!(rt; "{text}")
}
