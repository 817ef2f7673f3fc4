//! Lists the day file on standard input, writes it out again, and says whether that is the same file.
#![tactic(auto)]

use anyhow::ensure;
use files::read_input;
use lines::Verdict;
use listing::list;

// Ends with status 1 where the file is not the same.
fn main(rt: HostRuntime) -> anyhow::Result<()> {
    let input = read_input(rt.alloc(), rt.stdin())?;
    let listing = list(rt.alloc(), input.bytes.as_slice(), input.has_more)?;
    print!(rt; "{}", listing.text)?;
    ensure!(listing.verdict == Verdict::Same, "not the same file");
    Ok(())
}
