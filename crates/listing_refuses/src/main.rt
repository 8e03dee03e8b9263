// The same program as `listing`, run on an object that is a byte too long.
#![tactic(auto)]

use std::io;

fn main(rt: HostRuntime) -> io::Result<()> {
    listing_run::run(&mut rt.stdin(), &rt.stdout(), &rt.stderr())
}
