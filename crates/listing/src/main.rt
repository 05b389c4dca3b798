//! The program: the account of standard input, on standard output.
#![tactic(auto)]

use account::write_account;

fn main(rt: HostRuntime) -> anyhow::Result<()> {
    write_account(rt.alloc(), rt.stdin(), &mut rt.stdout())?;
    Ok(())
}
