//! Opens small catalogues, good and damaged, and prints what comes of each.
#![tactic(auto)]

mod account;
mod files;
mod parts;

use account::Account;
use files::{FORK, LEAF, PAIR};
use std::{fmt, io};

/// The whole account, or as much of it as memory holds.
fn tell(account: &mut Account) -> fmt::Result {
    for file in [LEAF, PAIR, FORK] {
        account.whole(file)?;
    }
    account.is_short |= account.questions(FORK).is_err();
    for file in [LEAF, PAIR, FORK] {
        account.cuts(file)?;
    }
    for file in [PAIR, FORK] {
        account.changes(file)?;
    }
    account.double_changes(PAIR)?;
    account.limits()?;
    account.tally()
}

fn main(rt: HostRuntime) -> io::Result<()> {
    let mut account = Account::new(rt.alloc());
    account.is_short |= tell(&mut account).is_err();
    if account.is_short {
        rt.println("memory was wanting")?;
    }
    rt.print(account.text.as_str())
}
