//! Makes the repository of the example. `demo_repo FOLDER` writes its listing and its blobs; without a folder the
//! listing is printed.
#![tactic(auto)]

mod example;

use example::Example;
use std::env;
use std::io::Write;
use std::test::Fail;

fn main(rt: HostRuntime) -> Result<(), Fail> {
    let alloc = rt.alloc();
    let mut words = env::args(&rt)?;
    let example = Example::make(alloc)?;
    match words.nth(1) {
        Some(folder) => example.write(&rt, alloc, folder.as_str()),
        None => Ok(rt.stdout().write_all(&example.listing(alloc)?)?),
    }
}
