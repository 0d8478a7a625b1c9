//! Numbers out as bytes, and in again as numbers.
#![tactic(auto)]

use serde_amqp::{Error, from_slice, to_vec};

fn main(rt: HostRuntime) -> Result<(), Error> {
    let alloc = rt.alloc();
    let numbers = vec![in alloc; 1i32, -2, 300]?;
    let bytes = to_vec(alloc, &numbers)?;
    println!(rt; "{bytes:?}")?;
    let read: Vec<i32> = from_slice(alloc, bytes.as_slice())?;
    println!(rt; "{read:?}")?;
    Ok(())
}
