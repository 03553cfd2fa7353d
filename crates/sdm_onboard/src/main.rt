//! An onboard computer's loop in small, as the model of how the supervisor is called: data are made, a supervisor is
//! opened over them, and each message of the odometer and the radio is handed to it. What comes of an answer stands in
//! `onboard` and `orders`; every refusal has one. The messages are a fixed list here, where a computer has its buses,
//! and the interfaces of the train are lines of text.
#![tactic(auto)]

mod guard;
mod laws;
mod messages;
mod onboard;
mod opening;
mod orders;

use messages::{beginning, journey};
use onboard::Onboard;
use std::io;

fn main(rt: HostRuntime) -> io::Result<()> {
    let mut onboard = match opening::open(rt.alloc()) {
        Ok(supervisor) => Onboard::over(supervisor),
        Err(fault) => return println!(rt; "no supervisor, so brake: {fault}"),
    };
    for message in beginning() {
        let news = onboard.take(&message);
        println!(rt; "{message}: {news}; {}", onboard.orders())?;
    }
    // New data come, which are the same here. Their supervisor is opened beside the old one, which could run meanwhile.
    let news = onboard.change_data(opening::open(rt.alloc()));
    println!(rt; "new data: {news}; {}", onboard.orders())?;
    for message in journey() {
        let news = onboard.take(&message);
        println!(rt; "{message}: {news}; {}", onboard.orders())?;
    }
    Ok(())
}
