// Compares piles of stages in other orders than the standard chain's with worked values, and prints a line for each.
//
// The values stand in files beside the program. They were worked out by an independent model, which shares no code with
// the libraries. Every item, the number of items and the ending are compared, from the start and again after a rewind.
mod against_files;
mod inputs;
mod piles;
mod ranged;
mod whole;

use crate::piles::against_files::Piles;
use crate::piles::inputs::Take;
use crate::piles::piles::{
    amplified, clock_over_clock, gained_twice, lead_below_clock, lead_twice,
    multipaths_around_clock, noise_twice, receive_gain, receiver, turned_held, turned_signal,
    turned_twice,
};

// The greatest clock offsets: a thousandth slow, and as much fast.
const SLOW: i64 = 9_007_199_254_740;

const FAST: i64 = -9_007_199_254_740;

fn around_clock(piles: &mut Piles<'_>) -> anyhow::Result<()> {
    let whole = Take::whole(80);
    multipaths_around_clock(piles, "multipath-clock-multipath", whole, FAST)?;
    let faulty = Take::faulty(80, 70);
    multipaths_around_clock(piles, "multipath-clock-multipath-fault", faulty, FAST)?;
    let long = Take::whole(1100);
    multipaths_around_clock(piles, "multipath-clock-multipath-long", long, SLOW)?;
    let long_faulty = Take::faulty(1100, 1002);
    multipaths_around_clock(
        piles,
        "multipath-clock-multipath-long-fault",
        long_faulty,
        SLOW,
    )
}

fn below_clock(piles: &mut Piles<'_>) -> anyhow::Result<()> {
    lead_below_clock(piles, "clock-lead", Take::whole(30), 1 << 43)?;
    lead_below_clock(piles, "clock-lead-fault", Take::faulty(30, 12), FAST)?;
    lead_below_clock(piles, "clock-lead-fault-at-once", Take::faulty(30, 0), FAST)?;
    clock_over_clock(piles, "clock-clock", Take::whole(60), FAST, SLOW)?;
    clock_over_clock(piles, "clock-clock-fault", Take::faulty(60, 31), FAST, FAST)?;
    turned_held(piles, "frequency-clock-lead-held", 50, FAST)?;
    turned_held(piles, "frequency-clock-lead-held-slow", 50, SLOW)?;
    turned_signal(
        piles,
        "frequency-clock-lead-fault",
        Take::faulty(50, 20),
        SLOW,
    )
}

fn turns(piles: &mut Piles<'_>) -> anyhow::Result<()> {
    amplified(piles, "amplifier-frequency", Take::whole(60))?;
    amplified(piles, "amplifier-frequency-fault", Take::faulty(60, 41))?;
    turned_twice(piles, "frequency-frequency", Take::whole(40))?;
    lead_twice(piles, "lead-lead-fault", Take::faulty(20, 6))
}

fn pairings(piles: &mut Piles<'_>) -> anyhow::Result<()> {
    let whole = Take::whole(40);
    let faulty = Take::faulty(40, 25);
    noise_twice(piles, "noise-noise-ends-with-second", whole, 50, 30)?;
    noise_twice(piles, "noise-noise-ends-with-inner", whole, 17, 30)?;
    noise_twice(piles, "noise-noise-fault", faulty, 50, 30)?;
    noise_twice(piles, "noise-noise-fault-at-equal-length", faulty, 25, 25)?;
    noise_twice(piles, "noise-noise-fault-hidden", faulty, 50, 24)
}

fn receivers(piles: &mut Piles<'_>) -> anyhow::Result<()> {
    let whole = Take::whole(40);
    let gains = Take::faulty(40, 20);
    receive_gain(piles, "receive-gain-noise", whole, whole)?;
    receive_gain(
        piles,
        "receive-gain-noise-signal-fault",
        Take::faulty(40, 30),
        whole,
    )?;
    receive_gain(piles, "receive-gain-noise-gain-fault", whole, gains)?;
    receive_gain(
        piles,
        "receive-gain-noise-equal-faults",
        Take::faulty(40, 23),
        gains,
    )?;
    gained_twice(piles, "gain-gain", whole)?;
    receiver(piles, "receiver", whole, whole)?;
    receiver(piles, "receiver-fault", Take::faulty(40, 30), whole)
}

pub(crate) fn run(rt: &HostRuntime) -> anyhow::Result<()> {
    let mut piles = Piles::new(rt);
    around_clock(&mut piles)?;
    below_clock(&mut piles)?;
    turns(&mut piles)?;
    pairings(&mut piles)?;
    receivers(&mut piles)?;
    piles.close()
}
