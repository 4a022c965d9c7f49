// A program that plays stages in an order of its own over a source of its own: docs/STACKING.md explains it.
//
// Proved: the tone is a source; and the player keeps the law of runs, whose whole is the stages' formulas, in this order, over
// the tone's samples, with the tone's fault at its end.
#![tactic(auto)]

mod stack;
mod tone;

use samples::kinds::WorkingSample;
use stack::tone_player;
use stages::clock_offset::ClockOffset;
use stages::dc_offset::Offset;
use stages::multipath::{Path, Paths};

fn run(rt: &HostRuntime) -> anyhow::Result<()> {
    let direct = Path {
        re: 8192,
        im: 0,
        delay: 0,
    };
    let echo = Path {
        re: 0,
        im: -4096,
        delay: 2,
    };
    let mut places = [direct; 10];
    places[1] = echo;
    let paths = Paths { places, count: 2 };
    // A thousandth slow.
    let clock = ClockOffset {
        c: 9_007_199_254_740,
    };
    let dc = Offset { re: 100, im: -100 };
    let mut player = tone_player(100, 12, clock, paths, dc);
    let mut buffer = [WorkingSample::SILENCE; 8];
    for _ in 0..3 {
        match player.fill(&mut buffer) {
            Ok(count) => {
                for x in buffer.iter().take(count) {
                    let WorkingSample { re, im } = *x;
                    println!(rt; "{re} {im}")?;
                }
            }
            Err(fault) => println!(rt; "{fault}")?,
        }
    }
    Ok(())
}

fn main(rt: HostRuntime) -> anyhow::Result<()> {
    run(&rt)
}
