//! The library's worked example. One piece is stuck on a belt, and there are two ways to purge it, a careful one and
//! a burst. The program prices both under the three joinings; then it describes a tank line, bars one of its lanes,
//! makes it dearer, and prints what it reads.

#![tactic(auto)]

mod plants;
mod purge;
mod refused;
mod shares;

use joining::{Best, Joining, Mean, Worst, rise};
use plants::show_plants;
use purge::Purge;
use refused::show_refusal;
use shares::thirds_rounded_up;

fn main(rt: HostRuntime) -> anyhow::Result<()> {
    walk(&rt)
}

// The whole example, in the order in which it prints.
fn walk(rt: &HostRuntime) -> anyhow::Result<()> {
    let careful = Purge {
        cost: 2,
        weights: &[3, 1],
        figures: &[0, 4096],
    };
    let burst = Purge {
        cost: 1,
        weights: &[1, 2, 1],
        figures: &[0, 4096, 9216],
    };
    show_prices(rt, "careful purge", &careful)?;
    show_prices(rt, "burst", &burst)?;
    show_shares(rt)?;
    show_rises(rt, &careful, &[0, 5120])?;
    // A row whose last weight is 0 is refused at that place.
    show_refusal(rt, Mean.join(&[3, 1, 0], &[0, 4096, 9216]))?;
    show_plants(rt)
}

// A purge's price under each joining. (Here and in `show_rises` each is asked by name, since three joinings
// are three types.)
fn show_prices(rt: &HostRuntime, name: &str, purge: &Purge) -> anyhow::Result<()> {
    let mean = purge.price(&Mean)?;
    let worst = purge.price(&Worst)?;
    let best = purge.price(&Best)?;
    println!(rt; "{name}: mean {mean}, worst {worst}, best {best}")?;
    Ok(())
}

// Three equal shares of 100: the mean divides once, so nothing is gained by rounding.
fn show_shares(rt: &HostRuntime) -> anyhow::Result<()> {
    let joined = Mean.join(&[1, 1, 1], &[100, 100, 100])?;
    let rounded = thirds_rounded_up(100);
    println!(rt; "three shares of 100: joined {joined}, each share rounded up {rounded}")?;
    Ok(())
}

// By how much each joining's answer rises when the figures of a purge's outcomes become `after`.
fn show_rises(rt: &HostRuntime, purge: &Purge, after: &[u32]) -> anyhow::Result<()> {
    let mean = rise(&Mean, purge.weights, purge.figures, after)?;
    let worst = rise(&Worst, purge.weights, purge.figures, after)?;
    let best = rise(&Best, purge.weights, purge.figures, after)?;
    println!(rt;
        "careful purge, last figure 1024 higher: mean rises {mean}, worst {worst}, best {best}"
    )?;
    Ok(())
}
