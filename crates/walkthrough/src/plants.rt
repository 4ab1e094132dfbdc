//! The second part of the example: a tank line, the same line under two overlays, and what plants refuse.
use crate::refused::show_refusal;
use plant::{Barring, Plant, PlantFault, Surcharge, TankLine, alike};

// The part on plants, in the order in which it prints.
pub(crate) fn show_plants(rt: &HostRuntime) -> anyhow::Result<()> {
    let line = TankLine::new(2, 2, 1, 2)?;
    println!(rt; "a tank line of 2 pieces and 2 levels")?;
    show_plant(rt, &line)?;
    let mut barred = Barring::new(line);
    barred.bar(8, 1)?;
    let mut dearer = Surcharge::new(barred);
    dearer.charge(3)?;
    println!(rt; "the same line with one lane barred, every move 3 units dearer")?;
    show_plant(rt, &dearer)?;
    show_order(rt, &line, &dearer)?;
    show_refusals(rt)
}

// A plant's counts, and each state with its moves.
fn show_plant<P: Plant>(rt: &HostRuntime, plant: &P) -> anyhow::Result<()> {
    let states = plant.states();
    let start = plant.start();
    println!(rt; "states {states}, start {start}")?;
    for state in 0..states {
        if plant.is_goal(state) {
            println!(rt; "state {state} is a goal")?;
        }
        for number in 0..plant.move_count(state) {
            show_move(rt, plant, state, number)?;
        }
    }
    Ok(())
}

// A move with its cost, and the state and the weight of each outcome.
fn show_move<P: Plant>(rt: &HostRuntime, plant: &P, state: u16, number: u8) -> anyhow::Result<()> {
    let cost = plant.cost(state, number);
    print!(rt; "state {state} move {number} costs {cost}:")?;
    for outcome in 0..plant.outcome_count(state, number) {
        let next = plant.outcome_state(state, number, outcome);
        let weight = plant.outcome_weight(state, number, outcome);
        print!(rt; " to {next} by {weight}")?;
    }
    println!(rt; "")?;
    Ok(())
}

// The overlays in the other order make the same plant, and without the bar another one.
fn show_order<P: Plant>(rt: &HostRuntime, line: &TankLine, under: &P) -> anyhow::Result<()> {
    let mut dearer = Surcharge::new(*line);
    dearer.charge(3)?;
    let mut over = Barring::new(dearer);
    let unbarred = alike(under, &over);
    over.bar(8, 1)?;
    let barred = alike(under, &over);
    println!(rt; "overlays in the other order: alike {barred}, without the bar {unbarred}")?;
    Ok(())
}

// One refusal of each kind.
fn show_refusals(rt: &HostRuntime) -> anyhow::Result<()> {
    show_refusal(rt, TankLine::new(2, 16, 1, 2))?;
    let mut full = full_barring()?;
    show_refusal(rt, full.bar(17, 0))?;
    show_refusal(rt, full.bar(17, 1))?;
    show_refusal(rt, full.bar(33, 0))?;
    let mut dearer = Surcharge::new(full);
    show_refusal(rt, dearer.charge(1_000))
}

// A tank line on which sixteen states may not rest.
fn full_barring() -> Result<Barring<TankLine>, PlantFault> {
    let mut line = Barring::new(TankLine::new(15, 15, 1, 1)?);
    for state in 17..=31 {
        line.bar(state, 0)?;
    }
    line.bar(34, 0)?;
    Ok(line)
}
