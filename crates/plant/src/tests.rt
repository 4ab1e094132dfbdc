//! The smallest and the largest tank line, the overlays, and a plant of another make.
ghost use Rattle.std.proofs.Common.{lit≤};
ghost use Rattle.plant.specs.Goals.{goals_alone, goals_lawful};

use crate::barring::Barring;
use crate::bars::Bar;
use crate::compare::alike;
use crate::fault::PlantFault;
use crate::plant::Plant;
use crate::surcharge::Surcharge;
use crate::tank::line::TankLine;
use std::test::Fail;

// Three states, each of them a goal.
#[derive(Clone, Copy)]
struct Goals;

impl Plant for Goals {
    ghost meaning = { λ _. goals_alone 3 };

    ghost lawful = { λ _. goals_lawful 3 (lit≤ tt) (lit≤ tt) };

    fn states(&self) -> u16 {
        3
    }

    fn start(&self) -> u16 {
        0
    }

    fn is_goal(&self, state: u16) -> bool {
        state < 3
    }

    fn move_count(&self, _state: u16) -> u8 {
        0
    }

    fn cost(&self, _state: u16, _number: u8) -> u16 {
        0
    }

    fn outcome_count(&self, _state: u16, _number: u8) -> u8 {
        0
    }

    fn outcome_state(&self, _state: u16, _number: u8, _outcome: u8) -> u16 {
        0
    }

    fn outcome_weight(&self, _state: u16, _number: u8, _outcome: u8) -> u8 {
        0
    }
}

// What is read of a move: its cost, and the states and weights of its first two outcomes.
fn read<P: Plant>(plant: &P, state: u16, number: u8) -> [u16; 6] {
    [
        plant.cost(state, number),
        u16::from(plant.outcome_count(state, number)),
        plant.outcome_state(state, number, 0),
        u16::from(plant.outcome_weight(state, number, 0)),
        plant.outcome_state(state, number, 1),
        u16::from(plant.outcome_weight(state, number, 1)),
    ]
}

#[test]
fn the_tank_of_one_piece_and_one_level(rt: HostRuntime) -> Result<(), Fail> {
    let line = TankLine::new(1, 1, 1, 2)?;
    assert_eq!(rt; [line.states(), line.start()], [4, 3]);
    assert_eq!(rt;
        [
            line.is_goal(0),
            line.is_goal(1),
            line.is_goal(2),
            line.is_goal(3),
        ],
        [true, true, false, false]
    );
    assert_eq!(rt;
        [
            line.move_count(0),
            line.move_count(1),
            line.move_count(2),
            line.move_count(3),
        ],
        [0, 0, 1, 2]
    );
    assert_eq!(rt; read(&line, 2, 0), [1, 1, 3, 1, 0, 0]);
    assert_eq!(rt; read(&line, 3, 0), [1, 1, 3, 1, 0, 0]);
    assert_eq!(rt; read(&line, 3, 1), [2, 2, 2, 1, 0, 1]);
    assert_eq!(rt; read(&line, 3, 2), [0, 0, 0, 0, 0, 0]);
    assert_eq!(rt; read(&line, 4, 0), [0, 0, 0, 0, 0, 0]);
    Ok(())
}

#[test]
fn the_largest_tank(rt: HostRuntime) -> Result<(), Fail> {
    let line = TankLine::new(15, 15, 1_000, 125)?;
    assert_eq!(rt; [line.states(), line.start()], [256, 255]);
    assert_eq!(rt;
        [line.cost(255, 0), line.cost(255, 8), line.cost(255, 9)],
        [1_000, 1_000, 0]
    );
    assert_eq!(rt; [line.move_count(255), line.outcome_count(255, 8)], [9, 9]);
    assert_eq!(rt;
        [
            line.outcome_weight(255, 8, 4),
            line.outcome_weight(255, 8, 9),
        ],
        [70, 0]
    );
    assert_eq!(rt; line.outcome_state(255, 8, 8), 119);
    assert_eq!(rt;
        [line.is_goal(15), line.is_goal(16), line.is_goal(256)],
        [true, false, false]
    );
    assert_eq!(rt; line.state_at(7, 7), Some(119));
    assert_eq!(rt; [line.state_at(16, 0), line.state_at(0, 16)], [None, None]);
    Ok(())
}

#[test]
fn tank_arguments_are_refused_in_order(rt: HostRuntime) -> Result<(), Fail> {
    assert_eq!(rt;
        fault(TankLine::new(0, 16, 0, 126))?,
        PlantFault::Argument(0)
    );
    assert_eq!(rt;
        fault(TankLine::new(15, 16, 0, 126))?,
        PlantFault::Argument(1)
    );
    assert_eq!(rt;
        fault(TankLine::new(15, 15, 1_001, 126))?,
        PlantFault::Argument(2)
    );
    assert_eq!(rt;
        fault(TankLine::new(15, 15, 1_000, u64::MAX))?,
        PlantFault::Argument(3)
    );
    Ok(())
}

// The fault of a tank line that is not made.
fn fault(made: Result<TankLine, PlantFault>) -> Result<PlantFault, Fail> {
    match made {
        Ok(_) => Err(Fail::new("a tank line was made")),
        Err(fault) => Ok(fault),
    }
}

#[test]
fn overlays_over_overlays(rt: HostRuntime) -> Result<(), Fail> {
    let line = TankLine::new(2, 2, 4, 5)?;
    let mut barred = Barring::new(line);
    barred.bar(8, 1)?;
    let mut dearer = Surcharge::new(barred);
    dearer.charge(7)?;
    assert_eq!(rt; [dearer.move_count(8), dearer.move_count(7)], [2, 2]);
    assert_eq!(rt;
        [dearer.cost(8, 0), dearer.cost(8, 1), dearer.cost(8, 2)],
        [11, 17, 0]
    );
    assert_eq!(rt; dearer.charge(1_000), Err(PlantFault::Argument(0)));
    assert_eq!(rt; dearer.cost(8, 0), 11);
    let mut first_dearer = Surcharge::new(line);
    first_dearer.charge(7)?;
    let mut other = Barring::new(first_dearer);
    assert!(rt; !alike(&dearer, &other));
    other.bar(8, 1)?;
    assert!(rt; alike(&dearer, &other));
    dearer.charge(999)?;
    assert_eq!(rt; dearer.cost(8, 1), 1_000);
    Ok(())
}

#[test]
fn bars_up_to_the_sixteenth(rt: HostRuntime) -> Result<(), Fail> {
    let mut line = Barring::new(TankLine::new(15, 15, 1, 1)?);
    assert_eq!(rt; line.bar(15, 0), Err(PlantFault::Unknown(15)));
    assert_eq!(rt; line.bar(17, 2), Err(PlantFault::Unknown(17)));
    assert_eq!(rt; line.bar(256, 0), Err(PlantFault::Unknown(256)));
    assert_eq!(rt; line.bar(16, 0), Err(PlantFault::LastMove(16)));
    for state in 33..=47 {
        line.bar(state, 0)?;
    }
    line.bar(49, 1)?;
    assert_eq!(rt; line.bars().len(), 16);
    assert_eq!(rt;
        line.bars().last().copied(),
        Some(Bar {
            state: 49,
            number: 1,
        })
    );
    assert_eq!(rt; line.bar(34, 0), Err(PlantFault::Unknown(34)));
    assert_eq!(rt; line.bar(33, 1), Err(PlantFault::LastMove(33)));
    assert_eq!(rt; line.bar(50, 0), Err(PlantFault::Full));
    Ok(())
}

#[test]
fn goals_alone_are_a_plant(rt: HostRuntime) -> Result<(), Fail> {
    let mut dearer = Surcharge::new(Goals);
    dearer.charge(9)?;
    let mut barred = Barring::new(dearer);
    assert_eq!(rt; barred.bar(1, 0), Err(PlantFault::Unknown(1)));
    assert!(rt; alike(&Goals, &barred));
    assert_eq!(rt; [barred.states(), barred.start()], [3, 0]);
    assert_eq!(rt; [barred.is_goal(2), barred.is_goal(3)], [true, false]);
    Ok(())
}

#[test]
fn faults_print_their_refusal(rt: HostRuntime) -> Result<(), Fail> {
    let argument = PlantFault::Argument(2);
    let last = PlantFault::LastMove(48);
    let full = PlantFault::Full;
    let lines = format!(in rt.alloc(); "{argument} {last} {full}")?;
    assert_eq!(rt;
        lines.as_str(),
        "(refused plant 6 at 2) (refused plant 8 at 48) (refused plant 9 at 16)"
    );
    Ok(())
}
