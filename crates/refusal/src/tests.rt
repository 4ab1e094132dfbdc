//! The lines of refusals, one of each layer.
use crate::layer::Layer;
use crate::refusal::Refusal;
use std::test::Fail;

// A refusal of these parts.
fn refusal(number: u8, layer: Layer, place: usize) -> Refusal {
    Refusal {
        number,
        layer,
        place,
    }
}

#[test]
fn every_layer_prints_its_line(rt: HostRuntime) -> Result<(), Fail> {
    let lines = [
        (refusal(1, Layer::Joining, 0), "(refused joining 1 at 0)"),
        (refusal(2, Layer::Text, 4), "(refused text 2 at 4)"),
        (refusal(5, Layer::Plan, 30), "(refused plan 5 at 30)"),
        (refusal(9, Layer::Plant, 16), "(refused plant 9 at 16)"),
        (refusal(18, Layer::Run, 16_384), "(refused run 18 at 16384)"),
    ];
    for (refusal, line) in lines {
        let shown = format!(in rt.alloc(); "{refusal}")?;
        assert_eq!(rt; shown.as_str(), line);
    }
    Ok(())
}
