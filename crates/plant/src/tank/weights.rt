//! The weights of the outcomes of jets.
ghost use Rattle.std.specs.Prelude.{◌≡◌, ◌≤◌};
ghost use Rattle.plant.specs.Tank.{choose};

// Row j holds in how many ways 0, 1, up to j of j pieces come free.
const WEIGHTS: [[u8; 9]; 9] = [
    [1, 0, 0, 0, 0, 0, 0, 0, 0],
    [1, 1, 0, 0, 0, 0, 0, 0, 0],
    [1, 2, 1, 0, 0, 0, 0, 0, 0],
    [1, 3, 3, 1, 0, 0, 0, 0, 0],
    [1, 4, 6, 4, 1, 0, 0, 0, 0],
    [1, 5, 10, 10, 5, 1, 0, 0, 0],
    [1, 6, 15, 20, 15, 6, 1, 0, 0],
    [1, 7, 21, 35, 35, 21, 7, 1, 0],
    [1, 8, 28, 56, 70, 56, 28, 8, 1],
];

// The stored weight of the outcome in which `freed` of `jets` pieces come free.
pub(crate) fn stored_weight(jets: u8, freed: u8) -> u8
    requires { (jets ≤ 8) × (freed ≤ 8) }
    ensures { result ≡ choose jets freed }
{
    WEIGHTS[usize::from(jets)][usize::from(freed)]
}
