//! What rounding each share up would make of a figure.
ghost use Rattle.std.specs.Prelude.{◌≡◌, [], ◌∷◌};
ghost use Rattle.joining.specs.Worked.{rounded_up};

/// Three outcomes of weight 1 at one figure, each share rounded up before it is added; no joining does this.
pub fn thirds_rounded_up(figure: u32) -> u64
    ensures { result ≡ rounded_up (1 ∷ 1 ∷ 1 ∷ []) (figure ∷ figure ∷ figure ∷ []) }
{
    let share = (u64::from(figure) + 2) / 3;
    3 * share
}
