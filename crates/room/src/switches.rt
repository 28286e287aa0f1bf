// The switch of a link: the server's digits with that level's struck out and the rest closed up.
ghost use Rattle.std.specs.Prelude.{◌≡◌, ◌≤◌, [], ◌∷◌, ◌++◌};
ghost use Rattle.refusals.specs.Reasons.{tells};
ghost use Rattle.room.specs.Digits.{strike};
ghost use Rattle.room.specs.Answers.{no_switch, the_switch, switch_answer};

use crate::addresses::{digit_places, number_of};
use crate::tests::link_refusal;
use crate::{Shape, Switch};
use refusals::Reason;

// Four places with one struck out and those above it moved down; the last is then 0.
fn struck(places: [usize; 4], level: usize) -> [usize; 4]
    requires { level ≤ 3 }
    ensures { result ≡ strike level places ++ (0 ∷ []) }
{
    match level {
        0 => [places[1], places[2], places[3], 0],
        1 => [places[0], places[2], places[3], 0],
        2 => [places[0], places[1], places[3], 0],
        _ => [places[0], places[1], places[2], 0],
    }
}

// The switch of a server at a level: the level and the switch's number there, from the four digits with one struck out.
// Refusals 1, 2, 26, 3, 4, 20.
pub fn switch_of(shape: Shape, server: usize, level: usize) -> Result<Switch, Reason>
    ensures { tells no_switch the_switch result ≡ switch_answer shape server level }
{
    link_refusal(shape, server, level)?;
    let places = digit_places(shape, server);
    Ok(Switch {
        level,
        number: number_of(shape.n, struck(places, level)),
    })
}
