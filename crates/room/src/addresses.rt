// The digits of an address, and the address of digits.
ghost use Rattle.std.specs.Prelude.{◌≡◌, ◌≤◌};
ghost use Rattle.lists.specs.Lists.{filled};
ghost use Rattle.refusals.specs.Reasons.{tells};
ghost use Rattle.room.specs.Digits.{address_of, Below};
ghost use Rattle.room.specs.Addresses.{digits};
ghost use Rattle.room.specs.Refusals.{server_refusal};
ghost use Rattle.room.specs.Answers.{no_number, a_number, no_digits, some_digits, digits_answer, digit_answer, address_answer};

use crate::Shape;
use crate::shapes::power;
use crate::tests::{link_refusal, places_refusal, server_refusal};
use refusals::Reason;

// The four places of an address; those above k are zero, since the address is below N, and so the highest
// is what is left of it. No other contract asks that nothing refuses the server, so a struct that carried this fact would
// be no plainer than the clause.
#[tactic(auto, using(crate::proofs::RefusalLaws::server_ports))]
pub(crate) fn digit_places(shape: Shape, server: usize) -> [usize; 4]
    requires { server_refusal shape server ≡ 0 }
    ensures { result ≡ filled 4 (digits shape server) }
{
    let n = shape.n;
    let once = server / n;
    let twice = once / n;
    let thrice = twice / n;
    [server % n, once % n, twice % n, thrice]
}

// Four places to the base n, read as a number.
pub(crate) fn number_of(n: usize, places: [usize; 4]) -> usize
    requires { (n ≤ 64) × Below n places }
    ensures { result ≡ address_of n places }
{
    let high = places[2] + n * places[3];
    let upper = places[1] + n * high;
    places[0] + n * upper
}

// The digits of a server, digit 0 at place 0 and zeros above k. Refusals 1, 2, 26, 3, 4.
pub fn digits_of(shape: Shape, server: usize) -> Result<[usize; 4], Reason>
    ensures { tells no_digits some_digits result ≡ digits_answer shape server }
{
    server_refusal(shape, server)?;
    Ok(digit_places(shape, server))
}

// The digit of a server at a level, by one power of n. Refusals 1, 2, 26, 3, 4, 20.
pub fn digit_of(shape: Shape, server: usize, level: usize) -> Result<usize, Reason>
    ensures { tells no_number a_number result ≡ digit_answer shape server level }
{
    link_refusal(shape, server, level)?;
    let weight = power(shape.n, level);
    Ok(server / weight % shape.n)
}

// The server that has these digits, digit 0 at place 0 and zeros above k. Refusals 1, 2, 26, 3, 21.
pub fn address_of(shape: Shape, places: [usize; 4]) -> Result<usize, Reason>
    ensures { tells no_number a_number result ≡ address_answer shape places }
{
    places_refusal(shape, places)?;
    Ok(number_of(shape.n, places))
}
