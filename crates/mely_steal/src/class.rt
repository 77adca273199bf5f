//! How much a colour is worth to a thief.
ghost use Rattle.std.specs.Prelude.{◌≡◌};
ghost use Rattle.mely_steal.specs.Classes as classes;

/// The class of a time left, in the unit of the weights of events, at this cost of a steal: 0 up to
/// the cost, 1 over it up to twice the cost, 2 up to four times the cost, and 3 above. A colour of
/// class 0 isn't worth a steal. At cost 0 every time left over 0 is of class 3.
pub fn class_of(worth: u128, cost: u32) -> u8
    ensures { result ≡ classes.class_of worth cost }
{
    let cost = u128::from(cost);
    if worth <= cost {
        0
    } else if worth <= 2 * cost {
        1
    } else if worth <= 4 * cost {
        2
    } else {
        3
    }
}
