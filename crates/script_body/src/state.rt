use crate::value::Registers;

/// Where a thread stands in its code.
#[derive(Debug, Drop)]
pub(crate) struct State {
    /// The place of the operation whose turn it is.
    pub(crate) place: u32,
    pub(crate) registers: Registers,
    /// Whether it has had the first answer of the `wait` or `arrive` at this place.
    pub(crate) halfway: bool,
}

impl State {
    ghost use Rattle.std.specs.Prelude.{◌≡◌};
    ghost use Rattle.script_code.specs.FlatPosts.{spot};
    ghost use Rattle.script_body.specs.Spots.{spot_of};

    /// Goes on at a place.
    pub(crate) fn go(&mut self, place: u32)
        ensures { spot_of self.new ≡ spot place self.old.registers }
    {
        self.place = place;
        self.halfway = false;
    }
}
