// A plan's entry, which the game speaks of. How it stands in bytes is for the rules to say.

ghost use Rattle.std.specs.Prelude.{◌≡◌};
ghost use Rattle.game.specs.Game.{named};

// What a plan says of a place.
#[derive(Clone, Copy, Debug, PartialEq, Eq)]
pub struct Entry {
    pub value: u8,
    pub action: u8,
    pub number: u16,
}

impl Entry {
    // The action that the entry names, or none where it names none.
    pub fn named(self) -> Option<u8>
        ensures { result ≡ named self }
    {
        match self.action {
            255 => None,
            action => Some(action),
        }
    }
}
