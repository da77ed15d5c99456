ghost use Rattle.std.specs.Prelude.{◌≡◌};
ghost use Rattle.observer.specs.Mode.{mode_number, Numbered};

/// A mode of an observer.
#[derive(Clone, Copy, PartialEq, Eq, Debug)]
pub enum Mode {
    Zero = 0,
    One = 1,
    Two = 2,
    Three = 3,
}

impl Mode {
    /// How many modes there are.
    pub const COUNT: usize = 4;
}

/// A number that no mode has.
#[derive(Clone, Copy, PartialEq, Eq, Debug)]
pub struct NoSuchMode(pub u8);

impl TryFrom<u8> for Mode {
    type Error = NoSuchMode;

    ghost try_from_gives = { Numbered };

    /// The mode with this number.
    fn try_from(number: u8) -> Result<Mode, NoSuchMode> {
        match number {
            0 => Ok(Mode::Zero),
            1 => Ok(Mode::One),
            2 => Ok(Mode::Two),
            3 => Ok(Mode::Three),
            _ => Err(NoSuchMode(number)),
        }
    }
}

impl From<Mode> for u8 {
    ghost from_gives = { λ mode number. number ≡ mode_number mode };

    /// The number of the mode.
    fn from(mode: Mode) -> u8 {
        mode as u8
    }
}

/// A row of an observer: a row below, and a mode. It stands where both do.
#[derive(Clone, Copy, PartialEq, Eq, Debug)]
pub struct ObserverRow {
    pub below: usize,
    pub mode: Mode,
}
