ghost use Rattle.std.specs.Prelude.{◌≡◌};
ghost use Rattle.assignments.specs.Modes.{mode_number, fits, left_at, right_at};

// How a join is executed. The master is the server that ends up with the result.
#[derive(Clone, Copy, PartialEq, Eq)]
pub enum Mode {
    // both operands lie at the master
    Local = 0,
    // the master has the left operand, and the right one is sent to it whole
    LeftMaster = 1,
    // the master has the left operand, sends its join column and gets the matching rows back
    LeftSemi = 2,
    // the master has the right operand, and the left one is sent to it whole
    RightMaster = 3,
    // the master has the right operand, sends its join column and gets the matching rows back
    RightSemi = 4,
}

impl Mode {
    // The modes in the order of their numbers.
    pub const ALL: [Mode; 5] = [
        Mode::Local,
        Mode::LeftMaster,
        Mode::LeftSemi,
        Mode::RightMaster,
        Mode::RightSemi,
    ];

    // The number under which this mode is reported.
    pub fn number(self) -> u16
        ensures { result ≡ mode_number self }
    {
        self as u16
    }

    // Whether a master may join so with the other operand at this server.
    pub fn fits(self, master: u16, other: u16) -> bool
        ensures { result ≡ fits self master other }
    {
        (self == Mode::Local) == (other == master)
    }

    // Where the left operand is.
    pub fn left_at(self, master: u16, other: u16) -> u16
        ensures { result ≡ left_at self master other }
    {
        match self {
            Mode::Local | Mode::LeftMaster | Mode::LeftSemi => master,
            Mode::RightMaster | Mode::RightSemi => other,
        }
    }

    // Where the right operand is.
    pub fn right_at(self, master: u16, other: u16) -> u16
        ensures { result ≡ right_at self master other }
    {
        match self {
            Mode::RightMaster | Mode::RightSemi => master,
            Mode::Local | Mode::LeftMaster | Mode::LeftSemi => other,
        }
    }
}
