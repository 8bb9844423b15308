//! The times and counts of an end (X.224, class 4: timers).

ghost use Rattle.std.specs.Prelude.{◌≡◌};
ghost use Rattle.tp4_conn.specs.End.{IsTimed, span, in_use, frozen_for};

/// The times and counts of an end, the times in ticks.
#[derive(Clone, Copy)]
pub struct Timers {
    /// M, the longest that a TPDU is under way: 1 to 255.
    pub life: u32,
    /// T1, after which a TPDU without its answer is sent again: 1 to 255.
    pub t1: u32,
    /// N, how often a TPDU is sent: 2 to 16.
    pub sendings: u32,
    /// W, after which an AK is sent again: 1 to 255.
    pub window: u32,
    /// I, after which an end to which nothing comes is closed: 1 to 255, above W.
    pub inactive: u32,
    /// The credit that an end gives at first: 0 to 15.
    pub credit: u16,
}

impl Timers {
    /// N T1.
    pub(crate) fn span(self) -> u32
        requires { IsTimed self }
        ensures { result ≡ span self }
    {
        self.sendings * self.t1
    }

    /// L, for how long a number is in use.
    pub(crate) fn in_use(self) -> u32
        requires { IsTimed self }
        ensures { result ≡ in_use self }
    {
        2 * self.life + (self.sendings - 1) * self.t1
    }

    /// F, for how long a reference is frozen.
    pub fn frozen(self) -> u32
        requires { IsTimed self }
        ensures { result ≡ frozen_for self }
    {
        2 * self.life + self.inactive + self.span()
    }
}
