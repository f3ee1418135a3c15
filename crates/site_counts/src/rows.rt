//! The row of a function, and what one user changes in it.

ghost use Rattle.std.specs.Prelude.{◌≡◌};
ghost use Rattle.site_counts.specs.Rows.{no_users, Allows, after};

/// The users that are sited at a function, counted.
#[derive(Clone, Copy, PartialEq, Eq)]
pub struct Row {
    /// How many users there are.
    pub count: u32,
    /// How many of them have the `regs` flag.
    pub regs: u32,
    /// How many of them replace functions: they have `ipmodify`.
    pub ipmodify: u32,
}

/// A user comes or goes, with its flags.
#[derive(Clone, Copy)]
pub(crate) enum Change {
    Add { regs: bool, ipmodify: bool },
    Drop { regs: bool, ipmodify: bool },
}

impl Row {
    /// A row without users.
    pub(crate) fn new() -> Row
        ensures { result ≡ no_users }
    {
        Row {
            count: 0,
            regs: 0,
            ipmodify: 0,
        }
    }

    /// The row after a change.
    pub(crate) fn after(self, change: Change) -> Row
        requires { Allows change self }
        ensures { result ≡ after change self }
    {
        match change {
            Change::Add { regs, ipmodify } => Row {
                count: self.count + 1,
                regs: self.regs + u32::from(regs),
                ipmodify: self.ipmodify + u32::from(ipmodify),
            },
            Change::Drop { regs, ipmodify } => Row {
                count: self.count - 1,
                regs: self.regs - u32::from(regs),
                ipmodify: self.ipmodify - u32::from(ipmodify),
            },
        }
    }
}
