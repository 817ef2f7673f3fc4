//! What a credit book keeps for one account.
ghost use Rattle.std.specs.Prelude.{◌≡◌, ◌-◌, ◌^◌, ◌≤◌};

/// A line of credit: how much may be lent, and how much is.
#[derive(Clone, Copy)]
pub(crate) struct Line {
    pub(crate) limit: u64,
    pub(crate) loan: u64,
    ghost low: { limit ≤ 10 ^ 15 },
    ghost lent: { loan ≤ limit },
}

impl Line {
    // A line of which nothing is lent.
    pub(crate) fn new(limit: u64) -> Line
        requires { limit ≤ 10 ^ 15 }
        ensures limit { result.limit ≡ limit }
        ensures loan { result.loan ≡ 0 }
    {
        Line { limit, loan: 0 }
    }

    // What is left of the limit.
    pub(crate) fn left(self) -> u64
        ensures value { result ≡ self.limit - self.loan }
    {
        self.limit - self.loan
    }
}
