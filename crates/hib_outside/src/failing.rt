// The calls of a keeper, source or sink in memory that are to fail, by their numbers: for checks of what comes of a
// failure.
ghost use Rattle.std.specs.Prelude.{◌≡◌, ◌+◌, if◌then◌else◌};
ghost use Rattle.hib_outside.specs.Causes.{failed_calls, is_due, next_call};

use hib_base::Seq;

/// Numbers of calls, from 1.
pub type Numbers = Seq<u32>;

/// How many calls came so far, and the numbers of those that are to fail.
#[derive(Drop)]
pub struct Failing {
    /// The calls so far, or 4294967295 if there were more.
    pub calls: u32,
    /// The numbers of the calls that are to fail.
    pub fail: Numbers,
}

impl Failing {
    /// No call came so far, and these are to fail.
    pub fn new(fail: Numbers) -> Failing
        ensures calls { result.calls ≡ 0 }
        ensures fail { result.fail ≡ fail }
    {
        Failing { calls: 0, fail }
    }

    /// Counts a call, and answers whether it is to fail.
    pub fn comes(&mut self) -> bool
        ensures due { result ≡ is_due self.old.fail self.old.calls }
        ensures calls { self.new.calls ≡ next_call self.old.calls }
        ensures fail { self.new.fail ≡ self.old.fail }
        ensures count { failed_calls self.new.fail self.new.calls
            ≡ failed_calls self.old.fail self.old.calls + (if result then 1 else 0) }
    {
        // No number names a call after this one.
        if self.calls == u32::MAX {
            return false;
        }
        self.calls += 1;
        self.fail.as_slice().contains(&self.calls)
    }
}
