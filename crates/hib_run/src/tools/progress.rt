// How far a search is, on a terminal.
use hib_order_stage::Watcher;
use std::io::IsTerminal;

/// After how many runs it is told once more.
const EVERY: u64 = 4_096;

/// Tells on standard error how many runs were played, if that is a terminal. The line is taken away at the end.
pub struct Progress<'a> {
    host: &'a HostRuntime,
    is_terminal: bool,
    is_shown: bool,
}

impl<'a> Progress<'a> {
    /// Nothing is told yet.
    pub fn on(host: &'a HostRuntime) -> Progress<'a> {
        Progress {
            host,
            is_terminal: host.stderr().is_terminal(),
            is_shown: false,
        }
    }
}

impl Watcher for Progress<'_> {
    fn played(&mut self, runs: u64) {
        if self.is_terminal && runs % EVERY == 0 {
            let _ = eprint!(self.host; "\r\x1b[Khib: {runs} runs played");
            self.is_shown = true;
        }
    }
}

impl Drop for Progress<'_> {
    fn drop(self) {
        let Self {
            host,
            is_terminal: _,
            is_shown,
        } = self;
        if is_shown {
            let _ = eprint!(host; "\r\x1b[K");
        }
    }
}
