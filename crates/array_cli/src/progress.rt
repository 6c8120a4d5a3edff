// How far a command is, as it shows on a terminal.
ghost use Rattle.std.specs.Prelude.{◌≢◌};

use std::fmt::Display;
use std::io::{Stderr, Write};

/// Shows how far a command is: a percentage that stands alone on its line, and over which the next one is written. What is
/// not taken is dropped.
#[derive(Drop)]
pub struct Progress {
    // none where nothing is written
    messages: Option<Stderr>,
    // whether anything is shown at all
    shows: bool,
    // the percentage that stands there
    shown: Option<u64>,
    // which of how many equal parts of the work is done
    part: u64,
    parts: u64,
}

// What `done` of `of` parts are in percent.
fn percentage(done: u64, of: u64) -> u64
    requires { of ≢ 0 }
{
    done.saturating_mul(100) / of
}

impl Progress {
    /// Nothing is shown yet, and no percentage ever is where `shows` is false.
    pub fn new(rt: &HostRuntime, shows: bool) -> Self {
        Progress {
            messages: Some(rt.stderr()),
            shows,
            shown: None,
            part: 0,
            parts: 1,
        }
    }

    /// Nothing is ever written.
    pub fn silent() -> Self {
        Progress {
            messages: None,
            shows: false,
            shown: None,
            part: 0,
            parts: 1,
        }
    }

    /// The next steps are those of one of the equal parts of the work, which are counted from 0.
    pub fn begin_part(&mut self, part: u64, parts: u64) {
        self.part = part;
        self.parts = parts.max(1);
    }

    /// Shows that `done` of `of` parts are done, where that is another percentage. Of no parts nothing is shown.
    pub fn step(&mut self, done: u64, of: u64) {
        if self.shows && of != 0 {
            let before = self.part.saturating_mul(100);
            let percent = before.saturating_add(percentage(done, of));
            self.show(percent.checked_div(self.parts).unwrap_or(100));
        }
    }

    // Shows a percentage, where another one or none stands there.
    fn show(&mut self, percent: u64) {
        if self.shown != Some(percent) {
            self.shown = Some(percent);
            if let Some(messages) = &mut self.messages {
                let _ = write!(messages, "\r{percent:3} %");
            }
        }
    }

    /// Writes a line on what is filled, under a key and with a reason.
    pub fn tell_filled<D: Display>(&mut self, key: &str, reason: &D) {
        self.clear();
        if let Some(messages) = &mut self.messages {
            let _ = writeln!(messages, "{key}: filled: {reason}");
        }
    }

    /// Blanks the percentage that stands there.
    pub fn clear(&mut self) {
        if self.shown.take().is_some()
            && let Some(messages) = &mut self.messages
        {
            let _ = messages.write_all(b"\r     \r");
        }
    }
}
