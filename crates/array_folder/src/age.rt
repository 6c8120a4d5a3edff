// How many of something there are, and how old something is, in words.
use std::time::{Duration, SystemTime};
use std::{fmt, fs, io};

/// So many of something, which is written as `1 shard` or `2 shards`.
#[derive(Clone, Copy)]
pub struct Counted(pub u64, pub &'static str);

impl fmt::Display for Counted {
    fn fmt<W: fmt::Write>(&self, f: &mut fmt::Formatter<W>) -> fmt::Result {
        let Counted(count, name) = *self;
        write!(f, "{count} {name}{}", if count == 1 { "" } else { "s" })
    }
}

/// How old something is, or `None` where that is not known. It is written as `, 3 minutes old`, or not at all.
#[derive(Clone, Copy)]
pub struct Age(Option<Duration>);

// A duration in a unit of which it has two or more, or in seconds.
fn in_units(seconds: u64) -> Counted {
    if seconds < 120 {
        Counted(seconds, "second")
    } else if seconds < 7200 {
        Counted(seconds / 60, "minute")
    } else if seconds < 172_800 {
        Counted(seconds / 3600, "hour")
    } else {
        Counted(seconds / 86_400, "day")
    }
}

impl fmt::Display for Age {
    fn fmt<W: fmt::Write>(&self, f: &mut fmt::Formatter<W>) -> fmt::Result {
        match self.0 {
            Some(age) => {
                let age = in_units(age.as_secs());
                write!(f, ", {age} old")
            }
            None => Ok(()),
        }
    }
}

// How long ago a file was last written.
fn since_written(rt: &HostRuntime, path: &str) -> io::Result<Duration> {
    let written = fs::metadata(rt, path)?.modified()?;
    match SystemTime::now(rt)?.duration_since(written) {
        Ok(age) => Ok(age),
        Err(_) => Ok(Duration::from_secs(0)),
    }
}

/// How old the file at a path is.
pub fn age_of(rt: &HostRuntime, path: &str) -> Age {
    Age(since_written(rt, path).ok())
}
