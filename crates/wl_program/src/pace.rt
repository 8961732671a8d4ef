//! When turns begin, and at which time.

ghost use Rattle.std.specs.Prelude.{◌≡◌, ◌%◌, ◌^◌};
ghost use Rattle.wl_program.specs.Pace.{count_of, hertz_of, time_of};

use crate::rate::Rate;
use std::thread;
use std::time::{Clock, Duration, Instant};

/// How many turns are taken, and how often they begin.
#[derive(Clone, Copy)]
pub struct Pace {
    /// How many. If it isn't said, as many as can be counted: 2^64 - 1.
    pub turns: Option<u32>,
    /// How often they begin at most. If it isn't said, each begins as soon as the one before is
    /// over.
    pub rate: Option<Rate>,
}

impl Pace {
    /// How many turns are taken.
    pub(crate) fn count(self) -> u64
        ensures { result ≡ count_of self.turns }
    {
        match self.turns {
            Some(turns) => u64::from(turns),
            None => u64::MAX,
        }
    }

    /// The time of the turn of this number, from 1, modulo 2^32. It is the number, or at a rate the
    /// milliseconds that this many turns take, rounded down.
    pub(crate) fn time_of(self, number: u64) -> u32
        ensures { result ≡ time_of (hertz_of self.rate) number }
    {
        match self.rate {
            Some(rate) => wrapped(u128::from(number) * 1000 / u128::from(rate.hertz)),
            None => wrapped(u128::from(number)),
        }
    }
}

/// A number modulo 2^32.
fn wrapped(number: u128) -> u32
    ensures { result ≡ number % 2 ^ 32 }
{
    (number % (1 << 32)) as u32
}

/// When turns are taken: by this clock, at this pace.
#[derive_where(Clone, Copy)]
pub struct Schedule<'a, C: Clock> {
    pub clock: &'a C,
    pub pace: Pace,
}

/// How many short turns in a row find nothing to do before none is taken until something is.
const QUIET: u32 = 100;

/// Tells when the next turn is due.
#[derive(Clone, Copy)]
pub(crate) struct Timer {
    period: Option<Duration>,
    /// When the next turn is due. `None` if it is due at once.
    due: Option<Instant>,
    /// How many short turns in a row found nothing to do.
    quiet: u32,
}

impl Timer {
    /// A timer by which the first turn is due at once.
    pub(crate) fn new(rate: Option<Rate>) -> Timer {
        Timer {
            period: period_of(rate),
            due: None,
            quiet: 0,
        }
    }

    /// Whether the next turn is due, which then begins; else a short turn is to be taken. Before
    /// that it sleeps a millisecond, unless the last short turn found something to do. If a hundred
    /// in a row found nothing, it sleeps until the next turn is due.
    ///
    /// The turn after it is due a period after this one was due, or a period after this one begins,
    /// if that is later. So turns that were missed aren't made up for. Without a rate each turn is
    /// due at once.
    pub(crate) fn is_due<C: Clock>(&mut self, clock: &C, is_busy: bool) -> bool {
        let Some(period) = self.period else {
            return true;
        };
        self.quiet = if is_busy {
            0
        } else {
            self.quiet.saturating_add(1)
        };
        match self.left(clock) {
            Some(left) if self.quiet < QUIET => {
                if !is_busy {
                    thread::sleep(clock, left.min(Duration::from_millis(1)));
                }
                false
            }
            _ => {
                self.due = sleep_until(clock, self.due, period);
                true
            }
        }
    }

    /// How long it is until the next turn is due. `None` if it is due, or if the clock tells no
    /// time.
    fn left<C: Clock>(self, clock: &C) -> Option<Duration> {
        let due = self.due?;
        let Ok(now) = Instant::now(clock) else {
            return None;
        };
        if now < due {
            Some(due.duration_since(now))
        } else {
            None
        }
    }
}

/// The time from one turn to the next, at a rate.
fn period_of(rate: Option<Rate>) -> Option<Duration> {
    let rate = rate?;
    Some(Duration::from_nanos(1_000_000_000 / u64::from(rate.hertz)))
}

/// Sleeps until a turn is due, and answers when the next one is. If the clock tells no time, it
/// sleeps a period.
fn sleep_until<C: Clock>(clock: &C, due: Option<Instant>, period: Duration) -> Option<Instant> {
    let Ok(now) = Instant::now(clock) else {
        thread::sleep(clock, period);
        return None;
    };
    let Some(due) = due else {
        return now.checked_add(period);
    };
    if now < due {
        thread::sleep(clock, due.duration_since(now));
        return due.checked_add(period);
    }
    match due.checked_add(period) {
        Some(next) if next > now => Some(next),
        _ => now.checked_add(period),
    }
}
