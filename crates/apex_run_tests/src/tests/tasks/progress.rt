//! The line of a search on a clock and an output that replace the system's.
use dekarino_search::{Progress, ProgressLine, Reached};
use std::cell::Cell;
use std::io;
use std::io::{IsTerminal, Write};
use std::test::Fail;
use std::time::{Clock, Duration};

/// A clock that doesn't advance until it is set.
#[derive(Drop)]
struct FakeClock {
    millis: Cell<u64>,
}

impl Clock for FakeClock {
    fn monotonic(&self) -> io::Result<Duration> {
        Ok(Duration::from_millis(self.millis.get()))
    }

    fn since_1970(&self) -> io::Result<Duration> {
        self.monotonic()
    }
}

/// An output that keeps what it is given.
#[derive(Drop)]
struct Screen<'a> {
    taken: &'a mut Vec<u8>,
    is_terminal: bool,
}

impl Write for Screen<'_> {
    fn write(&mut self, buf: &[u8]) -> io::Result<usize> {
        self.taken.extend_from_slice(buf)?;
        Ok(buf.len())
    }

    fn flush(&mut self) -> io::Result<()> {
        Ok(())
    }
}

impl IsTerminal for Screen<'_> {
    fn is_terminal(&self) -> bool {
        self.is_terminal
    }
}

/// Shows on the screen how far searches are, from half a second after it was made, and wipes it.
fn search_on(screen: Screen<'_>) {
    let clock = FakeClock {
        millis: Cell::new(7_000),
    };
    let mut line = ProgressLine::new(&clock, screen);
    for (millis, placed) in [(7_499, 1), (7_500, 20), (7_999, 4), (9_000, 15)] {
        clock.millis.set(millis);
        line.show(Reached::Calls {
            placed,
            dead_ends: 3,
        });
    }
    clock.millis.set(9_500);
    line.show(Reached::States {
        found: 60,
        depth: 7,
    });
    line.wipe();
    line.wipe();
}

#[test]
fn the_line_is_rewritten_twice_a_second_and_wiped(rt: HostRuntime) -> Result<(), Fail> {
    let mut taken = Vec::new(rt.alloc());
    search_on(Screen {
        taken: &mut taken,
        is_terminal: true,
    });
    let shown = "\rcalls placed 20, dead ends 3, 0 s\x1b[K\rcalls placed 15, dead ends 3, 2 s\x1b[K\
\rstates 60, depth 7, 2 s\x1b[K\r\x1b[K";
    assert_eq!(rt; taken.as_slice(), shown.as_bytes());
    Ok(())
}

#[test]
fn nothing_is_shown_where_there_is_no_terminal(rt: HostRuntime) -> Result<(), Fail> {
    let mut taken = Vec::new(rt.alloc());
    search_on(Screen {
        taken: &mut taken,
        is_terminal: false,
    });
    assert!(rt; taken.is_empty());
    Ok(())
}
