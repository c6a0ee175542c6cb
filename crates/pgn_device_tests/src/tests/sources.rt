//! A source over a reader.
use pgn_game::{Inlet, ReadFailed, Source};
use std::io::{self, ErrorKind, Read};
use std::process::Abort;

/// A reader that fails at its second call.
#[derive(Drop)]
struct Flaky {
    calls: u8,
}

impl Read for Flaky {
    fn read(&mut self, buffer: &mut [u8]) -> io::Result<usize> {
        self.calls = self.calls.saturating_add(1);
        if self.calls == 2 {
            return Err(io::Error::from(ErrorKind::Interrupted));
        }
        if buffer.is_empty() {
            return Ok(0);
        }
        buffer[0] = b'*';
        Ok(1)
    }
}

/// The next read, into room for four bytes, gives these.
fn reads<S: Source>(rt: &impl Abort, source: &mut S, bytes: &[u8]) {
    let mut buffer = [0; 4];
    assert_eq!(rt; source.read_some(&mut buffer), Ok(bytes.len()));
    assert!(rt; buffer.starts_with(bytes));
}

#[test]
fn reads_from_a_reader(rt: HostRuntime) {
    let mut source = Inlet::new(b"1-0 *".as_slice());
    reads(&rt, &mut source, b"1-0 ");
    reads(&rt, &mut source, b"*");
    reads(&rt, &mut source, b"");
}

#[test]
fn reads_on_after_a_failure(rt: HostRuntime) {
    let mut source = Inlet::new(Flaky { calls: 0 });
    reads(&rt, &mut source, b"*");
    assert_eq!(rt; source.read_some(&mut [0; 4]), Err(ReadFailed));
    reads(&rt, &mut source, b"*");
}
