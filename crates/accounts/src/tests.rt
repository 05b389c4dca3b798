//! Accounts between readers and writers, failing ones too; the expected accounts follow from the rules.
use account::{StreamError, write_account};
use std::alloc::{AllocError, Global};
use std::io;
use std::io::{Error, ErrorKind, Read, Write};

/// Gives its bytes one at a time, and then fails.
#[derive(Drop)]
struct BreaksOff<'a> {
    bytes: &'a [u8],
}

impl Read for BreaksOff<'_> {
    fn read(&mut self, buf: &mut [u8]) -> io::Result<usize> {
        match (self.bytes, buf) {
            ([first, rest @ ..], [place, ..]) => {
                *place = *first;
                self.bytes = rest;
                Ok(1)
            }
            _ => Err(Error::from(ErrorKind::ConnectionReset)),
        }
    }
}

/// Takes a few bytes, and then fails.
#[derive(Drop)]
struct Fills {
    held: Vec<u8>,
    room: usize,
}

impl Write for Fills {
    fn write(&mut self, buf: &[u8]) -> io::Result<usize> {
        let taken = buf.len().min(self.room);
        if taken == 0 {
            return Err(Error::from(ErrorKind::StorageFull));
        }
        self.held.write_all(&buf[..taken])?;
        self.room -= taken;
        Ok(taken)
    }

    fn flush(&mut self) -> io::Result<()> {
        Ok(())
    }
}

/// A name, and an upper bound so long that the input has that many bytes.
fn input_of(heap: Global, bytes: usize) -> Result<Vec<u8>, AllocError> {
    let mut input = Vec::from_slice(heap, b"+a\nL")?;
    for _ in input.len()..bytes {
        input.push(b'z')?;
    }
    Ok(input)
}

/// What a writer holds that held nothing, once the account is written.
fn written<R: Read + Drop>(heap: Global, reader: R) -> Result<Vec<u8>, StreamError> {
    let mut writer = Vec::new(heap);
    write_account(heap, reader, &mut writer)?;
    Ok(writer)
}

#[test]
fn account_is_written_after_what_the_writer_holds(rt: HostRuntime) {
    let mut writer = Vec::from_slice(rt.alloc(), b"before\n").expect(&rt, "memory");
    let done = write_account(rt.alloc(), &b"B100\n+a\n+b"[..], &mut writer);
    assert!(rt; done.is_ok());
    assert_eq!(rt; writer.as_slice(), &b"before\n100 a\n101 b\nend 2\n"[..]);
}

#[test]
fn longest_input_is_read_whole_and_a_longer_one_is_refused(rt: HostRuntime) {
    for (bytes, account) in [
        (65535, &b"0 a\nend 1\n"[..]),
        (65536, &b"refused 20\n"[..]),
        (65537, &b"refused 20\n"[..]),
    ] {
        let input = input_of(rt.alloc(), bytes).expect(&rt, "memory");
        let out = written(rt.alloc(), input.as_slice()).expect(&rt, "written");
        assert_eq!(rt; out.as_slice(), account);
    }
}

#[test]
fn failing_reader_leaves_the_writer(rt: HostRuntime) {
    let mut writer = Vec::from_slice(rt.alloc(), b"before").expect(&rt, "memory");
    let done = write_account(rt.alloc(), BreaksOff { bytes: b"+a\n+b" }, &mut writer);
    assert!(rt;
        matches!(&done, Err(StreamError::Unread(e)) if e.kind() == ErrorKind::ConnectionReset)
    );
    assert_eq!(rt; writer.as_slice(), &b"before"[..]);
}

#[test]
fn failing_writer_holds_a_beginning_of_the_account(rt: HostRuntime) {
    let mut writer = Fills {
        held: Vec::new(rt.alloc()),
        room: 6,
    };
    let done = write_account(rt.alloc(), &b"+a\n+b"[..], &mut writer);
    assert!(rt;
        matches!(&done, Err(StreamError::Unwritten(e)) if e.kind() == ErrorKind::StorageFull)
    );
    assert_eq!(rt; writer.held.as_slice(), &b"0 a\n1 "[..]);
}
