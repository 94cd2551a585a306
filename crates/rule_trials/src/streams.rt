use std::io;
use std::io::{Read, Write};

// Gives one byte a call, and then an error before its end.
#[derive(Drop)]
pub(crate) struct Breaking {
    pub(crate) calls: u8,
}

impl Read for Breaking {
    fn read(&mut self, buf: &mut [u8]) -> io::Result<usize> {
        self.calls = self.calls.saturating_add(1);
        match self.calls {
            1 if !buf.is_empty() => {
                buf[0] = b'a';
                Ok(1)
            }
            2 => Err(io::ErrorKind::Other.into()),
            _ => Ok(0),
        }
    }
}

// Takes a byte of the first piece, nothing of the second, and fails at the third.
#[derive(Drop)]
pub(crate) struct Clogging {
    pub(crate) calls: u8,
    pub(crate) got: Option<u8>,
}

impl Write for Clogging {
    fn write(&mut self, buf: &[u8]) -> io::Result<usize> {
        self.calls = self.calls.saturating_add(1);
        match self.calls {
            1 if !buf.is_empty() => {
                self.got = Some(buf[0]);
                Ok(1)
            }
            2 => Ok(0),
            _ => Err(io::ErrorKind::BrokenPipe.into()),
        }
    }

    fn flush(&mut self) -> io::Result<()> {
        Ok(())
    }
}
