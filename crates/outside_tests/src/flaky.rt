//! A file of the system that is interrupted, fails and ends as a test wants it.
use std::alloc::Allocator;
use std::fs::{Files, Metadata, OpenFile, OpenOptions};
use std::io::{self, ErrorKind, Read, Seek, SeekFrom, Write};

/// A file whose first call is interrupted. Later calls read as much as there is room for and write
/// at most 4 bytes, but for the one that fails and, from another on, those that move nothing.
#[derive(Clone, Copy)]
pub struct Flaky {
    pub calls: u8,
    pub fails: u8,
    pub ends: u8,
}

impl Flaky {
    // The count of a call with room for so many bytes.
    fn count(&mut self, room: usize) -> io::Result<usize> {
        self.calls = self.calls.saturating_add(1);
        match self.calls {
            1 => Err(io::Error::from(ErrorKind::Interrupted)),
            call if call == self.fails => Err(io::Error::from(ErrorKind::Other)),
            call if call >= self.ends => Ok(0),
            _ => Ok(room),
        }
    }
}

impl Read for Flaky {
    fn read(&mut self, buf: &mut [u8]) -> io::Result<usize> {
        let count = self.count(buf.len())?.min(buf.len());
        buf.fill(b'x');
        Ok(count)
    }
}

impl Write for Flaky {
    fn write(&mut self, bytes: &[u8]) -> io::Result<usize> {
        let count = self.count(bytes.len().min(4))?;
        Ok(count.min(bytes.len()))
    }

    fn flush(&mut self) -> io::Result<()> {
        Ok(())
    }
}

fn unsupported<T>() -> io::Result<T> {
    Err(io::Error::from(ErrorKind::Unsupported))
}

impl Seek for Flaky {
    fn seek(&mut self, _to: SeekFrom) -> io::Result<u64> {
        unsupported()
    }
}

impl OpenFile for Flaky {
    fn metadata(&self) -> io::Result<Metadata> {
        unsupported()
    }

    fn set_len(&self, _size: u64) -> io::Result<()> {
        unsupported()
    }

    fn sync_all(&self) -> io::Result<()> {
        unsupported()
    }

    fn sync_data(&self) -> io::Result<()> {
        unsupported()
    }
}

// A system all of whose files are as this one.
impl Files for Flaky {
    type File = Flaky;

    type Dir = Flaky;

    fn open_file(&self, _how: &OpenOptions, path: &str) -> io::Result<Flaky> {
        if path.is_empty() {
            return Err(io::Error::from(ErrorKind::NotFound));
        }
        Ok(*self)
    }

    fn open_dir(&self, _path: &str) -> io::Result<Flaky> {
        unsupported()
    }

    fn metadata(&self, _path: &str) -> io::Result<Metadata> {
        unsupported()
    }

    fn symlink_metadata(&self, _path: &str) -> io::Result<Metadata> {
        unsupported()
    }

    fn copy(&self, _from: &str, _to: &str) -> io::Result<u64> {
        unsupported()
    }

    fn rename(&self, _from: &str, _to: &str) -> io::Result<()> {
        unsupported()
    }

    fn remove_file(&self, _path: &str) -> io::Result<()> {
        unsupported()
    }

    fn create_dir(&self, _path: &str) -> io::Result<()> {
        unsupported()
    }

    fn remove_dir(&self, _path: &str) -> io::Result<()> {
        unsupported()
    }

    fn remove_dir_all<B: Allocator>(&self, _alloc: B, _path: &str) -> io::Result<()> {
        unsupported()
    }
}
