//! Files of the system with a folder whose entries have given names, which need be no texts.
use std::alloc::Allocator;
use std::fs::{Metadata, OpenOptions};
use std::io;
use std::rt::Files;

/// These files, but for the names in a folder: each with a zero byte after it.
#[derive(Clone, Copy)]
pub struct Entries<'a, R> {
    pub files: &'a R,
    pub names: &'a [u8],
}

fn unsupported<X>() -> io::Result<X> {
    Err(io::Error::from(io::ErrorKind::Unsupported))
}

impl<'a, R: Files> Files for Entries<'a, R> {
    type File = R::File;

    type Dir = &'a [u8];

    fn open_file(&self, how: &OpenOptions, path: &str) -> io::Result<R::File> {
        self.files.open_file(how, path)
    }

    fn open_dir(&self, _path: &str) -> io::Result<&'a [u8]> {
        Ok(self.names)
    }

    fn metadata(&self, path: &str) -> io::Result<Metadata> {
        self.files.metadata(path)
    }

    fn symlink_metadata(&self, path: &str) -> io::Result<Metadata> {
        self.files.symlink_metadata(path)
    }

    fn copy(&self, _from: &str, _to: &str) -> io::Result<u64> {
        unsupported()
    }

    fn rename(&self, _from: &str, _to: &str) -> io::Result<()> {
        unsupported()
    }

    fn remove_file(&self, _path: &str) -> io::Result<()> {
        unsupported()
    }

    fn create_dir(&self, _path: &str) -> io::Result<()> {
        unsupported()
    }

    fn remove_dir(&self, _path: &str) -> io::Result<()> {
        unsupported()
    }

    fn remove_dir_all<B: Allocator>(&self, _alloc: B, _path: &str) -> io::Result<()> {
        unsupported()
    }
}
