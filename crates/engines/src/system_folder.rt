//! The files of the system.

ghost use Rattle.std.specs.Prelude.{None};

use program_files::Folder;
use std::alloc::Global;
use std::fs::{OpenFile, OpenOptions, Permissions};
use std::io::{ErrorKind, Read, Write};
use std::rt::Files;
use std::{fs, io};

/// How many names are tried for a file that is to take the place of another one.
const TRIES: u32 = 100;

/// The files of the system, from the folder on that the program runs in.
#[derive(Drop)]
pub struct SystemFolder<'a, R> {
    files: &'a R,
}

impl<'a, R> SystemFolder<'a, R> {
    pub fn new(files: &'a R) -> SystemFolder<'a, R> {
        SystemFolder { files }
    }
}

impl<R: Files> Folder for SystemFolder<'_, R> {
    ghost held = { λ _ _. None };

    ghost listed = { λ _ _. None };

    fn read(&self, alloc: Global, path: &str) -> io::Result<Vec<u8>> {
        let mut file = fs::open(self.files, path)?;
        let mut bytes = Vec::new(alloc);
        file.read_to_end(&mut bytes)?;
        Ok(bytes)
    }

    fn names(&self, alloc: Global, path: &str) -> io::Result<Option<Vec<String>>> {
        match fs::metadata(self.files, path) {
            Ok(found) if found.is_dir() => Ok(Some(names_in(alloc, self.files, path)?)),
            Ok(_) => Ok(None),
            Err(error) if error.kind() == ErrorKind::NotFound => Ok(None),
            Err(error) => Err(error),
        }
    }

    /// A file that is there is opened, and one is made for a moment beside a name that is free. Neither a device nor a
    /// named pipe is tried, since who reads it would take notice, nor what a link leads to where nothing is there.
    fn try_write(&self, alloc: Global, path: &str) -> io::Result<()> {
        match fs::metadata(self.files, path) {
            Ok(found) if found.is_file() || found.is_dir() => open_there(self.files, path),
            Ok(_) => Ok(()),
            Err(error) if error.kind() != ErrorKind::NotFound => Err(error),
            Err(_) if is_link(self.files, path) => Ok(()),
            Err(_) => try_beside(alloc, self.files, path),
        }
    }

    /// A regular file is made beside the one that is there, and then takes its place, so that a full disk leaves that
    /// as it was. What is no regular file, as `/dev/null`, is written to.
    fn write(&mut self, alloc: Global, path: &str, bytes: &[u8]) -> io::Result<()> {
        match fs::metadata(self.files, path) {
            Ok(found) if found.is_file() => replace(alloc, self.files, path, bytes),
            Err(error) if error.kind() == ErrorKind::NotFound && !is_link(self.files, path) => {
                make_beside(alloc, self.files, path, None, bytes)
            }
            _ => write_straight(self.files, path, bytes),
        }
    }
}

/// The names of what lies in a folder of the system.
fn names_in<R: Files>(alloc: Global, files: &R, path: &str) -> io::Result<Vec<String>> {
    let mut names = Vec::new(alloc);
    for entry in fs::read_dir(&(files, alloc), path)? {
        names.push(String::from_str(alloc, entry?.file_name())?)?;
    }
    Ok(names)
}

/// Whether a symbolic link stands at a path.
fn is_link<R: Files>(files: &R, path: &str) -> bool {
    match fs::symlink_metadata(files, path) {
        Ok(found) => found.is_symlink(),
        Err(_) => false,
    }
}

/// Opens what is at a path, to be written, and closes it.
fn open_there<R: Files>(files: &R, path: &str) -> io::Result<()> {
    let _ = OpenOptions::new().write(true).open(files, path)?;
    Ok(())
}

/// Makes a file beside a path, and takes it away again.
fn try_beside<R: Files>(alloc: Global, files: &R, path: &str) -> io::Result<()> {
    let (_, name) = new_beside(alloc, files, path)?;
    fs::remove_file(files, name.as_str())
}

/// Writes these bytes to what is at a path.
fn write_straight<R: Files>(files: &R, path: &str, bytes: &[u8]) -> io::Result<()> {
    let mut file = fs::create(files, path)?;
    file.write_all(bytes)
}

/// Puts a file of these bytes in the place of the regular file to which a path leads. One that can't be written stays.
fn replace<R: Files>(alloc: Global, files: &R, path: &str, bytes: &[u8]) -> io::Result<()> {
    let there = OpenOptions::new().write(true).open(files, path)?;
    let permissions = there.metadata()?.permissions();
    let target = files.canonicalize(alloc, path)?;
    match make_beside(alloc, files, target.as_str(), Some(permissions), bytes) {
        Err(error) if error.kind() == ErrorKind::PermissionDenied => {
            write_straight(files, path, bytes)
        }
        made => made,
    }
}

/// Makes a file of these bytes, with these permissions or the usual ones, beside a path, and gives it its name.
fn make_beside<R: Files>(
    alloc: Global,
    files: &R,
    path: &str,
    permissions: Option<Permissions>,
    bytes: &[u8],
) -> io::Result<()> {
    let (file, name) = new_beside(alloc, files, path)?;
    let moved = match filled(file, permissions, bytes) {
        Ok(()) => fs::rename(files, name.as_str(), path),
        Err(error) => Err(error),
    };
    if moved.is_err() {
        let _ = fs::remove_file(files, name.as_str());
    }
    moved
}

/// A new file beside a path, and its name.
fn new_beside<R: Files>(alloc: Global, files: &R, path: &str) -> io::Result<(R::File, String)> {
    for number in 0..TRIES {
        let name = format!(in alloc; "{path}.{number}.part")?;
        match create_new(files, name.as_str()) {
            Ok(file) => return Ok((file, name)),
            Err(error) if error.kind() == ErrorKind::AlreadyExists => {}
            Err(error) => return Err(error),
        }
    }
    Err(io::Error::from(ErrorKind::AlreadyExists))
}

/// A file at a path where there is none.
fn create_new<R: Files>(files: &R, path: &str) -> io::Result<R::File> {
    OpenOptions::new()
        .write(true)
        .create_new(true)
        .open(files, path)
}

/// Gives a new file its permissions and its bytes, and closes it.
fn filled<T: Write + OpenFile + Drop>(
    file: T,
    permissions: Option<Permissions>,
    bytes: &[u8],
) -> io::Result<()> {
    let mut file = file;
    if let Some(permissions) = permissions {
        file.set_permissions(permissions)?;
    }
    file.write_all(bytes)?;
    file.sync_all()
}
