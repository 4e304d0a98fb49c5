//! Opens, writes and closes the output: standard output, or a file, which gets its name only once
//! all input is converted.

use cborcat_messages::{label, say};
use cborcat_views::{Output, Written};
use std::fs::{File, OpenOptions, Permissions};
use std::io::{ErrorKind, Write};
use std::path::PathBuf;
use std::{fs, io};

/// How many links one after the other are followed, as Linux does.
const MOST_LINKS: usize = 40;

/// Where the output goes.
#[derive(Drop)]
pub enum Target {
    /// To standard output.
    Screen,
    /// To a file that is no regular one, such as a device.
    Direct(File),
    /// To a file that takes the place of another at the end.
    Beside(Beside),
}

/// A file beside the one that is to be written.
#[derive(Drop)]
pub struct Beside {
    file: File,
    /// The path of this file.
    path: String,
    /// The path of the file that is to be written.
    wanted: PathBuf,
}

/// Opens what the output goes to; a message says if it cannot be written.
pub fn open(rt: &HostRuntime, output: Option<&str>) -> Option<Target> {
    let Some(name) = output else {
        return Some(Target::Screen);
    };
    match open_file(rt, name) {
        Ok(target) => Some(target),
        Err(error) => {
            let _ = eprintln!(rt; "cborcat: {name}: {error}");
            None
        }
    }
}

/// Opens a file for the output. A file that is there already keeps its mode.
fn open_file(rt: &HostRuntime, name: &str) -> io::Result<Target> {
    let permissions = match fs::metadata(rt, name) {
        Ok(known) if !known.is_file() => {
            let file = OpenOptions::new().write(true).open(rt, name)?;
            return Ok(Target::Direct(file));
        }
        Ok(known) => Some(known.permissions()),
        Err(error) if error.kind() == ErrorKind::NotFound => None,
        // Such as a link to itself, or a folder that may not be searched.
        Err(error) => return Err(error),
    };
    let beside = create_beside(rt, destination(rt, name)?)?;
    match keep(&beside.file, permissions) {
        Ok(()) => Ok(Target::Beside(beside)),
        Err(error) => {
            remove(rt, &beside);
            Err(error)
        }
    }
}

/// Whether a file may be replaced by its name; a message says if it is no regular file.
pub fn may_be_replaced(rt: &HostRuntime, name: &str) -> bool {
    match fs::metadata(rt, name) {
        Ok(known) if !known.is_file() => {
            let _ = eprintln!(rt;
                "cborcat: {}: no regular file, so nothing can take its place",
                label(name)
            );
            false
        }
        _ => true,
    }
}

/// Gives a file these permissions, if there are some.
fn keep(file: &File, permissions: Option<Permissions>) -> io::Result<()> {
    match permissions {
        Some(permissions) => file.set_permissions(permissions),
        None => Ok(()),
    }
}

/// The path of the file that a name leads to: links are followed, also one to a file that is not
/// there yet.
fn destination(rt: &HostRuntime, name: &str) -> io::Result<PathBuf> {
    let mut path = PathBuf::from_str(rt.alloc(), name)?;
    for _ in 0..MOST_LINKS {
        match fs::symlink_metadata(rt, path.as_str()) {
            Ok(known) if known.is_symlink() => {}
            Err(error) if error.kind() == ErrorKind::OutOfMemory => return Err(error),
            _ => break,
        }
        let next = fs::read_link(rt, path.as_str())?;
        path = match path.parent() {
            Some(folder) => folder.join(rt.alloc(), next.as_str())?,
            None => next,
        };
    }
    Ok(path)
}

/// Creates a file beside the one that is to be written.
fn create_beside(rt: &HostRuntime, wanted: PathBuf) -> io::Result<Beside> {
    for number in 0..1000u32 {
        let path = format!(in rt.alloc(); "{}.{number}.part", wanted.as_str())?;
        match File::create_new(rt, path.as_str()) {
            Ok(file) => return Ok(Beside { file, path, wanted }),
            Err(error) if error.kind() == ErrorKind::AlreadyExists => {}
            Err(error) => return Err(error),
        }
    }
    Err(io::Error::from(ErrorKind::AlreadyExists))
}

/// Removes a file that does not take the place of another.
fn remove(rt: &HostRuntime, beside: &Beside) {
    let _ = fs::remove_file(rt, beside.path.as_str());
}

impl Output for Target {
    fn write(&mut self, rt: &HostRuntime, bytes: &[u8]) -> Written {
        write(rt, self, bytes)
    }
}

/// Writes bytes, all of them.
pub fn write(rt: &HostRuntime, target: &mut Target, bytes: &[u8]) -> Written {
    let end = match target {
        Target::Screen => rt.stdout().write_all(bytes),
        Target::Direct(file) => file.write_all(bytes),
        Target::Beside(beside) => beside.file.write_all(bytes),
    };
    match end {
        Ok(()) => Written::Whole,
        Err(error) if error.kind() == ErrorKind::BrokenPipe => Written::Closed,
        Err(error) => {
            let _ = eprintln!(rt; "cborcat: cannot write the output: {error}");
            Written::Failed
        }
    }
}

/// Puts the file in its place, if all input was converted; otherwise it is removed, and what was
/// there stays as it was. Returns whether all is well.
pub fn close(rt: &HostRuntime, target: Target, name: Option<&str>, whole: bool) -> bool {
    let Target::Beside(beside) = target else {
        return true;
    };
    if !whole {
        remove(rt, &beside);
        return true;
    }
    match fs::rename(rt, beside.path.as_str(), beside.wanted.as_str()) {
        Ok(()) => true,
        Err(error) => {
            remove(rt, &beside);
            say(rt, name.unwrap_or("-o"), &error);
            false
        }
    }
}
