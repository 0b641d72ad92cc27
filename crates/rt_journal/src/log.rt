// The file of a journal: it is had by one emulator, read, and begun anew.

use crate::book::{Replayed, replay_over};
use crate::fault::JournalFault;
use crate::file::{TreeFiles, is_locked, locked, metadata_at, sync_folder};
use crate::line::LineFault;
use rt_tree::Tree;
use std::alloc::Global;
use std::fs::{self, File, Metadata};
use std::io::{self, ErrorKind, Read, Write};
use std::os::unix::fs::MetadataExt;
use std::rt::Files;

// The mode that a journal is made with: who may not read the file may not read that either.
fn mode_of_log(file: Option<&Metadata>) -> u32 {
    match file {
        Some(metadata) => metadata.mode() & 0o666,
        None => 0o666,
    }
}

// The journal, which nobody else has, and which is on the disk where lines are synced.
fn locked_log<Y: Files<File = File>>(
    system: &Y,
    place: &TreeFiles,
    is_synced: bool,
) -> io::Result<Option<File>> {
    let there = metadata_at(system, place.file.as_str())?;
    let log = locked(system, place.log.as_str(), mode_of_log(there.as_ref()))?;
    if is_synced {
        sync_folder(system, place.log.as_str())?;
    }
    Ok(log)
}

// The journal, or why it is not had.
pub(crate) fn log_of<Y: Files<File = File>>(
    system: &Y,
    alloc: Global,
    place: &TreeFiles,
    is_synced: bool,
) -> Result<File, JournalFault> {
    match locked_log(system, place, is_synced) {
        Ok(Some(log)) => Ok(log),
        Ok(None) => Err(JournalFault::locked(alloc, place.file.as_str())),
        Err(why) => Err(JournalFault::unwritten(alloc, place.log.as_str(), why)),
    }
}

// What the journal's file holds.
fn bytes_of(alloc: Global, log: &mut File) -> io::Result<Vec<u8>> {
    let mut bytes = Vec::new(alloc);
    log.read_to_end(&mut bytes)?;
    Ok(bytes)
}

// Does what the journal says over the tree, and answers how many bytes of it stand in whole lines.
pub(crate) fn replay_log(
    alloc: Global,
    log: &mut File,
    name: &str,
    tree: Tree,
) -> Result<(Replayed, u64), JournalFault> {
    let bytes = match bytes_of(alloc, log) {
        Ok(bytes) => bytes,
        Err(why) => return Err(JournalFault::unread(alloc, name, why)),
    };
    match replay_over(alloc, tree, bytes.as_slice()) {
        Ok(replayed) => {
            let whole = bytes.len().saturating_sub(replayed.torn);
            Ok((replayed, whole as u64))
        }
        Err(LineFault::BadLine) => Err(JournalFault::bad_line(alloc, name)),
        Err(LineFault::NoMemory) => Err(JournalFault::NoMemory),
    }
}

// Takes a journal away that was made for nothing.
pub(crate) fn leave_none<Y: Files>(system: &Y, log: &File, name: &str) {
    if let Ok(metadata) = log.metadata() {
        if metadata.len() == 0 {
            let _gone = fs::remove_file(system, name);
        }
    }
}

// Writes to a new journal, which nobody else has, what it begins with and what was written since.
pub(crate) fn begin_log(
    log: &mut File,
    anew: &[u8],
    since: &[u8],
    is_synced: bool,
) -> io::Result<()> {
    if !is_locked(log)? {
        return Err(io::Error::from(ErrorKind::WouldBlock));
    }
    log.write_all(anew)?;
    log.write_all(since)?;
    if is_synced {
        log.sync_data()?;
    }
    Ok(())
}
