// A file that is made anew by a thread of its own.
ghost use Rattle.std.specs.Prelude.{◌≡◌, None, Some, IfOk, IfErr, option_map, string_bytes};
ghost use Rattle.serde_json.specs.Read.{read};
ghost use Rattle.serde_json.specs.View.{view, members_view};
ghost use Rattle.rt_journal.specs.Due.{due_after};
ghost use Rattle.rt_tree.specs.Trees.{object};
ghost use Rattle.rt_tree.specs.Reading.{data_fault, member_trees, text_fault, tree_of_data};
ghost use Rattle.rt_journal.specs.laws.Crossing.{TreeIsSent};
ghost use Rattle.rt_journal.specs.Journals.{names_of};
ghost use Rattle.rt_journal.specs.inside.Places.{names_in};

use crate::fault::{JournalFault, trouble_in};
use rt_tree::{Key, Tree, TreeError, tree_from_value};
use serde_json::Value;
use std::alloc::{AllocError, AllocGlobal, Global};
use std::collections::BTreeMap;
use std::fs::{self, File, Metadata, OpenOptions, Permissions, TryLockError};
use std::io::{self, ErrorKind, Write};
use std::os::fd::AsFd;
use std::os::unix::fs::{MetadataExt, OpenOptionsExt, PermissionsExt, fchown};
use std::path::Path;
use std::random::RandomSource;
use std::rt::Files;
use std::sync::Arc;
use std::sync::atomic::{AtomicBool, Ordering};
use std::thread::{self, JoinHandle, Threads};

/// Writes a tree to a new file, and waits until the system has it.
pub(crate) fn write_tree(alloc: Global, file: &mut File, tree: &Tree) -> io::Result<()> {
    let text = tree.text(alloc)?;
    file.write_all(text.as_bytes())?;
    file.sync_all()
}

/// Files whose places new ones took. The disk frees a large file slowly, so they are held until a thread has
/// them.
pub(crate) struct Gone {
    pub(crate) file: Option<File>,
    pub(crate) log: Option<File>,
}

impl Drop for Gone {
    fn drop(self) {
        let Gone { file: _, log: _ } = self;
    }
}

impl Gone {
    pub(crate) fn none() -> Gone {
        Gone {
            file: None,
            log: None,
        }
    }
}

/// A file that a thread is writing.
pub(crate) struct Making {
    thread: JoinHandle<io::Result<()>>,
    is_done: Arc<AtomicBool, Global>,
    anew: Vec<u8>,
}

impl Drop for Making {
    fn drop(self) {
        let Making {
            thread: _,
            is_done: _,
            anew: _,
        } = self;
    }
}

// A thread that ends what is gone, writes a tree to a new file, and then tells that it is done.
fn writing<R: Threads>(
    rt: &R,
    alloc: Global,
    mut file: File,
    tree: Tree,
    gone: Gone,
    done: Arc<AtomicBool, Global>,
) -> Result<JoinHandle<io::Result<()>>, AllocError> {
    // For the prover: what the thread is handed.
    crossing_law();
    let thread = thread::spawn(rt, move || {
        drop(gone);
        let wrote = write_tree(alloc, &mut file, &tree);
        // What is the copy's alone by now goes here: nobody waits for that.
        drop(tree);
        done.store(true, Ordering::SeqCst);
        wrote
    })?;
    Ok(thread)
}

impl Making {
    /// Begins to write a copy of a tree to a new file, and to end what is gone. With the file the journal is to
    /// begin anew.
    pub(crate) fn begin<R: Threads>(
        rt: &R,
        alloc: Global,
        file: File,
        tree: &Tree,
        gone: Gone,
        anew: Vec<u8>,
    ) -> Result<Making, AllocError> {
        let is_done = Arc::new(alloc, AtomicBool::new(false))?;
        let theirs = Arc::try_clone(&is_done)?;
        let thread = writing(rt, alloc, file, tree.copy(alloc)?, gone, theirs)?;
        Ok(Making {
            thread,
            is_done,
            anew,
        })
    }

    /// Whether the thread is done.
    pub(crate) fn is_done(&self) -> bool {
        self.is_done.load(Ordering::SeqCst)
    }

    /// Waits until the thread is done. Answers whether the file is written, and what the journal is to begin
    /// with.
    pub(crate) fn wait<R: Threads>(self, rt: &R) -> (io::Result<()>, Vec<u8>) {
        let Making {
            thread,
            is_done: _,
            anew,
        } = self;
        (thread.join(rt), anew)
    }
}

// ---- when a tree's file is made anew

/// How many milliseconds lie between a file and the next one at least.
pub const LEAST_PAUSE_MS: u64 = 1_000;

/// For so many bytes that a file has, a millisecond lies between it and the next one.
pub const BYTES_A_MS: u64 = 4_096;

/// How many milliseconds lie between two looks at a file that is being made.
pub(crate) const POLL_MS: u64 = 50;

/// When the file is made anew next, where it was made at that time, in milliseconds, and has so many bytes:
/// after [`LEAST_PAUSE_MS`] at least, and later where it is large.
pub(crate) fn due_after(now: u64, file: u64) -> u64
    ensures { result ≡ due_after now file }
{
    now.saturating_add(LEAST_PAUSE_MS.max(file / BYTES_A_MS))
}

// ---- a tree of any size is read from a file's text

/// The tree that a JSON text stands for, as [`Tree::read`] reads it, but for the number of values: an
/// object with more than are read as one tree is read member by member. An array is not.
pub(crate) fn read_whole(alloc: Global, text: &str) -> Result<Tree, TreeError>
    ensures ok { IfOk result (λ tree. option_map tree_of_data (read text.now) ≡ Some tree) }
    ensures fine { text_fault text.now ≡ None → IfErr result (λ e. e ≡ TreeError.NoMemory) }
{
    match Value::from_str(alloc, text) {
        Ok(value) => tree_of(alloc, &value),
        Err(error) if error.is_memory() => Err(TreeError::NoMemory),
        Err(_) => Err(TreeError::NotJson),
    }
}

// The tree of a value.
#[cycle(tree_of)]
fn tree_of(alloc: Global, value: &Value) -> Result<Tree, TreeError>
    ensures ok { IfOk result (λ tree. tree ≡ tree_of_data (view value.now)) }
    ensures fine { data_fault (view value.now) ≡ None
        → IfErr result (λ e. e ≡ TreeError.NoMemory) }
{
    match tree_from_value(alloc, value) {
        Err(TreeError::TooManyNodes) => match value {
            Value::Object(members) => tree_of_members(alloc, members),
            Value::Null | Value::Bool(_) | Value::Number(_) | Value::String(_) | Value::Array(_) =>
                Err(TreeError::TooManyNodes),
        },
        read => read,
    }
}

// The tree of an object's members.
#[cycle(tree_of)]
fn tree_of_members(alloc: Global, members: &BTreeMap<String, Value>) -> Result<Tree, TreeError>
    ensures ok { IfOk result (λ tree. tree
        ≡ object (member_trees (members_view members.now.entries))) }
{
    let mut children = Vec::new(alloc);
    for (name, member) in members.iter() {
        let key = Key::parse(alloc, name.as_str())?;
        let child = tree_of(alloc, member)?;
        children.push((key, child))?;
    }
    children.reverse();
    Tree::from_children(alloc, children)
}

// ---- what is handed to the thread that writes a tree

/// A tree may be handed to a thread.
pub fn crossing_law()
    ensures { TreeIsSent }
{}

// ---- where a tree's file stands, and what stands beside it

// How many symbolic links are followed, as by the system.
const MOST_LINKS: usize = 40;

// Who may read and write a file that is being made, and one that has no older one.
const OWNER_ALONE: u32 = 0o600;

const AS_ASKED: u32 = 0o666;

// What stands in a name by chance between the name that it stands beside and its digits.
const MARK: &str = ".kaltewi-";

// How many digits it has.
const DIGITS: usize = 16;

// The part of a mode that says who may do what.
const RIGHTS: u32 = 0o7777;

/// A tree's file, its journal, and where the tree goes if another program changed the file.
pub(crate) struct TreeFiles {
    pub(crate) file: String,
    pub(crate) log: String,
    pub(crate) new: String,
}

impl Drop for TreeFiles {
    fn drop(self) {
        let TreeFiles {
            file: _,
            log: _,
            new: _,
        } = self;
    }
}

impl TreeFiles {
    pub(crate) fn of(alloc: Global, file: String) -> Result<TreeFiles, AllocError>
        ensures { IfOk result (λ place. names_in place ≡ names_of (string_bytes file)) }
    {
        let log = format!(in alloc; "{file}.log")?;
        let new = format!(in alloc; "{file}.new")?;
        Ok(TreeFiles { file, log, new })
    }
}

// What the link of that name leads to.
fn behind_link<Y: Files>(system: &Y, alloc: Global, name: &str) -> io::Result<String> {
    let target = system.read_link(alloc, name)?;
    match Path::new(name).parent() {
        Some(folder) => Ok(folder.join(alloc, &target)?.into_string()),
        None => Ok(target.into_string()),
    }
}

// Whether the name is a link's.
fn is_link<Y: Files>(system: &Y, name: &str) -> io::Result<bool> {
    match metadata_at(system, name)? {
        Some(there) => Ok(there.is_symlink()),
        None => Ok(false),
    }
}

/// The name of the file itself, where that name may be a link's.
pub(crate) fn resolved<Y: Files>(system: &Y, alloc: Global, name: &str) -> io::Result<String> {
    let mut name = String::from_str(alloc, name)?;
    for _ in 0..MOST_LINKS {
        if !is_link(system, name.as_str())? {
            return Ok(name);
        }
        name = behind_link(system, alloc, name.as_str())?;
    }
    Err(io::Error::from(ErrorKind::FilesystemLoop))
}

// A name beside a file that nobody can foretell.
fn name_by_chance<Y: RandomSource>(system: &Y, alloc: Global, file: &str) -> io::Result<String> {
    let mut bytes = [0; 8];
    system.fill_bytes(&mut bytes)?;
    let number = u64::from_le_bytes(bytes);
    Ok(format!(in alloc; "{file}{MARK}{number:016x}")?)
}

// Gives a file the owner and the rights of another.
fn dress(file: &File, like: &Metadata) -> io::Result<()> {
    let own = file.metadata()?;
    if own.uid() != like.uid() || own.gid() != like.gid() {
        fchown(file.as_fd(), Some(like.uid()), Some(like.gid()))?;
    }
    file.set_permissions(Permissions::from_mode(like.mode() & RIGHTS))
}

// A new file of that name, which was there neither as a file nor as a link.
fn made<Y: Files<File = File>>(system: &Y, name: &str, mode: u32) -> io::Result<File> {
    let mut options = OpenOptions::new();
    options.read(true).append(true).create_new(true).mode(mode);
    options.open(system, name)
}

/// A new file beside that one, under a name by chance, with the owner and the rights of the other, if there
/// is one. Answers its name too.
pub(crate) fn made_beside<Y: Files<File = File> + RandomSource>(
    system: &Y,
    alloc: Global,
    file: &str,
    like: Option<&Metadata>,
) -> io::Result<(File, String)> {
    let name = name_by_chance(system, alloc, file)?;
    let Some(like) = like else {
        return Ok((made(system, name.as_str(), AS_ASKED)?, name));
    };
    let made = made(system, name.as_str(), OWNER_ALONE)?;
    match dress(&made, like) {
        Ok(()) => Ok((made, name)),
        Err(why) => {
            let _gone = fs::remove_file(system, name.as_str());
            Err(why)
        }
    }
}

// The folder of a file, and its name there.
fn parted(file: &str) -> (&str, &str) {
    match file.rsplit_once('/') {
        Some((folder, name)) => (if folder.is_empty() { "/" } else { folder }, name),
        None => (".", file),
    }
}

/// Waits until the disk has what the folder of a file holds.
pub(crate) fn sync_folder<Y: Files<File = File>>(system: &Y, file: &str) -> io::Result<()> {
    let (folder, _) = parted(file);
    File::open(system, folder)?.sync_all()
}

// Whether these are the digits of a name by chance.
fn are_digits(digits: &str) -> bool {
    for digit in digits.as_bytes() {
        if !digit.is_ascii_hexdigit() {
            return false;
        }
    }
    digits.len() == DIGITS
}

// Whether that is a name by chance beside a file of the other name, or beside its journal.
fn is_by_chance(name: &str, own: &str) -> bool {
    let Some(rest) = name.strip_prefix(own) else {
        return false;
    };
    let rest = rest.strip_prefix(".log").unwrap_or(rest);
    match rest.strip_prefix(MARK) {
        Some(digits) => are_digits(digits),
        None => false,
    }
}

// Takes away what stands there, if its name is one by chance.
fn take_leaving<Y: Files>(system: &Y, path: Path<'_>, own: &str) {
    if let Some(name) = path.file_name() {
        if is_by_chance(name, own) {
            let _gone = fs::remove_file(system, path);
        }
    }
}

/// Takes away what stands under names by chance beside a file and its journal: whoever made it was killed
/// meanwhile. Nobody else may have the journal.
pub(crate) fn take_leavings<Y: Files + AllocGlobal>(system: &Y, file: &str) {
    let (folder, own) = parted(file);
    let Ok(entries) = fs::read_dir(&system, folder) else {
        return;
    };
    for entry in entries {
        if let Ok(entry) = entry {
            take_leaving(system, entry.path(), own);
        }
    }
}

/// What the plain file of that name is; none where there is none.
pub(crate) fn plain_at<Y: Files>(system: &Y, name: &str) -> io::Result<Option<Metadata>> {
    match metadata_at(system, name)? {
        Some(there) if there.is_file() => Ok(Some(there)),
        Some(_) | None => Ok(None),
    }
}

// Whether the file may be written.
fn may_write<Y: Files<File = File>>(system: &Y, file: &str) -> io::Result<()> {
    let mut options = OpenOptions::new();
    options.write(true);
    let _open = options.open(system, file)?;
    Ok(())
}

/// Whether the file may be written, and a new one be made beside it with its owner and its rights.
pub(crate) fn may_make<Y: Files<File = File> + RandomSource>(
    system: &Y,
    alloc: Global,
    file: &str,
) -> io::Result<()> {
    let like = plain_at(system, file)?;
    if like.is_some() {
        may_write(system, file)?;
    }
    let (_made, name) = made_beside(system, alloc, file, like.as_ref())?;
    fs::remove_file(system, name.as_str())
}

/// What the file of that name is; none where there is none.
pub(crate) fn metadata_at<Y: Files>(system: &Y, name: &str) -> io::Result<Option<Metadata>> {
    match fs::symlink_metadata(system, name) {
        Ok(metadata) => Ok(Some(metadata)),
        Err(why) if why.kind() == ErrorKind::NotFound => Ok(None),
        Err(why) => Err(why),
    }
}

// ---- a journal's file is opened, and locked

// How often it is tried to open a journal that is put in place or taken away meanwhile.
const MOST_TRIES: usize = 8;

// Whether both are of one file.
fn is_same(one: &Metadata, other: &Metadata) -> bool {
    one.ino() == other.ino() && one.dev() == other.dev()
}

// Whether the open file is the one of that name, and no link is on the way.
fn is_at<Y: Files>(system: &Y, file: &File, name: &str) -> io::Result<bool> {
    let open = file.metadata()?;
    match metadata_at(system, name)? {
        Some(there) => Ok(is_same(&open, &there)),
        None => Ok(false),
    }
}

// Opens a file to read and append, which is made where it isn't there.
fn opened<Y: Files<File = File>>(system: &Y, name: &str, mode: u32) -> io::Result<File> {
    let mut options = OpenOptions::new();
    options.read(true).append(true).mode(mode);
    match metadata_at(system, name)? {
        None => options.create_new(true).open(system, name),
        Some(there) if there.is_file() => options.open(system, name),
        Some(_) => Err(io::Error::new(ErrorKind::InvalidInput, "it is no plain file")),
    }
}

/// Whether the file is locked now; not where another has it.
pub(crate) fn is_locked(file: &File) -> io::Result<bool> {
    match file.try_lock() {
        Ok(()) => Ok(true),
        Err(TryLockError::WouldBlock) => Ok(false),
        Err(TryLockError::Error(why)) => Err(why),
    }
}

/// Opens the file of that name and locks it; none where another has it. Where it isn't there, it is made with
/// that mode. No link is followed.
pub(crate) fn locked<Y: Files<File = File>>(
    system: &Y,
    name: &str,
    mode: u32,
) -> io::Result<Option<File>> {
    for _ in 0..MOST_TRIES {
        let file = opened(system, name, mode)?;
        if !is_locked(&file)? {
            return Ok(None);
        }
        if is_at(system, &file, name)? {
            return Ok(Some(file));
        }
    }
    Ok(None)
}

// ---- what tells whether a file was changed by another program

/// What a file was: which one, how long, and when it was changed.
#[derive(Clone, Copy, PartialEq, Eq)]
pub(crate) struct FileStamp {
    pub(crate) node: u64,
    pub(crate) length: u64,
    pub(crate) seconds: i64,
    pub(crate) nanos: i64,
}

impl FileStamp {
    pub(crate) fn of(metadata: &Metadata) -> FileStamp {
        FileStamp {
            node: metadata.ino(),
            length: metadata.len(),
            seconds: metadata.mtime(),
            nanos: metadata.mtime_nsec(),
        }
    }
}

/// What the file of that name is; none where there is none.
pub(crate) fn stamp_at<Y: Files>(system: &Y, name: &str) -> io::Result<Option<FileStamp>> {
    match metadata_at(system, name)? {
        Some(there) => Ok(Some(FileStamp::of(&there))),
        None => Ok(None),
    }
}

// ---- the tree of a file

// The text of the file, and what the file was when it was read; none where there is no file.
fn text_of<Y: Files<File = File>>(
    system: &Y,
    alloc: Global,
    file: &str,
) -> io::Result<Option<(String, FileStamp)>> {
    let Some(there) = metadata_at(system, file)? else {
        return Ok(None);
    };
    if !there.is_file() {
        return Err(io::Error::new(ErrorKind::InvalidInput, "it is no plain file"));
    }
    let open = File::open(system, file)?;
    let stamp = FileStamp::of(&open.metadata()?);
    let text = io::read_to_string(alloc, open)?;
    Ok(Some((text, stamp)))
}

// The tree of the file's text.
fn tree_in_text(alloc: Global, file: &str, text: &str) -> Result<Tree, JournalFault> {
    match read_whole(alloc, text) {
        Ok(tree) => Ok(tree),
        Err(why) => Err(JournalFault::no_tree(alloc, file, trouble_in(alloc, text, why)?)),
    }
}

/// The tree of a file, which is read once and left as it is.
///
/// # Errors
///
/// `Unread` where the file isn't there or can't be read, `NoTree` where it has no tree, each with the file's
/// name; `NoMemory` where memory is lacking.
pub fn tree_in<Y: Files<File = File> + AllocGlobal>(
    system: &Y,
    file: &str,
) -> Result<Tree, JournalFault> {
    let alloc = system.alloc();
    match text_of(system, alloc, file) {
        Ok(Some((text, _))) => tree_in_text(alloc, file, text.as_str()),
        Ok(None) => Err(JournalFault::unread(alloc, file, io::Error::from(ErrorKind::NotFound))),
        Err(why) => Err(JournalFault::unread(alloc, file, why)),
    }
}

// The tree of the file, and what the file was when it was read; the first tree where there is no file.
pub(crate) fn read_file<Y: Files<File = File>>(
    system: &Y,
    alloc: Global,
    file: &str,
    first: Tree,
) -> Result<(Tree, Option<FileStamp>), JournalFault> {
    match text_of(system, alloc, file) {
        Ok(Some((text, stamp))) => Ok((tree_in_text(alloc, file, text.as_str())?, Some(stamp))),
        Ok(None) => Ok((first, None)),
        Err(why) => Err(JournalFault::unread(alloc, file, why)),
    }
}
