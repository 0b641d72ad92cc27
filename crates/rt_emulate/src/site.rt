// The files that are served beside the tree.
ghost use Rattle.std.specs.Prelude.{◌≡◌, ◌++◌, ◌∷◌, [], ◌==◌, true, map, is_some, if◌then◌else◌};
ghost use Rattle.std.specs.Prelude.{option_map, string_bytes, IfOk, OnOk};
ghost use Rattle.rt_files.specs.Places.{is_below};
ghost use Rattle.rt_emulate.specs.inside.Sites.{course_of, does_read, folders_of, has_folders, is_absent};
ghost use Rattle.rt_emulate.specs.inside.Sites.{refused, size_of, sought, without_slash};
ghost use Rattle.rt_emulate.specs.inside.Rests.{IsPiece, left_for, piece_of};

use crate::calls::Reply;
use crate::fault::EmulateFault;
use rt_files::{file_named, is_below, place_of};
use rt_http::{Fault, MAX_FILE_BYTES, Method, named_path};
use std::alloc::{AllocError, Global};
use std::fs::{self, File, Metadata};
use std::io::{self, ErrorKind, Read};
use std::rt::Files;

// The page of the tree, in its own folder.
const TREE: &str = "examples/tree/index.html";

/// What is done with a request that the tree has answered.
#[derive(Clone, Copy)]
pub(crate) enum Course {
    /// It is told that answer.
    Told,
    /// It is answered by a file, where there is one.
    File,
    /// It is told that what it names can only be read.
    ReadOnly,
}

// Whether a method reads.
fn does_read(method: Method) -> bool
    ensures { result ≡ does_read method }
{
    match method {
        Method::Get | Method::Head => true,
        Method::Put
        | Method::Patch
        | Method::Post
        | Method::Delete
        | Method::Options
        | Method::Other => false,
    }
}

// Whether what is asked for is no place of the tree, or no file of a folder.
fn is_absent(why: Fault) -> bool
    ensures { result ≡ is_absent why }
{
    matches!(why, Fault::NotFound)
}

/// What is done with a request that the tree answers so, where files are served or none are.
pub(crate) fn course_of(does_serve: bool, method: Method, reply: &Reply) -> Course
    ensures { result ≡ course_of does_serve method reply.now }
{
    match reply {
        Ok(_) => Course::Told,
        Err(why) => {
            if does_serve && is_absent(*why) {
                if does_read(method) {
                    Course::File
                } else {
                    Course::ReadOnly
                }
            } else {
                Course::Told
            }
        }
    }
}

// The file that a path names in a folder: in that of the tree's page `/` is this page. What ends with
// `.json` is a place of the tree, however it is escaped.
fn sought(alloc: Global, is_page: bool, path: &str) -> Result<Option<String>, AllocError>
    ensures { IfOk result (λ name. option_map string_bytes name ≡ sought is_page path.now) }
{
    if is_page && path == "/" {
        return Ok(Some(String::from_str(alloc, TREE)?));
    }
    if path.as_bytes().ends_with(b".json") {
        return Ok(None);
    }
    file_named(alloc, path)
}

// A folder's place without a slash at its end, which that of all files has.
fn without_slash(place: &str) -> &str
    ensures { result.now ≡ without_slash place.now }
{
    if place == "/" { "" } else { place }
}

// How many bytes are served of a file that has so many: all of a plain one, where these are no more than
// may be.
fn size_of(is_file: bool, size: u64) -> Result<usize, Fault>
    ensures { result ≡ size_of is_file size }
{
    if !is_file {
        return Err(Fault::NotFound);
    }
    if size > MAX_FILE_BYTES as u64 {
        return Err(Fault::FileTooLarge);
    }
    Ok(size as usize)
}

// Why no file is given, where the system has failed so: for whoever asks it isn't there, or it can't be
// had for now.
fn refused(kind: ErrorKind) -> Fault
    ensures { result ≡ refused kind }
{
    match kind {
        ErrorKind::NotFound
        | ErrorKind::NotADirectory
        | ErrorKind::IsADirectory
        | ErrorKind::PermissionDenied
        | ErrorKind::FilesystemLoop
        | ErrorKind::InvalidFilename
        | ErrorKind::InvalidInput
        | ErrorKind::InvalidData => Fault::NotFound,
        ErrorKind::OutOfMemory => Fault::NoMemory,
        _ => Fault::NoAnswer,
    }
}

// How many bytes are served of the file of which the system says that.
fn size_in(said: io::Result<Metadata>) -> Result<usize, Fault> {
    match said {
        Ok(there) => size_of(there.is_file(), there.len()),
        Err(why) => Err(refused(why.kind())),
    }
}

/// A file that is served, how many bytes it has, and its name below its folder.
#[derive(Drop)]
pub(crate) struct Found {
    pub(crate) file: File,
    pub(crate) size: usize,
    pub(crate) name: String,
}

// A folder whose files are served.
struct Folder {
    // Its place, without links and without a slash at its end.
    place: String,
    // Whether it is that of the tree's page.
    is_page: bool,
}

impl Drop for Folder {
    fn drop(self) {
        let Folder {
            place: _,
            is_page: _,
        } = self;
    }
}

// The place of the folder of that name, without links and without a slash at its end.
fn real_place<Y: Files>(system: &Y, alloc: Global, name: &str) -> io::Result<String> {
    let place = system.canonicalize(alloc, name)?;
    if !fs::metadata(system, place.as_str())?.is_dir() {
        return Err(io::Error::from(ErrorKind::NotADirectory));
    }
    Ok(String::from_str(alloc, without_slash(place.as_str()))?)
}

impl Folder {
    // The folder of that name.
    fn of<Y: Files>(
        system: &Y,
        alloc: Global,
        name: String,
        is_page: bool,
    ) -> Result<Folder, EmulateFault>
        ensures { IfOk result (λ folder. folder.is_page ≡ is_page) }
    {
        match real_place(system, alloc, name.as_str()) {
            Ok(place) => Ok(Folder { place, is_page }),
            Err(why) => Err(EmulateFault::NotServed { folder: name, why }),
        }
    }

    // Opens the file at a place below it that is without links. What is no plain file isn't opened: a
    // pipe would wait for its other end.
    fn open<Y: Files<File = File>>(&self, system: &Y, place: &str) -> Result<(File, usize), Fault>
        requires { is_below (string_bytes self.now.place) place.now ≡ true }
    {
        let _is_plain = size_in(fs::metadata(system, place))?;
        match File::open(system, place) {
            Ok(file) => {
                let size = size_in(file.metadata())?;
                Ok((file, size))
            }
            Err(why) => Err(refused(why.kind())),
        }
    }

    // Opens the file to which a place leads. One to which links lead out of the folder isn't there.
    fn open_behind<Y: Files<File = File>>(
        &self,
        system: &Y,
        alloc: Global,
        place: &str,
    ) -> Result<(File, usize), Fault> {
        match system.canonicalize(alloc, place) {
            Ok(place) => {
                if is_below(self.place.as_str(), place.as_str()) {
                    self.open(system, place.as_str())
                } else {
                    Err(Fault::NotFound)
                }
            }
            Err(why) => Err(refused(why.kind())),
        }
    }

    // The file that a path names in it.
    fn find<Y: Files<File = File>>(
        &self,
        system: &Y,
        alloc: Global,
        path: &str,
    ) -> Result<Found, Fault> {
        let Some(name) = sought(alloc, self.is_page, path)? else {
            return Err(Fault::NotFound);
        };
        let place = place_of(alloc, self.place.as_str(), name.as_str())?;
        let (file, size) = self.open_behind(system, alloc, place.as_str())?;
        Ok(Found { file, size, name })
    }
}

// The folder of that name comes behind the others, if there is one.
fn add<Y: Files>(
    system: &Y,
    alloc: Global,
    folders: &mut Vec<Folder>,
    name: Option<String>,
    is_page: bool,
) -> Result<(), EmulateFault>
    ensures { OnOk result (map (λ folder. folder.is_page) folders.new.items
        ≡ map (λ folder. folder.is_page) folders.old.items ++ (if is_some name then is_page ∷ [] else [])) }
{
    match name {
        Some(name) => {
            let folder = Folder::of(system, alloc, name, is_page)?;
            Ok(folders.push(folder)?)
        }
        None => Ok(()),
    }
}

/// The folders whose files are served, in the order in which they are looked through.
pub(crate) struct Site {
    folders: Vec<Folder>,
}

impl Drop for Site {
    fn drop(self) {
        let Site { folders: _ } = self;
    }
}

impl Site {
    /// The folders of these names: that of an application, and then that of the tree's page.
    ///
    /// # Errors
    ///
    /// `NotServed` with the first that isn't there or is no folder; `NoMemory` where memory is lacking.
    pub(crate) fn open<Y: Files>(
        system: &Y,
        alloc: Global,
        public: Option<String>,
        page: Option<String>,
    ) -> Result<Site, EmulateFault>
        ensures { IfOk result (λ site. map (λ folder. folder.is_page) site.folders.items
            ≡ folders_of (is_some public) (is_some page)) }
    {
        let mut folders = Vec::new(alloc);
        add(system, alloc, &mut folders, public, false)?;
        add(system, alloc, &mut folders, page, true)?;
        Ok(Site { folders })
    }

    /// Whether files of some folder are served.
    pub(crate) fn does_serve(&self) -> bool
        ensures { result ≡ has_folders self.now.folders.items }
    {
        !self.folders.is_empty()
    }

    // The file that a path names in the first folder that has one.
    fn find_at<Y: Files<File = File>>(
        &self,
        system: &Y,
        alloc: Global,
        path: &str,
    ) -> Result<Found, Fault> {
        for folder in self.folders.as_slice() {
            match folder.find(system, alloc, path) {
                Ok(found) => return Ok(found),
                Err(why) => {
                    if !is_absent(why) {
                        return Err(why);
                    }
                }
            }
        }
        Err(Fault::NotFound)
    }

    /// The file that a target names in the first folder that has one. What is behind its `?` isn't
    /// looked at.
    ///
    /// # Errors
    ///
    /// `NotFound` where no folder has a plain file there, `FileTooLarge` where it has too many bytes,
    /// `NoAnswer` where the system can't open it for now; `NoMemory` where memory lacks.
    pub(crate) fn find<Y: Files<File = File>>(
        &self,
        system: &Y,
        alloc: Global,
        target: &str,
    ) -> Result<Found, Fault> {
        match named_path(alloc, target)? {
            Some(path) => self.find_at(system, alloc, path.as_str()),
            None => Err(Fault::NotFound),
        }
    }
}

// ---- what is left of a file that is sent

// How many bytes of a file are read at once.
const PIECE_BYTES: usize = 65_536;

/// What is left of a file that is sent: it is read piece by piece, each once the one before is written.
pub(crate) struct Rest {
    file: File,
    // How many bytes of it are still to be read.
    left: usize,
}

impl Drop for Rest {
    fn drop(self) {
        let Rest { file: _, left: _ } = self;
    }
}

// How many bytes are read next, where so many are left.
fn piece(left: usize) -> usize
    ensures { result ≡ piece_of left }
{
    left.min(PIECE_BYTES)
}

impl Rest {
    /// What is sent of a file of so many bytes: nothing of an empty one, and none where its head alone
    /// is asked for.
    pub(crate) fn of(file: File, size: usize, is_bare: bool) -> Option<Rest>
        ensures { option_map (λ r. r.left) result ≡ left_for is_bare size }
    {
        if is_bare || size == 0 {
            None
        } else {
            Some(Rest { file, left: size })
        }
    }

    /// Reads the next piece, puts it behind the bytes, and answers how many bytes it has: none where the
    /// file has grown shorter than it was.
    #[tactic(auto, using(crate::proofs::Begun::begun_append))]
    pub(crate) fn put_piece(&mut self, out: &mut Vec<u8>) -> io::Result<usize>
        ensures { IfOk result (λ count.
            IsPiece self.old.left out.old.items count self.new.left out.new.items) }
    {
        let mut bytes = [0; PIECE_BYTES];
        let most = piece(self.left);
        let count = self.file.read(&mut bytes[..most])?;
        out.extend_from_slice(&bytes[..count])?;
        self.left = self.left.saturating_sub(count);
        Ok(count)
    }

    /// Whether all of it was read.
    pub(crate) fn is_over(&self) -> bool
        ensures { result ≡ (self.now.left == 0) }
    {
        self.left == 0
    }
}
