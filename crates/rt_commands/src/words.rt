// The command line.
ghost use Rattle.std.specs.Prelude.{◌≡◌, ◌≢◌, ◌⊎◌, [], map, codes, Some, option_map};
ghost use Rattle.std.specs.Prelude.{string_bytes, IfOk, IfErr, OnOk};
ghost use Rattle.clap.specs.Words.{FailsBy, first_of, found_of, one_of, rows_of, subcommand_rows_of};
ghost use Rattle.clap.specs.Values.{kind_of};
ghost use Rattle.rt_emulate.specs.Levels.{level_of};
ghost use Rattle.rt_commands.specs.Hosts.{host_of, ip_of};
ghost use Rattle.rt_commands.specs.Words.{all_texts, asked, count_of, denied_of, emulation_of, faults_of};
ghost use Rattle.rt_commands.specs.Words.{flag_in, flag_of, Gives, GivesAll, GivesWork, is_escaped, is_lenient, is_verbose};
ghost use Rattle.rt_commands.specs.Words.{GivesText, GivesTexts, IsExplained, origin_of, origins_of};
ghost use Rattle.rt_commands.specs.Words.{live_of, logging_of, number_of, other_of, path_of, paths_of};
ghost use Rattle.rt_commands.specs.Words.{served_of, serving_of, status_of, tree_of, unnamed_level};
ghost use Rattle.rt_commands.specs.Words.{watch_of, watching_of, work_of};

use crate::commands::{PROGRAM, console_command, emulate_command, serve_command};
use clap::error::ErrorKind;
use clap::{ArgMatches, Error};
use rt_emulate::{Emulating, Level, OriginFault, origin_fault};
use rt_input::{ConsoleError, Fault};
use rt_tree::{Path, Tree, TreeError};
use std::alloc::{AllocError, Global};
use std::convert::AsStr;
use std::net::{IpAddr, Ipv4Addr};

/// What `serve` is to do.
#[derive(Debug, Drop)]
pub struct Serving {
    /// The port of 127.0.0.1.
    pub port: u16,
    /// How many connections are served.
    pub count: u16,
    /// The first tree.
    pub tree: Tree,
    /// The path that is denied, if any is.
    pub denied: Option<Path>,
}

/// What the command line asks for.
#[derive(Debug, Drop)]
pub enum Work {
    /// Run the script of the standard input.
    Script,
    /// Serve the peer.
    Serve(Serving),
    /// Serve the peer to any number of clients at once, until the standard input ends where it is to end with
    /// that. Lines of that level are said.
    Emulate {
        emulating: Emulating,
        ends_with_input: bool,
        level: Level,
    },
    /// Connect a client to the port, and drive it by the lines of the standard input.
    Connect {
        port: u16,
    },
    /// Connect a client to the port, and do the lines of the standard input as they come, while what the
    /// server sends is printed. Once the input has ended, and nothing was printed for so many milliseconds,
    /// it ends. There is one connection alone, or another one behind it. Whole values are printed or left
    /// out, and cut where a line has more than so many bytes.
    Watch {
        port: u16,
        idle: Option<u16>,
        is_once: bool,
        changes_only: bool,
        width: Option<u16>,
    },
}

/// What the command line asks for, whether what a terminal obeys is to be printed by its number, and whether
/// more is to be said on the standard error.
#[derive(Debug, Drop)]
pub struct Asked {
    pub work: Work,
    pub is_escaped: bool,
    pub verbose: bool,
}

// What serves clients: one after another, or all at once.
#[derive(Clone, Copy)]
enum Server {
    Serve,
    Emulate,
}

// An error of such a command with that message, in clap's own form.
fn error_of(
    alloc: Global,
    server: Server,
    kind: ErrorKind,
    message: &str,
) -> Result<Error, AllocError>
    ensures { IfOk result (λ error. kind_of error ≡ kind) }
{
    let mut command = match server {
        Server::Serve => serve_command(alloc)?.bin_name("kaltewi serve")?,
        Server::Emulate => emulate_command(alloc)?.bin_name("kaltewi emulate")?,
    };
    command.error(kind, message)
}

// The error of a value that `rt_tree` refuses.
fn refused(
    alloc: Global,
    server: Server,
    option: &str,
    text: &str,
    why: TreeError,
) -> Result<Error, AllocError>
    ensures { IfOk result (λ error. kind_of error ≡ ErrorKind.ValueValidation) }
{
    let message = format!(in alloc; "invalid value '{text}' for '{option}': {why}")?;
    error_of(alloc, server, ErrorKind::ValueValidation, message.as_str())
}

// The option of such a command that takes any text, if the word is one.
fn option_of(server: Server, word: &str) -> Option<&'static str> {
    match (word, server) {
        ("--tree", _) => Some("--tree"),
        ("--deny", _) => Some("--deny"),
        ("--file", Server::Emulate) => Some("--file"),
        ("--seed", Server::Emulate) => Some("--seed"),
        ("--origin", Server::Emulate) => Some("--origin"),
        ("--public", Server::Emulate) => Some("--public"),
        ("--page", Server::Emulate) => Some("--page"),
        ("--host", Server::Emulate) => Some("--host"),
        ("--log", Server::Emulate) => Some("--log"),
        _ => None,
    }
}

// What serves clients, by its name.
fn server_of(word: &str) -> Option<Server> {
    match word {
        "serve" => Some(Server::Serve),
        "emulate" => Some(Server::Emulate),
        _ => None,
    }
}

// The first word behind such an option that begins with '-', which clap takes for another option.
fn dashed_in<'a, S: AsStr>(words: &'a [S]) -> Option<(Server, &'static str, &'a str)> {
    let (first, rest) = words.split_first()?;
    let server = server_of(first.as_str())?;
    let mut option = None;
    for word in rest {
        let word = word.as_str();
        match option {
            Some(option) if word.starts_with('-') => return Some((server, option, word)),
            _ => option = option_of(server, word),
        }
    }
    None
}

// An error of clap's, but where a word begins with '-' that was meant as a value: then one of the same
// kind that says how it is written, since what clap says of it is of no use there.
fn explained<'a, S: AsStr>(alloc: Global, error: Error, words: &'a [S]) -> Result<Error, AllocError>
    ensures { IfOk result (λ e. kind_of e ≡ kind_of error) }
{
    let kind = error.kind();
    let is_of_word = matches!(kind, ErrorKind::UnknownArgument | ErrorKind::InvalidValue);
    let Some((server, option, word)) = dashed_in(words) else {
        return Ok(error);
    };
    if !is_of_word {
        return Ok(error);
    }
    let message = format!(in alloc;
        "no value for '{option}', since '{word}' begins with '-'\n\n  tip: if it is meant, write {option}={word}"
    )?;
    error_of(alloc, server, kind, message.as_str())
}

// The number of that name. clap has read it, so there is one, and it is not 0.
fn number(entries: &ArgMatches<'_>, name: &str) -> u16
    ensures { result ≡ number_of (one_of name.now (rows_of (found_of entries.now))) }
{
    entries.get_one::<u16>(name).unwrap_or(0)
}

// Whether the flag of that name was given.
fn flag(entries: &ArgMatches<'_>, name: &str) -> bool
    ensures { result ≡ flag_of (one_of name.now (rows_of (found_of entries.now))) }
{
    entries.get_one::<bool>(name).unwrap_or(false)
}

// The text of that name, if there is one.
fn text<'a>(entries: &ArgMatches<'a>, name: &str) -> Option<&'a str>
    ensures { option_map (λ t. t.now) result ≡ first_of name.now (rows_of (found_of entries.now)) }
{
    entries.get_str(name)
}

// The tree of a text; null where there is none.
fn read_tree(alloc: Global, server: Server, text: Option<&str>) -> Result<Tree, Error>
    ensures { Gives (tree_of (option_map (λ t. t.now) text.entry)) result }
{
    let Some(text) = text else {
        return Ok(Tree::null());
    };
    match Tree::read(alloc, text) {
        Ok(tree) => Ok(tree),
        Err(TreeError::NoMemory) => Err(Error::from(AllocError)),
        Err(why) => Err(refused(alloc, server, "--tree <JSON>", text, why)?),
    }
}

// The path of a text, if there is one.
fn read_denied(alloc: Global, text: Option<&str>) -> Result<Option<Path>, Error>
    ensures { Gives (denied_of (option_map (λ t. t.now) text.entry)) result }
{
    let Some(text) = text else {
        return Ok(None);
    };
    match Path::parse(alloc, text) {
        Ok(path) => Ok(Some(path)),
        Err(TreeError::NoMemory) => Err(Error::from(AllocError)),
        Err(why) => Err(refused(alloc, Server::Serve, "--deny <PATH>", text, why)?),
    }
}

// The path of a text.
fn read_path(alloc: Global, text: &str) -> Result<Path, Error>
    ensures { Gives (path_of text.now) result }
{
    match Path::parse(alloc, text) {
        Ok(path) => Ok(path),
        Err(TreeError::NoMemory) => Err(Error::from(AllocError)),
        Err(why) => Err(refused(alloc, Server::Emulate, "--deny <PATH>", text, why)?),
    }
}

// The paths of texts, in order.
fn read_paths(alloc: Global, texts: &[&str]) -> Result<Vec<Path>, Error>
    ensures { GivesAll (paths_of (map (λ t. t.now) texts.now)) result }
{
    let mut paths = Vec::new(alloc);
    for text in texts {
        paths.push(read_path(alloc, text)?)?;
    }
    Ok(paths)
}

// The error of an origin that no browser can send.
fn refused_origin(alloc: Global, text: &str, why: OriginFault) -> Result<Error, AllocError>
    ensures { IfOk result (λ error. kind_of error ≡ ErrorKind.ValueValidation) }
{
    let message = format!(in alloc; "invalid value '{text}' for '--origin <TEXT>': {why}")?;
    error_of(
        alloc,
        Server::Emulate,
        ErrorKind::ValueValidation,
        message.as_str(),
    )
}

// A copy of an origin that a browser can send.
fn read_origin(alloc: Global, text: &str) -> Result<String, Error>
    ensures { GivesText (origin_of text.now) result }
{
    match origin_fault(text) {
        None => Ok(String::from_str(alloc, text)?),
        Some(why) => Err(refused_origin(alloc, text, why)?),
    }
}

// Copies of origins, in order.
fn copies_of(alloc: Global, texts: &[&str]) -> Result<Vec<String>, Error>
    ensures { GivesTexts (origins_of (map (λ t. t.now) texts.now)) result }
{
    let mut all = Vec::new(alloc);
    for text in texts {
        all.push(read_origin(alloc, text)?)?;
    }
    Ok(all)
}

// The paths that are denied.
fn read_denies(alloc: Global, entries: &ArgMatches<'_>) -> Result<Vec<Path>, Error>
    ensures { GivesAll (paths_of (all_texts (codes "deny") (rows_of (found_of entries.now)))) result }
{
    match entries.get_strs("deny") {
        Some(texts) => read_paths(alloc, texts),
        None => Ok(Vec::new(alloc)),
    }
}

// The origins that are allowed.
fn read_origins(alloc: Global, entries: &ArgMatches<'_>) -> Result<Vec<String>, Error>
    ensures { GivesTexts (origins_of (all_texts (codes "origin") (rows_of (found_of entries.now))))
        result }
{
    match entries.get_strs("origin") {
        Some(texts) => copies_of(alloc, texts),
        None => Ok(Vec::new(alloc)),
    }
}

// A copy of a text, if there is one.
fn copy_of(alloc: Global, text: Option<&str>) -> Result<Option<String>, AllocError>
    ensures { IfOk result (λ copy. option_map string_bytes copy
        ≡ option_map (λ t. t.now) text.entry) }
{
    match text {
        Some(text) => Ok(Some(String::from_str(alloc, text)?)),
        None => Ok(None),
    }
}

// The number of that name, if it is given.
fn read_count(entries: &ArgMatches<'_>, name: &str) -> Option<u16>
    ensures { result ≡ count_of (number_of (one_of name.now (rows_of (found_of entries.now)))) }
{
    let count = number(entries, name);
    if count == 0 { None } else { Some(count) }
}

// What the entries of `emulate` ask for, at that address.
fn read_emulating(alloc: Global, host: IpAddr, entries: &ArgMatches<'_>) -> Result<Emulating, Error>
    ensures { Gives (emulation_of host (rows_of (found_of entries.now))) result }
{
    let tree = read_tree(alloc, Server::Emulate, text(entries, "tree"))?;
    let denied = read_denies(alloc, entries)?;
    let seed = copy_of(alloc, text(entries, "seed"))?;
    let file = copy_of(alloc, text(entries, "file"))?;
    let public = copy_of(alloc, text(entries, "public"))?;
    let page = copy_of(alloc, text(entries, "page"))?;
    let is_synced = flag(entries, "sync");
    let origins = read_origins(alloc, entries)?;
    let port = number(entries, "PORT");
    let count = read_count(entries, "count");
    let emulating = Emulating::new(port, count, tree, file, is_synced, denied, origins);
    Ok(emulating.seeded(seed).serving(public, page).at(host))
}

// The address that a text writes, if it writes one.
fn ip_of(text: &str) -> Option<IpAddr>
    ensures { result ≡ ip_of text.now }
{
    IpAddr::parse_ascii(text.as_bytes()).ok()
}

// The error of a text that writes no address.
fn refused_host(alloc: Global, text: &str) -> Result<Error, AllocError>
    ensures { IfOk result (λ error. kind_of error ≡ ErrorKind.ValueValidation) }
{
    let message = format!(in alloc;
        "invalid value '{text}' for '--host <ADDRESS>': it is no address, such as 0.0.0.0 or ::1"
    )?;
    error_of(
        alloc,
        Server::Emulate,
        ErrorKind::ValueValidation,
        message.as_str(),
    )
}

// The address of a text.
fn read_ip(alloc: Global, text: &str) -> Result<IpAddr, Error>
    ensures { Gives (ip_of text.now) result }
{
    match ip_of(text) {
        Some(host) => Ok(host),
        None => Err(refused_host(alloc, text)?),
    }
}

// The address that is listened at: 127.0.0.1 where none is named.
fn read_host(alloc: Global, entries: &ArgMatches<'_>) -> Result<IpAddr, Error>
    ensures { Gives (host_of (first_of (codes "host") (rows_of (found_of entries.now)))) result }
{
    match text(entries, "host") {
        Some(text) => read_ip(alloc, text),
        None => Ok(IpAddr::V4(Ipv4Addr::new(127, 0, 0, 1))),
    }
}

// The error of a level that is none.
fn refused_level(alloc: Global, word: &str) -> Result<Error, AllocError>
    ensures { IfOk result (λ error. kind_of error ≡ ErrorKind.ValueValidation) }
{
    let message = format!(in alloc;
        "invalid value '{word}' for '--log <LEVEL>': a level is all, connections, faults or none"
    )?;
    error_of(
        alloc,
        Server::Emulate,
        ErrorKind::ValueValidation,
        message.as_str(),
    )
}

// The level of that name.
fn read_level(alloc: Global, word: &str) -> Result<Level, Error>
    ensures { Gives (level_of word.now) result }
{
    match Level::of(word) {
        Some(level) => Ok(level),
        None => Err(refused_level(alloc, word)?),
    }
}

// The level where none is named: all is said, or nothing where it is to be quiet.
fn unnamed_level(is_quiet: bool) -> Level
    ensures { result ≡ unnamed_level is_quiet }
{
    if is_quiet { Level::Nothing } else { Level::All }
}

// Which lines `emulate` says.
fn read_logging(alloc: Global, entries: &ArgMatches<'_>) -> Result<Level, Error>
    ensures { Gives (logging_of (rows_of (found_of entries.now))) result }
{
    match text(entries, "log") {
        Some(word) => read_level(alloc, word),
        None => Ok(unnamed_level(flag(entries, "quiet"))),
    }
}

// What the entries of `serve` ask for.
fn read_serving(alloc: Global, entries: &ArgMatches<'_>) -> Result<Serving, Error>
    ensures { Gives (serving_of (rows_of (found_of entries.now))) result }
{
    let tree = read_tree(alloc, Server::Serve, text(entries, "tree"))?;
    let denied = read_denied(alloc, text(entries, "deny"))?;
    Ok(Serving {
        port: number(entries, "PORT"),
        count: number(entries, "count"),
        tree,
        denied,
    })
}

// What the entries of `watch` ask for.
fn read_watching(entries: &ArgMatches<'_>) -> Work
    ensures { result ≡ watching_of (rows_of (found_of entries.now)) }
{
    Work::Watch {
        port: number(entries, "PORT"),
        idle: read_count(entries, "idle"),
        is_once: flag(entries, "once"),
        changes_only: flag(entries, "changes"),
        width: read_count(entries, "width"),
    }
}

// The work that the subcommand names, where it is `watch` or `script`.
fn read_watch(matches: &ArgMatches<'_>) -> Work
    ensures { result ≡ watch_of (subcommand_rows_of matches.now) }
{
    match matches.subcommand_matches("watch") {
        Some(entries) => read_watching(entries),
        None => Work::Script,
    }
}

// The work that the subcommand names, where it is neither `serve` nor `emulate`.
fn read_other(matches: &ArgMatches<'_>) -> Work
    ensures { result ≡ other_of (subcommand_rows_of matches.now) }
{
    match matches.subcommand_matches("connect") {
        Some(entries) => Work::Connect {
            port: number(entries, "PORT"),
        },
        None => read_watch(matches),
    }
}

// The work of `emulate`, by its entries.
fn read_served(alloc: Global, entries: &ArgMatches<'_>) -> Result<Work, Error>
    ensures { Gives (served_of (rows_of (found_of entries.now))) result }
{
    let level = read_logging(alloc, entries)?;
    let host = read_host(alloc, entries)?;
    let ends_with_input = flag(entries, "until-eof");
    let emulating = read_emulating(alloc, host, entries)?;
    Ok(Work::Emulate {
        emulating,
        ends_with_input,
        level,
    })
}

// The work that the subcommand names, where it is not `serve`.
fn read_live(alloc: Global, matches: &ArgMatches<'_>) -> Result<Work, Error>
    ensures { Gives (live_of (subcommand_rows_of matches.now)) result }
{
    match matches.subcommand_matches("emulate") {
        Some(entries) => read_served(alloc, entries),
        None => Ok(read_other(matches)),
    }
}

// The work that the subcommand names. There is none but `serve`, `emulate`, `connect`, `watch` and `script`.
fn read_work(alloc: Global, matches: &ArgMatches<'_>) -> Result<Work, Error>
    ensures { Gives (work_of (subcommand_rows_of matches.now)) result }
{
    match matches.subcommand_matches("serve") {
        Some(entries) => Ok(Work::Serve(read_serving(alloc, entries)?)),
        None => read_live(alloc, matches),
    }
}

// Whether the subcommand was given the flag of that name.
fn flag_in(matches: &ArgMatches<'_>, name: &str) -> bool
    ensures { result ≡ flag_in name.now (subcommand_rows_of matches.now) }
{
    match matches.subcommand() {
        Some((_, entries)) => flag(entries, name),
        None => false,
    }
}

// What the matches ask for.
fn read_asked(alloc: Global, matches: &ArgMatches<'_>) -> Result<Asked, Error>
    ensures work { GivesWork (work_of (subcommand_rows_of matches.now)) result }
    ensures escaped { IfOk result (λ asked.
        asked.is_escaped ≡ flag_in (codes "escape") (subcommand_rows_of matches.now)) }
    ensures verbose { IfOk result (λ asked.
        asked.verbose ≡ flag_in (codes "verbose") (subcommand_rows_of matches.now)) }
{
    let work = read_work(alloc, matches)?;
    Ok(Asked {
        work,
        is_escaped: flag_in(matches, "escape"),
        verbose: flag_in(matches, "verbose"),
    })
}

// Reads the words behind the program's name, with an error in clap's form.
fn command_line<'a, S: AsStr>(alloc: Global, words: &'a [S]) -> Result<Asked, Error>
    ensures fails { FailsBy (faults_of (map S.text words.entry.now)) result }
    ensures work { IfOk result (λ a. asked (map S.text words.entry.now) ≡ Some a.work) }
    ensures escaped { IfOk result (λ a. a.is_escaped ≡ is_escaped (map S.text words.entry.now)) }
    ensures verbose { IfOk result (λ a. a.verbose ≡ is_verbose (map S.text words.entry.now)) }
{
    let command = console_command(alloc)?;
    match command.try_get_matches_from(words) {
        Ok(matches) => read_asked(alloc, &matches),
        Err(error) => Err(explained(alloc, error, words)?),
    }
}

/// Reads the words behind the program's name.
pub fn read_words<'a, S: AsStr>(alloc: Global, words: &'a [S]) -> Result<Asked, ConsoleError>
    ensures ok { OnOk result (faults_of (map S.text words.entry.now) ≡ []) }
    ensures work { IfOk result (λ a. asked (map S.text words.entry.now) ≡ Some a.work) }
    ensures escaped { IfOk result (λ a. a.is_escaped ≡ is_escaped (map S.text words.entry.now)) }
    ensures verbose { IfOk result (λ a. a.verbose ≡ is_verbose (map S.text words.entry.now)) }
    ensures fault { IfErr result (λ e.
        (e ≡ ConsoleError.NoMemory)
        ⊎ ((e ≡ ConsoleError.BadWords) × (faults_of (map S.text words.entry.now) ≢ []))) }
{
    match command_line(alloc, words) {
        Ok(asked) => Ok(asked),
        Err(error) if error.kind() == ErrorKind::OutOfMemory => Err(ConsoleError::NoMemory),
        Err(_) => Err(ConsoleError::BadWords),
    }
}

// Whether help ends well: that of the commands which the first word names, but of `serve` and `connect`.
fn is_lenient<'a, S: AsStr>(words: &'a [S]) -> bool
    ensures { result ≡ is_lenient (map S.text words.entry.now) }
{
    match words.first() {
        Some(word) => {
            let word = word.as_str();
            word == "script" || word == "emulate" || word == "watch"
        }
        None => false,
    }
}

// The exit status of words that make no command.
fn status_of(kind: ErrorKind, is_lenient: bool) -> u8
    ensures { result ≡ status_of is_lenient kind }
{
    match kind {
        ErrorKind::OutOfMemory => 1,
        ErrorKind::DisplayHelp if is_lenient => 0,
        _ => 2,
    }
}

// Prints an error of clap's, or the help that was asked for, and answers the exit status.
fn print_error<R: Print + Eprint>(rt: &R, error: &Error, is_lenient: bool) -> u8
    ensures { (result ≡ status_of is_lenient (kind_of error.now)) ⊎ (result ≡ 1) }
{
    match error.print(rt) {
        Ok(()) => status_of(error.kind(), is_lenient),
        Err(why) => {
            let fault = Fault::Unwritten(why);
            let _ = eprintln!(rt; "{PROGRAM}: {fault}");
            1
        }
    }
}

/// Prints why words make no command, or the help that they ask for, and answers the exit status: 2 for
/// bad words and for help of the program itself, of `serve` and of `connect`, 0 for other help, and 1 where
/// nothing can be printed or memory is lacking.
pub fn explain<'a, R: Print + Eprint, S: AsStr>(rt: &R, alloc: Global, words: &'a [S]) -> u8
    ensures { IsExplained (map S.text words.entry.now) result }
{
    match command_line(alloc, words) {
        Ok(Asked { .. }) => 0,
        Err(error) => print_error(rt, &error, is_lenient(words)),
    }
}
