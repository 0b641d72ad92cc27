// What clap is asked to read: the program's subcommands, with what each takes and says of itself.
ghost use Rattle.std.specs.Prelude.{◌≡◌, false, IfOk, IsOkAnd};
ghost use Rattle.clap.specs.Words.{app_of, new_app, rule_of, with_subcommand};
ghost use Rattle.clap.specs.declared.builder.command.Command.TheViews.{out-Command as fields_of};
ghost use Rattle.rt_commands.specs.Commands.{base_app, begun_app, connect_app, console_app, count_rule};
ghost use Rattle.rt_commands.specs.Commands.{emulate_app, flag_rule, number_rule, port_rule, quiet_rule};
ghost use Rattle.rt_commands.specs.Commands.{script_app, serve_app, text_rule, texts_rule, verbose_rule};
ghost use Rattle.rt_commands.specs.Commands.{watch_app, whole};

use clap::builder::ValueParser;
use clap::{Arg, ArgAction, Command, value_parser};
use std::alloc::{AllocError, Global};

/// The program's name, as its users type it.
pub const PROGRAM: &str = "kaltewi";

const ABOUT: &str = "Runs a Firebase Realtime Database sync client from the command line";

const SCRIPT: &str = "\
Reads lines from standard input, does what they ask of one client, and prints what each answers";

const LINES: &str = "\
Each line is a JSON array. The connection to the server opens and ends:
  [\"connected\"], [\"disconnected\"]
A seat listens, writes, asks for what the server is to do once the connection ends, and goes:
  [\"listen\",SEAT,PATH,[CALL,..]]         a listener; prints its number
  [\"unlisten\",SEAT,LISTENER]
  [\"set\",SEAT,PATH,VALUE]                a request; prints its number, as the next six do
  [\"update\",SEAT,{PATH:VALUE,..}]
  [\"remove\",SEAT,PATH]
  [\"onDisconnect\",SEAT,\"set\",PATH,VALUE]
  [\"onDisconnect\",SEAT,\"update\",{PATH:VALUE,..}]
  [\"onDisconnect\",SEAT,\"remove\",PATH]
  [\"onDisconnect\",SEAT,\"cancel\",PATH]
  [\"close\",SEAT]
The server sends values on the listen with that tag, settles requests, and ends listens:
  [\"data\",TAG,PATH,VALUE]
  [\"merge\",TAG,{PATH:VALUE,..}]
  [\"parts\",[[TAG,{PATH:VALUE,..}],..]]   values on several listens, as one step
  [\"ok\",REQUEST]
  [\"no\",REQUEST,REASON]
  [\"revoke\",TAG,REASON]
  [\"server\",TEXT]                        one of these six as the message that it sends
Looks at the client:
  [\"view\",LISTENER]                      what the listener shows
  [\"cover\"]                              the listens that are kept
  [\"out\"]                                the messages to be sent, which are taken
The next push id, for the milliseconds since 1970 and twelve random numbers from 0 to 63:
  [\"push\",MS,[RANDOM,..]]
CALL is [\"orderByKey\"], [\"orderByValue\"], [\"orderByChild\",PATH], [\"limitToFirst\",N],
[\"limitToLast\",N], or startAt, startAfter, endAt, endBefore or equalTo with a value and perhaps a key.
A step prints 'done', 'done N' or 'stale', then what is settled and ended, then each listener's changes.
A line that can't be made prints why: 'refused LAYER CODE NAME'.
A line that is none of these prints 'bad line N', and the run goes on; --verbose says what is wrong with it.
Exit status: 0 done, or help; 1 a fault, or a bad line was printed; 2 a bad command line.

Example: printf '%s\\n' '[\"set\",1,\"/a\",5]' '[\"listen\",1,\"/a\",[]]' | kaltewi script";

const SERVE: &str = "\
Serves clients that connect over WebSockets, one after the other, and keeps what they write in one tree";

const MESSAGES: &str = "\
A client connects to ws://127.0.0.1:PORT/ and sends text messages, each a JSON object:
  {\"k\":\"hello\",\"version\":2}                              from then on it may be sent a push
  {\"k\":\"listen\",\"path\":PATH,\"tag\":TAG}                   with \"q\":QUERY to a part of the children
  {\"k\":\"unlisten\",\"tag\":TAG}
  {\"k\":\"put\",\"id\":ID,\"path\":PATH,\"value\":VALUE}
  {\"k\":\"merge\",\"id\":ID,\"entries\":{PATH:VALUE,..}}
  {\"k\":\"od-put\",..} and {\"k\":\"od-merge\",..}              the same, done once its connection ends
  {\"k\":\"od-cancel\",\"id\":ID,\"path\":PATH}
It is sent
  {\"k\":\"data\",\"path\":PATH,\"tag\":TAG,\"value\":VALUE}
  {\"k\":\"data-merge\",\"entries\":{PATH:VALUE,..},\"tag\":TAG}
  {\"k\":\"push\",\"parts\":[{\"entries\":{PATH:VALUE,..},\"tag\":TAG},..]}
  {\"id\":ID,\"k\":\"ok\"} and {\"id\":ID,\"k\":\"no\",\"why\":TEXT}   a request is accepted, or refused
  {\"k\":\"revoke\",\"tag\":TAG,\"why\":TEXT}                    a listen is denied
TAG and ID are whole numbers from 1, and each begins anew with a connection. QUERY is such as
{\"limit\":[\"last\",2],\"order\":\"/score\"} or {\"lower\":[5,\"min\"],\"order\":\"value\"}: docs/FORMATS.md has all of it.
The next client comes in when it goes, and finds what was written. Nothing is printed on standard output.
--verbose says on standard error where it listens, which connections come and how each ends, and what is
passed over. One that speaks no WebSocket is not one of the N.
Exit status: 0 once N clients came and went; 1 a fault, such as a port that is taken; 2 a bad command line,
or help.

Example: kaltewi serve 8080 --count 2 --tree '{\"a\":1}' --deny /secret";

const TREE: &str = "\
The tree before the first connection; null where it is left out. Write -5 as --tree=-5";

const DENY: &str = "\
A path that can't be listened to, nor written, nor any above or below it. Write -a as --deny=-a";

const COUNT: &str = "How many connections are served, from 1 to 65535";

const VERBOSE: &str = "Says on standard error what happens; standard output stays as it is";

const ESCAPE: &str = "\
Prints control characters, and marks of the order of letters, by their numbers, as \\u009b";

const CONNECT: &str = "\
Connects a client to 127.0.0.1:PORT over a WebSocket, and drives it by lines from standard input";

const DRIVING: &str = "\
The client has eight seats, with the numbers 1 to 8. Each line is a JSON array:
  [\"listen\",SEAT,PATH,[CALL,..]]         a listener; prints its number
  [\"unlisten\",SEAT,LISTENER]
  [\"set\",SEAT,PATH,VALUE]                a request; prints its number, as the next six do
  [\"update\",SEAT,{PATH:VALUE,..}]
  [\"remove\",SEAT,PATH]
  [\"onDisconnect\",SEAT,\"set\",PATH,VALUE]
  [\"onDisconnect\",SEAT,\"update\",{PATH:VALUE,..}]
  [\"onDisconnect\",SEAT,\"remove\",PATH]
  [\"onDisconnect\",SEAT,\"cancel\",PATH]
  [\"close\",SEAT]
  [\"cover\"]                              the listens that are kept
  [\"read\",N]                             reads N messages of the server, from 1 to 1000
CALL is [\"orderByKey\"], [\"orderByValue\"], [\"orderByChild\",PATH], [\"limitToFirst\",N],
[\"limitToLast\",N], or startAt, startAfter, endAt, endBefore or equalTo with a value and perhaps a key.
A message prints 'done' or 'stale', or why it can't be read or taken: 'refused LAYER CODE NAME'.
What a seat is told then, settled, ended or changed, is printed seat by seat.
Where the connection fails or ends 'disconnected' is printed, and the lines go on; --verbose says why.
A line that is none of these prints 'bad line N', and the run goes on; --verbose says what is wrong with it.
Exit status: 0 done; 1 a fault, or a bad line was printed; 2 a bad command line, or help.

Example: kaltewi serve 8080 in one terminal, and in another
  printf '%s\\n' '[\"listen\",1,\"/a\",[]]' '[\"read\",1]' | kaltewi connect 8080";

const WATCH: &str = "\
Connects a client to 127.0.0.1:PORT, does lines as they come, and prints what changes as it happens";

const WATCHING: &str = "\
The client has eight seats, with the numbers 1 to 8. Each line is a JSON array:
  [\"listen\",SEAT,PATH,[CALL,..]]         a listener; prints its number
  [\"unlisten\",SEAT,LISTENER]
  [\"set\",SEAT,PATH,VALUE]                a request; prints its number, as the next six do
  [\"update\",SEAT,{PATH:VALUE,..}]
  [\"remove\",SEAT,PATH]
  [\"onDisconnect\",SEAT,\"set\",PATH,VALUE]
  [\"onDisconnect\",SEAT,\"update\",{PATH:VALUE,..}]
  [\"onDisconnect\",SEAT,\"remove\",PATH]
  [\"onDisconnect\",SEAT,\"cancel\",PATH]
  [\"close\",SEAT]
  [\"cover\"]                              the listens that are kept
  [\"view\",LISTENER]                      what the listener shows
  [\"push\",SEAT,PATH,VALUE]               a value below PATH, by a new key: prints 'id KEY'
CALL is [\"orderByKey\"], [\"orderByValue\"], [\"orderByChild\",PATH], [\"limitToFirst\",N],
[\"limitToLast\",N], or startAt, startAfter, endAt, endBefore or equalTo with a value and perhaps a key.
A line is done once it is there, from when the client is connected.
Messages of the server are taken as they come. What a seat is told of them, settled, ended or changed, is
printed at once, seat by seat, and of a message that can't be read or taken why: 'refused LAYER CODE NAME'.
Where the connection fails or ends 'disconnected' is printed, and the lines go on; --verbose says why. While
lines may come it connects again: in a second, and then less and less often, at least each 30 seconds.
A line that is none of these prints 'bad line N', and the run goes on; --verbose says what is wrong with it.
At the end of the lines it goes on until the connection has ended or, with --idle, until nothing was printed
for so long. Then the client closes the connection.
Exit status: 0 done, or help; 1 a fault, or a bad line was printed; 2 a bad command line.

Example: kaltewi emulate 8080 in one terminal, and in two others
  kaltewi watch 8080
with the line [\"listen\",1,\"/a\",[]] typed in both, and [\"set\",1,\"/a/x\",5] in one of them";

const IDLE: &str = "\
Ends once no more lines come and nothing was printed for MS milliseconds, from 1 to 65535";

const ONCE: &str = "Doesn't connect again where the connection has ended";

const CHANGES: &str = "Prints changes without the whole value behind them: no line 'L<n> value ..'";

const WIDTH: &str = "\
Cuts whole values, where a line has more than N bytes, and says how many they have; from 1 to 65535";

const EMULATE: &str = "\
Serves any number of clients at once over WebSockets, and keeps what they write in one tree";

const LIVE: &str = "\
A client connects to ws://127.0.0.1:PORT/ and sends text messages, each a JSON object:
  {\"k\":\"hello\",\"version\":2}                              from then on it may be sent a push
  {\"k\":\"listen\",\"path\":PATH,\"tag\":TAG}                   with \"q\":QUERY to a part of the children
  {\"k\":\"unlisten\",\"tag\":TAG}
  {\"k\":\"put\",\"id\":ID,\"path\":PATH,\"value\":VALUE}
  {\"k\":\"merge\",\"id\":ID,\"entries\":{PATH:VALUE,..}}
  {\"k\":\"od-put\",..} and {\"k\":\"od-merge\",..}              the same, done once its connection ends
  {\"k\":\"od-cancel\",\"id\":ID,\"path\":PATH}
It is sent
  {\"k\":\"data\",\"path\":PATH,\"tag\":TAG,\"value\":VALUE}
  {\"k\":\"data-merge\",\"entries\":{PATH:VALUE,..},\"tag\":TAG}
  {\"k\":\"push\",\"parts\":[{\"entries\":{PATH:VALUE,..},\"tag\":TAG},..]}
  {\"id\":ID,\"k\":\"ok\"} and {\"id\":ID,\"k\":\"no\",\"why\":TEXT}   a request is accepted, or refused
  {\"k\":\"revoke\",\"tag\":TAG,\"why\":TEXT}                    a listen is denied
TAG and ID are whole numbers from 1, and each begins anew with a connection. QUERY is such as
{\"limit\":[\"last\",2],\"order\":\"/score\"} or {\"lower\":[5,\"min\"],\"order\":\"value\"}: docs/FORMATS.md has all of it.
What a client writes is sent at once to all that listen there.
The port answers plain HTTP too, as Firebase's REST interface: GET, PUT, PATCH, POST and DELETE of /PATH.json, with
print=pretty, shallow=true, orderBy, startAt, endAt, equalTo, limitToFirst and limitToLast, and GET /healthz.
With --public the files of FOLDER stand there too, so that one command serves a whole application: a path that ends
with / is the index.html there, and a file whose name ends with .json or begins with a dot is not served. With --page,
which ./kaltewi gives by itself, / is a page of the live tree, and /kaltewi.js the client for pages.
It serves until Ctrl-C or SIGTERM ends it, N connections have gone or, with --until-eof, its standard input
ends. Then all connections are ended, and what they asked for at their end is done.
With --file the tree is that of FILE, where there is one, else that of --tree or --seed. What is accepted stands in
FILE.log before its client hears of it, so a kill loses nothing of that; with --sync nor does a loss of power.
Where something was written FILE is made anew, from time to time and at the end. A second emulator on the same
file is refused. A file that another program changed is left as it is, and the tree goes to FILE.new.
A web page of another machine is refused, as its browser says by the handshake's Origin, unless --origin
allows it. With --host whoever reaches ADDRESS can read and write the tree: there is no login, and no TLS.
A client that doesn't read is ended once more than 10000 messages or 16777216 bytes wait for it, and so is
one of which nothing is heard: for 10 seconds before its handshake or in a request, and after it for 30 seconds behind a ping,
which is sent after 30 seconds of silence. A message has at most 16777216 bytes.
Nothing is printed on standard output. On standard error it says where it listens, and each connection,
message, refusal and end: all of it, with --log connections no messages and refusals, with --log faults neither
connections, and nothing with --log none. --quiet and --verbose say nothing beside --log.
Exit status: 0 at its end, or help; 1 a fault, such as a port that is taken; 2 a bad command line.

Example: kaltewi emulate 8080 --file tree.json --deny /secret --origin https://app.example
  curl localhost:8080/a.json -X PUT -d 5";

const HOST: &str = "\
The address that it listens at, of IPv4 or IPv6, in place of 127.0.0.1; 0.0.0.0 and :: are all of them";

const FIRST_TREE: &str = "\
The first tree, where FILE has none; null where it is left out. Write -5 as --tree=-5";

const SEED: &str = "\
The file that the first tree is read from, in place of --tree; it is never written. Write -a as --seed=-a";

const FILE: &str = "\
The file that the tree is read from at first, and written to. Write -a as --file=-a";

const SYNC: &str = "\
Has each write on the disk before its client hears of it, so that a loss of power loses none either";

const ORIGIN: &str = "\
An origin whose pages may connect, such as https://app.example; may be given several times";

const PUBLIC: &str = "\
The folder of an application, whose files are served by plain HTTP too. Write -a as --public=-a";

const PAGE: &str = "\
The folder of the page of the tree, such as bindings/js, whose files are served too. Write -a as --page=-a";

const DENIES: &str = "\
A path that can't be listened to, nor written, nor any above or below it; may be given several times";

const GONE: &str = "Ends once so many connections have gone, from 1 to 65535";

const UNTIL_EOF: &str = "Ends at the end of its standard input, as at Ctrl-D";

const LOG: &str = "\
Which lines it says on standard error: all, connections, faults or none";

const QUIET: &str = "Says nothing on standard error but why it ends early, as with --log none";

const SAID: &str =
    "Says on standard error what happens, as with --log all, and without these words";

// `--NAME`
fn flag_arg<'a>(alloc: Global, name: &'a str, help: &'a str) -> Arg<'a>
    ensures rule { rule_of result ≡ flag_rule name.now }
    ensures local { result.global ≡ false }
{
    Arg::new(alloc, name)
        .long(name)
        .action(ArgAction::SetTrue)
        .help(help)
}

// `-v`, `--verbose`
fn verbose_arg<'a>(alloc: Global, help: &'a str) -> Arg<'a>
    ensures rule { rule_of result ≡ verbose_rule }
    ensures local { result.global ≡ false }
{
    flag_arg(alloc, "verbose", help).short('v')
}

// `-q`, `--quiet`
fn quiet_arg<'a>(alloc: Global) -> Arg<'a>
    ensures rule { rule_of result ≡ quiet_rule }
    ensures local { result.global ≡ false }
{
    flag_arg(alloc, "quiet", QUIET).short('q')
}

// `--NAME VALUE`
fn text_arg<'a>(alloc: Global, name: &'a str, value: &'a str, help: &'a str) -> Arg<'a>
    ensures rule { rule_of result ≡ text_rule name.now }
    ensures local { result.global ≡ false }
{
    Arg::new(alloc, name)
        .long(name)
        .value_name(value)
        .help(help)
}

// `--NAME VALUE`, several times
fn texts_arg<'a>(alloc: Global, name: &'a str, value: &'a str, help: &'a str) -> Arg<'a>
    ensures rule { rule_of result ≡ texts_rule name.now }
    ensures local { result.global ≡ false }
{
    text_arg(alloc, name, value, help).action(ArgAction::Append)
}

// `script`
fn script_command<'a>(alloc: Global) -> Result<Command<'a>, AllocError>
    ensures app { IfOk result (λ command. app_of command ≡ script_app) }
    ensures local { IfOk result (λ command. (fields_of command).has_globals ≡ false) }
{
    let command = Command::new(alloc, "script")
        .about(SCRIPT)
        .after_help(LINES)
        .arg(flag_arg(alloc, "escape", ESCAPE))?
        .arg(verbose_arg(alloc, VERBOSE))?;
    Ok(command)
}

// A whole number from 1 to 65,535.
fn whole_number<'a>() -> ValueParser<'a>
    ensures { result ≡ whole }
{
    value_parser!(u16).range(1..)
}

// `PORT`
fn port_arg<'a>(alloc: Global) -> Arg<'a>
    ensures rule { rule_of result ≡ port_rule }
    ensures local { result.global ≡ false }
{
    Arg::new(alloc, "PORT")
        .help("The port of 127.0.0.1, from 1 to 65535")
        .required(true)
        .value_parser(whole_number())
}

// `--NAME N`, from 1 to 65,535
fn number_arg<'a>(alloc: Global, name: &'a str, value: &'a str, help: &'a str) -> Arg<'a>
    ensures rule { rule_of result ≡ number_rule name.now }
    ensures local { result.global ≡ false }
{
    text_arg(alloc, name, value, help).value_parser(whole_number())
}

// `--count N`, 1 where it is left out
fn count_arg<'a>(alloc: Global) -> Arg<'a>
    ensures rule { rule_of result ≡ count_rule }
    ensures local { result.global ≡ false }
{
    number_arg(alloc, "count", "N", COUNT).default_value("1")
}

// `emulate`, with the words that say what it serves
fn begun_command<'a>(alloc: Global) -> Result<Command<'a>, AllocError>
    ensures app { IfOk result (λ command. app_of command ≡ begun_app) }
    ensures local { IfOk result (λ command. (fields_of command).has_globals ≡ false) }
{
    let command = Command::new(alloc, "emulate")
        .about(EMULATE)
        .after_help(LIVE)
        .arg(port_arg(alloc))?
        .arg(text_arg(alloc, "host", "ADDRESS", HOST))?
        .arg(text_arg(alloc, "tree", "JSON", FIRST_TREE))?
        .arg(text_arg(alloc, "seed", "FILE", SEED))?
        .arg(text_arg(alloc, "file", "FILE", FILE))?
        .arg(flag_arg(alloc, "sync", SYNC))?
        .arg(texts_arg(alloc, "deny", "PATH", DENIES))?;
    Ok(command)
}

// `emulate`
pub(crate) fn emulate_command<'a>(alloc: Global) -> Result<Command<'a>, AllocError>
    ensures app { IfOk result (λ command. app_of command ≡ emulate_app) }
    ensures local { IfOk result (λ command. (fields_of command).has_globals ≡ false) }
{
    let begun = begun_command(alloc)?;
    let command = begun
        .arg(texts_arg(alloc, "origin", "TEXT", ORIGIN))?
        .arg(text_arg(alloc, "public", "FOLDER", PUBLIC))?
        .arg(text_arg(alloc, "page", "FOLDER", PAGE))?
        .arg(number_arg(alloc, "count", "N", GONE))?
        .arg(flag_arg(alloc, "until-eof", UNTIL_EOF))?
        .arg(text_arg(alloc, "log", "LEVEL", LOG))?
        .arg(quiet_arg(alloc))?
        .arg(verbose_arg(alloc, SAID))?;
    Ok(command)
}

// `serve`
pub(crate) fn serve_command<'a>(alloc: Global) -> Result<Command<'a>, AllocError>
    ensures app { IfOk result (λ command. app_of command ≡ serve_app) }
    ensures local { IfOk result (λ command. (fields_of command).has_globals ≡ false) }
{
    let command = Command::new(alloc, "serve")
        .about(SERVE)
        .after_help(MESSAGES)
        .arg(port_arg(alloc))?
        .arg(count_arg(alloc))?
        .arg(text_arg(alloc, "tree", "JSON", TREE))?
        .arg(text_arg(alloc, "deny", "PATH", DENY))?
        .arg(verbose_arg(alloc, VERBOSE))?;
    Ok(command)
}

// `connect`
fn connect_command<'a>(alloc: Global) -> Result<Command<'a>, AllocError>
    ensures app { IfOk result (λ command. app_of command ≡ connect_app) }
    ensures local { IfOk result (λ command. (fields_of command).has_globals ≡ false) }
{
    let command = Command::new(alloc, "connect")
        .about(CONNECT)
        .after_help(DRIVING)
        .arg(port_arg(alloc))?
        .arg(flag_arg(alloc, "escape", ESCAPE))?
        .arg(verbose_arg(alloc, VERBOSE))?;
    Ok(command)
}

// `watch`
fn watch_command<'a>(alloc: Global) -> Result<Command<'a>, AllocError>
    ensures app { IfOk result (λ command. app_of command ≡ watch_app) }
    ensures local { IfOk result (λ command. (fields_of command).has_globals ≡ false) }
{
    let command = Command::new(alloc, "watch")
        .about(WATCH)
        .after_help(WATCHING)
        .arg(port_arg(alloc))?
        .arg(number_arg(alloc, "idle", "MS", IDLE))?
        .arg(flag_arg(alloc, "once", ONCE))?
        .arg(flag_arg(alloc, "changes", CHANGES))?
        .arg(number_arg(alloc, "width", "N", WIDTH))?
        .arg(flag_arg(alloc, "escape", ESCAPE))?
        .arg(verbose_arg(alloc, VERBOSE))?;
    Ok(command)
}

// The program, with no subcommand yet.
fn base_command<'a>(alloc: Global) -> Result<Command<'a>, AllocError>
    ensures app { IfOk result (λ command. app_of command ≡ base_app) }
    ensures local { IfOk result (λ command. (fields_of command).has_globals ≡ false) }
{
    let command = Command::new(alloc, PROGRAM)
        .about(ABOUT)
        .no_binary_name(true)
        .subcommand_required(true)
        .bin_name(PROGRAM)?;
    Ok(command)
}

// The command with one more subcommand, where that one could be made.
fn having<'a>(
    command: Command<'a>,
    more: Result<Command<'a>, AllocError>,
) -> Result<Command<'a>, AllocError>
    ensures { IfOk result (λ made. IsOkAnd more.entry (λ sub. (fields_of sub).has_globals ≡ false
        → app_of made ≡ with_subcommand (app_of command.entry) (app_of sub).top)) }
{
    match more {
        Ok(more) => command.subcommand(more),
        Err(why) => {
            drop(command);
            Err(why)
        }
    }
}

// The program's command line.
pub(crate) fn console_command<'a>(alloc: Global) -> Result<Command<'a>, AllocError>
    ensures { IfOk result (λ command. app_of command ≡ console_app) }
{
    let command = having(base_command(alloc)?, script_command(alloc))?;
    let command = having(command, serve_command(alloc))?;
    let command = having(command, emulate_command(alloc))?;
    let command = having(command, connect_command(alloc))?;
    having(command, watch_command(alloc))
}
