//! `proj` shows parts of a monorepo as Git repositories of their own.
//!
//! - `proj STORE COMMAND ..` runs the command on the store, a file that is made where there is none, whatever the words
//!   behind it are.
//! - Where the first word is `name`, `trial` or `verify`, all words are the command's, and there is no store.
//! - Where it is `--help` or `--version`, the program prints what it says, with status 0. A store of such a name is
//!   given as `./--help`.
//! - Without a word, or with one that isn't UTF-8, it tells its usage.
//!
//! One process at a time has a store: its file is locked before it or standard input is read, and until the command has
//! ended. A store that can't be opened, or that another process has, is a fault of the store: `store fault`, status 24.
#![tactic(auto)]

use proj_cli::{outcome_code, run, serve};
use proj_disk::FileDisk;
use proj_io::{MemKeeper, StdSink, StdSource, write_whole};
use std::alloc::Global;
use std::fs::{File, OpenOptions, TryLockError};
use std::io::ErrorKind;
use std::process::ExitCode;
use std::{env, fs, io};

const HELP: &[u8] = b"proj shows parts of a monorepo as Git repositories of their own.\n\
\n\
\x20 proj STORE import [--force]     put the commits of a stream into the store\n\
\x20 proj STORE project REF FILTER   print the name of what the filter shows of a ref\n\
\x20 proj STORE export [--tags] REF FILTER\n\
\x20                                 print the history of what it shows, as a stream\n\
\x20 proj STORE tags REF FILTER      print the annotated tags beside that history\n\
\x20 proj STORE audit REF FILTER PATH\n\
\x20                                 print a certificate of what it shows at a path\n\
\x20 proj STORE push [--merges] REF FILTER\n\
\x20                                 take pushed commits back into the ref's history\n\
\x20 proj STORE as USER COMMAND ..   project, export or push where the store's policy allows it\n\
\x20 proj STORE rule (1 | 2)         set the rule by which merges are shown\n\
\x20 proj STORE batch                answer commands one after another, each with its input\n\
\x20 proj name REF FILTER            print such a name for a stream alone, without a store\n\
\x20 proj trial N                    try an import of N commits and three pushes, without a store\n\
\x20 proj verify COMMIT FILTER PATH  check a certificate of a commit, without a store\n\
\n\
STORE is a file. It is made where there is none, whatever the words behind it are. One\n\
process at a time has it: another one is told `store fault`, with status 24. A stream is\n\
read from the standard input, in the form of git fast-export; what export prints is one\n\
for git fast-import. With --force a ref may move anywhere, and a tag may be another one.\n\
A store named --help or verify is given as ./--help or ./verify.\n";

const VERSION: &[u8] = b"proj 0.1\n";

// What the words ask of the program itself.
enum Form<'a> {
    Print(&'static [u8]),
    // The command is run without a store.
    Alone,
    // The rest of the words is run on the store of a path.
    Store(&'a str, &'a [String]),
}

// The words behind the program's own name. A word that isn't UTF-8 is an error, and so is such a name of the program.
fn words_of(alloc: Global, rt: &HostRuntime) -> io::Result<Vec<String>> {
    let mut words = Vec::new(alloc);
    for (i, word) in env::args(rt)?.enumerate() {
        if i > 0 {
            words.push(word)?;
        }
    }
    Ok(words)
}

fn form_of(words: &[String]) -> Form<'_> {
    let [first, rest @ ..] = words else {
        return Form::Alone;
    };
    match first.as_str() {
        "--help" => Form::Print(HELP),
        "--version" => Form::Print(VERSION),
        "name" | "trial" | "verify" => Form::Alone,
        path => Form::Store(path, rest),
    }
}

// Tells a fault, and answers its status.
fn refuse(rt: &HostRuntime, text: &[u8], status: u8) -> u8 {
    let _ = write_whole(&mut StdSink::new(rt.stderr()), text);
    status
}

// Prints a text.
fn print(rt: &HostRuntime, text: &[u8]) -> u8 {
    match write_whole(&mut StdSink::new(rt.stdout()), text) {
        Ok(()) => 0,
        Err(_) => refuse(rt, b"write fault\n", 23),
    }
}

// Runs the words on an empty store in memory.
fn run_alone(alloc: Global, rt: &HostRuntime, words: &[String]) -> u8 {
    let mut input = StdSource::new(rt.stdin());
    let mut out = StdSink::new(rt.stdout());
    let mut err = StdSink::new(rt.stderr());
    let mut store = MemKeeper::new(alloc, Vec::new(alloc));
    outcome_code(&run(alloc, words, &mut input, &mut out, &mut err, &mut store))
}

// Syncs the directory of a store's file, so that a loss of power leaves the file its name. A directory that can't be
// found or opened, or of which the file system knows no sync, is left as it is.
fn sync_directory(rt: &HostRuntime, path: &str) -> io::Result<()> {
    let Ok(place) = fs::canonicalize(rt, path) else {
        return Ok(());
    };
    let Some(parent) = place.parent() else {
        return Ok(());
    };
    let Ok(directory) = File::open(rt, parent) else {
        return Ok(());
    };
    match directory.sync_all() {
        Err(e) if e.kind() == ErrorKind::InvalidInput => Ok(()),
        Err(e) if e.kind() == ErrorKind::Unsupported => Ok(()),
        outcome => outcome,
    }
}

// The file of a store, made where there is none, and locked until it is closed. A file that another process has locked
// is an error. Where the file system knows no such lock, the file goes without one.
fn open_store(rt: &HostRuntime, path: &str) -> io::Result<File> {
    let mut options = OpenOptions::new();
    options.read(true).write(true).create(true);
    let file = options.open(rt, path)?;
    if let Err(TryLockError::WouldBlock) = file.try_lock() {
        return Err(io::Error::from(ErrorKind::WouldBlock));
    }
    if file.metadata()?.len() == 0 {
        sync_directory(rt, path)?;
    }
    Ok(file)
}

// Runs the words on the store of that path.
fn run_on(alloc: Global, rt: &HostRuntime, path: &str, words: &[String]) -> u8 {
    let Ok(file) = open_store(rt, path) else {
        return refuse(rt, b"store fault\n", 24);
    };
    let mut input = StdSource::new(rt.stdin());
    let mut out = StdSink::new(rt.stdout());
    let mut err = StdSink::new(rt.stderr());
    let disk = FileDisk::new(file);
    serve(alloc, words, &mut input, &mut out, &mut err, disk).status
}

// Does what the words ask for.
fn act(alloc: Global, rt: &HostRuntime, words: &[String]) -> u8 {
    match form_of(words) {
        Form::Print(text) => print(rt, text),
        Form::Alone => run_alone(alloc, rt, words),
        Form::Store(path, words) => run_on(alloc, rt, path, words),
    }
}

fn main(rt: HostRuntime) -> ExitCode {
    let alloc = rt.alloc();
    let status = match words_of(alloc, &rt) {
        Ok(words) => act(alloc, &rt, &words),
        // Words of which one isn't UTF-8 have none of the forms. Neither has the empty list.
        Err(e) if e.kind() == ErrorKind::InvalidData => act(alloc, &rt, &[]),
        Err(_) => refuse(&rt, b"out of memory\n", 1),
    };
    ExitCode::from(status)
}
