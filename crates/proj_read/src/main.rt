//! `proj_read` looks into a store of `proj`, and writes nothing to it.
//!
//! - `proj_read STORE WORDS ..` reads from the store, a file, what the words ask for.
//! - Where the first word is `--help` or `--version`, the program prints what it says, with status 0. A store of such a
//!   name is given as `./--help`.
//! - Without a word, or with one that isn't UTF-8, it tells its usage.
//!
//! Any number of these programs may read a store at once, but none while `proj` has it. A store that can't be opened,
//! or that `proj` has, is a fault of the store: `store fault`, status 24.
#![tactic(auto)]

use proj_disk::FileDisk;
use proj_io::{MemKeeper, StdSink, write_whole};
use read_cli::{outcome_code, read, read_on};
use std::alloc::Global;
use std::fs::{File, OpenOptions, TryLockError};
use std::io::ErrorKind;
use std::process::ExitCode;
use std::{env, io};

const HELP: &[u8] = b"proj_read looks into a store of proj, and writes nothing to it.\n\
\n\
\x20 proj_read STORE refs             print each ref and its commit\n\
\x20     proj_read mono.proj refs\n\
\x20 proj_read STORE log REF FILTER   print each commit of a ref's history, parents first, and\n\
\x20                                  what the filter shows of it: a commit, or none\n\
\x20     proj_read mono.proj log refs/heads/main :/lib\n\
\x20 proj_read STORE check REF FILTER\n\
\x20                                  print how many files the filter shows of a ref's commit,\n\
\x20                                  and what its workspace's file gives\n\
\x20     proj_read mono.proj check refs/heads/main :workspace=ws\n\
\x20 proj_read STORE new [--tags | --names] REF FILTER [HAVE ..]\n\
\x20                                  print the history of what the filter shows, as a stream\n\
\x20                                  that has what each commit changes, without all that is\n\
\x20                                  reached from a HAVE, a commit of that history in 40 digits;\n\
\x20                                  --tags adds its annotated tags, and --names these and, in\n\
\x20                                  front, the names of its head and of all tags\n\
\x20     proj_read mono.proj new refs/heads/main :/lib | git -C lib fast-import\n\
\x20 proj_read STORE originals REF [HAVE ..]\n\
\x20                                  print the same of the ref's own history\n\
\x20     proj_read mono.proj originals refs/heads/main | git -C mono fast-import\n\
\n\
STORE is a file. Any number of these programs may read it at once, but none while proj\n\
has it: then `store fault` is told, with status 24. A stream is one for git fast-import.\n\
A store named --help is given as ./--help.\n";

const VERSION: &[u8] = b"proj_read 0.1\n";

// The words behind the program's own name. A word that isn't UTF-8 is an error, and so is such a name of the program.
fn words_of(alloc: Global, rt: &HostRuntime) -> io::Result<Vec<String>> {
    let mut words = Vec::new(alloc);
    for (i, word) in env::args(rt)?.enumerate() {
        if i > 0 {
            words.push(word)?;
        }
    }
    Ok(words)
}

// Tells a fault, and answers its status.
fn refuse(rt: &HostRuntime, text: &[u8], status: u8) -> u8 {
    let _ = write_whole(&mut StdSink::new(rt.stderr()), text);
    status
}

// Prints a text.
fn print(rt: &HostRuntime, text: &[u8]) -> u8 {
    match write_whole(&mut StdSink::new(rt.stdout()), text) {
        Ok(()) => 0,
        Err(_) => refuse(rt, b"write fault\n", 23),
    }
}

// The file of a store, opened for reading alone, and locked with other readers until it is closed. Where the file
// system knows no such lock, the file goes without one.
fn open_store(rt: &HostRuntime, path: &str) -> io::Result<File> {
    let mut options = OpenOptions::new();
    options.read(true);
    let file = options.open(rt, path)?;
    if let Err(TryLockError::WouldBlock) = file.try_lock_shared() {
        return Err(io::Error::from(ErrorKind::WouldBlock));
    }
    Ok(file)
}

// Reads what the words ask of the store of that path.
fn read_store(alloc: Global, rt: &HostRuntime, path: &str, words: &[String]) -> u8 {
    let Ok(file) = open_store(rt, path) else {
        return refuse(rt, b"store fault\n", 24);
    };
    let mut out = StdSink::new(rt.stdout());
    let mut err = StdSink::new(rt.stderr());
    read_on(alloc, words, &mut out, &mut err, FileDisk::new(file)).status
}

// Without a word it tells the usage.
fn read_none(alloc: Global, rt: &HostRuntime) -> u8 {
    let mut out = StdSink::new(rt.stdout());
    let mut err = StdSink::new(rt.stderr());
    let mut store = MemKeeper::new(alloc, Vec::new(alloc));
    outcome_code(&read(alloc, &[], &mut out, &mut err, &mut store))
}

// Does what the words ask for.
fn act(alloc: Global, rt: &HostRuntime, words: &[String]) -> u8 {
    let [first, rest @ ..] = words else {
        return read_none(alloc, rt);
    };
    match first.as_str() {
        "--help" => print(rt, HELP),
        "--version" => print(rt, VERSION),
        path => read_store(alloc, rt, path, rest),
    }
}

fn main(rt: HostRuntime) -> ExitCode {
    let alloc = rt.alloc();
    let status = match words_of(alloc, &rt) {
        Ok(words) => act(alloc, &rt, &words),
        // Words of which one isn't UTF-8 have none of the forms. Neither has the empty list.
        Err(e) if e.kind() == ErrorKind::InvalidData => act(alloc, &rt, &[]),
        Err(_) => refuse(&rt, b"out of memory\n", 1),
    };
    ExitCode::from(status)
}
