// The texts of a trial.
ghost use Rattle.std.specs.Prelude.{◌≡◌, ◌<◌, ◌≤◌, ◌++◌, ◌∷◌};
ghost use Rattle.std.specs.Prelude.{[], codes, decimal, IfOk, OnOk};
ghost use Rattle.std.specs.Option.{option_map};
ghost use Rattle.git_objects.specs.Parts.{name_bytes};
ghost use Rattle.proj_words.specs.TrialTexts.{first_push, second_push, third_push};
ghost use Rattle.proj_words.specs.TrialTexts.{from_line, push_stream, sized, trial_commit, trial_head, trial_stream};
ghost use Rattle.proj_words.specs.Views.{push_value};

use crate::texts::{add_number, numbered};
use git_objects::Name;
use std::alloc::{AllocError, Global};

// The time of the first commit, in seconds since 1970.
const FIRST_SECOND: u64 = 1_700_000_000;

/// A push of a trial through a filter: its message, the path that it writes, and the content.
#[derive(Clone, Copy)]
pub struct TrialPush {
    pub filter: &'static [u8],
    pub message: &'static [u8],
    pub path: &'static [u8],
    pub content: &'static [u8],
}

/// The push through a subdirectory.
pub fn first_push() -> TrialPush
    ensures { push_value result ≡ first_push }
{
    TrialPush {
        filter: b":/a",
        message: b"p1\n",
        path: b"p",
        content: b"1\n",
    }
}

/// The push through a selection of paths.
pub fn second_push() -> TrialPush
    ensures { push_value result ≡ second_push }
{
    TrialPush {
        filter: b"::b/",
        message: b"p2\n",
        path: b"b/p",
        content: b"2\n",
    }
}

/// The push through a composition.
pub fn third_push() -> TrialPush
    ensures { push_value result ≡ third_push }
{
    TrialPush {
        filter: b":[x=:/a,y=:/c]",
        message: b"p3\n",
        path: b"x/q",
        content: b"3\n",
    }
}

// Adds the line `data` with the size, and the bytes.
fn add_sized(text: &mut Vec<u8>, bytes: &[u8]) -> Result<(), AllocError>
    ensures { OnOk result (text.new.items ≡ text.old.items ++ sized bytes.now) }
{
    text.extend_from_slice(b"data ")?;
    add_number(text, bytes.len() as u64)?;
    text.push(b'\n')?;
    text.extend_from_slice(bytes)
}

// Adds the first lines of a commit.
fn add_head(text: &mut Vec<u8>, seconds: u64, message: &[u8]) -> Result<(), AllocError>
    ensures { OnOk result (text.new.items ≡ text.old.items ++ trial_head seconds message.now) }
{
    text.extend_from_slice(b"commit refs/heads/main\ncommitter T <t@x> ")?;
    add_number(text, seconds)?;
    text.extend_from_slice(b" +0000\n")?;
    add_sized(text, message)?;
    Ok(())
}

// Adds the lines that write a file.
fn add_file(text: &mut Vec<u8>, path: &[u8], content: &[u8]) -> Result<(), AllocError>
    ensures { OnOk result (
        text.new.items ≡ text.old.items ++ codes "M 100644 inline " ++ path.now ++ 10 ∷ sized content.now) }
{
    text.extend_from_slice(b"M 100644 inline ")?;
    text.extend_from_slice(path)?;
    text.push(b'\n')?;
    add_sized(text, content)?;
    Ok(())
}

// A line of words with a number behind them.
fn numbered_line(alloc: Global, front: &[u8], n: u64) -> Result<Vec<u8>, AllocError>
    ensures { IfOk result (λ line. line.items ≡ front.now ++ decimal n ++ 10 ∷ []) }
{
    let mut line = numbered(alloc, front, n)?;
    line.push(b'\n')?;
    Ok(line)
}

// Adds the i-th commit.
fn add_commit(alloc: Global, text: &mut Vec<u8>, i: u64) -> Result<(), AllocError>
    requires { i < 100000 }
    ensures { OnOk result (text.new.items ≡ text.old.items ++ trial_commit i) }
{
    let message = numbered_line(alloc, b"c", i)?;
    let front = [b'a' + (i % 4) as u8, b'/', b'f'];
    let path = numbered(alloc, &front, i % 10)?;
    let content = numbered_line(alloc, b"", i)?;
    add_head(text, FIRST_SECOND + i, &message)?;
    add_file(text, &path, &content)?;
    Ok(())
}

/// The stream of n commits, 1 to 100,000, with which a trial begins.
pub fn trial_stream(alloc: Global, n: u32) -> Result<Vec<u8>, AllocError>
    requires { (1 ≤ n) × (n ≤ 100000) }
    ensures { IfOk result (λ text. text.items ≡ trial_stream n) }
{
    let mut text = Vec::new(alloc);
    for i in 0..n {
        add_commit(alloc, &mut text, u64::from(i))?;
    }
    Ok(text)
}

// Adds the line `from`, where there is a name.
fn add_from(text: &mut Vec<u8>, from: Option<Name>) -> Result<(), AllocError>
    ensures { OnOk result (text.new.items ≡ text.old.items ++ from_line (option_map name_bytes from)) }
{
    let Some(name) = from else {
        return Ok(());
    };
    text.extend_from_slice(b"from ")?;
    text.extend_from_slice(&name.hex())?;
    text.extend_from_slice(b"\n")
}

/// The stream of a push, made so many seconds after 1970, upon the projection's commit `from`, where there is one.
pub fn push_stream(
    alloc: Global,
    seconds: u64,
    push: &TrialPush,
    from: Option<Name>,
) -> Result<Vec<u8>, AllocError>
    ensures { IfOk result (λ text.
        text.items ≡ push_stream seconds (push_value push.now) (option_map name_bytes from)) }
{
    let mut text = Vec::new(alloc);
    add_head(&mut text, seconds, push.message)?;
    add_from(&mut text, from)?;
    add_file(&mut text, push.path, push.content)?;
    Ok(text)
}
