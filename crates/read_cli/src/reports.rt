// Lines that are told of a store.
ghost use Rattle.std.specs.Prelude.{◌≡◌, ◌++◌, flat_map, zip, IfOk, OnOk};
ghost use Rattle.std.specs.Option.{option_map};
ghost use Rattle.git_objects.specs.Parts.{name_bytes};
ghost use Rattle.read_cli.specs.Outputs.{name_line};

use git_objects::{Bytes, Name};
use proj_cli::Outcome;
use std::alloc::{AllocError, Global};

// Adds the line of a commit and its projection.
fn add_log_line(report: &mut Vec<u8>, commit: &Name, shown: &Option<Name>) -> Result<(), AllocError>
    ensures { OnOk result (report.new.items
        ≡ report.old.items ++ name_line commit.now.0 (option_map name_bytes shown.now)) }
{
    report.extend_from_slice(&commit.hex())?;
    report.push(b' ')?;
    match shown {
        None => report.extend_from_slice(b"none")?,
        Some(name) => report.extend_from_slice(&name.hex())?,
    }
    report.push(b'\n')?;
    Ok(())
}

/// The lines of commits and their projections.
pub fn log_lines(
    alloc: Global,
    commits: &[Name],
    shown: &[Option<Name>],
) -> Result<Vec<u8>, AllocError>
    ensures { IfOk result (λ report. report.items
        ≡ flat_map (λ e. name_line e.0.0 (option_map name_bytes e.1)) (zip commits.now shown.now)) }
{
    let mut report = Vec::new(alloc);
    for (commit, shown) in commits.iter().zip(shown) {
        add_log_line(&mut report, commit, shown)?;
    }
    Ok(report)
}
