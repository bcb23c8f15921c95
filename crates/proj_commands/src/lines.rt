// The lines of reports.
ghost use Rattle.std.specs.Prelude.{◌≡◌, ◌++◌, [], map, IfErr, IfOk, OnOk};
ghost use Rattle.std.specs.List.{flat_map};
ghost use Rattle.std.specs.Option.{option_map};
ghost use Rattle.fast_import.specs.Replaying.{setting_value};
ghost use Rattle.commit_map.specs.Rules.{rule_number};
ghost use Rattle.commit_map.specs.Shown.{shown_value};
ghost use Rattle.git_objects.specs.Names.{mode_text};
ghost use Rattle.proj_audit.specs.Certificates.{found_text};
ghost use Rattle.proj_audit.specs.Steps.{found_value};
ghost use Rattle.state_items.specs.Changes.{with_refs};
ghost use Rattle.proj_commands.specs.Lines.{name_line, ref_line, tag_line};
ghost use Rattle.proj_commands.specs.Rule.{rule_line};
ghost use Rattle.proj_commands.specs.Push.{told_digits};

use commit_map::{Rule, Shown};
use fast_import::Setting;
use git_objects::{Bytes, Mode};
use path_trees::Leaf;
use proj_words::Outcome;
use push_back::Pair;
use ref_store::Refs;
use std::alloc::{AllocError, Global};
use std::collections::BTreeMap;
use tag_objects::{Tag, tag_object_name};

// Adds the line of a ref and its commit.
fn add_ref_line(report: &mut Vec<u8>, set: &Setting) -> Result<(), AllocError>
    ensures { OnOk result (report.new.items ≡ report.old.items ++ ref_line (setting_value set.now)) }
{
    report.extend_from_slice(set.refname.text())?;
    report.push(b' ')?;
    report.extend_from_slice(&set.head.hex())?;
    report.push(b'\n')?;
    Ok(())
}

/// The lines of refs with their commits.
pub(crate) fn refs_report(alloc: Global, refs: &[Setting]) -> Result<Vec<u8>, AllocError>
    ensures { IfOk result (λ report. report.items ≡ flat_map ref_line (map setting_value refs.now)) }
{
    let mut report = Vec::new(alloc);
    for set in refs {
        add_ref_line(&mut report, set)?;
    }
    Ok(report)
}

// The refs with their commits, in byte order.
fn settings_of(alloc: Global, refs: &Refs) -> Result<Vec<Setting>, AllocError>
    ensures { IfOk result (λ settings. map setting_value settings.items ≡ with_refs [] refs.now) }
{
    let mut heads = BTreeMap::new(alloc);
    for i in 0..refs.len() {
        let (refname, head) = refs.entry(i);
        heads.insert(refname.copy(alloc)?, head)?;
    }
    let mut settings = Vec::with_capacity(alloc, heads.len())?;
    for (refname, head) in heads {
        settings.push(Setting { refname, head })?;
    }
    Ok(settings)
}

/// The lines of a store's refs, in byte order.
pub fn refs_lines(alloc: Global, refs: &Refs) -> Result<Bytes, Outcome>
    ensures ok { IfOk result (λ lines. lines ≡ flat_map ref_line (with_refs [] refs.now)) }
    ensures err { IfErr result (λ e. e ≡ Outcome.OutOfMemory) }
{
    let settings = settings_of(alloc, refs)?;
    Ok(Bytes::of(refs_report(alloc, &settings)?))
}

// Adds the line of a tag and its object.
fn add_tag_line(alloc: Global, report: &mut Vec<u8>, tag: &Tag) -> Result<(), AllocError>
    ensures { OnOk result (report.new.items ≡ report.old.items ++ tag_line tag.now) }
{
    let object = tag_object_name(alloc, tag)?;
    report.extend_from_slice(tag.name.text())?;
    report.push(b' ')?;
    report.extend_from_slice(&object.hex())?;
    report.push(b'\n')?;
    Ok(())
}

/// The lines of tags with their objects.
pub fn tags_report(alloc: Global, tags: &[Tag]) -> Result<Vec<u8>, AllocError>
    ensures { IfOk result (λ report. report.items ≡ flat_map tag_line tags.now) }
{
    let mut report = Vec::new(alloc);
    for tag in tags {
        add_tag_line(alloc, &mut report, tag)?;
    }
    Ok(report)
}

/// What the report of a push tells of each pushed commit.
#[derive(Clone, Copy)]
pub enum Telling {
    /// Its name and its original's.
    Both,
    /// Its name alone: whoever pushes as a user is told no original.
    PushedAlone,
}

// Adds the line of a pushed commit and its original.
fn add_pair_line(report: &mut Vec<u8>, pair: &Pair, telling: Telling) -> Result<(), AllocError>
    ensures { OnOk result (report.new.items ≡ report.old.items
        ++ told_digits telling pair.now.pushed.0 pair.now.original.0) }
{
    report.extend_from_slice(&pair.pushed.hex())?;
    match telling {
        Telling::Both => {
            report.push(b' ')?;
            report.extend_from_slice(&pair.original.hex())?;
        }
        Telling::PushedAlone => {}
    }
    report.push(b'\n')?;
    Ok(())
}

/// The lines of pushed commits, with their originals where these are told.
pub fn pairs_report(alloc: Global, pairs: &[Pair], telling: Telling) -> Result<Vec<u8>, AllocError>
    ensures { IfOk result (λ report.
        report.items ≡ flat_map (λ c. told_digits telling c.pushed.0 c.original.0) pairs.now) }
{
    let mut report = Vec::new(alloc);
    for pair in pairs {
        add_pair_line(&mut report, pair, telling)?;
    }
    Ok(report)
}

/// The line of a projection, or that there is none.
pub fn projection_report(alloc: Global, shown: Option<Shown>) -> Result<Vec<u8>, AllocError>
    ensures { IfOk result (λ report. report.items ≡ name_line (option_map shown_value shown)) }
{
    match shown {
        None => b"none\n".to_vec(alloc),
        Some(shown) => {
            let mut report = shown.commit.hex().to_vec(alloc)?;
            report.push(b'\n')?;
            Ok(report)
        }
    }
}

/// The line of a rule.
pub fn rule_report(alloc: Global, rule: Rule) -> Result<Vec<u8>, AllocError>
    ensures { IfOk result (λ report. report.items ≡ rule_line (rule_number rule)) }
{
    match rule {
        Rule::One => b"rule 1\n".to_vec(alloc),
        Rule::Two => b"rule 2\n".to_vec(alloc),
    }
}

fn mode_text(mode: Mode) -> &'static [u8]
    ensures { result.now ≡ mode_text mode }
{
    match mode {
        Mode::File => b"100644",
        Mode::Exec => b"100755",
        Mode::Link => b"120000",
        Mode::Module => b"160000",
        Mode::Dir => b"40000",
    }
}

/// The line of what stands at a path, or that nothing does.
pub fn leaf_report(alloc: Global, leaf: Option<Leaf>) -> Result<Vec<u8>, AllocError>
    ensures { IfOk result (λ report. report.items ≡ found_text (option_map found_value leaf)) }
{
    match leaf {
        None => b"absent\n".to_vec(alloc),
        Some(leaf) => {
            let mut report = mode_text(leaf.mode).to_vec(alloc)?;
            report.push(b' ')?;
            report.extend_from_slice(&leaf.name.hex())?;
            report.push(b'\n')?;
            Ok(report)
        }
    }
}
