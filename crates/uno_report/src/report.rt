//! The report of an end.
ghost use Rattle.std.specs.List.{flat_map};
ghost use Rattle.std.specs.Prelude.{◌≡◌, ◌++◌, IfOk, OnOk, map};
ghost use Rattle.std.specs.String.{string_bytes};
ghost use Rattle.behaviour.specs.Roots.{run_of};
ghost use Rattle.bridge_endpoint.specs.Telling.{counts_told};
ghost use Rattle.report_model.specs.Reports.{counts_text, line_text, report, root_text};

use behaviour::RootRun;
use bridge_endpoint::Counts;
use std::alloc::Global;
use uno_base::NoMemory;
use uno_types::Text;

/// The lines of an end's roots, each behind the name of the end, and the line of its counts.
pub fn report_lines(
    alloc: Global,
    side_name: &str,
    runs: &[RootRun],
    counts: Counts,
) -> Result<Vec<u8>, NoMemory>
    ensures { IfOk result (λ text. text.items ≡ report side_name.now (map run_of runs.now) (counts_told counts)) }
{
    let mut text = String::new(alloc);
    push_roots(&mut text, side_name, runs)?;
    push_counts(alloc, &mut text, side_name, counts)?;
    Ok(text.into_bytes())
}

/// Puts the lines of roots behind a text.
fn push_roots(text: &mut String, side_name: &str, runs: &[RootRun]) -> Result<(), NoMemory>
    ensures { OnOk result (string_bytes text.new ≡ string_bytes text.old ++ flat_map (root_text side_name.now) (map run_of runs.now)) }
{
    for run in runs {
        push_lines(text, side_name, run.lines.as_slice())?;
    }
    Ok(())
}

/// Puts lines behind a text.
fn push_lines(text: &mut String, side_name: &str, lines: &[Text]) -> Result<(), NoMemory>
    ensures { OnOk result (string_bytes text.new ≡ string_bytes text.old ++ flat_map (line_text side_name.now) lines.now) }
{
    for line in lines {
        push_line(text, side_name, line.as_str())?;
    }
    Ok(())
}

/// Puts a line behind a text.
fn push_line(text: &mut String, side_name: &str, line: &str) -> Result<(), NoMemory>
    ensures { OnOk result (string_bytes text.new ≡ string_bytes text.old ++ line_text side_name.now line.now) }
{
    text.push_str(side_name)?;
    text.push_str(" ")?;
    text.push_str(line)?;
    text.push_str("\n")?;
    Ok(())
}

/// Puts the line of an end's counts behind a text.
pub(crate) fn push_counts(
    alloc: Global,
    text: &mut String,
    side_name: &str,
    counts: Counts,
) -> Result<(), NoMemory>
    ensures { OnOk result (string_bytes text.new ≡ string_bytes text.old ++ counts_text side_name.now (counts_told counts)) }
{
    let line = counts_line(alloc, side_name, counts)?;
    text.push_str(line.as_str())?;
    Ok(())
}

/// The line of an end's counts.
#[tactic(auto, unfolding(report_model::specs::Reports::counts_text))]
fn counts_line(alloc: Global, side_name: &str, counts: Counts) -> Result<String, NoMemory>
    ensures { IfOk result (λ line. string_bytes line ≡ counts_text side_name.now (counts_told counts)) }
{
    let Counts {
        stubs,
        proxies,
        objects,
    } = counts;
    let line = format!(in alloc;
        "{side_name} stubs {stubs} proxies {proxies} objects {objects}\n"
    )?;
    Ok(line)
}
