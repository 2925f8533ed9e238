//! The lines of a script around its reports.
ghost use Rattle.std.specs.Prelude.{◌≡◌, ◌++◌, OnOk, OnErr};
ghost use Rattle.report_text.specs.Lines.{heading, keys_line};
ghost use Rattle.report_text.specs.Ranking.{best_heading};
ghost use Rattle.report_text.specs.Refusals.{kind_word, malformed_line};
ghost use Rattle.report_text.specs.Rounds.{search_heading};

use deck_lines::{LineFault, LineKind};
use wasp_fixed::OutOfMemory;

/// Appends the line `PLAN number`, which begins the report of the script's PLAN line of that number, from 1.
/// After `OutOfMemory` the text is as before.
pub fn write_heading(number: u64, text: &mut Vec<u8>) -> Result<(), OutOfMemory>
    ensures appended { OnOk result (text.new.items ≡ text.old.items ++ heading number) }
    ensures kept { OnErr result (text.new.items ≡ text.old.items) }
{
    let line = format!(in *text.allocator(); "PLAN {number}\n")?;
    text.extend_from_slice(line.as_bytes())?;
    Ok(())
}

/// Appends the line `SEARCH number`, which begins what a search says of the script's PLAN line of that number, from 1.
/// After `OutOfMemory` the text is as before.
pub fn write_search_heading(number: u64, text: &mut Vec<u8>) -> Result<(), OutOfMemory>
    ensures appended { OnOk result (text.new.items ≡ text.old.items ++ search_heading number) }
    ensures kept { OnErr result (text.new.items ≡ text.old.items) }
{
    let line = format!(in *text.allocator(); "SEARCH {number}\n")?;
    text.extend_from_slice(line.as_bytes())?;
    Ok(())
}

/// Appends the line `BEST number`, which begins the best plans of the script's PLAN line of that number, from 1. After
/// `OutOfMemory` the text is as before.
pub fn write_best_heading(number: u64, text: &mut Vec<u8>) -> Result<(), OutOfMemory>
    ensures appended { OnOk result (text.new.items ≡ text.old.items ++ best_heading number) }
    ensures kept { OnErr result (text.new.items ≡ text.old.items) }
{
    let line = format!(in *text.allocator(); "BEST {number}\n")?;
    text.extend_from_slice(line.as_bytes())?;
    Ok(())
}

/// Appends the line `KEYS keys`: how many distinct pairs of a year system and a configuration the script
/// demanded. After `OutOfMemory` the text is as before.
pub fn write_keys(keys: u64, text: &mut Vec<u8>) -> Result<(), OutOfMemory>
    ensures appended { OnOk result (text.new.items ≡ text.old.items ++ keys_line keys) }
    ensures kept { OnErr result (text.new.items ≡ text.old.items) }
{
    let line = format!(in *text.allocator(); "KEYS {keys}\n")?;
    text.extend_from_slice(line.as_bytes())?;
    Ok(())
}

/// The word of a kind of line fault.
fn kind_word(kind: LineKind) -> &'static str
    ensures { result.now ≡ kind_word kind }
{
    match kind {
        LineKind::NoEnd => "NOEND",
        LineKind::ManyLines => "MANYLINES",
        LineKind::Long => "LONG",
        LineKind::Byte => "BYTE",
        LineKind::Word => "WORD",
        LineKind::Count => "COUNT",
        LineKind::Number => "NUMBER",
        LineKind::Range => "RANGE",
        LineKind::Many => "MANY",
    }
}

/// Appends the line `MALFORMED line KIND column`, both counted from 1. After `OutOfMemory` the text is as
/// before.
pub fn write_malformed(line: u64, fault: &LineFault, text: &mut Vec<u8>) -> Result<(), OutOfMemory>
    ensures appended { OnOk result (text.new.items ≡ text.old.items ++ malformed_line line fault.now) }
    ensures kept { OnErr result (text.new.items ≡ text.old.items) }
{
    let kind = kind_word(fault.kind);
    let column = fault.column;
    let line = format!(in *text.allocator(); "MALFORMED {line} {kind} {column}\n")?;
    text.extend_from_slice(line.as_bytes())?;
    Ok(())
}
