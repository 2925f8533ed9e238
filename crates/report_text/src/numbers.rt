//! Words that lines are made of.
ghost use Rattle.std.specs.Prelude.{◌≡◌, ◌++◌, OnOk, codes, decimal};
ghost use Rattle.report_text.specs.Lines.{number_words, spaced};

use plant_data::Config;
use wasp_fixed::OutOfMemory;

/// Appends a number behind a space.
fn push_number(number: u64, lines: &mut Vec<u8>) -> Result<(), OutOfMemory>
    ensures { OnOk result (lines.new.items ≡ lines.old.items ++ (codes " " ++ decimal number)) }
{
    let word = format!(in *lines.allocator(); " {number}")?;
    lines.extend_from_slice(word.as_bytes())?;
    Ok(())
}

/// Appends numbers, each behind a space.
pub(crate) fn push_numbers(numbers: &[u64], lines: &mut Vec<u8>) -> Result<(), OutOfMemory>
    ensures { OnOk result (lines.new.items ≡ lines.old.items ++ spaced (number_words numbers.now)) }
{
    for number in numbers {
        push_number(*number, lines)?;
    }
    Ok(())
}

/// Appends the counts of a configuration, each behind a space.
pub(crate) fn push_counts(config: &Config, lines: &mut Vec<u8>) -> Result<(), OutOfMemory>
    ensures { OnOk result (lines.new.items ≡ lines.old.items ++ spaced (number_words config.now)) }
{
    for k in 0..config.width() {
        push_number(config.get(k), lines)?;
    }
    Ok(())
}
