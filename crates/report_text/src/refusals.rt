//! Refusals of a PLAN.
ghost use Rattle.std.specs.Prelude.{◌≡◌, ◌++◌, OnOk, OnErr};
ghost use Rattle.report_text.specs.Refusals.{fault_of, name_of, refusal_line};

use deck_check::DeckFault;
use wasp_fixed::OutOfMemory;

/// Why a PLAN is refused.
#[derive(Clone, Copy, Debug, PartialEq, Eq)]
pub enum Refusal {
    /// The deck meets a row of the fault table.
    Deck(DeckFault),
    /// The tunnel of a case in a year holds more than 1,000,000 configurations: `number`.
    Wide { case: u64, year: u64, number: u64 },
    /// More than 500 configurations of a case in a year keep the margins: `number`.
    Many { case: u64, year: u64, number: u64 },
}

impl Refusal {
    /// Its number with its three numbers.
    fn fault(&self) -> DeckFault
        ensures { result ≡ fault_of self.now }
    {
        match *self {
            Refusal::Deck(fault) => fault,
            Refusal::Wide { case, year, number } => DeckFault {
                number: 25,
                a: case,
                b: year,
                c: number,
            },
            Refusal::Many { case, year, number } => DeckFault {
                number: 26,
                a: case,
                b: year,
                c: number,
            },
        }
    }
}

/// The name of a refusal by its number, empty where there is none.
fn name_of(number: u64) -> &'static str
    ensures { result.now ≡ name_of number }
{
    match number {
        1 => "NOYEARS",
        2 => "NOPERIODS",
        3 => "NORATE",
        4 => "NOENS",
        5 => "NOCANDIDATE",
        6 => "NOLOAD",
        7 => "LOADCOUNT",
        8 => "NOSHAPE",
        9 => "SHAPEFORM",
        10 => "NOFUEL",
        11 => "BLOCKS",
        12 => "NOPLANT",
        13 => "NEGATIVE",
        14 => "WEIGHTS",
        15 => "NOGROUP",
        16 => "NOPROJECT",
        17 => "NOWATER",
        18 => "WATERCOUNT",
        19 => "UNITS",
        20 => "POWER",
        21 => "CODES",
        22 => "NOCASE",
        23 => "TUNNELCOUNT",
        24 => "TUNNELHIGH",
        25 => "TOOWIDE",
        26 => "TOOMANY",
        27 => "OLDFORM",
        28 => "STEPUNIT",
        29 => "STEPWATER",
        _ => "",
    }
}

/// Appends the line `REFUSED number NAME a b c`. After `OutOfMemory` the text is as before.
pub fn write_refusal(refusal: &Refusal, text: &mut Vec<u8>) -> Result<(), OutOfMemory>
    ensures appended { OnOk result (text.new.items ≡ text.old.items ++ refusal_line refusal.now) }
    ensures kept { OnErr result (text.new.items ≡ text.old.items) }
{
    let DeckFault { number, a, b, c } = refusal.fault();
    let name = name_of(number);
    let line = format!(in *text.allocator(); "REFUSED {number} {name} {a} {b} {c}\n")?;
    text.extend_from_slice(line.as_bytes())?;
    Ok(())
}
