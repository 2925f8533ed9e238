//! An open CHECK.
ghost use Rattle.std.specs.Prelude.{◌≡◌, ◌≤◌, ◌++◌, ◌∷◌, [], OnErr, OnOk};
ghost use Rattle.deck_lines.specs.Grammar.{IsCertLine};
ghost use Rattle.deck_tellings.specs.Checks.{IsOpen};

use deck_lines::CertLine;
use std::alloc::Global;
use std::marker::Model;
use wasp_fixed::OutOfMemory;

/// A CHECK whose ENDCHECK has not come yet: its case, 1 to 8, and the lines of its certificate so far.
#[derive(Debug, Drop)]
pub struct OpenCheck {
    case: u64,
    certificate: Vec<CertLine>,
}

impl Model for OpenCheck {
    ghost use Rattle.deck_tellings.specs.Checks.{IsOpen, Open};

    ghost Value = { Open };

    ghost view = { λ o. record { case = o.case; certificate = o.certificate.items } };

    ghost invariant = { λ o. IsOpen (record { case = o.case; certificate = o.certificate.items }) };
}

impl OpenCheck {
    /// A CHECK of a case, without a line yet. It takes no memory.
    pub fn new(alloc: Global, case: u64) -> OpenCheck
        requires first { 1 ≤ case }
        requires last { case ≤ 8 }
        ensures { result ≡ record { case = case; certificate = [] } }
    {
        OpenCheck {
            case,
            certificate: Vec::new(alloc),
        }
    }

    /// Adds a line of the certificate. An `Err` leaves the lines as they were.
    pub fn push(&mut self, line: CertLine) -> Result<(), OutOfMemory>
        requires { IsCertLine line }
        ensures ok { OnOk result (self.new ≡ record self.old { certificate = self.old.certificate ++ line ∷ [] }) }
        ensures err { OnErr result (self.new ≡ self.old) }
    {
        self.certificate.push(line)?;
        Ok(())
    }

    /// The number of the case.
    pub fn case(&self) -> u64
        ensures value { result ≡ self.now.case }
        ensures valid { IsOpen self.now }
    {
        self.case
    }

    /// The lines of the certificate.
    pub fn lines(&self) -> &[CertLine]
        ensures value { result.now ≡ self.now.certificate }
        ensures valid { IsOpen self.now }
    {
        self.certificate.as_slice()
    }
}
